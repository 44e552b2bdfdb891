//! The jobs of a task while they are driven.
ghost use Rattle.std.specs.Prelude.{◌≡◌, ◌<◌, ◌≤◌, ◌+◌, ◌^◌, ◌↔◌, IsTrue, Some, IfOk, OnOk, MatchOption, is_some, length, sum_by};
ghost use Rattle.job_release.specs.Jobs.{job_at, goal_of};
ghost use Rattle.job_release.specs.Moves.{is_other_place};
ghost use Rattle.job_release.specs.Driving.{IsRow, IsFresh, done_of, HasWork, HasCost, BeginsAt, Releases, Finishes, JobRowRuns, RunFits, moves_in};

use crate::input::Job;
use affinity_mask::OutOfMemory;
use std::alloc::Global;

/// The jobs of a task so far.
#[derive(Drop)]
pub struct JobRow {
    pub jobs: Vec<Job>,

    /// How many jobs are released.
    pub released: usize,

    /// How many units the task ran.
    pub service: u64,

    /// How many units its finished jobs asked for.
    pub asked: u64,

    /// When each finished job ended.
    pub finishes: Vec<u32>,

    /// The processor to which the task was linked last.
    pub place: Option<u8>,

    /// How often the task was linked to another processor than last.
    pub moves: u32,
}

impl JobRow {
    /// No job is released yet.
    pub fn new(alloc: Global, jobs: &[Job]) -> Result<JobRow, OutOfMemory>
        ensures { IfOk result (IsFresh jobs.now) }
    {
        let mut copy = Vec::new(alloc);
        copy.extend_from_slice(jobs)?;
        Ok(JobRow {
            jobs: copy,
            released: 0,
            service: 0,
            asked: 0,
            finishes: Vec::new(alloc),
            place: None,
            moves: 0,
        })
    }

    /// When the next job is released, if there is one.
    pub fn next_release(&self) -> Option<u32>
        ensures { MatchOption result
            (length self.now.jobs.items ≤ self.now.released)
            (λ release. (self.now.released < length self.now.jobs.items)
            × (release ≡ (job_at self.now.jobs.items self.now.released).release)) }
    {
        let job = self.jobs.get(self.released)?;
        Some(job.release)
    }

    /// After how many units of service the first job that is not finished has its cost.
    pub fn goal(&self) -> u64
        requires sizes { IsRow self.now }
        requires work { HasWork self.now }
        ensures value { result ≡ goal_of self.now.jobs.items (done_of self.now) }
        ensures fits { result < 2 ^ 40 }
    {
        self.asked + self.jobs[self.finishes.len()].cost as u64
    }

    /// Whether a released job is not finished.
    pub fn has_work(&self) -> bool
        ensures { IsTrue result ↔ HasWork self.now }
    {
        self.finishes.len() < self.released
    }

    /// Whether the first job that is not finished was released, and has its cost.
    pub fn has_cost(&self) -> bool
        requires { IsRow self.now }
        ensures { IsTrue result ↔ HasCost self.now }
    {
        self.has_work() && self.service == self.goal()
    }

    /// Finishes the job that has its cost.
    pub fn finish(&mut self, moment: u32) -> Result<(), OutOfMemory>
        requires { HasCost self.old }
        ensures { OnOk result (Finishes moment self.old self.new) }
    {
        self.finishes.push(moment)?;
        self.asked = self.service;
        Ok(())
    }

    /// Runs the task for so many units, on a processor if it is linked to one.
    pub fn run(&mut self, place: Option<u8>, units: u32)
        requires { RunFits units self.old }
        ensures { JobRowRuns (is_some place) place units self.old self.new }
    {
        let Some(place) = place else {
            return;
        };
        if self.was_elsewhere(place) {
            self.moves += 1;
        }
        self.place = Some(place);
        self.service += units as u64;
    }

    /// Whether the task was linked to another processor last.
    fn was_elsewhere(&self, place: u8) -> bool
        ensures { result ≡ is_other_place self.now.place (Some place) }
    {
        match self.place {
            Some(last) => last != place,
            None => false,
        }
    }

    /// Whether the next job is released at this moment.
    fn begins_at(&self, moment: u32) -> bool
        ensures { IsTrue result ↔ BeginsAt moment self.now.jobs.items self.now.released }
    {
        match self.next_release() {
            Some(release) => release == moment,
            None => false,
        }
    }

    /// Releases the jobs that begin at this moment.
    pub fn release(&mut self, moment: u32)
        ensures { Releases moment self.old self.new }
    {
        while self.begins_at(moment) {
            self.released += 1;
        }
    }
}

/// How often the tasks of these rows moved.
pub fn moves_in_all(rows: &[JobRow]) -> u64
    requires { sum_by moves_in rows.now < 2 ^ 64 }
    ensures { result ≡ sum_by moves_in rows.now }
{
    let mut moves = 0;
    for row in rows {
        moves += row.moves as u64;
    }
    moves
}
