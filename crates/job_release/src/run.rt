//! Runs of the jobs of an input.
ghost use Rattle.std.specs.Prelude.{◌≡◌, ◌<◌, ◌≤◌, All, IfOk, MatchOption, length};
ghost use Rattle.task_set.specs.Event.{HasUnits};
ghost use Rattle.sched_core.specs.CoreData.{IsCore};
ghost use Rattle.job_release.specs.Jobs.{goal_of};
ghost use Rattle.job_release.specs.JobInput.{jobs_at};
ghost use Rattle.job_release.specs.JobRun.{CanBeWritten, IsJobRunOf, IsValidRun, IsDrivenOf};
ghost use Rattle.job_release.specs.Moments.{state_of_moment, IsFinish, IsUnfinished};
ghost use Rattle.job_release.specs.Moves.{moves_of_all};
ghost use Rattle.job_release.specs.Scheduler.{IsNewFor};

use crate::driver::Driver;
use crate::input::JobInput;
use crate::row::{JobRow, moves_in_all};
use crate::scheduler::JobScheduler;
use crate::strong::Strong;
use affinity_mask::OutOfMemory;
use sched_core::Core;
use std::alloc::Global;
use std::marker::Model;

/// What a scheduler made of the jobs of an input: the scheduler, and when each finished job ended.
#[derive(Drop)]
pub struct Driven<S: JobScheduler> {
    horizon: u32,
    rows: Vec<JobRow>,
    scheduler: S,
}

impl<S: JobScheduler> Model for Driven<S> {
    ghost use Rattle.job_release.specs.JobRun.{DrivenData};

    ghost Value = { DrivenData S };

    ghost use Rattle.job_release.specs.RunView.{driven_view, IsKept};

    ghost view = { driven_view };

    ghost invariant = { IsKept S.seen };
}

/// Releases the jobs of an input up to its horizon, and lets a scheduler run them. Refused only when out of memory.
pub fn drive<S: JobScheduler>(
    alloc: Global,
    input: &JobInput,
    scheduler: S,
) -> Result<Driven<S>, OutOfMemory>
    requires { IsNewFor input.now.set (S.seen scheduler) }
    ensures driven { IfOk result (IsDrivenOf S.seen input.now) }
    ensures units { IfOk result (λ driven. All HasUnits (S.seen driven.scheduler).events) }
{
    let _valid = input.set();
    let mut driver = Driver::new(alloc, input, scheduler)?;
    while driver.moment < driver.horizon {
        driver.step()?;
    }
    Ok(Driven::new(driver))
}

impl<S: JobScheduler> Driven<S> {
    ghost use Rattle.job_release.specs.Driving.{IsAt, settled, jobs_of};

    /// What a driver leaves at the horizon.
    fn new(driver: Driver<S>) -> Driven<S>
        requires at_end { IsAt S.seen driver driver (settled driver.moment) }
        requires whole { driver.moment ≡ driver.horizon }
        ensures { result ≡ record {
          horizon = driver.horizon;
          jobs = jobs_of driver.rows.items;
          scheduler = driver.scheduler;
        } }
    {
        let Driver {
            scheduler,
            rows,
            horizon,
            moment: _,
        } = driver;
        Driven {
            horizon,
            rows,
            scheduler,
        }
    }

    /// The scheduler, which ran the jobs up to the horizon.
    pub fn scheduler(&self) -> &S
        ensures { result.now ≡ self.now.scheduler }
    {
        &self.scheduler
    }

    /// The moment at which the jobs ended.
    pub fn horizon(&self) -> u32
        ensures { result ≡ self.now.horizon }
    {
        self.horizon
    }

    /// How often a task was linked to another processor than the one to which it was linked last.
    pub fn moves(&self) -> u64
        ensures { result ≡ moves_of_all (S.seen self.now.scheduler).states
            (length self.now.jobs) self.now.horizon }
    {
        moves_in_all(&self.rows)
    }

    /// When job k of a task is finished, if it is by the horizon. In a run of an input that is at least the cost after its
    /// release: [`finish_follows_release`](crate::laws::finish_follows_release).
    pub fn finish(&self, t: u32, k: u32) -> Option<u32>
        requires task { t < length self.now.jobs }
        requires job { k < length (jobs_at self.now.jobs t) }
        ensures { MatchOption result
            (IsUnfinished (S.seen self.now.scheduler).states t
            (goal_of (jobs_at self.now.jobs t) k) self.now.horizon)
            (IsFinish (S.seen self.now.scheduler).states t
            (goal_of (jobs_at self.now.jobs t) k) self.now.horizon) }
    {
        self.rows[t as usize].finishes.get(k as usize).copied()
    }
}

/// The history in which the strong scheduler ran the jobs of an input, and when each finished job ended.
#[derive(Drop)]
pub struct JobRun {
    driven: Driven<Strong>,
}

impl Model for JobRun {
    ghost use Rattle.job_release.specs.JobRun.{JobRunData};

    ghost Value = { JobRunData };

    ghost use Rattle.job_release.specs.RunView.{run_view};

    ghost view = { run_view };
}

/// Releases the jobs of an input up to its horizon, and lets the strong scheduler run them. Refused only when out of memory.
pub fn drive_jobs(alloc: Global, input: &JobInput) -> Result<JobRun, OutOfMemory>
    ensures run { IfOk result (IsJobRunOf input.now) }
    ensures writable { IfOk result (λ run. CanBeWritten run.core.history) }
{
    let strong = Strong::new(alloc, input.set())?;
    let driven = drive(alloc, input, strong)?;
    let _valid = driven.scheduler().core();
    Ok(JobRun { driven })
}

impl JobRun {
    /// What the strong scheduler made of the jobs, as of any scheduler.
    pub fn driven(&self) -> &Driven<Strong>
        ensures { result.now ≡ record {
          horizon = self.now.horizon;
          jobs = self.now.jobs;
          scheduler = self.now.core;
        } }
    {
        &self.driven
    }

    /// The core, with the history.
    pub fn core(&self) -> &Core
        ensures value { result.now ≡ self.now.core }
        ensures valid { IsValidRun self.now }
    {
        self.driven.scheduler().core()
    }

    /// When job k of a task is finished, if it is by the horizon. In a run of an input that is at least the cost after its
    /// release: [`finish_follows_release`](crate::laws::finish_follows_release).
    pub fn finish(&self, t: u32, k: u32) -> Option<u32>
        requires task { t < length self.now.jobs }
        requires job { k < length (jobs_at self.now.jobs t) }
        ensures { MatchOption result
            (IsUnfinished (state_of_moment self.now.core.start self.now.core.history) t
            (goal_of (jobs_at self.now.jobs t) k) self.now.horizon)
            (IsFinish (state_of_moment self.now.core.start self.now.core.history) t
            (goal_of (jobs_at self.now.jobs t) k) self.now.horizon) }
    {
        self.driven.finish(t, k)
    }
}
