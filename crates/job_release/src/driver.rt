//! The driver: it goes from one moment at which something is to be done to the next one.
ghost use Rattle.std.specs.Prelude.{◌≡◌, ◌<◌, ◌≤◌, ◌+◌, ℕ, is_some, IfOk, OnOk, length, All};
ghost use Rattle.strong_apa.specs.State.{IsState, task_count, is_linked};
ghost use Rattle.job_release.specs.Moves.{place_of};
ghost use Rattle.job_release.specs.Scheduler.{IsNewFor};
ghost use Rattle.job_release.specs.Driving.{AreFresh, DriverBegins, Drives, IsAt, IsEarlier, IsNextMoment, JobRowsRun, RunFits, job_row_at, grown, settled, supplied};
ghost use Rattle.job_release.specs.declared.row.JobRow.{JobRow};

use crate::input::JobInput;
use crate::row::JobRow;
use crate::scheduler::JobScheduler;
use affinity_mask::OutOfMemory;
use link_table::Links;
use std::alloc::Global;
use text_fields::limits::MAX_UNITS;

/// The scheduler that runs the jobs, and the row of each task, at a moment.
#[derive(Drop)]
pub struct Driver<S: JobScheduler> {
    pub scheduler: S,
    pub rows: Vec<JobRow>,
    pub horizon: u32,
    pub moment: u32,
}

impl<S: JobScheduler> Driver<S> {
    /// At moment 0, before anything has happened.
    pub fn new(alloc: Global, input: &JobInput, scheduler: S) -> Result<Driver<S>, OutOfMemory>
        requires { IsNewFor input.now.set (S.seen scheduler) }
        ensures { IfOk result (DriverBegins S.seen input.now) }
    {
        let _valid = scheduler.links();
        let rows = fresh_rows(alloc, input)?;
        Ok(Driver {
            scheduler,
            rows,
            horizon: input.horizon(),
            moment: 0,
        })
    }

    /// Goes on to the next moment at which something is to be done.
    pub fn step(&mut self) -> Result<(), OutOfMemory>
        requires driving { IsAt S.seen self.old self.old (settled self.old.moment) }
        requires before { self.old.moment < self.old.horizon }
        ensures later { OnOk result (self.old.moment < self.new.moment) }
        ensures settled { OnOk result (IsAt S.seen self.old self.new (settled self.new.moment)) }
    {
        self.release()?;
        let next = self.next_moment();
        self.tick(next)?;
        self.settle()
    }

    /// Finishes the jobs that have their cost. A task departs where no released job of it is left.
    pub fn settle(&mut self) -> Result<(), OutOfMemory>
        requires { IsAt S.seen self.old self.old (grown self.old.moment) }
        ensures same { self.new.moment ≡ self.old.moment }
        ensures settled { OnOk result (IsAt S.seen self.old self.new (settled self.old.moment)) }
    {
        for t in 0..self.scheduler.links().len() {
            self.settle_row(t)?;
        }
        Ok(())
    }

    /// Finishes the job of a task that has its cost.
    fn settle_row(&mut self, t: u32) -> Result<(), OutOfMemory>
        requires driving { Drives S.seen self.old self.old t (settled self.old.moment)
            (grown self.old.moment) }
        requires within { t < length self.old.rows.items }
        ensures same { self.new.moment ≡ self.old.moment }
        ensures settled { OnOk result (Drives S.seen self.old self.new (t + 1)
            (settled self.old.moment) (grown self.old.moment)) }
    {
        let row = &mut self.rows[t as usize];
        if !row.has_cost() {
            return Ok(());
        }
        row.finish(self.moment)?;
        if !self.rows[t as usize].has_work() {
            self.scheduler.depart(t)?;
        }
        Ok(())
    }

    /// Releases the jobs that begin at the moment. A task arrives where it had no job left.
    pub fn release(&mut self) -> Result<(), OutOfMemory>
        requires driving { IsAt S.seen self.old self.old (settled self.old.moment) }
        requires before { self.old.moment < self.old.horizon }
        ensures same { self.new.moment ≡ self.old.moment }
        ensures supplied { OnOk result (IsAt S.seen self.old self.new
            (supplied self.old.moment)) }
    {
        for t in 0..self.scheduler.links().len() {
            self.release_row(t)?;
        }
        Ok(())
    }

    /// Releases the jobs of a task that begin at the moment.
    fn release_row(&mut self, t: u32) -> Result<(), OutOfMemory>
        requires driving { Drives S.seen self.old self.old t (supplied self.old.moment)
            (settled self.old.moment) }
        requires before { self.old.moment < self.old.horizon }
        requires within { t < length self.old.rows.items }
        ensures same { self.new.moment ≡ self.old.moment }
        ensures supplied { OnOk result (Drives S.seen self.old self.new (t + 1)
            (supplied self.old.moment) (settled self.old.moment)) }
    {
        let row = &mut self.rows[t as usize];
        let was_absent = !row.has_work();
        row.release(self.moment);
        if was_absent && self.rows[t as usize].has_work() {
            self.scheduler.arrive(t)?;
        }
        Ok(())
    }

    /// The next moment at which something is to be done: a release, the end of a running job, or the horizon. Where that is
    /// further than a tick of the texts goes, it is the moment to which one goes.
    pub fn next_moment(&self) -> u32
        requires driving { IsAt S.seen self.now self.now (supplied self.now.moment) }
        requires before { self.now.moment < self.now.horizon }
        ensures { IsNextMoment (S.seen self.now.scheduler).now self.now.rows.items
            self.now.horizon self.now.moment result }
    {
        let mut next = self.horizon.min(self.moment + MAX_UNITS as u32);
        for t in 0..self.scheduler.links().len() {
            next = self.not_after(t, next);
        }
        next
    }

    /// The earlier of this moment and the next one at which something is to be done for a task.
    fn not_after(&self, t: u32, next: u32) -> u32
        requires driving { IsAt S.seen self.now self.now (supplied self.now.moment) }
        requires within { t < length self.now.rows.items }
        requires later { self.now.moment < next }
        ensures { (d : JobRow) → IsEarlier (S.seen self.now.scheduler).now self.now.moment next t
            (job_row_at self.now.rows.items t d) result }
    {
        let row = &self.rows[t as usize];
        let next = match row.next_release() {
            Some(release) => next.min(release),
            None => next,
        };
        if self.scheduler.links().of(t).is_none() {
            return next;
        }
        let finish = self.moment as u64 + (row.goal() - row.service);
        finish.min(next as u64) as u32
    }

    /// Lets the time pass up to the next moment.
    pub fn tick(&mut self, next: u32) -> Result<(), OutOfMemory>
        requires driving { IsAt S.seen self.old self.old (supplied self.old.moment) }
        requires next { IsNextMoment (S.seen self.old.scheduler).now self.old.rows.items
            self.old.horizon self.old.moment next }
        ensures moment { self.new.moment ≡ next }
        ensures grown { OnOk result (IsAt S.seen self.old self.new (grown next)) }
    {
        let units = next - self.moment;
        self.moment = next;
        self.scheduler.pass(units)?;
        run_rows(self.scheduler.links(), &mut self.rows, units);
        Ok(())
    }
}

/// A row for each task.
fn fresh_rows(alloc: Global, input: &JobInput) -> Result<Vec<JobRow>, OutOfMemory>
    ensures { IfOk result (λ rows. AreFresh input.now.jobs (length input.now.jobs) rows.items) }
{
    let mut rows = Vec::new(alloc);
    for t in 0..input.set().len() {
        let row = JobRow::new(alloc, input.jobs(t))?;
        rows.push(row)?;
    }
    Ok(rows)
}

/// The processor to which a task is linked, if it is linked.
fn processor_of(links: &Links, t: u32) -> Option<u8>
    requires { t < task_count links.now }
    ensures place { result ≡ place_of links.now t }
    ensures linked { is_some result ≡ is_linked links.now t }
{
    links.of(t)
}

/// The linked tasks run these units.
fn run_rows(links: &Links, rows: &mut [JobRow], units: u32)
    requires one_each { length rows.old ≡ task_count links.now }
    requires fits { All (RunFits units) rows.old }
    ensures { JobRowsRun links.now units rows.old rows.new }
{
    for t in 0..links.len() {
        rows[t as usize].run(processor_of(links, t), units);
    }
}
