//! Inputs: tasks, a horizon, and the jobs of each task.
ghost use Rattle.std.specs.Prelude.{◌≡◌, ◌⊎◌, ◌<◌, ◌≤◌, ◌+◌, All, length, IfOk, IfErr, OnOk};
ghost use Rattle.job_release.specs.Jobs.{release_moment, released_before, periodic_jobs};
ghost use Rattle.job_release.specs.JobInput.{lists_of, total_jobs};
ghost use Rattle.task_set.specs.declared.fault.TaskFault.{TaskFault};

use affinity_mask::{OutOfMemory, ProcSet};
use std::alloc::Global;
use std::marker::Model;
use task_set::{TaskFault, TaskSet};

/// The most jobs that all tasks of an input have together.
pub const MAX_JOBS: u64 = 4_000;

/// The greatest horizon, offset, period and cost in a text of periodic tasks.
pub const MAX_PERIODIC_TIME: u64 = 1_000_000;

/// The greatest horizon, cost and deadline in a text of jobs one by one.
pub const MAX_TIME: u64 = 10_000_000;

/// A job of a task, in units of time.
#[derive(Clone, Copy, Debug, PartialEq, Eq)]
pub struct Job {
    /// When it is released.
    pub release: u32,
    /// How long it runs.
    pub cost: u32,
    /// How long after its release it is due. Where none is stated, it is due when the next job of its task is released.
    pub deadline: Option<u32>,
}

/// When the jobs of a periodic task are released, and what each of them asks for, in units of time.
#[derive(Clone, Copy, Debug, PartialEq, Eq)]
pub struct JobTask {
    /// When the first job is released.
    pub offset: u32,
    /// How long after a job the next one is released.
    pub period: u32,
    /// How long each job runs.
    pub cost: u32,
}

impl JobTask {
    /// When job k is released.
    pub fn release(&self, k: u32) -> u64
        ensures { result ≡ release_moment self.now k }
    {
        self.offset as u64 + k as u64 * self.period as u64
    }

    /// How many jobs are released before the horizon.
    pub fn count(&self, horizon: u32) -> u32
        requires { 1 ≤ self.now.period }
        ensures { result ≡ released_before self.now horizon }
    {
        if horizon <= self.offset {
            0
        } else {
            (horizon - self.offset - 1) / self.period + 1
        }
    }

    /// Its jobs that are released before the horizon. Each is due when the next one is released. Refused only when out of
    /// memory.
    pub fn jobs(&self, alloc: Global, horizon: u32) -> Result<Vec<Job>, OutOfMemory>
        requires { 1 ≤ self.now.period }
        ensures { IfOk result (λ jobs. jobs.items ≡ periodic_jobs horizon self.now) }
    {
        let mut jobs = Vec::new(alloc);
        for k in 0..self.count(horizon) {
            jobs.push(Job {
                release: self.release(k) as u32,
                cost: self.cost,
                deadline: Some(self.period),
            })?;
        }
        Ok(jobs)
    }
}

/// The tasks, in the order of their lines, the jobs of each, and the horizon before which they are released.
#[derive(Drop)]
pub struct JobInput {
    version: u8,
    set: TaskSet,
    horizon: u32,
    jobs: Vec<Vec<Job>>,
}

impl Model for JobInput {
    ghost use Rattle.job_release.specs.JobInput.{JobInputData, input_view, IsStored};

    ghost Value = { JobInputData };

    ghost view = { input_view };

    ghost invariant = { IsStored };
}

impl JobInput {
    ghost use Rattle.job_release.specs.JobInput.{AreJobs, IsJob, IsJobInput, jobs_at, with_jobs, with_job, last_release};
    ghost use Rattle.task_set.specs.Refusal.{new_task, CanAdd, IsRefusal};

    /// An input of these parts. The version is that of its text: 1 for periodic tasks, 2 for jobs one by one.
    pub fn new(version: u8, set: TaskSet, horizon: u32, jobs: Vec<Vec<Job>>) -> JobInput
        requires version { (1 ≤ version) × (version ≤ 2) }
        requires horizon { (1 ≤ horizon) × (horizon ≤ 10000000) }
        requires one_each { length jobs.items ≡ length set.tasks }
        requires each_jobs { All (AreJobs horizon) (lists_of jobs.items) }
        requires few { total_jobs (lists_of jobs.items) ≤ 4000 }
        ensures { result ≡ record {
          version = version;
          set = set;
          horizon = horizon;
          jobs = lists_of jobs.items;
        } }
    {
        let _valid = set.len();
        JobInput {
            version,
            set,
            horizon,
            jobs,
        }
    }

    /// The version of its text: 1 for periodic tasks, 2 for jobs one by one.
    pub fn version(&self) -> u8
        ensures value { result ≡ self.now.version }
        ensures valid { IsJobInput self.now }
    {
        self.version
    }

    /// The tasks.
    pub fn set(&self) -> &TaskSet
        ensures value { result.now ≡ self.now.set }
        ensures valid { IsJobInput self.now }
    {
        &self.set
    }

    /// The moment at which the jobs end.
    pub fn horizon(&self) -> u32
        ensures value { result ≡ self.now.horizon }
        ensures valid { IsJobInput self.now }
    {
        self.horizon
    }

    /// The jobs of a task, in the order of their releases.
    pub fn jobs(&self, t: u32) -> &[Job]
        requires { t < length self.now.set.tasks }
        ensures value { result.now ≡ jobs_at self.now.jobs t }
        ensures valid { IsJobInput self.now }
    {
        &self.jobs[t as usize]
    }

    /// How many jobs all tasks have.
    pub fn total(&self) -> u64
        ensures value { result ≡ total_jobs self.now.jobs }
        ensures valid { IsJobInput self.now }
    {
        count_jobs(&self.jobs)
    }

    /// Adds a task with its jobs. A refusal is that of the set.
    pub(crate) fn add_task(
        &mut self,
        name: &str,
        priority: u32,
        mask: ProcSet,
        jobs: Vec<Job>,
    ) -> Result<(), TaskFault>
        requires jobs { AreJobs self.old.horizon jobs.items }
        requires few { total_jobs self.old.jobs + length jobs.items ≤ 4000 }
        ensures allowed { OnOk result (CanAdd self.old.set (new_task name.now priority mask)) }
        ensures added { OnOk result
            (self.new ≡ with_jobs self.old (new_task name.now priority mask) jobs.items) }
        ensures refused { IfErr result (λ fault. (fault ≡ TaskFault.OutOfMemory)
            ⊎ IsRefusal self.old.set (new_task name.now priority mask) fault) }
    {
        if self.jobs.push(jobs).is_err() {
            return Err(TaskFault::OutOfMemory);
        }
        if let Err(fault) = self.set.add(name, priority, mask) {
            self.jobs.pop();
            return Err(fault);
        }
        Ok(())
    }

    /// Adds a job to a task, as its last one. Refused only when out of memory.
    pub(crate) fn add_job(&mut self, t: u32, job: Job) -> Result<(), OutOfMemory>
        requires task { t < length self.old.set.tasks }
        requires job { IsJob self.old.horizon job }
        requires order { last_release (jobs_at self.old.jobs t) ≤ job.release }
        requires room { total_jobs self.old.jobs < 4000 }
        ensures { OnOk result (self.new ≡ with_job self.old t job) }
    {
        self.jobs[t as usize].push(job)?;
        Ok(())
    }
}

/// How many jobs there are.
fn count_jobs(lists: &[Vec<Job>]) -> u64
    requires { total_jobs (lists_of lists.now) ≤ 4000 }
    ensures { result ≡ total_jobs (lists_of lists.now) }
{
    let mut total = 0;
    for jobs in lists {
        total += jobs.len() as u64;
    }
    total
}
