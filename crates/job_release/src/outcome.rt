//! What became of a job under a scheduler.
ghost use Rattle.std.specs.Prelude.{◌≡◌, ℕ, ◌<◌, MatchOption, length};
ghost use Rattle.job_release.specs.Jobs.{due_of};
ghost use Rattle.job_release.specs.JobInput.{jobs_at};
ghost use Rattle.job_release.specs.Moments.{Timeline, IsFinish, IsUnfinished};
ghost use Rattle.job_release.specs.Figures.{IsOutcomeOfJob};
ghost use Rattle.job_release.specs.JobRun.{IsDrivenOf};
ghost use Rattle.job_release.specs.WeakJobsText.{is_late_at};

use crate::input::{Job, JobInput};
use crate::run::Driven;
use crate::scheduler::JobScheduler;

/// When a job is finished, if it is by the horizon, and whether it is late.
#[derive(Clone, Copy)]
pub struct Outcome {
    pub finish: Option<u32>,
    pub is_late: bool,
}

impl Outcome {
    /// What became of job k of a task.
    pub fn new<S: JobScheduler>(input: &JobInput, driven: &Driven<S>, t: u32, k: u32) -> Outcome
        requires driven { IsDrivenOf S.seen input.now driven.now }
        requires task { t < length input.now.set.tasks }
        requires job { k < length (jobs_at input.now.jobs t) }
        ensures { IsOutcomeOfJob input.now (S.seen driven.now.scheduler).states t k result }
    {
        let finish = driven.finish(t, k);
        let due = due(input.jobs(t), k);
        Outcome {
            finish,
            is_late: is_late(finish, due, input.horizon()),
        }
    }
}

/// When job k of these is due: its deadline after its release where one is stated, else when the next one is released.
fn due(jobs: &[Job], k: u32) -> Option<u64>
    requires { k < length jobs.now }
    ensures { result ≡ due_of jobs.now k }
{
    let job = jobs[k as usize];
    if let Some(deadline) = job.deadline {
        return Some(job.release as u64 + deadline as u64);
    }
    let next = jobs.get(k as usize + 1)?;
    Some(next.release as u64)
}

/// Whether a job that is due then is late: it is due up to the horizon, and not finished by then.
fn is_late(finish: Option<u32>, due: Option<u64>, horizon: u32) -> bool
    ensures { (states : Timeline) (t goal : ℕ) → MatchOption finish (IsUnfinished states t goal horizon)
        (IsFinish states t goal horizon) → result ≡ is_late_at states t goal horizon due }
{
    let Some(due) = due else {
        return false;
    };
    if due > horizon as u64 {
        return false;
    }
    match finish {
        Some(finish) => finish as u64 > due,
        None => true,
    }
}
