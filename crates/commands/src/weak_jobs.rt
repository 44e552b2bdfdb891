//! From the bytes of an input to those that compare its jobs under both schedulers.
ghost use Rattle.commands.specs.Answers.{Answers};
ghost use Rattle.commands.specs.JobsRun.{AcceptsJobs, RefusesJobs};
ghost use Rattle.commands.specs.WeakJobs.{IsWeakJobsOf};

use crate::jobs::status_of;
use crate::status::Status;
use job_release::{compare_jobs, read_jobs};
use std::alloc::Global;

/// The text that compares the jobs of the input that these bytes are under both schedulers, or the status that says why there is
/// none.
pub fn weak_jobs_text(alloc: Global, bytes: &[u8]) -> Result<Vec<u8>, Status>
    ensures { Answers (IsWeakJobsOf bytes.now) (AcceptsJobs bytes.now) (RefusesJobs bytes.now)
        result }
{
    let input = match read_jobs(alloc, bytes) {
        Ok(input) => input,
        Err(fault) => return Err(status_of(fault)),
    };
    let text = compare_jobs(alloc, &input)?;
    Ok(text)
}
