//! From the bytes of an input to those of the finishes and responses.
ghost use Rattle.std.specs.Prelude.{◌≡◌, IfOk};
ghost use Rattle.commands.specs.Answers.{Answers};
ghost use Rattle.commands.specs.JobsRun.{AcceptsJobs, IsJobsOf, IsTextOfRun, RefusesJobs, status_of_jobs_fault};

use crate::status::Status;
use affinity_mask::OutOfMemory;
use job_release::{JobFault, JobInput, drive_jobs, read_jobs, write_jobs};
use std::alloc::Global;

/// The finishes and responses of the jobs of the input that these bytes are, or the status that says why there are none.
pub fn jobs_text(alloc: Global, bytes: &[u8]) -> Result<Vec<u8>, Status>
    ensures { Answers (IsJobsOf bytes.now) (AcceptsJobs bytes.now) (RefusesJobs bytes.now)
        result }
{
    let input = match read_jobs(alloc, bytes) {
        Ok(input) => input,
        Err(fault) => return Err(status_of(fault)),
    };
    let text = text_of(alloc, &input)?;
    Ok(text)
}

/// The finishes and responses of the jobs of an input. Refused only where memory runs out.
fn text_of(alloc: Global, input: &JobInput) -> Result<Vec<u8>, OutOfMemory>
    ensures { IfOk result (λ text. IsTextOfRun input.now text.items) }
{
    let run = drive_jobs(alloc, input)?;
    let text = write_jobs(alloc, input, &run)?;
    Ok(text)
}

/// The status of a fault of the text.
pub(crate) fn status_of(fault: JobFault) -> Status
    ensures { result ≡ status_of_jobs_fault fault }
{
    match fault.kind.number() {
        Some(kind) => Status::Input {
            line: fault.line,
            kind,
        },
        None => Status::OutOfMemory,
    }
}
