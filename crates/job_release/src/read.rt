//! The reader of texts of jobs.
ghost use Rattle.std.specs.Prelude.{◌≡◌, ◌⊎◌, ℕ, IfOk, IfErr, MatchResult};
ghost use Rattle.job_release.specs.JobInput.{JobInputData};
ghost use Rattle.job_release.specs.JobText.{IsJobText, IsJobRefused};
ghost use Rattle.job_release.specs.Reading.{IsOutOfMemory};
ghost use Rattle.job_release.specs.declared.fault.JobKind.{JobKind};

use crate::fault::{JobFault, JobKind};
use crate::input::JobInput;
use crate::stage::Stage;
use std::alloc::Global;
use text_fields::{LineFault, read_lines};

#[tactic(auto, using(crate::proofs::Decided::job_machine))]
/// The input of a text, or the first line that has a fault, with its kind. `OutOfMemory` may come in place of either.
pub fn read_jobs(alloc: Global, bytes: &[u8]) -> Result<JobInput, JobFault>
    ensures input { IfOk result (IsJobText bytes.now) }
    ensures refused { IfErr result (λ fault. IsOutOfMemory fault.kind
        ⊎ IsJobRefused bytes.now fault.line fault.kind) }

    // Only `OutOfMemory` comes in place of the expected answer.
    ensures accepts { (input : JobInputData) → IsJobText bytes.now input
        → MatchResult result (λ found. found ≡ input) (λ fault. IsOutOfMemory fault.kind) }
    ensures refuses { (line : ℕ) (kind : JobKind) → IsJobRefused bytes.now line kind
        → MatchResult result (λ input. ⊥)
        (λ fault. IsOutOfMemory fault.kind ⊎ ((fault.line ≡ line) × (fault.kind ≡ kind))) }
{
    match read_lines(alloc, Stage::HeaderExpected, bytes) {
        Ok(input) => Ok(input),
        Err(LineFault { line, kind }) => Err(JobFault { line, kind }),
    }
}
