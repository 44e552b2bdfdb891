//! The jobs of an input, run by both schedulers.
ghost use Rattle.std.specs.Prelude.{IfOk};
ghost use Rattle.job_release.specs.Driven.{RunsJobs};
ghost use Rattle.job_release.specs.JobRun.{IsDrivenOf};
ghost use Rattle.job_release.specs.Strong.{strong_seen};
ghost use Rattle.job_release.specs.WeakServes.{IsWeakJobsTextOf};
ghost use Rattle.job_release.specs.WeakHistory.{weak_seen};

use crate::comparison::comparison_text;
use crate::input::JobInput;
use crate::run::{Driven, drive, drive_jobs};
use crate::strong::Strong;
use crate::weak_history::WeakHistory;
use affinity_mask::OutOfMemory;
use std::alloc::Global;

/// The text that compares what the weak and the strong scheduler make of the jobs of an input. Refused only when out of memory.
pub fn compare_jobs(alloc: Global, input: &JobInput) -> Result<Vec<u8>, OutOfMemory>
    ensures { IfOk result (λ text. IsWeakJobsTextOf input.now text.items) }
{
    let run = drive_jobs(alloc, input)?;
    let _valid = run.core();
    compare_with(alloc, input, run.driven())
}

/// The text of the jobs of an input, which the strong scheduler ran.
fn compare_with(
    alloc: Global,
    input: &JobInput,
    strong: &Driven<Strong>,
) -> Result<Vec<u8>, OutOfMemory>
    requires driven { IsDrivenOf strong_seen input.now strong.now }
    requires runs { RunsJobs input.now strong.now.scheduler.history }
    ensures { IfOk result (λ text. IsWeakJobsTextOf input.now text.items) }
{
    let scheduler = WeakHistory::new(alloc, input.set())?;
    let weak = drive(alloc, input, scheduler)?;
    compare_both(alloc, input, &weak, strong)
}

/// The text of the jobs of an input, which both schedulers ran.
fn compare_both(
    alloc: Global,
    input: &JobInput,
    weak: &Driven<WeakHistory>,
    strong: &Driven<Strong>,
) -> Result<Vec<u8>, OutOfMemory>
    requires weak { IsDrivenOf weak_seen input.now weak.now }
    requires strong { IsDrivenOf strong_seen input.now strong.now }
    requires runs { RunsJobs input.now strong.now.scheduler.history }
    ensures { IfOk result (λ text. IsWeakJobsTextOf input.now text.items) }
{
    let _valid = weak.scheduler().events();
    let text = comparison_text(alloc, input, weak, strong)?;
    Ok(text)
}
