//! From the bytes of an input of jobs to those of the schedule in which the strong scheduler runs them.
ghost use Rattle.std.specs.Prelude.{◌≡◌, IfOk, length};
ghost use Rattle.text_fields.specs.LineText.{PrioritiesFit};
ghost use Rattle.commands.specs.Answers.{Answers};
ghost use Rattle.commands.specs.Checking.{HasFollowed};
ghost use Rattle.commands.specs.JobsRun.{AcceptsJobs, RefusesJobs};
ghost use Rattle.commands.specs.JobsSchedule.{IsJobsScheduleOf, IsScheduleOfJobs};
ghost use Rattle.commands.specs.ScheduleLaws.{IsWritableHistory};
ghost use Rattle.commands.specs.Valid.{IsTextOf, schedule_of};

use crate::jobs::status_of;
use crate::status::Status;
use affinity_mask::OutOfMemory;
use job_release::{JobInput, drive_jobs, read_jobs};
use reach_certificate::Checker;
use schedule_text::write_schedule;
use std::alloc::Global;
use strong_apa::Entry;
use task_set::{Context, TaskSet};
use text_fields::limits::FIRST_VERSION;

/// The schedule text of a run of the jobs of the input that these bytes are, or the status that says why there is none.
pub fn jobs_schedule_text(alloc: Global, bytes: &[u8]) -> Result<Vec<u8>, Status>
    ensures { Answers (IsJobsScheduleOf bytes.now) (AcceptsJobs bytes.now)
        (RefusesJobs bytes.now) result }
{
    let input = match read_jobs(alloc, bytes) {
        Ok(input) => input,
        Err(fault) => return Err(status_of(fault)),
    };
    let text = text_of(alloc, &input)?;
    Ok(text)
}

/// The schedule text of a run of the jobs of an input. Refused only where memory runs out.
fn text_of(alloc: Global, input: &JobInput) -> Result<Vec<u8>, OutOfMemory>
    ensures { IfOk result (λ text. IsScheduleOfJobs input.now text.items) }
{
    let run = drive_jobs(alloc, input)?;
    read_priorities(input.set());
    let text = text_of_history(alloc, input.set(), run.core().history())?;
    Ok(text)
}

/// Reads each priority. It fits the format, as it is a `u32`.
fn read_priorities(set: &TaskSet)
    ensures { PrioritiesFit set.now }
{
    for t in 0..set.len() {
        let _fits = set.priority(t);
    }
}

/// The text of the schedule of a history. Refused only where memory runs out.
fn text_of_history(alloc: Global, set: &TaskSet, history: &[Entry]) -> Result<Vec<u8>, OutOfMemory>
    requires { IsWritableHistory 1 set.now history.now }
    ensures { IfOk result (λ text. IsTextOf text.items (schedule_of 1 set.now history.now)) }
{
    let contexts = contexts_of(alloc, set, history)?;
    let text = write_schedule(alloc, FIRST_VERSION, set, history, &contexts)?;
    Ok(text)
}

/// The contexts that a history gives. Refused only where memory runs out.
fn contexts_of(alloc: Global, set: &TaskSet, history: &[Entry]) -> Result<Vec<Context>, OutOfMemory>
    requires { IsWritableHistory 1 set.now history.now }
    ensures { IfOk result (λ contexts. contexts.items
        ≡ (schedule_of 1 set.now history.now).contexts) }
{
    let checker = checker_after(alloc, set, history)?;
    let contexts = contexts_in(alloc, &checker)?;
    Ok(contexts)
}

/// A checker that accepted each entry of a history. Refused only where memory runs out.
fn checker_after(alloc: Global, set: &TaskSet, history: &[Entry]) -> Result<Checker, OutOfMemory>
    requires { IsWritableHistory 1 set.now history.now }
    ensures { IfOk result (HasFollowed (schedule_of 1 set.now history.now) (length history.now)) }
{
    let mut checker = Checker::new(alloc, set)?;
    for entry in history {
        match checker.accept(entry) {
            Ok(()) => {}
            Err(_) => unreachable!(),
        }
    }
    Ok(checker)
}

/// The contexts of a checker, by the numbers of the tasks. Refused only where memory runs out.
fn contexts_in(alloc: Global, checker: &Checker) -> Result<Vec<Context>, OutOfMemory>
    ensures { IfOk result (λ contexts. contexts.items ≡ checker.now.contexts) }
{
    let mut contexts = Vec::new(alloc);
    for t in 0..checker.links().len() {
        contexts.push(*checker.context(t))?;
    }
    Ok(contexts)
}
