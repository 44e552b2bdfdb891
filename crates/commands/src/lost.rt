//! From the bytes of a trace of the Linux scheduler to what its tasks lost.
ghost use Rattle.std.specs.Prelude.{◌≡◌, ◌+◌, ◌<◌, ◌^◌, length, IfOk, IfSome};
ghost use Rattle.trace_passages.specs.Passages.{ArePassages};
ghost use Rattle.commands.specs.Answers.{Answers};
ghost use Rattle.commands.specs.Lost.{loss_row, told_row, told_rows, AreNumbered, IsLossText, IsLossOf, AcceptsTaskTrace, RefusesTaskTrace};

use crate::import::status_of;
use crate::lost_chain::lost_chain;
use crate::lost_threads::lost_threads;
use crate::status::Status;
use affinity_mask::OutOfMemory;
use kernel_trace::{LossEnd, LossRow, TaskTrace, read_task_trace, write_losses};
use std::alloc::{AllocError, Global};
use trace_losses::{Loss, losses_of};

/// The text of what each task of a trace lost, or the status that says why there is none.
pub fn lost_text(alloc: Global, bytes: &[u8]) -> Result<Vec<u8>, Status>
    ensures { Answers (IsLossOf bytes.now) (AcceptsTaskTrace bytes.now)
        (RefusesTaskTrace bytes.now) result }
{
    let trace = match read_task_trace(alloc, bytes) {
        Ok(trace) => trace,
        Err(fault) => return Err(status_of(fault)),
    };
    let text = text_of(alloc, &trace)?;
    Ok(text)
}

/// The text of what each task of a trace lost.
fn text_of(alloc: Global, trace: &TaskTrace) -> Result<Vec<u8>, OutOfMemory>
    requires { ArePassages (length trace.now.set.tasks)
        (length trace.now.set.tasks + length trace.now.unlisted) trace.now.passages }
    ensures { IfOk result (λ text. IsLossText trace.now text.items) }
{
    let tasks = trace.set().len();
    let threads = tasks + trace.unlisted();
    let found = losses_of(alloc, trace.set(), threads, trace.passages())?;
    let rows = rows_of(alloc, trace, &found.losses)?;
    let end = LossEnd {
        chain: lost_chain(alloc, trace, threads, &found.losses)?,
        unlisted: trace.unlisted(),
        threads: lost_threads(alloc, trace, &found.beside)?,
        jumps: found.jumps,
    };
    write_losses(alloc, trace.set(), trace.clock(), found.span, &rows, &end)
}

/// What is told of each task: a row, by what it lost, where the trace mentions it.
fn rows_of(
    alloc: Global,
    trace: &TaskTrace,
    losses: &[Loss],
) -> Result<Vec<Option<LossRow>>, AllocError>
    requires tasks { length losses.now < 2 ^ 32 }
    requires rivals { AreNumbered losses.now }
    ensures { IfOk result (λ rows. rows.items ≡ told_rows trace.now.mentioned 0 losses.now) }
{
    let mut rows = Vec::new(alloc);
    for t in 0..losses.len() {
        rows.push(told_row(trace.is_mentioned(t as u32), losses[t]))?;
    }
    Ok(rows)
}

/// What is told of a task: the row of what it lost, where the trace mentions it.
fn told_row(mentioned: bool, loss: Loss) -> Option<LossRow>
    requires { IfSome loss.rival (λ t. t < 2 ^ 32) }
    ensures { result ≡ told_row mentioned loss }
{
    if mentioned { Some(row_of(loss)) } else { None }
}

/// The row of a task, by what it lost.
fn row_of(loss: Loss) -> LossRow
    requires { IfSome loss.rival (λ t. t < 2 ^ 32) }
    ensures { result ≡ loss_row loss }
{
    LossRow {
        ready: loss.ready,
        ran: loss.served,
        lost: loss.lost,
        over: loss.over,
        longest: loss.longest.count,
        first: loss.longest.first,
        rival: match loss.rival {
            Some(task) => Some(task as u32),
            None => None,
        },
    }
}
