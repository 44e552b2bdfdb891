//! The chain that was not taken for the longest of all longest stretches of lost moments.
ghost use Rattle.std.specs.Prelude.{◌≡◌, ◌+◌, ◌<◌, ◌^◌, length, map, IfOk, IfSome};
ghost use Rattle.trace_passages.specs.Passages.{ArePassages, span_of};
ghost use Rattle.commands.specs.LostChain.{BeginWithin, IsChainRow, IsFoundLost, IsLostChain, longest_count, step_row};

use affinity_mask::OutOfMemory;
use kernel_trace::{ChainRow, StepRow, TaskTrace};
use std::alloc::{AllocError, Global};
use trace_losses::{ChainStep, Loss, Stretch, chain_at};

/// The chain that was not taken for the longest stretch of lost moments of a trace of so many threads, by what each task lost.
pub(crate) fn lost_chain(
    alloc: Global,
    trace: &TaskTrace,
    threads: u32,
    losses: &[Loss],
) -> Result<ChainRow, OutOfMemory>
    requires few { length losses.now < 2 ^ 32 }
    requires passages { ArePassages (length trace.now.set.tasks) threads trace.now.passages }
    requires tasks { length losses.now ≡ length trace.now.set.tasks }
    requires within { BeginWithin (span_of trace.now.passages) losses.now }
    ensures { IfOk result (λ row. IsLostChain trace.now.set trace.now.passages losses.now row.count
        row.first row.steps.items) }
{
    match longest_of(losses) {
        Some(task) => chain_of(alloc, trace, threads, task, losses[task as usize].longest),
        None => Ok(ChainRow {
            count: 0,
            first: 0,
            steps: Vec::new(alloc),
        }),
    }
}

/// The task with the longest stretch, the first of several; none where no task was lost.
fn longest_of(losses: &[Loss]) -> Option<u32>
    requires { length losses.now < 2 ^ 32 }
    ensures { IsFoundLost losses.now (length losses.now) result }
{
    let mut found = None;
    for t in 0..losses.len() {
        found = longer_of(losses, found, t as u32);
    }
    found
}

/// A task, if its stretch is longer than that of the one that was found before it.
fn longer_of(losses: &[Loss], found: Option<u32>, t: u32) -> Option<u32>
    requires task { t < length losses.now }
    requires found { IsFoundLost losses.now t found }
    ensures { IsFoundLost losses.now (t + 1) result }
{
    if longest_count(losses, found) < losses[t as usize].longest.count {
        Some(t)
    } else {
        found
    }
}

/// How many moments the longest stretch of a task has.
fn longest_count(losses: &[Loss], found: Option<u32>) -> u64
    requires { IfSome found (λ t. t < length losses.now) }
    ensures { result ≡ longest_count losses.now found }
{
    match found {
        Some(t) => losses[t as usize].longest.count,
        None => 0,
    }
}

/// The row of the chain for a task at the first moment of a stretch.
fn chain_of(
    alloc: Global,
    trace: &TaskTrace,
    threads: u32,
    task: u32,
    stretch: Stretch,
) -> Result<ChainRow, OutOfMemory>
    requires passages { ArePassages (length trace.now.set.tasks) threads trace.now.passages }
    requires number { task < length trace.now.set.tasks }
    requires within { stretch.first < span_of trace.now.passages }
    ensures { IfOk result (λ row. IsChainRow trace.now.set trace.now.passages task stretch row.count
        row.first row.steps.items) }
{
    let chain = chain_at(
        alloc,
        trace.set(),
        threads,
        trace.passages(),
        task,
        stretch.first,
    )?;
    let steps = step_rows(alloc, &chain)?;
    Ok(ChainRow {
        count: stretch.count,
        first: stretch.first,
        steps,
    })
}

/// What is told of the steps of a chain.
fn step_rows(alloc: Global, chain: &[ChainStep]) -> Result<Vec<StepRow>, AllocError>
    ensures { IfOk result (λ rows. rows.items ≡ map step_row chain.now) }
{
    let mut rows = Vec::new(alloc);
    for i in 0..chain.len() {
        rows.push(StepRow {
            task: chain[i].task,
            processor: chain[i].processor,
        })?;
    }
    Ok(rows)
}
