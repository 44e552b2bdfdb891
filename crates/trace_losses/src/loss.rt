//! What each task of a trace lost.
ghost use Rattle.std.specs.Prelude.{◌≡◌, ℕ, ◌<◌, ◌≤◌, ◌^◌, List, length, vec_len, IfOk};
ghost use Rattle.task_set.specs.TaskSet.{priorities};
ghost use Rattle.trace_losses.specs.Book.{IsBook, AreWithin, of_task};
ghost use Rattle.trace_losses.specs.Jumps.{AreJumps};
ghost use Rattle.trace_losses.specs.Losses.{IsRival, IsLoss, AreLossesOf, AreLosses};
ghost use Rattle.trace_losses.specs.Moments.{IsTally};
ghost use Rattle.trace_passages.specs.Passages.{ArePassages, span_of};
ghost use Rattle.trace_losses.specs.Tally.{IsWithin};
ghost use Rattle.trace_losses.specs.Watch.{AreWatches, IsWatchOf, longest_of, stretches_of};
ghost use Rattle.trace_losses.specs.declared.seen.Seen.{Seen};

use crate::backward::trail_of;
use crate::count::{counts_of, watches_of};
use crate::jumps::jumps_of;
use crate::tally::{Stretch, Tally};
use crate::watch::{StretchWatch, most};
use affinity_mask::OutOfMemory;
use std::alloc::{AllocError, Global};
use task_set::TaskSet;
use trace_passages::Passage;

/// At how many moments a task was ready, ran, and was lost, and the longest stretch of lost ones, the first of several.
#[derive(Clone, Copy)]
pub struct Loss {
    pub ready: u64,
    pub served: u64,
    pub lost: u64,

    /// At how many it was lost in a stretch of more than 50 moments.
    pub over: u64,
    pub longest: Stretch,

    /// The task that ran most in that stretch without being in the best set, if one did.
    pub rival: Option<usize>,
}

/// How many moments there were, what each task lost, and of each thread, at how many moments with a lost task it ran without being in
/// the best set. Those of the tasks come first; a thread that is no task is never in that set.
#[derive(Drop)]
pub struct Losses {
    pub span: u64,
    pub losses: Vec<Loss>,
    pub beside: Vec<u64>,

    /// How many switches of a processor are from another thread than the last switch of it went to.
    pub jumps: u64,
}

/// What each task lost in a trace of so many threads. The memory that it takes is some bytes for each passage, and for each two tasks.
/// Refused only where memory runs out.
pub fn losses_of(
    alloc: Global,
    set: &TaskSet,
    threads: u32,
    passages: &[Passage],
) -> Result<Losses, OutOfMemory>
    requires { ArePassages (length set.now.tasks) threads passages.now }
    ensures losses { IfOk result (λ found.
        AreLosses set.now threads passages.now found.span found.losses.items found.beside.items) }
    ensures jumps { IfOk result (λ found. AreJumps passages.now found.jumps) }
{
    let span = span_of(passages);
    let trail = trail_of(alloc, threads, passages)?;
    let counts = counts_of(alloc, set, threads, &trail, passages)?;
    let watches = watches_of(alloc, set, threads, &trail, passages, &counts.book.tallies)?;
    let priorities = priorities_of(alloc, set)?;
    let losses = losses_by(alloc, &counts.book.tallies, &watches, &priorities)?;
    Ok(Losses {
        span,
        losses,
        beside: counts.beside.counts,
        jumps: jumps_of(alloc, passages)?,
    })
}

/// The moment of the last passage.
pub(crate) fn span_of(passages: &[Passage]) -> u64
    ensures { result ≡ span_of passages.now }
{
    if passages.is_empty() {
        0
    } else {
        passages[passages.len() - 1].moment
    }
}

/// By task: its priority.
fn priorities_of(alloc: Global, set: &TaskSet) -> Result<Vec<u32>, AllocError>
    ensures { IfOk result (λ list. list.items ≡ priorities set.now) }
{
    let mut list = Vec::new(alloc);
    for t in 0..set.len() {
        list.push(set.priority(t))?;
    }
    Ok(list)
}

/// What each task lost, by the tallies, and by the watches of the longest stretches.
fn losses_by(
    alloc: Global,
    tallies: &[Tally],
    watches: &[StretchWatch],
    priorities: &[u32],
) -> Result<Vec<Loss>, AllocError>
    requires tasks { length tallies.now ≡ length priorities.now }
    requires kept { AreWithin tallies.now }
    requires stretches { stretches_of watches.now ≡ longest_of tallies.now }
    requires watches { (moments : List (List Seen)) × AreWatches (length priorities.now) moments watches.now }
    ensures { IfOk result (λ list. (moments : List (List Seen)) → IsBook moments tallies.now
        → AreWatches (length priorities.now) moments watches.now
        → AreLossesOf priorities.now moments list.items) }
{
    let mut list = Vec::new(alloc);
    for t in 0..priorities.len() {
        list.push(loss_of(tallies[t], &watches[t], priorities))?;
    }
    Ok(list)
}

/// What a task lost, by its tally, and by the watch of its longest stretch.
fn loss_of(tally: Tally, watch: &StretchWatch, priorities: &[u32]) -> Loss
    requires within { IsWithin tally }
    requires stretch { watch.now.stretch ≡ tally.longest }
    requires tasks { vec_len watch.now.counts ≡ length priorities.now }
    ensures { (moments : List (List Seen)) (t : ℕ) → IsTally (of_task t moments) tally
        → IsWatchOf (length priorities.now) moments watch.now → IsLoss priorities.now moments t result }
{
    Loss {
        ready: tally.ready,
        served: tally.served,
        lost: tally.lost,
        over: tally.over(),
        longest: tally.longest,
        rival: most(&watch.counts, priorities),
    }
}
