//! The counts of what is seen on walks over a trace.
ghost use Rattle.std.specs.Prelude.{◌≡◌, ℕ, ◌+◌, ◌<◌, ◌≤◌, ◌^◌, List, [], ◌++◌, length, replicate, vec_len, IfOk};
ghost use Rattle.trace_passages.specs.Passages.{ArePassages, moment_at, span_of};
ghost use Rattle.trace_losses.specs.Counts.{AreCountsOf, AreCountsAt, AreWatchesAt};
ghost use Rattle.trace_losses.specs.Walk.{IsTrail, IsWalkAt};
ghost use Rattle.trace_losses.specs.Watch.{AreWatches, longest_of, stretches_of};
ghost use Rattle.trace_losses.specs.declared.seen.Seen.{Seen};

use crate::backward::Trail;
use crate::beside::Beside;
use crate::book::Book;
use crate::former::Former;
use crate::loss::span_of;
use crate::seen::Seen;
use crate::tally::Tally;
use crate::walk::Walk;
use crate::watch::{StretchWatch, pass_all};
use affinity_mask::OutOfMemory;
use std::alloc::{AllocError, Global};
use task_set::TaskSet;
use trace_passages::Passage;

/// The numbers of all tasks, and who ran beside them.
#[derive(Drop)]
pub(crate) struct Counts {
    pub(crate) book: Book,
    pub(crate) beside: Beside,
}

/// The counts of no moment, of so many tasks and threads.
fn new_counts(alloc: Global, tasks: usize, threads: usize) -> Result<Counts, AllocError>
    ensures { IfOk result (AreCountsOf tasks threads []) }
{
    let book = Book::new(alloc, tasks)?;
    let beside = Beside::new(alloc, threads)?;
    Ok(Counts { book, beside })
}

/// The counts go on by so many equal moments, at which this holds of each thread.
fn pass_counts(counts: &mut Counts, units: u64, seen: &[Seen], tasks: usize)
    requires all { tasks ≤ length seen.now }
    requires are { (moments : List (List Seen)) × AreCountsOf tasks (length seen.now) moments counts.old
        × (length moments + units < 2 ^ 64) }
    ensures { (moments : List (List Seen)) → AreCountsOf tasks (length seen.now) moments counts.old
        → AreCountsOf tasks (length seen.now) (moments ++ replicate units seen.now) counts.new }
{
    if units > 0 {
        counts.book.pass(units, seen);
        counts.beside.pass(units, seen);
    }
}

/// The counts of a trace.
pub(crate) fn counts_of(
    alloc: Global,
    set: &TaskSet,
    threads: u32,
    trail: &Trail,
    passages: &[Passage],
) -> Result<Counts, OutOfMemory>
    requires passages { ArePassages (length set.now.tasks) threads passages.now }
    requires trail { IsTrail passages.now threads trail.now.first.processors.items
        trail.now.formers.items }
    ensures { IfOk result (AreCountsAt set.now threads passages.now (span_of passages.now)) }
{
    let mut counts = new_counts(alloc, set.len() as usize, threads as usize)?;
    let mut walk = Walk::new(alloc, set, trail)?;
    count_all(
        set,
        threads,
        &mut walk,
        &mut counts,
        passages,
        &trail.formers,
    );
    Ok(counts)
}

/// Counts what is seen from each passage to the next one.
fn count_all(
    set: &TaskSet,
    threads: u32,
    walk: &mut Walk,
    counts: &mut Counts,
    passages: &[Passage],
    formers: &[Former],
)
    requires passages { ArePassages (length set.now.tasks) threads passages.now }
    requires walk { IsWalkAt set.now passages.now threads 0 walk.old.core
        walk.old.runners.processors.items }
    requires seen { vec_len walk.old.seen ≡ threads }
    requires trail { IsTrail passages.now threads walk.old.runners.processors.items formers.now }
    requires counts { AreCountsOf (length set.now.tasks) threads [] counts.old }
    ensures { AreCountsAt set.now threads passages.now (span_of passages.now) counts.new }
{
    let tasks = set.len() as usize;
    let _span = span_of(passages);
    for i in 1..passages.len() {
        walk.step(passages[i - 1], formers[passages.len() - i]);
        let units = passages[i].moment - passages[i - 1].moment;
        pass_counts(counts, units, &walk.seen, tasks);
    }
}

/// The watches of the longest stretches of a trace's tallies.
pub(crate) fn watches_of(
    alloc: Global,
    set: &TaskSet,
    threads: u32,
    trail: &Trail,
    passages: &[Passage],
    tallies: &[Tally],
) -> Result<Vec<StretchWatch>, OutOfMemory>
    requires passages { ArePassages (length set.now.tasks) threads passages.now }
    requires trail { IsTrail passages.now threads trail.now.first.processors.items
        trail.now.formers.items }
    requires tasks { length tallies.now ≡ length set.now.tasks }
    ensures watches { IfOk result (λ watches.
        AreWatchesAt set.now threads passages.now (span_of passages.now) watches.items) }
    ensures stretches { IfOk result (λ watches.
        stretches_of watches.items ≡ longest_of tallies.now) }
{
    let _valid = set.len();
    let mut watches = new_watches(alloc, tallies)?;
    let mut walk = Walk::new(alloc, set, trail)?;
    watch_all(
        set,
        threads,
        &mut walk,
        &mut watches,
        passages,
        &trail.formers,
    );
    Ok(watches)
}

/// The watches of the longest stretches, of no moment.
fn new_watches(alloc: Global, tallies: &[Tally]) -> Result<Vec<StretchWatch>, AllocError>
    ensures watches { IfOk result (λ watches. AreWatches (length tallies.now) [] watches.items) }
    ensures stretches { IfOk result (λ watches.
        stretches_of watches.items ≡ longest_of tallies.now) }
{
    let mut watches = Vec::new(alloc);
    for tally in tallies {
        watches.push(StretchWatch::new(alloc, tally.longest, tallies.len())?)?;
    }
    Ok(watches)
}

/// The watches go on from each passage to the next one.
fn watch_all(
    set: &TaskSet,
    threads: u32,
    walk: &mut Walk,
    watches: &mut Vec<StretchWatch>,
    passages: &[Passage],
    formers: &[Former],
)
    requires passages { ArePassages (length set.now.tasks) threads passages.now }
    requires walk { IsWalkAt set.now passages.now threads 0 walk.old.core
        walk.old.runners.processors.items }
    requires seen { vec_len walk.old.seen ≡ threads }
    requires trail { IsTrail passages.now threads walk.old.runners.processors.items formers.now }
    requires watches { AreWatches (length set.now.tasks) [] watches.old.items }
    ensures watches { AreWatchesAt set.now threads passages.now (span_of passages.now)
        watches.new.items }
    ensures stretches { stretches_of watches.new.items ≡ stretches_of watches.old.items }
{
    let _valid = set.len();
    let _span = span_of(passages);
    for i in 1..passages.len() {
        walk.step(passages[i - 1], formers[passages.len() - i]);
        let units = passages[i].moment - passages[i - 1].moment;
        pass_all(watches, units, &walk.seen);
    }
}
