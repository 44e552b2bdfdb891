//! Who ran in a stretch of moments without being in the best set.
ghost use Rattle.std.specs.Prelude.{◌≡◌, ℕ, ◌+◌, ◌<◌, ◌≤◌, ◌^◌, List, [], ◌++◌, length, replicate, slice_get, vec_len, IfOk, IsTrue};
ghost use Rattle.trace_losses.specs.Watch.{IsWatch, AreAtMost, CanPass, CanPassOne, WatchPasses, WatchesPass, AreMore, IsLesserTask, IsMostOf, overlap};
ghost use Rattle.trace_losses.specs.declared.seen.Seen.{Seen};

use crate::seen::Seen;
use crate::tally::Stretch;
use std::alloc::{AllocError, Global};

/// Of each task, at how many moments of a stretch it ran and was not in the best set, and how many moments there were.
#[derive(Drop)]
pub struct StretchWatch {
    pub stretch: Stretch,
    pub moments: u64,
    pub counts: Vec<u64>,
}

impl StretchWatch {
    /// The watch of no moment, of so many tasks.
    pub fn new(alloc: Global, stretch: Stretch, tasks: usize) -> Result<StretchWatch, AllocError>
        ensures watch { IfOk result (λ watch. IsWatch stretch [] watch.counts.items) }
        ensures kept { IfOk result (λ watch. AreAtMost 0 watch.counts.items) }
        ensures moments { IfOk result (λ watch. watch.moments ≡ 0) }
        ensures stretch { IfOk result (λ watch. watch.stretch ≡ stretch) }
        ensures tasks { IfOk result (λ watch. vec_len watch.counts ≡ tasks) }
    {
        let mut counts = Vec::new(alloc);
        for task in 0..tasks {
            counts.push(0)?;
        }
        Ok(StretchWatch {
            stretch,
            moments: 0,
            counts,
        })
    }

    /// Goes on by so many equal moments, at which this holds of each thread. The first threads are the tasks.
    pub fn pass(&mut self, units: u64, seen: &[Seen])
        requires each { vec_len self.old.counts ≤ length seen.now }
        requires room { self.old.moments + units < 2 ^ 64 }
        requires kept { AreAtMost self.old.moments self.old.counts.items }
        ensures watch { (moments : List (List Seen)) → self.old.moments ≡ length moments
            → IsWatch self.old.stretch moments self.old.counts.items
            → IsWatch self.old.stretch (moments ++ replicate units seen.now) self.new.counts.items }
        ensures kept { AreAtMost self.new.moments self.new.counts.items }
        ensures moments { self.new.moments ≡ self.old.moments + units }
        ensures stretch { self.new.stretch ≡ self.old.stretch }
        ensures tasks { vec_len self.new.counts ≡ vec_len self.old.counts }
    {
        let within = overlap(self.stretch, self.moments, units);
        count_all(&mut self.counts, within, seen);
        self.moments += units;
    }

    /// The same, said of the watch as a whole.
    fn go_on(&mut self, units: u64, seen: &[Seen])
        requires { CanPassOne units seen.now self.old }
        ensures { WatchPasses units seen.now self.old self.new }
    {
        self.pass(units, seen);
    }
}

/// Each watch goes on by so many equal moments.
pub(crate) fn pass_all(watches: &mut Vec<StretchWatch>, units: u64, seen: &[Seen])
    requires { CanPass units seen.now watches.old.items }
    ensures { WatchesPass units seen.now watches.old.items watches.new.items (length watches.old.items) }
{
    for t in 0..watches.len() {
        watches[t].go_on(units, seen);
    }
}

/// The task with the most moments, and of several the one with the greatest priority number, which is the least urgent.
pub fn most(counts: &[u64], priorities: &[u32]) -> Option<usize>
    requires { length priorities.now ≡ length counts.now }
    ensures { IsMostOf counts.now priorities.now (length counts.now) result }
{
    let mut found = None;
    for t in 0..counts.len() {
        found = most_with(counts, priorities, t, found);
    }
    found
}

/// The same of one task more.
fn most_with(counts: &[u64], priorities: &[u32], t: usize, found: Option<usize>) -> Option<usize>
    requires each { length priorities.now ≡ length counts.now }
    requires below { t < length counts.now }
    requires most { IsMostOf counts.now priorities.now t found }
    ensures { IsMostOf counts.now priorities.now (t + 1) result }
{
    if counts[t] == 0 {
        return found;
    }
    match found {
        Some(u) if is_before(counts, priorities, t, u) => found,
        _ => Some(t),
    }
}

/// Whether a task has fewer moments than another, or as many and a lower priority number.
fn is_before(counts: &[u64], priorities: &[u32], t: usize, u: usize) -> bool
    requires each { length priorities.now ≡ length counts.now }
    requires below { t < length counts.now }
    requires other { u < length counts.now }
    ensures before { IsTrue result → IsLesserTask counts.now priorities.now t u }
    ensures after { (IsTrue result → ⊥) → IsLesserTask counts.now priorities.now u t }
{
    counts[t] < counts[u] || counts[t] == counts[u] && priorities[t] < priorities[u]
}

/// How many of so many moments are in the stretch, where these were before them.
fn overlap(stretch: Stretch, moments: u64, units: u64) -> u64
    ensures { result ≡ overlap stretch moments units }
{
    let left = stretch
        .count
        .saturating_sub(moments.saturating_sub(stretch.first));
    let there = units.saturating_sub(stretch.first.saturating_sub(moments));
    left.min(there)
}

/// Counts so many moments more for each of the first threads that runs and is not in the best set.
pub(crate) fn count_all(counts: &mut Vec<u64>, units: u64, seen: &[Seen])
    requires each { vec_len counts.old ≤ length seen.now }
    requires room { (t : ℕ) (count : ℕ) → slice_get counts.old.items t ≡ Some count → count + units < 2 ^ 64 }
    ensures { AreMore counts.old.items counts.new.items seen.now units (length counts.old.items) }
{
    if units == 0 {
        return;
    }
    for t in 0..counts.len() {
        if seen[t].runs && !seen[t].best {
            counts[t] += units;
        }
    }
}
