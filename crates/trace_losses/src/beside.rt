//! Who ran at moments at which a task was lost.
ghost use Rattle.std.specs.Prelude.{◌≡◌, ℕ, ◌+◌, ◌<◌, ◌≤◌, ◌^◌, List, [], ◌++◌, length, replicate, vec_len, if◌then◌else◌, IfOk};
ghost use Rattle.trace_losses.specs.Beside.{IsBeside, is_loss};
ghost use Rattle.trace_losses.specs.Watch.{AreAtMost};
ghost use Rattle.trace_losses.specs.declared.seen.Seen.{Seen};

use crate::seen::Seen;
use crate::watch::count_all;
use std::alloc::{AllocError, Global};

/// Of each thread, at how many moments with a lost task it ran and was not in the best set, and how many moments there were.
#[derive(Drop)]
pub struct Beside {
    pub moments: u64,
    pub counts: Vec<u64>,
}

impl Beside {
    /// The counts of no moment, of so many threads.
    pub fn new(alloc: Global, threads: usize) -> Result<Beside, AllocError>
        ensures beside { IfOk result (λ beside. IsBeside [] beside.counts.items) }
        ensures kept { IfOk result (λ beside. AreAtMost 0 beside.counts.items) }
        ensures moments { IfOk result (λ beside. beside.moments ≡ 0) }
        ensures threads { IfOk result (λ beside. vec_len beside.counts ≡ threads) }
    {
        let mut counts = Vec::new(alloc);
        for thread in 0..threads {
            counts.push(0)?;
        }
        Ok(Beside { moments: 0, counts })
    }

    /// Goes on by so many equal moments, at which this holds of each thread.
    pub fn pass(&mut self, units: u64, seen: &[Seen])
        requires each { vec_len self.old.counts ≤ length seen.now }
        requires room { self.old.moments + units < 2 ^ 64 }
        requires kept { AreAtMost self.old.moments self.old.counts.items }
        ensures beside { (moments : List (List Seen)) → IsBeside moments self.old.counts.items
            → IsBeside (moments ++ replicate units seen.now) self.new.counts.items }
        ensures kept { AreAtMost self.new.moments self.new.counts.items }
        ensures moments { self.new.moments ≡ self.old.moments + units }
        ensures threads { vec_len self.new.counts ≡ vec_len self.old.counts }
    {
        let with_loss = units_with_loss(units, seen);
        count_all(&mut self.counts, with_loss, seen);
        self.moments += units;
    }
}

/// So many moments where some task is lost at them, and none otherwise.
fn units_with_loss(units: u64, seen: &[Seen]) -> u64
    ensures { result ≡ (if is_loss seen.now then units else 0) }
{
    if is_loss(seen) { units } else { 0 }
}

/// Whether some task is lost.
fn is_loss(seen: &[Seen]) -> bool
    ensures { result ≡ is_loss seen.now }
{
    seen.iter().any(|at| at.is_lost())
}
