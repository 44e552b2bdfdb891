//! Which slots are free.
ghost use Rattle.std.specs.Prelude.{◌≡◌, ◌<◌, ◌≤◌, true, false, length, get_or, replicate, IfOk, MatchOption};
ghost use Rattle.live_core.specs.Slots.{AreAllInUse, IsFreeSlot};

use affinity_mask::OutOfMemory;
use std::alloc::Global;

/// Why a task is not admitted, or does not get a priority. Nothing has changed then.
#[derive(Clone, Copy, Debug, PartialEq, Eq)]
pub enum SlotFault {
    /// No slot is free.
    NoSlot,

    /// This task, which is in use, has the priority.
    SamePriority(u32),
}

/// So many slots, each of them in use.
pub(crate) fn slots_in_use(alloc: Global, count: u32) -> Result<Vec<bool>, OutOfMemory>
    ensures { IfOk result (λ in_use. in_use.items ≡ replicate count true) }
{
    let mut in_use = Vec::new(alloc);
    for _t in 0..count {
        in_use.push(true)?;
    }
    Ok(in_use)
}

/// The first slot that is free, if one is.
pub(crate) fn first_free(in_use: &[bool]) -> Option<u32>
    requires { length in_use.now ≤ 1024 }
    ensures { MatchOption result (AreAllInUse in_use.now) (IsFreeSlot in_use.now) }
{
    for t in 0..in_use.len() {
        if !in_use[t] {
            return Some(t as u32);
        }
    }
    None
}
