//! Switches of a processor from another thread than its last switch went to.
ghost use Rattle.std.specs.Prelude.{◌≡◌, ℕ, nat_eq, IfOk, OnOk};
ghost use Rattle.indexmap.specs.IndexMap.{get};
ghost use Rattle.trace_losses.specs.Jumps.{AreJumps, jumps_by, last_by};

use affinity_mask::OutOfMemory;
use indexmap::IndexMap;
use std::alloc::Global;
use trace_passages::{Passage, Turn};

/// How many of the passages are switches of a processor from another thread than the last switch of it before went to.
pub(crate) fn jumps_of(alloc: Global, passages: &[Passage]) -> Result<u64, OutOfMemory>
    ensures { IfOk result (AreJumps passages.now) }
{
    let mut last = IndexMap::new(alloc);
    let mut jumps = 0;
    for i in 0..passages.len() {
        if is_jump(&mut last, passages[i].turn)? {
            jumps += 1;
        }
    }
    Ok(jumps)
}

/// Whether a line is such a switch, by what the last switch of each processor before it went to. Of its own processor it is the
/// last one then.
fn is_jump(last: &mut IndexMap<u32, Option<u32>>, turn: Option<Turn>) -> Result<bool, OutOfMemory>
    ensures jumps { IfOk result (λ jumps. jumps ≡ jumps_by (get nat_eq last.old) turn) }
    ensures last { OnOk result ((p : ℕ) → get nat_eq last.new p ≡ last_by (get nat_eq last.old) turn p) }
{
    match turn {
        Some(
            Turn::Switch {
                processor,
                from,
                to,
            },
        ) => match last.insert(processor, to)? {
            Some(came) => Ok(came != from),
            None => Ok(false),
        },
        _ => Ok(false),
    }
}
