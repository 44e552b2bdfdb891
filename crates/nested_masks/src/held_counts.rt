//! How many linked tasks the mask of each task holds.
ghost use Rattle.std.specs.Prelude.{◌≡◌, ℕ, ◌<◌, ◌≤◌, length, get_or};
ghost use Rattle.affinity_mask.specs.ProcSet.{Within};
ghost use Rattle.nested_masks.specs.Laminar.{mask_at};
ghost use Rattle.nested_masks.specs.Counting.{HoldMoreAround};

use affinity_mask::ProcSet;

/// A task with this mask is linked: each mask around it holds one task more.
pub(crate) fn hold_one_more(held: &mut Vec<u32>, masks: &[ProcSet], mask: ProcSet)
    requires count { length held.old.items ≡ length masks.now }
    requires few { (u : ℕ) → u < length masks.now → get_or held.old.items u 0 ≤ 1024 }
    ensures { HoldMoreAround masks.now mask (length masks.now) held.old.items held.new.items }
{
    for u in 0..masks.len() {
        if mask.within(&masks[u]) {
            held[u] += 1;
        }
    }
}

/// A task with this mask is linked no longer: each mask around it holds one task less.
pub(crate) fn hold_one_less(held: &mut Vec<u32>, masks: &[ProcSet], mask: ProcSet)
    requires count { length held.old.items ≡ length masks.now }
    requires some { (u : ℕ) → u < length masks.now → Within mask (mask_at masks.now u)
        → 0 < get_or held.old.items u 0 }
    ensures { HoldMoreAround masks.now mask (length masks.now) held.new.items held.old.items }
{
    for u in 0..masks.len() {
        if mask.within(&masks[u]) {
            held[u] -= 1;
        }
    }
}
