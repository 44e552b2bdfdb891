//! A task moves to its place in the order, once its priority has changed.
ghost use Rattle.std.specs.Prelude.{◌≡◌, ℕ, ◌+◌, ◌<◌, ◌≤◌, length};
ghost use Rattle.std.specs.List.{swap};
ghost use Rattle.std.specs.List.Sorted.{IsNonDecreasingBy};
ghost use Rattle.link_table.specs.declared.ranked.Ranked.{Ranked};
ghost use Rattle.link_table.specs.Reordering.{IsInverse, IsNonDecreasingBut, IsMostUrgentFrom, Reordered};

use crate::ranked::Ranked;
use crate::set_tree::SetTree;

/// The task at a rank moves to its place, where all others stand in order.
pub(crate) fn move_to_place(
    order: &mut [Ranked],
    ranks: &mut [u32],
    sets: &mut SetTree,
    rank: usize,
)
    requires rank { rank < length order.old }
    requires inverse { IsInverse order.old ranks.old }
    requires row { length order.old ≤ length sets.old }
    requires sorted { IsNonDecreasingBut rank order.old }
    ensures sorted { IsNonDecreasingBy (λ (entry : Ranked). entry.priority) order.new }
    ensures moved { Reordered order.old ranks.old sets.old order.new ranks.new sets.new }
{
    let rank = move_later(order, ranks, sets, rank);
    move_earlier(order, ranks, sets, rank);
}

/// The task at a rank moves later, past each task that is more urgent. Answers its rank then.
fn move_later(order: &mut [Ranked], ranks: &mut [u32], sets: &mut SetTree, rank: usize) -> usize
    requires rank { rank < length order.old }
    requires inverse { IsInverse order.old ranks.old }
    requires row { length order.old ≤ length sets.old }
    requires sorted { IsNonDecreasingBut rank order.old }
    ensures rank { result < length order.new }
    ensures sorted { IsNonDecreasingBut result order.new }
    ensures urgent { IsMostUrgentFrom result order.new }
    ensures moved { Reordered order.old ranks.old sets.old order.new ranks.new sets.new }
{
    let mut r = rank;
    while r + 1 < order.len() && order[r + 1].priority < order[r].priority {
        swap_with_next(order, ranks, sets, r);
        r += 1;
    }
    r
}

/// The task at a rank moves earlier, past each task that is less urgent. Those after it are not more urgent.
fn move_earlier(order: &mut [Ranked], ranks: &mut [u32], sets: &mut SetTree, rank: usize)
    requires rank { rank < length order.old }
    requires inverse { IsInverse order.old ranks.old }
    requires row { length order.old ≤ length sets.old }
    requires sorted { IsNonDecreasingBut rank order.old }
    requires urgent { IsMostUrgentFrom rank order.old }
    ensures sorted { IsNonDecreasingBy (λ (entry : Ranked). entry.priority) order.new }
    ensures moved { Reordered order.old ranks.old sets.old order.new ranks.new sets.new }
{
    let mut r = rank;
    while r > 0 && order[r].priority < order[r - 1].priority {
        r -= 1;
        swap_with_next(order, ranks, sets, r);
    }
}

/// The task at a rank and the next one change places.
fn swap_with_next(order: &mut [Ranked], ranks: &mut [u32], sets: &mut SetTree, r: usize)
    requires next { r + 1 < length order.old }
    requires inverse { IsInverse order.old ranks.old }
    requires row { length order.old ≤ length sets.old }
    ensures order { order.new ≡ swap order.old r (r + 1) }
    ensures moved { Reordered order.old ranks.old sets.old order.new ranks.new sets.new }
{
    order.swap(r, r + 1);
    ranks[order[r].task as usize] = r as u32;
    ranks[order[r + 1].task as usize] = (r + 1) as u32;
    sets.swap(r, r + 1);
}
