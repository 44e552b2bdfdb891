//! How hands are made, how one takes in the others at the end, and how the contexts come out.
ghost use Rattle.std.specs.Prelude.{◌≡◌, ℕ, ◌+◌, ◌<◌, ◌≤◌, [], length, vec_len, vec_capacity, All};
ghost use Rattle.task_set.specs.Orders.{Stint};
ghost use Rattle.task_set.specs.Sum.{total};
ghost use Rattle.context_slots.specs.Hands.{AreFreeFrom, all_ended};
ghost use Rattle.context_slots.specs.HandSteps.{HoldsNothing, dealing, fresh_view};
ghost use Rattle.context_slots.specs.Homes.{AllCame};

use crate::hand::Hand;
use crate::hand_seat::HandSeat;
use crate::turn_words::{Deals, Gathers, SlotTable, TurnWords};
use task_set::Context;

/// The seat of the next processor's hand, cut off the first one.
pub fn deal(table: &SlotTable, first: &mut HandSeat, number: u8) -> HandSeat
    requires table { (first.old.seat.table_id ≡ table.now.shared.table_id)
        × (0 < table.now.shared.table_id.words) }
    requires first { first.old.seat.me
        ≡ (dealing table.now.shared.key.set.value.processors number, []) }
    requires number { (1 ≤ number) × (number < table.now.shared.key.set.value.processors)
        × (number < 64) }
    ensures first { (first.new.number ≡ first.old.number)
        × (first.new.seat.table_id ≡ table.now.shared.table_id)
        × (first.new.seat.me
        ≡ (dealing table.now.shared.key.set.value.processors (number + 1), [])) }
    ensures hand { (result.number ≡ number)
        × (result.seat.table_id ≡ table.now.shared.table_id)
        × (result.seat.me ≡ (fresh_view number, [])) }
{
    let seat = table.shared.split_seat::<Deals>(&mut first.seat);
    HandSeat { number, seat }
}

/// One hand takes in the others, from the last to the first.
pub fn gather(words: &TurnWords, all: &mut HandSeat, mut hands: Vec<Hand>)
    requires all { (all.old.seat.table_id ≡ words.now.table.shared.table_id)
        × HoldsNothing all.old.seat.me × (all.old.seat.me.0.parts ≡ 1) }
    requires hands { AreFreeFrom words.now.table.shared.table_id 0 hands.items }
    ensures free { (all.new.seat.table_id ≡ all.old.seat.table_id) × HoldsNothing all.new.seat.me }
    ensures parts { all.new.seat.me.0.parts ≡ 1 + length hands.items }
    ensures own { (n : ℕ) → length hands.items ≤ n
        → All (λ stint. stint.processor < n) (all_ended hands.items) }
    ensures ended { (h : Stint → ℕ) → total h all.new.seat.me.0.ended
        ≡ total h all.old.seat.me.0.ended + total h (all_ended hands.items) }
{
    while let Some(hand) = hands.pop() {
        let hand_seat = hand.into_hand_seat();
        let HandSeat { number: _, seat } = hand_seat;
        words.table.shared.join_seat::<Gathers>(&mut all.seat, seat);
    }
}

/// The contexts in task order, where one hand has all parts.
pub fn into_contexts(words: TurnWords, all: HandSeat, mut contexts: Vec<Context>) -> Vec<Context>
    requires all { (all.seat.table_id ≡ words.table.shared.table_id) × HoldsNothing all.seat.me
        × (all.seat.me.0.parts ≡ words.table.shared.key.set.value.processors) }
    requires contexts { (contexts.items ≡ []) × (words.tasks ≤ vec_capacity contexts) }
    ensures length { length result.items ≡ words.tasks }
    ensures came { AllCame all.seat.me.0.ended 0 result.items }
{
    let TurnWords { table, tasks } = words;
    let HandSeat { number: _, seat } = all;
    let mut closed = table.close_with(seat);
    for t in 0..tasks as usize {
        let Some(context) = closed.take(t) else {
            unreachable!()
        };
        contexts.push_reserved(context);
    }
    closed.take(tasks as usize);
    closed.free();
    contexts
}
