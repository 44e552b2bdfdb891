//! The ends of the processors: once a board is closed, what each processor did is what its orders were.
ghost use Rattle.std.specs.Prelude.{◌≡◌, ◌≤◌, [], length, map, true, vec_capacity};
ghost use mathlib.Core.List.{IsPrefix};
ghost use Rattle.task_set.specs.Orders.{has_stop};
ghost use Rattle.strong_apa.specs.State.{start_of};
ghost use Rattle.strong_apa.specs.Dispatch.{closed_orders_of};
ghost use Rattle.sched_core.specs.CoreData.{core_orders};
ghost use Rattle.event_history.specs.Holdings.{SentBegins, queues_of};
ghost use Rattle.processor_seat.specs.Stepping.{IsInStep};
ghost use Rattle.replay.specs.Places.{AllFrom};
ghost use Rattle.replay.specs.Replayed.{HasAllStints, IsClosedOver};
ghost use Rattle.replay.specs.Seats.{HasStoppedAt};

use context_slots::{Hand, Slots};
use order_queues::{Queue, Receiver, Sender, settle};
use processor_seat::Processor;
use sched_core::Core;

/// What a processor received, where it received `Stop`, is all orders that the closed core gives it.
fn settle_one(
    slots: &Slots,
    core: &Core,
    number: u8,
    queue: Queue,
    sender: Sender,
    receiver: Receiver,
)
    requires tied { (sender.queue ≡ queue) × (receiver.queue ≡ queue) }
    requires core { IsClosedOver slots.now.set core.now }
    requires sent { IsPrefix sender.sent (core_orders core.now number) }
    requires stopped { has_stop receiver.received ≡ true }
    ensures { receiver.received ≡ closed_orders_of (start_of slots.now.set) core.now.history number }
{
    settle(queue, sender, receiver);
}

/// The hand of a processor that has stopped has the stints of all its orders.
fn end_one(slots: &Slots, core: &Core, queue: Queue, sender: Sender, processor: Processor) -> Hand
    requires tied { (sender.queue ≡ queue) × (processor.receiver.queue ≡ queue) }
    requires core { IsClosedOver slots.now.set core.now }
    requires sent { IsPrefix sender.sent (core_orders core.now processor.hand.number) }
    requires slots { processor.hand.slots ≡ slots.now.id }
    requires in_step { IsInStep processor }
    requires stopped { has_stop processor.receiver.received ≡ true }
    ensures { HasAllStints slots.now core.now.history processor.hand.number result }
{
    let number = processor.number();
    let (hand, receiver) = processor.finish();
    settle_one(slots, core, number, queue, sender, receiver);
    hand
}

/// Ends all processors, from the last on, and gives their hands in order.
pub fn end_all(
    slots: &Slots,
    core: &Core,
    mut queues: Vec<Queue>,
    mut senders: Vec<Sender>,
    mut processors: Vec<Processor>,
    mut hands: Vec<Hand>,
) -> Vec<Hand>
    requires core { IsClosedOver slots.now.set core.now }
    requires senders { queues_of senders.items ≡ queues.items }
    requires sent { SentBegins core.now senders.items }
    requires one_each { length processors.items ≡ length queues.items }
    requires stopped { AllFrom (HasStoppedAt queues.items slots.now) 0 processors.items }
    requires room { (hands.items ≡ []) × (length queues.items ≤ vec_capacity hands) }
    ensures one_each { length result.items ≡ length processors.items }
    ensures each { AllFrom (HasAllStints slots.now core.now.history) 0 result.items }
{
    while let Some(processor) = processors.pop() {
        let (Some(queue), Some(sender)) = (queues.pop(), senders.pop()) else {
            unreachable!()
        };
        let hand = end_one(slots, core, queue, sender, processor);
        if let Err(_full) = hands.insert(0, hand) {
            unreachable!()
        }
    }
    hands
}
