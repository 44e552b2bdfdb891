//! Orders that are owed: they follow from the history, and were not sent.
ghost use Rattle.std.specs.Prelude.{◌≡◌, ◌+◌, length, vec_len, map};
ghost use mathlib.Core.List.{IsPrefix};
ghost use Rattle.order_queues.specs.Ends.{EyeData};
ghost use Rattle.sched_core.specs.CoreData.{core_orders};
ghost use Rattle.event_history.specs.Boards.{AreEyesOf};
ghost use Rattle.event_history.specs.Flushing.{EyeFlushed, SendersFlushed};
ghost use Rattle.event_history.specs.Holdings.{SentBegins, queues_of};
ghost use Rattle.event_history.specs.Owing.{MaySend, AllMaySend};

use order_queues::{Eye, Queue, Sender};
use sched_core::Core;
use std::sync::Wait;
use task_set::Order;

/// Sends what is owed of these orders to one processor, until the queue is found full. Answers how many are still owed.
fn send_owed<R: Wait>(
    rt: &R,
    orders: &[Order],
    queue: &Queue,
    sender: &mut Sender,
    eye: &mut Eye,
) -> usize
    requires queue { sender.old.queue ≡ queue.now }
    requires eye { eye.old.received_word ≡ queue.now.received_word }
    requires sent { IsPrefix sender.old.sent orders.now }
    requires may { MaySend queue.now.tasks orders.now }
    ensures queue { sender.new.queue ≡ sender.old.queue }
    ensures sent { IsPrefix sender.new.sent orders.now }
    ensures owed { result + length sender.new.sent ≡ length orders.now }
    ensures eye { EyeFlushed eye.old eye.new (length orders.now) result }
{
    let first = sender.count() as usize;
    if first == orders.len() {
        return 0;
    }
    let (_sent, left) = orders.split_at(first);
    left.len() - sender.send_all(rt, queue, eye, left)
}

/// Sends what is owed, processor by processor. A processor that is owed nothing costs one comparison. Answers how many
/// orders are still owed.
pub fn send_all<R: Wait>(
    rt: &R,
    core: &Core,
    queues: &[Queue],
    senders: &mut Vec<Sender>,
    eyes: &mut Vec<Eye>,
) -> u64
    requires count { length queues.now ≡ core.now.start.processors }
    requires queues { queues_of senders.old.items ≡ queues.now }
    requires eyes { AreEyesOf queues.now eyes.old.items }
    requires sent { SentBegins core.now senders.old.items }
    requires orders { AllMaySend queues.now core.now }
    ensures queues { queues_of senders.new.items ≡ queues.now }
    ensures eyes { map (λ (e : EyeData). e.received_word) eyes.new.items ≡ map
        (λ (e : EyeData). e.received_word) eyes.old.items }
    ensures sent { SentBegins core.now senders.new.items }
    ensures flushed { SendersFlushed (λ p. length (core_orders core.now p))
        eyes.old.items eyes.new.items senders.new.items result }
{
    let mut owed = 0u64;
    for p in 0..core.links().processors() {
        let i = p as usize;
        let orders = core.orders(p);
        let left = send_owed(rt, orders, &queues[i], &mut senders[i], &mut eyes[i]);
        owed += left as u64;
    }
    owed
}
