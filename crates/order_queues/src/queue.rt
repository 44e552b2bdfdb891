//! A queue of orders and its ends, as the crates above see them.
ghost use Rattle.std.specs.Prelude.{◌≡◌, ◌+◌, ◌^◌, ◌<◌, ◌≤◌, ◌++◌, ◌∷◌, [], true, All, IfOk, length};
ghost use mathlib.Core.List.{IsPrefix};
ghost use Rattle.task_set.specs.Orders.{IsObeyable, NamesTaskBelow, has_stop};
ghost use Rattle.order_queues.specs.Ends.{new_sender, new_receiver, new_eye, Sends, SendsAll, Receives, KnowsMore, ReceiverKnowsMore};

use crate::count::CountReader;
use crate::{parts, steps};
use affinity_mask::OutOfMemory;
use std::alloc::Global;
use std::marker::Model;
use std::sync::Wait;
use std::time::Duration;
use task_set::Order;

/// Orders on their way to one processor, at most [`QUEUE_ROOM`] at once.
///
/// Both ends take it by `&`, each in its own thread. Contracts see which queue it is, and for how many tasks it was
/// made.
#[derive(Drop)]
pub struct Queue {
    parts: parts::QueueParts,
}

impl Model for Queue {
    ghost use Rattle.order_queues.specs.Ends.{QueueData};

    ghost Value = { QueueData };

    ghost use Rattle.order_queues.specs.QueueModel.{queue_data};

    ghost view = { queue_data };
}

/// The end at which orders go in. Contracts see the list of orders sent.
#[derive(Drop)]
pub struct Sender {
    parts: parts::SenderParts,
}

impl Model for Sender {
    ghost use Rattle.order_queues.specs.Ends.{SenderData};

    ghost Value = { SenderData };

    ghost use Rattle.order_queues.specs.SenderModel.{sender_data, IsSender};

    ghost view = { sender_data };

    ghost invariant = { IsSender };
}

/// The end at which orders come out. Contracts see the list of orders received, the number of orders that it knows to
/// be sent, and what each of its looks found.
#[derive(Drop)]
pub struct Receiver {
    parts: parts::ReceiverParts,
}

impl Model for Receiver {
    ghost use Rattle.order_queues.specs.Ends.{ReceiverData};

    ghost Value = { ReceiverData };

    ghost use Rattle.order_queues.specs.ReceiverModel.{receiver_data, IsReceiver};

    ghost view = { receiver_data };

    ghost invariant = { IsReceiver };
}

/// What somebody who sends knows of the number of orders received.
///
/// It is apart from the [`Sender`], since several threads may send in turn, each with an eye of its own.
#[derive(Drop)]
pub struct Eye {
    reader: CountReader,
}

impl Model for Eye {
    ghost use Rattle.order_queues.specs.Ends.{EyeData};

    ghost Value = { EyeData };

    ghost use Rattle.order_queues.specs.EyeModel.{eye_data};

    ghost view = { eye_data };
}

/// The two counts of a queue that is done with, in orders.
#[derive(Clone, Copy)]
pub struct Settled {
    pub sent: u64,
    pub received: u64,
}

/// How many orders a queue holds.
pub const QUEUE_ROOM: u64 = 256;

impl Queue {
    /// A queue for orders that name tasks below `tasks`, and its two ends.
    ///
    /// All memory is taken here, and no later call takes any. It is refused only where memory runs out.
    pub fn new(alloc: Global, tasks: u32) -> Result<(Queue, Sender, Receiver), OutOfMemory>
        ensures tasks { IfOk result (λ made. made.0.tasks ≡ tasks) }
        ensures ends { IfOk result (λ made. (made.1 ≡ new_sender made.0) × (made.2 ≡ new_receiver made.0)) }
    {
        let (queue, sender, receiver) = parts::QueueParts::new(alloc, tasks)?;
        Ok((
            Queue { parts: queue },
            Sender { parts: sender },
            Receiver { parts: receiver },
        ))
    }

    /// Tells the eye what the receiver received, and the receiver what was sent, with no look of either.
    ///
    /// For one thread that has all three, and must know that a count is not behind.
    pub fn meet(&self, sender: &mut Sender, eye: &mut Eye, receiver: &mut Receiver)
        requires sender { sender.old.queue ≡ self.now }
        requires eye { eye.old.received_word ≡ self.now.received_word }
        requires receiver { receiver.old.queue ≡ self.now }
        ensures sender { sender.new ≡ sender.old }
        ensures eye { KnowsMore eye.old eye.new × (length receiver.old.received ≤ eye.new.known) }
        ensures receiver { ReceiverKnowsMore receiver.old receiver.new
            × (length sender.old.sent ≤ receiver.new.known) }
    {
        self.parts
            .meet(&mut sender.parts, &mut eye.reader, &mut receiver.parts);
    }

    /// Wakes the receiver, if it is parked by [`Receiver::wait`]. It costs much more than an order does, so it is for a
    /// sender that sends no more.
    pub fn wake(&self) {
        self.parts.sent.wake();
    }
}

impl Sender {
    /// How many orders were sent.
    pub fn count(&self) -> u64
        ensures { result ≡ length self.now.sent }
    {
        self.parts.sent
    }

    /// An eye of the queue.
    pub fn eye(&mut self, queue: &Queue) -> Eye
        requires queue { self.old.queue ≡ queue.now }
        ensures same { self.new ≡ self.old }
        ensures eye { result ≡ new_eye queue.now }
    {
        let reader = self.parts.eye(&queue.parts);
        Eye { reader }
    }

    /// Sends an order, or hands it back where the eye's look leaves it possible that the queue is full.
    ///
    /// It looks before it touches the queue, so a refusal costs one load. Where the look finds room, it tries until the
    /// order has entered.
    pub fn send<R: Wait>(
        &mut self,
        rt: &R,
        queue: &Queue,
        eye: &mut Eye,
        order: Order,
    ) -> Result<(), Order>
        requires queue { self.old.queue ≡ queue.now }
        requires eye { eye.old.received_word ≡ queue.now.received_word }
        requires few { length self.old.sent < 2 ^ 62 }
        requires obeyable { IsObeyable (self.old.sent ++ order ∷ []) }
        requires below { NamesTaskBelow queue.now.tasks order }
        ensures { Sends self.old eye.old order result self.new eye.new }
    {
        self.parts.send(rt, &queue.parts, &mut eye.reader, order)
    }

    /// Sends the first of these orders, as many as the eye's look leaves room for, and answers how many.
    ///
    /// It looks once, and counts the orders as sent once, however many they are: so many orders cost little more than
    /// one. Where the look finds room, it tries until they have gone in.
    pub fn send_all<R: Wait>(
        &mut self,
        rt: &R,
        queue: &Queue,
        eye: &mut Eye,
        orders: &[Order],
    ) -> usize
        requires queue { self.old.queue ≡ queue.now }
        requires eye { eye.old.received_word ≡ queue.now.received_word }
        requires few { length self.old.sent + length orders.now < 2 ^ 62 }
        requires obeyable { IsObeyable (self.old.sent ++ orders.now) }
        requires below { All (NamesTaskBelow queue.now.tasks) orders.now }
        ensures { SendsAll self.old eye.old orders.now result self.new eye.new }
    {
        self.parts
            .send_all(rt, &queue.parts, &mut eye.reader, orders)
    }
}

impl Receiver {
    /// The next order, or `None` where this call's look finds that none was sent beyond those received.
    ///
    /// Where the look finds one, it tries until the order is out.
    pub fn next<R: Wait>(&mut self, rt: &R, queue: &Queue) -> Option<Order>
        requires queue { self.old.queue ≡ queue.now }
        ensures { Receives self.old result self.new }
    {
        self.parts.next(rt, &queue.parts)
    }

    /// Parks the calling thread while no more orders were sent than were received, for no longer than `longest`, or until
    /// [`Queue::wake`].
    ///
    /// It may also return at once, or for no reason, so the caller looks again, by `next`. It changes nothing. An order that
    /// is sent meanwhile does not end it.
    pub fn wait<R: Wait>(&self, rt: &R, queue: &Queue, longest: Duration) {
        queue.parts.sent.wait(rt, self.parts.received, longest);
    }
}

/// Ends the queue: counts both lists and compares them.
///
/// It takes both ends, so nothing can be sent or received after it. Orders that were sent and not received are lost.
pub fn settle(queue: Queue, sender: Sender, receiver: Receiver) -> Settled
    requires sender { sender.queue ≡ queue }
    requires receiver { receiver.queue ≡ queue }
    ensures counts { (result.sent ≡ length sender.sent) × (result.received ≡ length receiver.received) }
    ensures begins { IsPrefix receiver.received sender.sent }
    ensures whole { has_stop receiver.received ≡ true → receiver.received ≡ sender.sent }
{
    steps::settle(queue.parts, sender.parts, receiver.parts)
}
