//! A queue for two tasks, whose sending end stops the test where an order may not come.
ghost use Rattle.std.specs.Prelude.{◌≡◌, ◌≢◌, true, false, [], All};
ghost use Rattle.task_set.specs.declared.order.Order.TheVariants.{Stop};
ghost use Rattle.task_set.specs.Orders.{IsObeyable, MayCome, NamesTaskBelow, held_after, task_held};
ghost use Rattle.order_queues.specs.Ends.{QueueData, new_receiver};

use order_queues::{Eye, Queue, Receiver, Sender};
use std::alloc::Global;
use std::marker::Model;
use std::process::Abort;
use std::sync::Wait;
use std::thread;
use task_set::Order;

/// The most orders that a test sends.
const MOST: u64 = 100_000;

/// The sending end of a queue for two tasks.
#[derive(Drop)]
pub(crate) struct End {
    sender: Sender,
    eye: Eye,
    held: Option<u32>,
    stopped: bool,
}

impl Model for End {
    ghost Value = { QueueData };

    ghost view = { λ e. e.sender.queue };

    ghost invariant = { λ e. (e.eye.received_word ≡ e.sender.queue.received_word)
        × (e.sender.queue.tasks ≡ 2)
        × IsObeyable e.sender.sent
        × (task_held e.sender.sent ≡ e.held)
        × (e.stopped ≡ false → All (λ order. order ≢ Stop) e.sender.sent) };
}

impl End {
    fn new(sender: Sender, eye: Eye) -> End
        requires eye { eye.received_word ≡ sender.queue.received_word }
        requires two_tasks { sender.queue.tasks ≡ 2 }
        requires nothing_sent { sender.sent ≡ [] }
        ensures queue { result ≡ sender.queue }
    {
        End {
            sender,
            eye,
            held: None,
            stopped: false,
        }
    }

    /// Sends an order, or hands it back where there is no room by the look of the eye.
    pub(crate) fn send<R: Abort + Wait>(
        &mut self,
        rt: &R,
        queue: &Queue,
        order: Order,
    ) -> Result<(), Order>
        requires queue { self.old ≡ queue.now }
        ensures queue { self.new ≡ queue.now }
    {
        assert!(rt; !self.stopped);
        assert!(rt; may_come(self.held, order));
        assert!(rt; self.sender.count() < MOST);
        match self.sender.send(rt, queue, &mut self.eye, order) {
            Ok(()) => {
                self.held = holder_after(self.held, order);
                self.stopped = is_stop(order);
                Ok(())
            }
            Err(back) => Err(back),
        }
    }

    /// Tries until a look of the eye finds room.
    pub(crate) fn send_late<R: Wait + Abort>(&mut self, rt: &R, queue: &Queue, order: Order)
        requires queue { self.old ≡ queue.now }
        ensures queue { self.new ≡ queue.now }
    {
        for _ in rt.forever() {
            if let Ok(()) = self.send(rt, queue, order) {
                return;
            }
            thread::yield_now();
        }
        unreachable!()
    }

    /// Both ends of the queue learn what the other one did.
    pub(crate) fn meet(&mut self, queue: &Queue, receiver: &mut Receiver)
        requires queue { self.old ≡ queue.now }
        requires receiver { receiver.old.queue ≡ queue.now }
        ensures queue { self.new ≡ queue.now }
        ensures receiver { receiver.new.queue ≡ queue.now }
    {
        queue.meet(&mut self.sender, &mut self.eye, receiver);
    }

    pub(crate) fn into_sender(self) -> Sender
        ensures { result.queue ≡ self }
    {
        let End {
            sender,
            eye: _,
            held: _,
            stopped: _,
        } = self;
        sender
    }
}

fn may_come(held: Option<u32>, order: Order) -> bool
    ensures { result ≡ true → MayCome held order × NamesTaskBelow 2 order }
{
    match (held, order) {
        (None, Order::Take { task, .. }) => task < 2,
        (None, Order::Stop) => true,
        (Some(of), Order::Release(task)) => of == task && task < 2,
        (Some(_), Order::Run(_)) => true,
        _ => false,
    }
}

fn holder_after(held: Option<u32>, order: Order) -> Option<u32>
    ensures { result ≡ held_after held order }
{
    match order {
        Order::Take { task, .. } => Some(task),
        Order::Release(_) => None,
        _ => held,
    }
}

pub(crate) fn is_stop(order: Order) -> bool
    ensures { result ≡ false → order ≢ Stop }
{
    matches!(order, Order::Stop)
}

/// A queue for two tasks with both of its ends.
pub(crate) fn new_queue(rt: &impl Abort, alloc: Global) -> (Queue, End, Receiver)
    ensures end { result.1 ≡ result.0 }
    ensures receiver { result.2 ≡ new_receiver result.0 }
    ensures two_tasks { result.0.tasks ≡ 2 }
{
    let (queue, mut sender, receiver) = Queue::new(alloc, 2).expect(rt, "memory");
    let eye = sender.eye(&queue);
    (queue, End::new(sender, eye), receiver)
}
