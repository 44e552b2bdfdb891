//! What a queue and its ends do, said of what lies in them.
ghost use Rattle.std.specs.Prelude.{◌≡◌, ℕ, ◌+◌, ◌^◌, ◌<◌, ◌≤◌, ◌++◌, ◌∷◌, [], true, false, IfOk, IfNone, MatchResult, MatchOption, length, List, All};
ghost use Rattle.crossbeam_queue.specs.Passes.{view, IsPassOf, ruled_capacity};
ghost use Rattle.task_set.specs.Orders.{IsObeyable, NamesTaskBelow, has_stop};
ghost use Rattle.order_queues.specs.Batches.{Sendable, batch_orders, left_in};
ghost use Rattle.order_queues.specs.Ends.{new_sender, new_receiver, new_eye, Sends, SendsAll, Receives, KnowsMore, ReceiverKnowsMore};
ghost use Rattle.order_queues.specs.Views.{given, queue_of, sender_of, receiver_of, eye_of};
ghost use Rattle.order_queues.specs.Queue.{end_view};
ghost use Rattle.order_queues.specs.Ties.{IsSenderOf, IsReceiverOf, IsEyeOf};

use crate::batch::{Batch, Rest};
use crate::count::{Count, CountReader};
use crate::lane::{EndView, Lane, OneEnd, Received, Sent, Tasks, TwoEnds, WholeList};
use crate::parts::{QueueParts, ReceiverParts, SenderParts};
use crate::queue::{QUEUE_ROOM, Settled};
use crossbeam_queue::Pass;
use std::alloc::{AllocError, Global};
use std::marker::Brand;
use std::sync::Wait;
use std::thread;
use task_set::Order;

impl QueueParts {
    /// A queue for so many tasks. Nothing is sent or received.
    pub fn new(
        alloc: Global,
        tasks: u32,
    ) -> Result<(QueueParts, SenderParts, ReceiverParts), AllocError>
        ensures tasks { IfOk result (λ made. made.0.tasks ≡ tasks) }
        ensures sender { IfOk result (λ made.
            IsSenderOf made.0 made.1 × (sender_of made.1 ≡ new_sender (queue_of made.0))) }
        ensures receiver { IfOk result (λ made.
            IsReceiverOf made.0 made.2 × (receiver_of made.2 ≡ new_receiver (queue_of made.0))) }
        ensures none_out { IfOk result (λ made. (view made.2.pass).received ≡ []) }
    {
        let (lane, mut pass) = Lane::ruled(alloc, QUEUE_ROOM as usize)?;
        let theirs = split_ends::<Brand>(&lane, &mut pass, tasks);
        let (sent, sent_writer, reader) = Count::new(alloc)?;
        let (received, received_writer, spare) = Count::new(alloc)?;
        let queue = QueueParts {
            lane,
            sent,
            received,
            tasks,
        };
        let sender = SenderParts {
            pass,
            writer: sent_writer,
            spare,
            sent: 0,
        };
        let receiver = ReceiverParts {
            pass: theirs,
            writer: received_writer,
            reader,
            rest: Rest::none(),
            received: 0,
        };
        Ok((queue, sender, receiver))
    }

    /// Tells the eye the number received, and the receiver the number sent.
    pub fn meet(
        &self,
        sender: &mut SenderParts,
        eye: &mut CountReader,
        receiver: &mut ReceiverParts,
    )
        requires sender { IsSenderOf self.now sender.old }
        requires eye { IsEyeOf self.now eye.old }
        requires receiver { IsReceiverOf self.now receiver.old }
        ensures of { IsSenderOf self.now sender.new
            × IsEyeOf self.now eye.new
            × IsReceiverOf self.now receiver.new }
        ensures sender { sender_of sender.new ≡ sender_of sender.old }
        ensures eye { KnowsMore (eye_of eye.old) (eye_of eye.new)
            × (length (given receiver.old) ≤ (eye_of eye.new).known) }
        ensures pass { receiver.new.pass ≡ receiver.old.pass }
        ensures receiver { ReceiverKnowsMore (receiver_of receiver.old) (receiver_of receiver.new)
            × (length (view sender.old.pass).sent ≤ (receiver_of receiver.new).known) }
    {
        self.sent.inform(&mut sender.writer, &mut receiver.reader);
        self.received.inform(&mut receiver.writer, eye);
    }
}

/// The two counts, when both ends are one again and see the whole list.
pub fn settle(queue: QueueParts, sender: SenderParts, receiver: ReceiverParts) -> Settled
    requires sender { IsSenderOf queue sender }
    requires receiver { IsReceiverOf queue receiver }
    ensures counts { (result.sent ≡ length (view sender.pass).sent)
        × (result.received ≡ length (given receiver)) }
    ensures begins { (rest : List Order) × (given receiver ++ rest ≡ (view sender.pass).sent) }
    ensures stopped { has_stop (given receiver) ≡ true → given receiver ≡ (view sender.pass).sent }
{
    let SenderParts { mut pass, sent, .. } = sender;
    let ReceiverParts {
        pass: theirs,
        received,
        ..
    } = receiver;
    queue.lane.absorb::<OneEnd>(&mut pass, theirs);
    queue.lane.learn_as::<WholeList>(&mut pass);
    Settled { sent, received }
}

impl ReceiverParts {
    /// The next order, where a look at the number sent finds one.
    pub fn next<R: Wait>(&mut self, rt: &R, queue: &QueueParts) -> Option<Order>
        requires of { IsReceiverOf queue.now self.old }
        requires sendable { Sendable (view self.old.pass).tasks (view self.old.pass).received }
        ensures of { IsReceiverOf queue.now self.new }
        ensures sendable { Sendable (view self.new.pass).tasks (view self.new.pass).received }
        ensures received { Receives (receiver_of self.old) result (receiver_of self.new) }
    {
        let sent = queue.sent.look(&mut self.reader);
        if sent <= self.received {
            return None;
        }
        let (order, rest) = next_order(rt, &queue.lane, &mut self.pass, self.rest);
        self.rest = rest;
        self.received += 1;
        queue.received.raise(&mut self.writer, self.received);
        Some(order)
    }
}

/// The first order that is left of the last batch, or else of the next one, and what is then left.
fn next_order<R: Wait>(
    rt: &R,
    lane: &Lane,
    pass: &mut Pass<Batch, EndView>,
    rest: Rest,
) -> (Order, Rest)
    requires pass { IsPassOf lane.now pass.old }
    requires role { (view pass.old).pops ≡ true }
    requires sendable { Sendable (view pass.old).tasks (view pass.old).received }
    ensures pass { IsPassOf lane.now pass.new }
    ensures same { view pass.new ≡ end_view (view pass.old).pushes (view pass.old).pops (view pass.old).sent
        (view pass.new).received (view pass.old).tasks }
    ensures next { (front : List Order) → (view pass.old).received ≡ front ++ left_in rest
        → (view pass.new).received ≡ (front ++ result.0 ∷ []) ++ left_in result.1 }
    ensures sendable { Sendable (view pass.old).tasks (view pass.new).received }
{
    if let Some(taken) = rest.split() {
        return taken;
    }
    pop_batch(rt, lane, pass).split()
}

/// Tries until a batch comes out. A try can fail though one was sent: it says nothing of the other thread.
fn pop_batch<R: Wait>(rt: &R, lane: &Lane, pass: &mut Pass<Batch, EndView>) -> Batch
    requires pass { IsPassOf lane.now pass.old }
    requires role { (view pass.old).pops ≡ true }
    ensures pass { IsPassOf lane.now pass.new }
    ensures received { view pass.new
        ≡ end_view (view pass.old).pushes (view pass.old).pops (view pass.old).sent
        ((view pass.old).received ++ batch_orders result) (view pass.old).tasks }
    ensures sendable { Sendable (view pass.old).tasks (view pass.new).received }
{
    for _ in rt.forever() {
        if let Some(batch) = lane.try_pop_as::<Received>(pass) {
            return batch;
        }
        thread::yield_now();
    }
    unreachable!()
}

impl SenderParts {
    /// A reader of the number received.
    pub fn eye(&mut self, queue: &QueueParts) -> CountReader
        requires of { IsSenderOf queue.now self.old }
        ensures of { IsSenderOf queue.now self.new × IsEyeOf queue.now result }
        ensures same { sender_of self.new ≡ sender_of self.old }
        ensures eye { eye_of result ≡ new_eye (queue_of queue.now) }
    {
        let reader = queue.received.new_reader(&mut self.spare);
        reader
    }

    /// Sends an order, where a look at the number received finds room.
    pub fn send<R: Wait>(
        &mut self,
        rt: &R,
        queue: &QueueParts,
        eye: &mut CountReader,
        order: Order,
    ) -> Result<(), Order>
        requires of { IsSenderOf queue.now self.old × IsEyeOf queue.now eye.old }
        requires few { length (view self.old.pass).sent < 2 ^ 62 }
        requires obeyable { IsObeyable ((view self.old.pass).sent ++ order ∷ []) }
        requires below { NamesTaskBelow (view self.old.pass).tasks order }
        ensures of { IsSenderOf queue.now self.new × IsEyeOf queue.now eye.new }
        ensures sent { Sends (sender_of self.old) (eye_of eye.old) order result (sender_of self.new) (eye_of eye.new) }
    {
        let received = queue.received.look(eye);
        if self.sent >= QUEUE_ROOM && self.sent - QUEUE_ROOM >= received {
            return Err(order);
        }
        self.push(rt, queue, &[order]);
        Ok(())
    }

    /// Sends the first of these orders, for as many as a look at the number received finds room, and answers how many.
    pub fn send_all<R: Wait>(
        &mut self,
        rt: &R,
        queue: &QueueParts,
        eye: &mut CountReader,
        orders: &[Order],
    ) -> usize
        requires of { IsSenderOf queue.now self.old × IsEyeOf queue.now eye.old }
        requires few { length (view self.old.pass).sent + length orders.now < 2 ^ 62 }
        requires obeyable { IsObeyable ((view self.old.pass).sent ++ orders.now) }
        requires below { All (NamesTaskBelow (view self.old.pass).tasks) orders.now }
        ensures of { IsSenderOf queue.now self.new × IsEyeOf queue.now eye.new }
        ensures sent { SendsAll (sender_of self.old) (eye_of eye.old) orders.now result (sender_of self.new) (eye_of eye.new) }
    {
        let received = queue.received.look(eye);
        let room = received
            .saturating_add(QUEUE_ROOM)
            .saturating_sub(self.sent);
        let (first, _later) = orders.split_at(orders.len().min(room as usize));
        if !first.is_empty() {
            self.push(rt, queue, first);
        }
        first.len()
    }

    // The orders enter first and are counted after, so that a receiver that looks never waits for one not sent yet.
    fn push<R: Wait>(&mut self, rt: &R, queue: &QueueParts, orders: &[Order])
        requires of { IsSenderOf queue.now self.old }
        requires few { length (view self.old.pass).sent + length orders.now ≤ 2 ^ 62 }
        requires obeyable { IsObeyable ((view self.old.pass).sent ++ orders.now) }
        requires below { All (NamesTaskBelow (view self.old.pass).tasks) orders.now }
        ensures of { IsSenderOf queue.now self.new }
        ensures sent { (view self.new.pass).sent ≡ (view self.old.pass).sent ++ orders.now }
        ensures tasks { (view self.new.pass).tasks ≡ (view self.old.pass).tasks }
    {
        push_orders(rt, &queue.lane, &mut self.pass, orders);
        self.sent += orders.len() as u64;
        queue.sent.raise(&mut self.writer, self.sent);
    }
}

/// The orders enter, batch by batch.
fn push_orders<R: Wait>(rt: &R, lane: &Lane, pass: &mut Pass<Batch, EndView>, orders: &[Order])
    requires pass { IsPassOf lane.now pass.old }
    requires role { (view pass.old).pushes ≡ true }
    requires obeyable { IsObeyable ((view pass.old).sent ++ orders.now) }
    requires below { All (NamesTaskBelow (view pass.old).tasks) orders.now }
    ensures pass { IsPassOf lane.now pass.new }
    ensures sent { view pass.new
        ≡ end_view (view pass.old).pushes (view pass.old).pops
        ((view pass.old).sent ++ orders.now) (view pass.old).received (view pass.old).tasks }
{
    let mut done = 0;
    while done < orders.len() {
        let batch = Batch::of(&orders[done..]);
        push_batch(rt, lane, pass, batch);
        done += batch.count();
    }
}

/// Tries until the batch has entered. A try can fail though there is room: it says nothing of the other thread.
fn push_batch<R: Wait>(rt: &R, lane: &Lane, pass: &mut Pass<Batch, EndView>, batch: Batch)
    requires pass { IsPassOf lane.now pass.old }
    requires role { (view pass.old).pushes ≡ true }
    requires obeyable { IsObeyable ((view pass.old).sent ++ batch_orders batch) }
    requires below { All (NamesTaskBelow (view pass.old).tasks) (batch_orders batch) }
    ensures pass { IsPassOf lane.now pass.new }
    ensures sent { view pass.new
        ≡ end_view (view pass.old).pushes (view pass.old).pops
        ((view pass.old).sent ++ batch_orders batch) (view pass.old).received (view pass.old).tasks }
{
    for _ in rt.forever() {
        if lane.try_push_as::<Sent>(pass, batch).is_ok() {
            return;
        }
        thread::yield_now();
    }
    unreachable!()
}

/// Makes the one pass of a new queue into the sender's and the receiver's, and the queue one for so many tasks.
fn split_ends<J: Tasks>(
    lane: &Lane,
    pass: &mut Pass<Batch, EndView>,
    tasks: u32,
) -> Pass<Batch, EndView>
    requires tasks { tasks ≡ J.tasks }
    requires pass { IsPassOf lane.now pass.old × (view pass.old ≡ end_view true true [] [] 0) }
    ensures passes { IsPassOf lane.now pass.new × IsPassOf lane.now result }
    ensures views { (view pass.new ≡ end_view true false [] [] tasks)
        × (view result ≡ end_view false true [] [] tasks) }
{
    lane.another::<TwoEnds<J>>(pass)
}
