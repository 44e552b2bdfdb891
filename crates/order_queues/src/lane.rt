//! The queue in which orders lie, under the rule of specs/Queue.antt, and its steps.
ghost use Rattle.std.specs.Prelude.{◌≡◌, ℕ, ◌++◌, [], true, false};
ghost use Rattle.task_set.specs.Orders.{IsObeyable};
ghost use Rattle.order_queues.specs.Batches.{Sendable, batch_orders, orders_in};
ghost use Rattle.order_queues.specs.Queue.{end_view, QueueRule};

use crate::batch::Batch;
use crossbeam_queue::RuledArrayQueue;
use crossbeam_queue::protocol::{Join, Lesson, Outcome, Protocol, Split};
use std::collections::LinkedList;
use std::marker::{Brand, PhantomData};
use task_set::Order;

/// Batches of orders in the order in which they were sent, without the two counts.
pub type Lane = RuledArrayQueue<Batch, EndView, InOrder>;

/// What the holder of a pass may do and has done. Clauses alone speak of it: no value of it is ever made.
pub struct EndView {
    /// It may push.
    pub pushes: bool,
    /// It may pop.
    pub pops: bool,
    /// The orders that it pushed.
    pub sent: LinkedList<Order>,
    /// The orders that it popped.
    pub received: LinkedList<Order>,
    /// The number of tasks of its queue. It is 0 until the two ends are made.
    pub tasks: u32,
}

/// The rule of the queue. It starts with one pass that does both.
pub struct InOrder;

impl Protocol<Batch, EndView> for InOrder {
    ghost holds = { QueueRule };

    ghost first = { end_view true true [] [] 0 };
}

/// A number of tasks, which the call that makes the two ends picks: the rule is the same for each queue.
pub trait Tasks {
    ghost tasks: { ℕ };
}

impl Tasks for Brand {
    ghost tasks = { 0 };
}

/// The one pass becomes the sender's and the receiver's.
pub struct TwoEnds<J>(PhantomData<J>);

impl<J: Tasks> Split<EndView> for TwoEnds<J> {
    ghost left = { λ v. end_view true false v.sent [] J.tasks };

    ghost right = { λ v. end_view false true [] v.received J.tasks };
}

/// The sender's pass takes up the receiver's.
pub struct OneEnd;

impl Join<EndView> for OneEnd {
    ghost both = { λ v w. end_view true true v.sent w.received v.tasks };

    ghost spent = { end_view false false [] [] 0 };
}

/// What a push tells its caller.
pub struct Sent;

impl Outcome<Batch, EndView> for Sent {
    ghost then = { λ v x w. w ≡ end_view v.pushes v.pops (v.sent ++ batch_orders x) v.received v.tasks };
}

/// What a pop tells its caller.
pub struct Received;

impl Outcome<Batch, EndView> for Received {
    ghost then = { λ v x w. (w ≡ end_view v.pushes v.pops v.sent (v.received ++ batch_orders x) v.tasks)
        × Sendable v.tasks w.received };
}

/// What a pass that does both knows of the orders in the queue.
pub struct WholeList;

impl Lesson<Batch, EndView> for WholeList {
    ghost fact = { λ v items. (v.sent ≡ v.received ++ orders_in items) × IsObeyable v.sent };
}
