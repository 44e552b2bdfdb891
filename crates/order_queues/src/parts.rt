//! What lies in a queue and in its two ends.
ghost use Rattle.std.specs.Prelude.{◌≡◌, ◌+◌, ◌++◌, [], true, false, length, take};
ghost use Rattle.crossbeam_queue.specs.Passes.{view, ruled_capacity};
ghost use Rattle.order_queues.specs.Ends.{queue_room};
ghost use Rattle.order_queues.specs.Batches.{left_in};
ghost use Rattle.order_queues.specs.Queue.{end_view};

use crate::batch::{Batch, Rest};
use crate::count::{Count, CountReader, CountWriter};
use crate::lane::{EndView, Lane};
use crossbeam_queue::Pass;

/// What lies in a queue.
#[derive(Drop)]
pub struct QueueParts {
    /// The orders on their way.
    pub lane: Lane,
    /// The number of orders sent.
    pub sent: Count,
    /// The number of orders received.
    pub received: Count,
    /// For how many tasks the queue was made.
    pub tasks: u32,
    ghost room: { ruled_capacity lane ≡ queue_room },
}

/// What lies in a sender.
#[derive(Drop)]
pub struct SenderParts {
    /// Only this pass pushes.
    pub pass: Pass<Batch, EndView>,
    /// Writes the number of orders sent.
    pub writer: CountWriter,
    /// A reader of the other number, of which each eye is split off. It never looks.
    pub spare: CountReader,
    /// The number of orders sent.
    pub sent: u64,
    ghost counted: { (sent ≡ writer.seat.me.0.number) × (sent ≡ length (view pass).sent) },
    ghost role: { view pass ≡ end_view true false (view pass).sent [] (view pass).tasks },
}

/// What lies in a receiver.
#[derive(Drop)]
pub struct ReceiverParts {
    /// Only this pass pops.
    pub pass: Pass<Batch, EndView>,
    /// Writes the number of orders received.
    pub writer: CountWriter,
    /// Looks at the number of orders sent.
    pub reader: CountReader,
    /// What is left of the batch that came out last.
    pub rest: Rest,
    /// The number of orders received.
    pub received: u64,
    ghost counted: { (received ≡ writer.seat.me.0.number)
        × (received + length (left_in rest) ≡ length (view pass).received) },
    ghost left: { (view pass).received ≡ take received (view pass).received ++ left_in rest },
    ghost role: { view pass ≡ end_view false true [] (view pass).received (view pass).tasks },
}
