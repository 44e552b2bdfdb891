//! Processors that have no thread: their caller steps them.
ghost use Rattle.std.specs.Prelude.{◌≡◌, [], All, map, true};
ghost use Rattle.event_history.specs.Boards.{AreEyesOf, AreFor, Grown};
ghost use Rattle.replay.specs.Driving.{IsDone, seat_of};
ghost use Rattle.replay.specs.Seats.{IsSeated};

use crate::flushing::flush;
use crate::workers::queue_of;
use context_slots::Slots;
use event_history::{Board, Pass};
use order_queues::Queue;
use processor_seat::{Gate, Processor, Step};
use std::sync::Wait;

/// Steps a processor once, and reports whether it has stopped.
fn step_one<R: Wait, G: Gate>(
    rt: &R,
    queues: &[Queue],
    slots: &Slots,
    gate: &G,
    processor: &mut Processor,
) -> bool
    requires tasks { AreFor slots.now.set queues.now }
    requires seated { IsSeated queues.now slots.now processor.old }
    ensures same { seat_of processor.new ≡ seat_of processor.old }
    ensures seated { IsSeated queues.now slots.now processor.new }
    ensures done { result ≡ true → IsDone queues.now slots.now processor.new }
{
    let queue = queue_of(queues, slots, processor);
    match processor.step(rt, queue, slots, gate) {
        Step::Stopped => true,
        _ => false,
    }
}

/// Steps each of these processors once, and reports whether all of them have stopped.
fn step_each<R: Wait, G: Gate>(
    rt: &R,
    queues: &[Queue],
    slots: &Slots,
    gate: &G,
    processors: &mut Vec<Processor>,
) -> bool
    requires tasks { AreFor slots.now.set queues.now }
    requires seated { All (IsSeated queues.now slots.now) processors.old.items }
    ensures same { map seat_of processors.new.items ≡ map seat_of processors.old.items }
    ensures seated { All (IsSeated queues.now slots.now) processors.new.items }
    ensures done { result ≡ true → All (IsDone queues.now slots.now) processors.new.items }
{
    let mut stopped = true;
    for i in 0..processors.len() {
        let one = step_one(rt, queues, slots, gate, &mut processors[i]);
        stopped &= one;
    }
    stopped
}

/// Does the work of processors that have no thread, once the core is closed: in rotation it sends what is owed by one
/// flush and steps each processor once, until all of them have stopped. A flush alone would not do, since a queue that
/// nobody empties stays full. Where there is no processor it changes nothing. Takes no memory.
pub fn drive<R: Wait, G: Gate>(
    rt: &R,
    board: &Board,
    pass: &mut Pass,
    queues: &[Queue],
    slots: &Slots,
    processors: &mut Vec<Processor>,
    gate: &G,
)
    requires board { pass.old.board ≡ board.now.id }
    requires closed { pass.old.saw_close ≡ true }
    requires eyes { AreEyesOf board.now.queues pass.old.eyes }
    requires queues { queues.now ≡ board.now.queues }
    requires tasks { AreFor slots.now.set queues.now }
    requires seated { All (IsSeated queues.now slots.now) processors.old.items }
    ensures grown { Grown pass.old pass.new }
    ensures mine { pass.new.mine ≡ pass.old.mine }
    ensures eyes { AreEyesOf board.now.queues pass.new.eyes }
    ensures unless_any { processors.old.items ≡ [] → pass.new ≡ pass.old }
    ensures same { map seat_of processors.new.items ≡ map seat_of processors.old.items }
    ensures done { All (IsDone queues.now slots.now) processors.new.items }
{
    if processors.is_empty() {
        return;
    }
    for _ in rt.forever() {
        flush(rt, board, queues, pass);
        if step_each(rt, queues, slots, gate, processors) {
            return;
        }
    }
    unreachable!()
}
