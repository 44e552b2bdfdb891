//! The replay of events on threads: a worker for each processor, and a thread for each stream that has events.
ghost use Rattle.std.specs.Prelude.{◌≡◌, ◌≤◌, [], All, Bool, true, length, map, vec_capacity, IfOk};
ghost use Rattle.event_history.specs.Boards.{AreAllPasses, AreEyesOf, Grown};
ghost use Rattle.event_history.specs.Closing.{AllTell, AreSendersOf, IsCoreOf};
ghost use Rattle.replay.specs.Driving.{IsDone, seat_of};
ghost use Rattle.replay.specs.Places.{AllFrom};
ghost use Rattle.replay.specs.Replayed.{HaveAllStints, IsReplayOf};
ghost use Rattle.replay.specs.Seats.{AreIdle, IsSeated};
ghost use Rattle.replay.specs.Sharing.{IsShared};
ghost use Rattle.replay.specs.Streams.{IsForBoard, IsStreamedAt, IsUnused, SomeSawClose};
ghost use Rattle.replay.specs.Threading.{AreThreaded, CanRun, CanStart};

use crate::driving::drive;
use crate::ends::end_all;
use crate::flushing::flush_all;
use crate::rooms::{Rooms, flags_and_hands, make_rooms};
use crate::shared::Shared;
use crate::{streams, workers};
use affinity_mask::OutOfMemory;
use context_slots::{Hand, Slots};
use event_history::laws::board_is_made;
use event_history::{Board, Pass};
use order_queues::{Queue, Sender};
use processor_seat::{Gate, Processor};
use sched_core::Core;
use std::alloc::Global;
use std::sync::Wait;
use std::thread;
use std::thread::{Scope, Threads};
use trace_reader::Posted;

/// The core of a replay, closed, and the hands of the processors, in the order of their numbers.
#[derive(Drop)]
pub struct Replayed {
    pub core: Core,
    pub hands: Vec<Hand>,
}

/// What the threads leave: the passes in the order of their callers, whether all events were posted, and the processors
/// in the order of their numbers.
#[derive(Drop)]
pub struct Threaded {
    pub passes: Vec<Pass>,
    pub whole: bool,
    pub processors: Vec<Processor>,
}

/// Closes the core with this pass. What is owed is sent, and the processors that have no thread are stepped.
pub fn close_core<R: Wait, G: Gate>(
    shared: &Shared<R, G>,
    pass: &mut Pass,
    left: &mut Vec<Processor>,
)
    requires shared { IsShared shared.now }
    requires board { pass.old.board ≡ shared.now.board.now.id }
    requires eyes { AreEyesOf shared.now.board.now.queues pass.old.eyes }
    requires seated { All (IsSeated shared.now.queues.now shared.now.slots.now) left.old.items }
    ensures grown { Grown pass.old pass.new }
    ensures mine { pass.new.mine ≡ pass.old.mine }
    ensures eyes { AreEyesOf shared.now.board.now.queues pass.new.eyes }
    ensures closed { pass.new.saw_close ≡ true }
    ensures same { map seat_of left.new.items ≡ map seat_of left.old.items }
    ensures done { All (IsDone shared.now.queues.now shared.now.slots.now) left.new.items }
{
    let Shared {
        rt,
        board,
        queues,
        slots,
        gate,
        ..
    } = shared;
    board.finish(*rt, pass);
    drive(*rt, board, pass, queues, slots, left, *gate);
    flush_all(*rt, board, queues, pass);
}

/// The pass of the last caller closes the core; the passes come back in their order.
fn close_by_last<R: Wait, G: Gate>(
    shared: &Shared<R, G>,
    passes: &mut Vec<Pass>,
    whole: bool,
    left: &mut Vec<Processor>,
)
    requires shared { IsShared shared.now }
    requires callers { (1 ≤ shared.now.board.now.callers)
        × (length passes.old.items ≡ shared.now.board.now.callers) }
    requires streamed { AllFrom (IsStreamedAt shared.now.board.now shared.now.events.now whole)
        0 passes.old.items }
    requires seated { All (IsSeated shared.now.queues.now shared.now.slots.now) left.old.items }
    ensures callers { length passes.new.items ≡ shared.now.board.now.callers }
    ensures streamed { AllFrom (IsStreamedAt shared.now.board.now shared.now.events.now whole)
        0 passes.new.items }
    ensures closed { SomeSawClose passes.new.items }
    ensures same { map seat_of left.new.items ≡ map seat_of left.old.items }
    ensures done { All (IsDone shared.now.queues.now shared.now.slots.now) left.new.items }
{
    let Some(mut last) = passes.pop() else {
        unreachable!()
    };
    close_core(shared, &mut last, left);
    if let Err(_full) = passes.push(last) {
        unreachable!()
    }
}

/// Starts all threads, closes the core once the streams are joined, and joins the workers. The streams are started first:
/// they post while the workers are started, and none of them waits for a worker. All memory of the joins is taken before
/// the first start, since a worker that was started waits for its `Stop`.
fn run_threads<'s, 'a: 's, 'b: 's, E, R: Threads + Wait + Sync, G: Gate + Sync>(
    scope: &Scope<'s, E>,
    shared: &Shared<'a, 'b, R, G>,
    passes: Vec<Pass>,
    processors: Vec<Processor>,
) -> Result<Threaded, OutOfMemory>
    requires run { CanRun shared.now passes.items processors.items }
    ensures { IfOk result (AreThreaded shared.entry.now.board.now shared.entry.now.events.now
        shared.entry.now.queues.now shared.entry.now.slots.now) }
{
    let Rooms {
        workers,
        left,
        stopped,
        others,
        back,
    } = make_rooms(shared.alloc, shared.queues.len(), passes.len())?;
    let posting = streams::start_all(scope, shared, passes, others);
    let (workers, mut left) = workers::start_all(scope, shared, processors, workers, left);
    let (mut passes, whole) = streams::join_all(
        shared.rt,
        shared.board,
        shared.events,
        posting,
        back,
    );
    close_by_last(shared, &mut passes, whole, &mut left);
    let processors = workers::join_all(shared, workers, left, stopped);
    Ok(Threaded {
        passes,
        whole,
        processors,
    })
}

/// Runs the threads in a scope of their own. The closure takes what is shared apart and puts it together again: of a
/// closure that has it as one reference the scope's caller learns nothing.
fn in_threads<R: Threads + Wait + Sync, G: Gate + Sync>(
    shared: &Shared<R, G>,
    passes: Vec<Pass>,
    processors: Vec<Processor>,
) -> Result<Threaded, OutOfMemory>
    requires run { CanRun shared.now passes.items processors.items }
    ensures { IfOk result (AreThreaded shared.now.board.now shared.now.events.now
        shared.now.queues.now shared.now.slots.now) }
{
    let (rt, alloc, gate) = (shared.rt, shared.alloc, shared.gate);
    let (board, queues, slots) = (shared.board, shared.queues, shared.slots);
    let (events, refused) = (shared.events, shared.refused);
    thread::scope(
        thread::scope_env(),
        rt,
        move |scope| -> Result<Threaded, OutOfMemory>
            requires { CanStart board.now queues.now slots.now events.now (length refused.now)
                passes.items processors.items }
            ensures { IfOk result (AreThreaded board.entry.now events.entry.now
                queues.entry.now slots.entry.now) }
        {
            let shared = Shared {
                rt,
                alloc,
                gate,
                board,
                queues,
                slots,
                events,
                refused,
            };
            run_threads(scope, &shared, passes, processors)
        },
    )
}

/// The core and the senders of a board, once all its passes are back. Out of memory where not all events were posted.
fn closed(board: Board, passes: Vec<Pass>, whole: bool) -> Result<(Core, Vec<Sender>), OutOfMemory>
    requires { AreAllPasses board passes.items }
    ensures closed { IfOk result (λ back. IsCoreOf board passes.items back.0) }
    ensures senders { IfOk result (λ back. AreSendersOf board back.0 back.1.items) }
    ensures whole { IfOk result (λ _. whole ≡ true) }
{
    if !whole {
        return Err(OutOfMemory);
    }
    match board.close(passes) {
        Ok(back) => Ok(back),
        Err(_never) => unreachable!(),
    }
}

/// Closes the board once all threads are joined, and settles the queues. `hands` is an empty list with room for a hand for
/// each processor, so no memory is taken. Out of memory comes where an event could not be posted.
pub fn settle_replay(
    board: Board,
    queues: Vec<Queue>,
    slots: &Slots,
    events: &[Posted],
    done: Threaded,
    hands: Vec<Hand>,
) -> Result<Replayed, OutOfMemory>
    requires threaded { AreThreaded board events.now queues.items slots.now done }
    requires queues { queues.items ≡ board.queues }
    requires one_set { slots.now.set ≡ board.set }
    requires events { All (IsForBoard board) events.now }
    requires room { (hands.items ≡ []) × (length queues.items ≤ vec_capacity hands) }
    ensures core { IfOk result (λ made. IsReplayOf slots.now.set events.now made.core) }
    ensures hands { IfOk result (λ made. HaveAllStints slots.now made.core.history made.hands.items) }
    ensures told { IfOk result (λ made. AllTell made.core.history made.core.closed done.passes.items) }
    ensures whole { IfOk result (λ _. done.whole ≡ true) }
{
    let Threaded {
        passes,
        whole,
        processors,
    } = done;
    match closed(board, passes, whole) {
        Ok((core, senders)) => {
            let hands = end_all(slots, &core, queues, senders, processors, hands);
            Ok(Replayed { core, hands })
        }
        Err(none) => Err(none),
    }
}

/// Replays events on threads. In a scope it starts a thread for each processor, which obeys the orders that come through
/// its queue, and a thread for each stream that has events, which posts them in their order. Then the core is closed, the
/// threads are joined, and the board and the queues are settled. What a refused start would have done the caller does.
/// A queue, a receiver and a hand are those of the processor's number. Out of memory comes where memory is refused, and
/// where an event could not be posted; all that was handed in by value is dropped then.
pub fn replay<R: Threads + Wait + Sync, G: Gate + Sync>(
    rt: &R,
    alloc: Global,
    board: Board,
    passes: Vec<Pass>,
    queues: Vec<Queue>,
    slots: &Slots,
    processors: Vec<Processor>,
    events: &[Posted],
    gate: &G,
) -> Result<Replayed, OutOfMemory>
    requires passes { AreAllPasses board passes.items }
    requires unused { All IsUnused passes.items }
    requires queues { queues.items ≡ board.queues }
    requires idle { AreIdle queues.items slots.now processors.items }
    requires one_set { slots.now.set ≡ board.set }
    requires events { All (IsForBoard board) events.now }
    ensures core { IfOk result (λ done. IsReplayOf slots.now.set events.now done.core) }
    ensures hands { IfOk result (λ done. HaveAllStints slots.now done.core.history done.hands.items) }
{
    let parts = Parts {
        board,
        passes,
        queues,
        processors,
    };
    replay_parts(rt, alloc, parts, slots, events, gate)
}

/// What a replay takes by value: a board with its passes, and a queue and a processor for each processor of its set.
struct Parts {
    board: Board,
    passes: Vec<Pass>,
    queues: Vec<Queue>,
    processors: Vec<Processor>,
}

/// Replays events on threads, as [`replay`] says.
fn replay_parts<'a, R: Threads + Wait + Sync, G: Gate + Sync>(
    rt: &'a R,
    alloc: Global,
    parts: Parts,
    slots: &'a Slots,
    events: &'a [Posted],
    gate: &'a G,
) -> Result<Replayed, OutOfMemory>
    requires passes { AreAllPasses parts.board parts.passes.items }
    requires unused { All IsUnused parts.passes.items }
    requires queues { parts.queues.items ≡ parts.board.queues }
    requires idle { AreIdle parts.queues.items slots.now parts.processors.items }
    requires one_set { slots.now.set ≡ parts.board.set }
    requires events { All (IsForBoard parts.board) events.now }
    ensures core { IfOk result (λ done. IsReplayOf slots.entry.now.set events.entry.now done.core) }
    ensures hands { IfOk result (λ done.
        HaveAllStints slots.entry.now done.core.history done.hands.items) }
{
    let Parts {
        board,
        passes,
        queues,
        processors,
    } = parts;
    board_is_made(&board);
    let (refused, hands) = flags_and_hands(alloc, queues.len())?;
    let shared = Shared {
        rt,
        alloc,
        gate,
        board: &board,
        queues: &queues,
        slots,
        events,
        refused: &refused,
    };
    let done = in_threads(&shared, passes, processors)?;
    settle_replay(board, queues, slots, events, done, hands)
}
