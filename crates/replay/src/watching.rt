//! From a set and its events to one history, the contexts that the workers carried, and what the observers saw.
ghost use Rattle.std.specs.Prelude.{◌≡◌, ◌≤◌, [], All, length, IfOk};
ghost use Rattle.strong_apa.specs.Dispatch.{contexts_of};
ghost use Rattle.event_history.specs.Boards.{AreAllPasses};
ghost use Rattle.schedule_board.specs.Boards.{board_of};
ghost use Rattle.trace_reader.specs.Input.{IsPostedOf};
ghost use Rattle.replay.specs.Joining.{CanWatch};
ghost use Rattle.replay.specs.Replayed.{HaveAllStints, IsReplayOf};
ghost use Rattle.replay.specs.Seats.{AreIdle};
ghost use Rattle.replay.specs.Sightings.{IsSightingOf};
ghost use Rattle.replay.specs.Streams.{IsForBoard, IsUnused};
ghost use Rattle.replay.specs.Watches.{IsToldOf};

use crate::making::{Beginning, beginning_of};
use crate::on_threads::{Replayed, settle_replay};
use crate::rooms::{flags, flags_and_hands};
use crate::schedule::{Schedule, with_contexts};
use crate::shared::Shared;
use crate::sighting::Sighting;
use crate::telling::none_beyond;
use crate::watched_threads::{Told, Watching, in_threads};
use affinity_mask::OutOfMemory;
use context_slots::Slots;
use event_history::laws::board_is_made;
use processor_seat::Gate;
use sched_core::Core;
use schedule_board::make_board;
use std::alloc::Global;
use std::sync::Wait;
use std::thread::Threads;
use task_set::{Context, TaskSet};
use trace_reader::Posted;

/// A closed core with one history of all events, the context of each task as its last holder left it, in task order, and
/// what each observer saw, in the order of the observers.
#[derive(Drop)]
pub struct Watched {
    pub core: Core,
    pub contexts: Vec<Context>,
    pub sightings: Vec<Sighting>,
}

/// A watched replay of events of a set, the slots of the contexts, and what the observers saw.
#[derive(Drop)]
struct WatchedRun {
    slots: Slots,
    replayed: Replayed,
    sightings: Vec<Sighting>,
}

/// Replays events on threads over a beginning, watched by these observers.
fn watched_replay<'a, R: Threads + Wait + Sync, K: Wait + Drop, G: Gate + Sync>(
    rt: &'a R,
    alloc: Global,
    gate: &'a G,
    begun: Beginning,
    events: &'a [Posted],
    watching: Watching<'_, K>,
) -> Result<WatchedRun, OutOfMemory>
    requires passes { AreAllPasses begun.board begun.passes.items }
    requires unused { All IsUnused begun.passes.items }
    requires queues { begun.queues.items ≡ begun.board.queues }
    requires idle { AreIdle begun.queues.items begun.slots begun.processors.items }
    requires one_set { begun.slots.set ≡ begun.board.set }
    requires events { All (IsForBoard begun.board) events.now }
    requires watch { CanWatch watching }
    requires processors { (board_of watching.publisher).processors ≡ begun.slots.set.processors }
    ensures set { IfOk result (λ run. run.slots.set ≡ begun.slots.set) }
    ensures core { IfOk result (λ run. IsReplayOf begun.slots.set events.now run.replayed.core) }
    ensures hands { IfOk result (λ run.
        HaveAllStints run.slots run.replayed.core.history run.replayed.hands.items) }
    ensures each_observer { IfOk result (λ run.
        length run.sightings.items ≡ length watching.entry.observers.items) }
    ensures sightings { IfOk result (λ run.
        All (IsSightingOf begun.slots.set run.replayed.core.history) run.sightings.items) }
{
    let Beginning {
        board,
        passes,
        queues,
        slots,
        processors,
    } = begun;
    board_is_made(&board);
    let (refused, hands) = flags_and_hands(alloc, queues.len())?;
    let shared = Shared {
        rt,
        alloc,
        gate,
        board: &board,
        queues: &queues,
        slots: &slots,
        events,
        refused: &refused,
    };
    let told = in_threads(&shared, passes, processors, watching)?;
    let Told {
        threaded,
        sightings,
    } = told;
    match settle_replay(board, queues, &slots, events, threaded, hands) {
        Ok(replayed) => unless_beyond(slots, replayed, sightings),
        Err(none) => Err(none),
    }
}

/// The run with what the observers saw, unless one of them saw more than the history has.
fn unless_beyond(
    slots: Slots,
    replayed: Replayed,
    sightings: Vec<Sighting>,
) -> Result<WatchedRun, OutOfMemory>
    requires told { All (IsToldOf slots.set.processors replayed.core.history) sightings.items }
    ensures slots { IfOk result (λ run. run.slots ≡ slots) }
    ensures replayed { IfOk result (λ run. run.replayed ≡ replayed) }
    ensures count { IfOk result (λ run. length run.sightings.items ≡ length sightings.items) }
    ensures sightings { IfOk result (λ run.
        All (IsSightingOf slots.set run.replayed.core.history) run.sightings.items) }
{
    if none_beyond(&sightings, replayed.core.history().len()) {
        Ok(WatchedRun {
            slots,
            replayed,
            sightings,
        })
    } else {
        Err(OutOfMemory)
    }
}

/// Replays the events of a set, with so many observers beside it. What is made last is the dearest.
fn watch_set<R: Threads + Wait + Sync, G: Gate + Sync>(
    rt: &R,
    alloc: Global,
    set: &TaskSet,
    events: &[Posted],
    observers: u32,
    gate: &G,
) -> Result<WatchedRun, OutOfMemory>
    requires events { All (IsPostedOf set.now) events.now }
    requires observers { (1 ≤ observers) × (observers ≤ 8) }
    ensures set { IfOk result (λ run. run.slots.set ≡ set.now) }
    ensures core { IfOk result (λ run. IsReplayOf set.now events.now run.replayed.core) }
    ensures hands { IfOk result (λ run.
        HaveAllStints run.slots run.replayed.core.history run.replayed.hands.items) }
    ensures each_observer { IfOk result (λ run. length run.sightings.items ≡ observers) }
    ensures sightings { IfOk result (λ run.
        All (IsSightingOf set.now run.replayed.core.history) run.sightings.items) }
{
    let unwatched = flags(alloc, observers as usize)?;
    let (publisher, observers) = make_board(rt, alloc, set, observers)?;
    let begun = beginning_of(alloc, set, events)?;
    let watching = Watching {
        publisher,
        observers,
        refused: &unwatched,
    };
    watched_replay(rt, alloc, gate, begun, events, watching)
}

/// The schedule of these events, run on threads as a replay runs it, and what so many observers saw of it, each on a thread
/// of its own, without the turn. The caller posts the events in their order, and publishes what came of each. The gate is
/// called around each post, before each take, and at point 3 before each of the observers' 100 reads beside the posts. What
/// a refused start would have done the caller does. Out of memory comes where memory is refused, where an event could not
/// be posted, and where an observer saw more than the history has.
pub fn watched_schedule_of<R: Threads + Wait + Sync, G: Gate + Sync>(
    rt: &R,
    alloc: Global,
    set: &TaskSet,
    events: &[Posted],
    observers: u32,
    gate: &G,
) -> Result<Watched, OutOfMemory>
    requires events { All (IsPostedOf set.now) events.now }
    requires observers { (1 ≤ observers) × (observers ≤ 8) }
    ensures core { IfOk result (λ made. IsReplayOf set.now events.now made.core) }
    ensures contexts { IfOk result (λ made.
        made.contexts.items ≡ contexts_of set.now made.core.history) }
    ensures each_observer { IfOk result (λ made. length made.sightings.items ≡ observers) }
    ensures sightings { IfOk result (λ made.
        All (IsSightingOf set.now made.core.history) made.sightings.items) }
{
    let WatchedRun {
        slots,
        replayed,
        sightings,
    } = watch_set(rt, alloc, set, events, observers, gate)?;
    match with_contexts(alloc, set, slots, replayed) {
        Ok(Schedule { core, contexts }) => Ok(Watched {
            core,
            contexts,
            sightings,
        }),
        Err(none) => Err(none),
    }
}
