//! From a set and its events to one history and the contexts that the workers carried.
ghost use Rattle.std.specs.Prelude.{◌≡◌, All, IfOk};
ghost use Rattle.strong_apa.specs.Dispatch.{contexts_of};
ghost use Rattle.strong_apa.specs.History.{IsLegal};
ghost use Rattle.replay.specs.Replayed.{HaveAllStints, IsReplayOf};
ghost use Rattle.trace_reader.specs.Input.{IsPostedOf};

use crate::making::{Beginning, beginning_of};
use crate::on_threads::{Replayed, replay};
use affinity_mask::OutOfMemory;
use context_slots::{Hand, Slots};
use processor_seat::Gate;
use sched_core::Core;
use std::alloc::Global;
use std::sync::Wait;
use std::thread::Threads;
use task_set::{Context, TaskSet};
use trace_reader::Posted;

/// A closed core with one history of all events, and the context of each task as its last holder left it, in task order.
#[derive(Drop)]
pub struct Schedule {
    pub core: Core,
    pub contexts: Vec<Context>,
}

/// The schedule of these events, run on threads: a worker for each processor, and a thread for each stream that has
/// events. The gate is called around each post and before each take. Out of memory comes where memory is refused, and
/// where an event could not be posted.
pub fn schedule_of<R: Threads + Wait + Sync, G: Gate + Sync>(
    rt: &R,
    alloc: Global,
    set: &TaskSet,
    events: &[Posted],
    gate: &G,
) -> Result<Schedule, OutOfMemory>
    requires events { All (IsPostedOf set.now) events.now }
    ensures core { IfOk result (λ made. IsReplayOf set.now events.now made.core) }
    ensures contexts { IfOk result (λ made. made.contexts.items ≡ contexts_of set.now made.core.history) }
{
    let Beginning {
        board,
        passes,
        queues,
        slots,
        processors,
    } = beginning_of(alloc, set, events)?;
    match replay(
        rt, alloc, board, passes, queues, &slots, processors, events, gate,
    ) {
        Ok(replayed) => with_contexts(alloc, set, slots, replayed),
        Err(none) => Err(none),
    }
}

/// The schedule of a replay of events of the set, once its slots are closed.
pub fn with_contexts(
    alloc: Global,
    set: &TaskSet,
    slots: Slots,
    replayed: Replayed,
) -> Result<Schedule, OutOfMemory>
    requires set { slots.set ≡ set.now }
    requires legal { IsLegal set.now replayed.core.history }
    requires hands { HaveAllStints slots replayed.core.history replayed.hands.items }
    ensures core { IfOk result (λ made. made.core ≡ replayed.core) }
    ensures contexts { IfOk result (λ made. made.contexts.items ≡ contexts_of set.now made.core.history) }
{
    let Replayed { core, hands } = replayed;
    match carried_contexts(alloc, set, slots, &core, hands) {
        Ok(contexts) => Ok(Schedule { core, contexts }),
        Err(none) => Err(none),
    }
}

/// The contexts as the last holders left them, in task order, where each hand has the stints of its processor's orders.
pub fn carried_contexts(
    alloc: Global,
    set: &TaskSet,
    slots: Slots,
    core: &Core,
    hands: Vec<Hand>,
) -> Result<Vec<Context>, OutOfMemory>
    requires set { slots.set ≡ set.now }
    requires legal { IsLegal set.now core.now.history }
    requires hands { HaveAllStints slots core.now.history hands.items }
    ensures { IfOk result (λ contexts. contexts.items ≡ contexts_of set.now core.now.history) }
{
    let _tasks = set.len();
    match slots.close(alloc, hands) {
        Ok(contexts) => Ok(contexts),
        Err(_unclosed) => Err(OutOfMemory),
    }
}
