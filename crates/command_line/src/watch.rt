//! From the bytes of an input to those of its schedule and its observers.
ghost use Rattle.std.specs.Prelude.{◌≡◌, ◌≤◌, ◌++◌, map, IfErr, IfOk};
ghost use Rattle.commands.specs.Answers.{Answers};
ghost use Rattle.strong_apa.specs.Dispatch.{contexts_of};
ghost use Rattle.strong_apa.specs.History.{IsLegal};
ghost use Rattle.schedule_text.specs.ScheduleText.{schedule_text};
ghost use Rattle.replay.specs.Merge.{IsMerge};
ghost use Rattle.commands.specs.Refusal.{IsAccepted, IsAnsweredInput, RefusesInput};
ghost use Rattle.commands.specs.declared.status.Status.{Status};
ghost use Rattle.command_line.specs.Shown.{reading_of};
ghost use Rattle.command_line.specs.Watch.{IsWatchOf, IsTextOfWatch};
ghost use Rattle.command_line.specs.WatchText.{observers_text};

use crate::observers::write_observers;
use crate::replayed::text_of_replay;
use affinity_mask::OutOfMemory;
use commands::Status;
use processor_seat::Gate;
use replay::{Sighting, watched_schedule_of};
use std::alloc::Global;
use std::sync::Wait;
use std::thread::Threads;
use strong_apa::Entry;
use task_set::Context;
use trace_reader::{Input, read_input};

/// The most observers.
pub const MAX_OBSERVERS: u32 = 8;

/// The schedule text of the input that these bytes are, and a line for each of so many observers; or the status that says
/// why there is none. The gate is called as in `replayed_text`, and by each observer before each of its reads at point 3.
pub fn watched_text<R: Threads + Wait + Sync, G: Gate + Sync>(
    rt: &R,
    alloc: Global,
    bytes: &[u8],
    observers: u32,
    gate: &G,
) -> Result<Vec<u8>, Status>
    requires { (1 ≤ observers) × (observers ≤ 8) }
    ensures { Answers (IsWatchOf observers bytes.now) (IsAccepted bytes.now)
        (IsAnsweredInput (RefusesInput bytes.now)) result }
{
    let input = read_input(alloc, bytes)?;
    text_of(rt, alloc, &input, observers, gate)
}

/// The same of an input. Refused only when out of memory.
fn text_of<R: Threads + Wait + Sync, G: Gate + Sync>(
    rt: &R,
    alloc: Global,
    input: &Input,
    observers: u32,
    gate: &G,
) -> Result<Vec<u8>, Status>
    requires { (1 ≤ observers) × (observers ≤ 8) }
    ensures text { IfOk result (λ text. IsTextOfWatch observers input.now.version input.now.set
        input.now.events text.items) }
    ensures refused { IfErr result (λ status. status ≡ Status.OutOfMemory) }
{
    let made = watched_schedule_of(rt, alloc, input.set(), input.events(), observers, gate)?;
    text_of_watch(
        alloc,
        input,
        made.core.history(),
        &made.contexts,
        &made.sightings,
    )
}

/// The schedule text of a replay of an input, with what the observers read after it. Refused only when out of memory.
fn text_of_watch(
    alloc: Global,
    input: &Input,
    history: &[Entry],
    contexts: &[Context],
    sightings: &[Sighting],
) -> Result<Vec<u8>, Status>
    requires merge { IsMerge input.now.events history.now }
    requires legal { IsLegal input.now.set history.now }
    requires contexts { contexts.now ≡ contexts_of input.now.set history.now }
    ensures text { IfOk result (λ text. text.items ≡ schedule_text input.now.version
        input.now.set history.now contexts.now ++ observers_text (map reading_of sightings.now)) }
    ensures refused { IfErr result (λ status. status ≡ Status.OutOfMemory) }
{
    let text = text_of_replay(alloc, input, history, contexts)?;
    let text = with_observers(text, sightings)?;
    Ok(text)
}

/// The text with what the observers read after it.
fn with_observers(mut text: Vec<u8>, sightings: &[Sighting]) -> Result<Vec<u8>, OutOfMemory>
    ensures { IfOk result (λ whole. whole.items ≡ text.items
        ++ observers_text (map reading_of sightings.now)) }
{
    write_observers(&mut text, sightings)?;
    Ok(text)
}
