//! From the bytes of an input to those of its schedule.
ghost use Rattle.std.specs.Prelude.{◌≡◌, IfErr, IfOk};
ghost use Rattle.strong_apa.specs.Dispatch.{contexts_of};
ghost use Rattle.strong_apa.specs.History.{IsLegal};
ghost use Rattle.commands.specs.Answers.{Answers};
ghost use Rattle.commands.specs.Refusal.{IsAccepted, IsAnsweredInput, RefusesInput};
ghost use Rattle.commands.specs.declared.status.Status.{Status};
ghost use Rattle.command_line.specs.Run.{IsRunOf, IsTextOfReplay};
ghost use Rattle.schedule_text.specs.ScheduleText.{schedule_text};
ghost use Rattle.replay.specs.Merge.{IsMerge};

use commands::Status;
use processor_seat::Gate;
use replay::schedule_of;
use schedule_text::write_schedule;
use std::alloc::Global;
use std::sync::Wait;
use std::thread::Threads;
use strong_apa::Entry;
use task_set::Context;
use trace_reader::{Input, read_input};

/// The schedule text of the input that these bytes are, or the status that says why there is none.
pub fn replayed_text<R: Threads + Wait + Sync, G: Gate + Sync>(
    rt: &R,
    alloc: Global,
    bytes: &[u8],
    gate: &G,
) -> Result<Vec<u8>, Status>
    ensures { Answers (IsRunOf bytes.now) (IsAccepted bytes.now)
        (IsAnsweredInput (RefusesInput bytes.now)) result }
{
    let input = read_input(alloc, bytes)?;
    text_of(rt, alloc, &input, gate)
}

/// The schedule text of an input. Refused only when out of memory.
fn text_of<R: Threads + Wait + Sync, G: Gate + Sync>(
    rt: &R,
    alloc: Global,
    input: &Input,
    gate: &G,
) -> Result<Vec<u8>, Status>
    ensures text { IfOk result (λ text. IsTextOfReplay input.now.version input.now.set
        input.now.events text.items) }
    ensures refused { IfErr result (λ status. status ≡ Status.OutOfMemory) }
{
    let made = schedule_of(rt, alloc, input.set(), input.events(), gate)?;
    text_of_replay(alloc, input, made.core.history(), &made.contexts)
}

/// The schedule text of a replay of an input, by its history and the contexts that it gives. Refused only when out of memory.
pub(crate) fn text_of_replay(
    alloc: Global,
    input: &Input,
    history: &[Entry],
    contexts: &[Context],
) -> Result<Vec<u8>, Status>
    requires merge { IsMerge input.now.events history.now }
    requires legal { IsLegal input.now.set history.now }
    requires contexts { contexts.now ≡ contexts_of input.now.set history.now }
    ensures text { IfOk result (λ text. text.items ≡ schedule_text input.now.version
        input.now.set history.now contexts.now) }
    ensures refused { IfErr result (λ status. status ≡ Status.OutOfMemory) }
{
    let text = write_schedule(alloc, input.version(), input.set(), history, contexts)?;
    Ok(text)
}
