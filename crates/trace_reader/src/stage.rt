//! What was read so far, and what is expected.
ghost use Rattle.std.specs.Prelude.{◌≡◌, ℕ, ◌≤◌, ◌↔◌, IsTrue, [], length, IfOk, IfErr, OnOk, MatchOption, MatchBool, MatchResult};
ghost use Rattle.trace_reader.specs.declared.posted.Posted.{Posted};
ghost use Rattle.trace_reader.specs.InputText.{IsHeader, IsProcessorsLine, end_line};
ghost use Rattle.trace_reader.specs.LineOutcome.{BeginsTask, IsForTask, IsTaskOutcome, IsEventOutcome, IsFieldsOutcome};
ghost use Rattle.trace_reader.specs.Progress.{HeaderExpected, ProcessorsExpected, Listed};
ghost use Rattle.trace_reader.specs.Reading.{progress_of, progress_of_lists, Says, IsExpected, IsEndOutcome, IsFaultOf};
ghost use Rattle.text_fields.specs.Machine.{Leads, Fails};
ghost use Rattle.text_fields.specs.Fields.{texts};

use crate::event::{outside_of, read_event};
use crate::fault::InputKind;
use crate::input::{FIRST_VERSION, Input, LAST_VERSION, MAX_EVENTS, MAX_PRIORITY, MAX_PROCESSORS};
use crate::posted::Posted;
use affinity_mask::ProcSet;
use std::alloc::Global;
use std::str;
use task_set::{TaskFault, TaskSet};
use text_fields::{LineKind, LineMachine, is_word, read_number};

/// What some lines said, and so what is expected after them.
#[derive(Drop)]
pub enum Stage {
    /// The header is expected.
    HeaderExpected,

    /// The number of processors is expected.
    ProcessorsExpected { version: u8 },

    /// Tasks, then events, then the end are expected, or the end came.
    Listed(Lists),
}

/// The tasks and events so far, and whether the end came.
#[derive(Drop)]
pub struct Lists {
    version: u8,
    set: TaskSet,
    events: Vec<Posted>,
    is_ended: bool,
}

impl LineMachine for Stage {
    ghost use Rattle.std.specs.Prelude.{true};
    ghost use Rattle.trace_reader.specs.InputFault.{input_kind};
    ghost use Rattle.trace_reader.specs.Progress.{Progress as Expected, HeaderExpected};
    ghost use Rattle.trace_reader.specs.LineOutcome.{IsFieldsOutcome};
    ghost use Rattle.trace_reader.specs.Reading.{progress_of, IsExpected, IsEndOutcome};

    type Value = Input;

    type Kind = InputKind;

    const LONGEST_LINE: usize = 4096;

    const HAS_COMMENTS: bool = true;

    ghost LONGEST_LINE = { 4096 };

    ghost HAS_COMMENTS = { true };

    ghost Progress = { Expected };

    ghost progress = { progress_of };

    ghost begins = { HeaderExpected };

    ghost IsValid = { IsExpected };

    ghost Says = { IsFieldsOutcome };

    ghost Ends = { IsEndOutcome };

    ghost kind_of = { input_kind };

    fn kind_of(kind: LineKind) -> InputKind {
        match kind {
            LineKind::BadByte => InputKind::BadByte,
            LineKind::LongLine => InputKind::LongLine,
            LineKind::OutOfMemory => InputKind::OutOfMemory,
        }
    }

    // What a line lists is put into the lists where they are, as there are many such lines.
    fn after(&mut self, alloc: Global, fields: &[&[u8]]) -> Result<(), InputKind> {
        match self {
            Stage::HeaderExpected => self.after_header(fields),
            Stage::ProcessorsExpected { version } => {
                let version = *version;
                self.after_processors(alloc, version, fields)
            }
            Stage::Listed(lists) => lists.after(fields),
        }
    }

    fn at_end(self) -> Result<Input, InputKind> {
        match self {
            Stage::Listed(lists) => lists.into_input(),
            _ => Err(InputKind::NoEnd),
        }
    }
}

impl Stage {
    /// Goes on to the next stage.
    fn go_on(&mut self, next: Stage)
        ensures { self.new ≡ next }
    {
        *self = next;
    }

    /// Goes on by the header.
    fn after_header(&mut self, fields: &[&[u8]]) -> Result<(), InputKind>
        ensures read { OnOk result (Says HeaderExpected (texts fields.now) (progress_of self.new)) }
        ensures refused { IfErr result (IsFaultOf (IsFieldsOutcome HeaderExpected (texts fields.now))) }
    {
        match read_version(fields) {
            Some(version) => {
                self.go_on(Stage::ProcessorsExpected { version });
                Ok(())
            }
            None => Err(InputKind::BadHeader),
        }
    }

    /// Goes on by the number of processors.
    fn after_processors(
        &mut self,
        alloc: Global,
        version: u8,
        fields: &[&[u8]],
    ) -> Result<(), InputKind>
        ensures read { OnOk result (Says (ProcessorsExpected version) (texts fields.now)
            (progress_of self.new)) }
        ensures refused { IfErr result (IsFaultOf (IsFieldsOutcome (ProcessorsExpected version) (texts fields.now))) }
    {
        match start(alloc, version, fields) {
            Ok(lists) => {
                self.go_on(Stage::Listed(lists));
                Ok(())
            }
            Err(kind) => Err(kind),
        }
    }
}

impl Lists {
    /// Goes on by a line that is not skipped, by its fields.
    fn after(&mut self, fields: &[&[u8]]) -> Result<(), InputKind>
        requires { IsExpected (progress_of_lists self.old) }
        ensures read { OnOk result (Says (progress_of_lists self.old) (texts fields.now)
            (progress_of_lists self.new)) }
        ensures refused { IfErr result (IsFaultOf (IsFieldsOutcome (progress_of_lists self.old) (texts fields.now))) }
    {
        if self.is_ended {
            Err(InputKind::AfterEnd)
        } else if is_end(fields) {
            self.is_ended = true;
            Ok(())
        } else if is_for_task(&self.events, fields) {
            add_task(self.version, &mut self.set, fields)
        } else {
            list_event(self.version, &self.set, &mut self.events, fields)
        }
    }

    /// The input, where the end came.
    fn into_input(self) -> Result<Input, InputKind>
        requires { IsExpected (progress_of_lists self) }
        ensures { MatchResult result
            (λ input. IsEndOutcome (progress_of_lists self) (Leads input))
            (λ kind. IsEndOutcome (progress_of_lists self) (Fails kind)) }
    {
        let Lists {
            version,
            set,
            events,
            is_ended,
        } = self;
        if is_ended {
            Ok(Input::new(version, set, events))
        } else {
            Err(InputKind::NoEnd)
        }
    }
}

/// Which version a header says.
fn read_version(fields: &[&[u8]]) -> Option<u8>
    ensures { MatchOption result
        ((version : ℕ) → IsHeader version (texts fields.now) → ⊥)
        (λ version. IsHeader version (texts fields.now)) }
{
    match fields {
        [word, number] if is_word(word, "apa") => {
            let version = read_number(number, FIRST_VERSION as u64, LAST_VERSION as u64)?;
            Some(version as u8)
        }
        _ => None,
    }
}

/// How many processors a line says that there are, from 1 to 64.
fn read_processors(fields: &[&[u8]]) -> Option<u8>
    ensures { MatchOption result
        ((m : ℕ) → IsProcessorsLine m (texts fields.now) → ⊥)
        (λ m. IsProcessorsLine m (texts fields.now)) }
{
    match fields {
        [word, count] if is_word(word, "processors") => {
            let processors = read_number(count, 1, MAX_PROCESSORS)?;
            Some(processors as u8)
        }
        _ => None,
    }
}

/// Nothing is listed yet, on as many processors as a line says. Room is made for all events that there may be, so that
/// none is moved later.
fn start(alloc: Global, version: u8, fields: &[&[u8]]) -> Result<Lists, InputKind>
    ensures read { IfOk result (λ lists. Says (ProcessorsExpected version) (texts fields.now)
        (progress_of_lists lists)) }
    ensures refused { IfErr result (IsFaultOf (IsFieldsOutcome (ProcessorsExpected version) (texts fields.now))) }
{
    let Some(processors) = read_processors(fields) else {
        return Err(InputKind::BadProcessors);
    };
    let Ok(events) = Vec::with_capacity(alloc, MAX_EVENTS) else {
        return Err(InputKind::OutOfMemory);
    };
    let set = TaskSet::new(alloc, processors)?;
    Ok(Lists {
        version,
        set,
        events,
        is_ended: false,
    })
}

/// Whether tasks may still be listed, and the line is for one.
fn is_for_task(events: &[Posted], fields: &[&[u8]]) -> bool
    ensures { MatchBool result
        (IsForTask events.now (texts fields.now))
        (IsForTask events.now (texts fields.now) → ⊥) }
{
    events.is_empty() && begins_task(fields)
}

/// Lists the event of a line.
fn list_event(
    version: u8,
    set: &TaskSet,
    events: &mut Vec<Posted>,
    fields: &[&[u8]],
) -> Result<(), InputKind>
    requires { length events.old.items ≤ 20000 }
    ensures read { OnOk result (IsEventOutcome version set.now events.old.items (texts fields.now)
        (Leads (Listed version set.now events.new.items))) }
    ensures refused { IfErr result (IsFaultOf (IsEventOutcome version set.now events.old.items (texts fields.now))) }
{
    let posted = read_event(version, set, fields)?;
    if events.len() == MAX_EVENTS {
        return Err(InputKind::ManyEvents);
    }
    if let Some(p) = outside_of(set, posted.event) {
        return Err(InputKind::OutsideAffinity(p));
    }
    if events.push(posted).is_err() {
        return Err(InputKind::OutOfMemory);
    }
    Ok(())
}

/// Whether the line is `end` alone.
fn is_end(fields: &[&[u8]]) -> bool
    ensures { MatchBool result (texts fields.now ≡ end_line) (texts fields.now ≡ end_line → ⊥) }
{
    match fields {
        [word] => is_word(word, "end"),
        _ => false,
    }
}

/// Whether the first field is `task`.
fn begins_task(fields: &[&[u8]]) -> bool
    ensures { IsTrue result ↔ BeginsTask (texts fields.now) }
{
    match fields {
        [word, ..] => is_word(word, "task"),
        [] => false,
    }
}

/// Adds the task of a line that begins with `task`.
fn add_task(version: u8, set: &mut TaskSet, fields: &[&[u8]]) -> Result<(), InputKind>
    requires { BeginsTask (texts fields.now) }
    ensures read { OnOk result (IsTaskOutcome version set.old (texts fields.now) (Leads (Listed version set.new []))) }
    ensures refused { IfErr result (IsFaultOf (IsTaskOutcome version set.old (texts fields.now))) }
{
    let [_word, name, number, list] = fields else {
        return Err(InputKind::BadTask);
    };
    let Some(priority) = read_number(number, 0, MAX_PRIORITY) else {
        return Err(InputKind::BadTask);
    };
    let mask = ProcSet::read_list(list)?;
    let Ok(name) = str::from_utf8(name) else {
        return Err(InputKind::TaskRefused(TaskFault::BadName));
    };
    set.add(name, priority as u32, mask)?;
    Ok(())
}
