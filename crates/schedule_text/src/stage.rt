//! What was read so far, and what is expected.
ghost use Rattle.std.specs.Prelude.{◌≡◌, ◌≢◌, ℕ, ◌<◌, ◌≤◌, ◌⊎◌, List, [], codes, length, IfOk, IfErr, OnOk, MatchResult};
ghost use Rattle.task_set.specs.TaskSet.{SetData};
ghost use Rattle.strong_apa.specs.declared.reply.Entry.{Entry};
ghost use Rattle.schedule_text.specs.LineForms.{IsCountForm};
ghost use Rattle.schedule_text.specs.Prefix.{whole, IsPrefix, IsWholePrefix, HeaderExpected, ProcessorsExpected, TasksExpected, EntriesExpected, ContextsExpected};
ghost use Rattle.schedule_text.specs.Reading.{progress_of, progress_of_lists, progress_after, progress_after_lists, progress_after_task, Says, IsFaultOf, IsOutOfMemory};
ghost use Rattle.schedule_text.specs.declared.fault.TextKind.TheVariants.{BadLine};
ghost use Rattle.schedule_text.specs.declared.stage.Listing.TheVariants.{Tasks, Entries, Contexts};

use crate::entry::add_entry;
use crate::fault::TextKind;
use crate::field::number_after;
use crate::line::{add_task, is_numbered, read_context};
use crate::schedule::{MAX_ENTRIES, Schedule};
use crate::spacing::spaced_fields;
use std::alloc::Global;
use strong_apa::Entry;
use task_set::{Context, TaskSet};
use text_fields::is_word;
use text_fields::limits::{FIRST_VERSION, LAST_VERSION, MAX_PROCESSORS};

/// What some lines said, and so what is expected after them.
#[derive(Drop)]
pub enum Stage {
    /// The header is expected.
    HeaderExpected,

    /// The number of processors is expected, in a version of the format.
    ProcessorsExpected { version: u8 },

    /// One of the lists goes on.
    Listed(Lists),
}

/// The lists so far. Those that come after the one that goes on are not looked at before they begin.
#[derive(Drop)]
pub struct Lists {
    version: u8,
    set: TaskSet,
    entries: Vec<Entry>,
    contexts: Vec<Context>,
    list: Listing,
}

/// Which list goes on.
#[derive(Clone, Copy)]
pub enum Listing {
    /// Tasks, and then the number of entries, are expected.
    Tasks,

    /// Entries up to a count, and then the number of contexts, are expected.
    Entries { count: u64 },

    /// Contexts, one for each task, and then the end are expected.
    Contexts,
}

/// What came with a line.
#[derive(Clone, Copy)]
pub enum Reached {
    /// More is expected.
    Expected,

    /// The end came.
    End,
}

impl Stage {
    /// Goes on by a line. The room is for its fields. A line that lists something is put into the lists where they are, as
    /// they are long and there are many such lines. The other lines write the stage themselves: what a call returns takes time to
    /// clear at each line. After an `Err` the stage is not used again.
    pub fn after_line<'a>(
        &mut self,
        alloc: Global,
        text: &'a [u8],
        room: &mut Vec<&'a [u8]>,
    ) -> Result<Reached, TextKind>
        requires { IsPrefix (progress_of self.old) }
        ensures read { IfOk result (λ reached. Says (progress_of self.old) text.now
            (progress_after reached self.new)) }
        ensures refused { IfErr result (IsFaultOf (progress_of self.old) text.now) }
    {
        match self {
            Stage::HeaderExpected => {
                read_header(self, text, room)?;
                Ok(Reached::Expected)
            }
            Stage::ProcessorsExpected { version } => {
                let version = *version;
                start(self, alloc, version, text, room)?;
                Ok(Reached::Expected)
            }
            Stage::Listed(lists) => lists.after_line(alloc, text, room),
        }
    }

    /// Goes on to the next stage.
    fn go_on(&mut self, next: Stage)
        ensures { self.new ≡ next }
    {
        *self = next;
    }

    /// The whole schedule, where the end came.
    pub fn into_schedule(self) -> Schedule
        requires { IsWholePrefix (progress_after Reached.End self) }
        ensures { progress_after Reached.End self ≡ whole result }
    {
        match self {
            Stage::Listed(
                Lists {
                    version,
                    set,
                    entries,
                    contexts,
                    ..
                },
            ) => Schedule::new(version, set, entries, contexts),
            _ => unreachable!(),
        }
    }
}

impl Lists {
    /// Goes on by a line of the list that goes on.
    fn after_line<'a>(
        &mut self,
        alloc: Global,
        text: &'a [u8],
        room: &mut Vec<&'a [u8]>,
    ) -> Result<Reached, TextKind>
        requires { IsPrefix (progress_of_lists self.old) }
        ensures read { IfOk result (λ reached. Says (progress_of_lists self.old) text.now
            (progress_after_lists reached self.new)) }
        ensures refused { IfErr result (IsFaultOf (progress_of_lists self.old) text.now) }
    {
        match self.list {
            Listing::Tasks => self.task_line(text, room),
            Listing::Entries { count } => self.entry_line(alloc, count, text, room),
            Listing::Contexts => self.context_line(text, room),
        }
    }

    /// Goes on by a task, or by how many entries there are.
    fn task_line<'a>(
        &mut self,
        text: &'a [u8],
        room: &mut Vec<&'a [u8]>,
    ) -> Result<Reached, TextKind>
        requires { self.old.list ≡ Tasks }
        ensures read { IfOk result (λ reached.
            Says (TasksExpected self.old.version self.old.set) text.now
            (progress_after_lists reached self.new)) }
        ensures refused { IfErr result
            (IsFaultOf (TasksExpected self.old.version self.old.set) text.now) }
    {
        if let Some(count) = read_task(&mut self.set, text, room)? {
            self.entries.clear();
            self.list = Listing::Entries { count };
        }
        Ok(Reached::Expected)
    }

    /// Goes on by an entry, or by how many contexts there are.
    fn entry_line<'a>(
        &mut self,
        alloc: Global,
        count: u64,
        text: &'a [u8],
        room: &mut Vec<&'a [u8]>,
    ) -> Result<Reached, TextKind>
        requires goes { self.old.list ≡ Entries count }
        requires few { length self.old.entries.items ≤ count }
        ensures read { IfOk result (λ reached.
            Says (EntriesExpected self.old.version self.old.set count self.old.entries.items)
            text.now (progress_after_lists reached self.new)) }
        ensures refused { IfErr result (IsFaultOf
            (EntriesExpected self.old.version self.old.set count self.old.entries.items) text.now) }
    {
        if (self.entries.len() as u64) < count {
            list_entry(self.version, &self.set, &mut self.entries, text, room)?;
        } else {
            judge_count(alloc, &self.set, text)?;
            self.contexts.clear();
            self.list = Listing::Contexts;
        }
        Ok(Reached::Expected)
    }

    /// Goes on by a context, or by the end.
    fn context_line<'a>(
        &mut self,
        text: &'a [u8],
        room: &mut Vec<&'a [u8]>,
    ) -> Result<Reached, TextKind>
        requires goes { self.old.list ≡ Contexts }
        requires few { length self.old.contexts.items ≤ length self.old.set.tasks }
        ensures read { IfOk result (λ reached. Says (ContextsExpected self.old.version self.old.set
            self.old.entries.items self.old.contexts.items) text.now
            (progress_after_lists reached self.new)) }
        ensures refused { IfErr result (IsFaultOf (ContextsExpected self.old.version self.old.set
            self.old.entries.items self.old.contexts.items) text.now) }
    {
        if self.contexts.len() < self.set.len() as usize {
            list_context(&self.set, &mut self.contexts, text, room)?;
            Ok(Reached::Expected)
        } else {
            judge_end(text)
        }
    }
}

/// Reads the header, which says the version.
fn read_header<'a>(
    stage: &mut Stage,
    text: &'a [u8],
    room: &mut Vec<&'a [u8]>,
) -> Result<(), TextKind>
    ensures read { OnOk result (Says HeaderExpected text.now (progress_of stage.new)) }
    ensures refused { IfErr result (IsFaultOf HeaderExpected text.now) }
{
    let fields = spaced_fields(text, room)?;
    let (first, last) = (FIRST_VERSION as u64, LAST_VERSION as u64);
    match number_after(fields, "schedule", first, last) {
        Some(version) => {
            let version = version as u8;
            stage.go_on(Stage::ProcessorsExpected { version });
            Ok(())
        }
        None => Err(TextKind::BadLine),
    }
}

/// No task yet, on as many processors as a line says.
fn start<'a>(
    stage: &mut Stage,
    alloc: Global,
    version: u8,
    text: &'a [u8],
    room: &mut Vec<&'a [u8]>,
) -> Result<(), TextKind>
    ensures read { OnOk result (Says (ProcessorsExpected version) text.now
        (progress_of stage.new)) }
    ensures refused { IfErr result (IsFaultOf (ProcessorsExpected version) text.now) }
{
    let fields = spaced_fields(text, room)?;
    let Some(processors) = number_after(fields, "processors", 1, MAX_PROCESSORS) else {
        return Err(TextKind::BadLine);
    };
    let set = TaskSet::new(alloc, processors as u8)?;
    stage.go_on(Stage::Listed(Lists {
        version,
        set,
        entries: Vec::new(alloc),
        contexts: Vec::new(alloc),
        list: Listing::Tasks,
    }));
    Ok(())
}

/// Reads a task, which is added, or how many entries there are.
fn read_task<'a>(
    set: &mut TaskSet,
    text: &'a [u8],
    room: &mut Vec<&'a [u8]>,
) -> Result<Option<u64>, TextKind>
    ensures read { IfOk result (λ count. (version : ℕ)
        → Says (TasksExpected version set.old) text.now
        (progress_after_task version set.new count)) }
    ensures refused { IfErr result (λ kind. (version : ℕ)
        → IsFaultOf (TasksExpected version set.old) text.now kind) }
{
    let fields = spaced_fields(text, room)?;
    match number_after(fields, "history", 0, MAX_ENTRIES) {
        Some(count) => Ok(Some(count)),
        None => {
            add_task(set, fields)?;
            Ok(None)
        }
    }
}

/// Lists the entry of a line.
fn list_entry<'a>(
    version: u8,
    set: &TaskSet,
    entries: &mut Vec<Entry>,
    text: &'a [u8],
    room: &mut Vec<&'a [u8]>,
) -> Result<(), TextKind>
    ensures read { OnOk result ((count : ℕ) → length entries.old.items < count
        → Says (EntriesExpected version set.now count entries.old.items) text.now
        (EntriesExpected version set.now count entries.new.items)) }
    ensures refused { IfErr result (λ kind. (count : ℕ) → length entries.old.items < count
        → IsFaultOf (EntriesExpected version set.now count entries.old.items) text.now kind) }
{
    let fields = spaced_fields(text, room)?;
    add_entry(version, set, entries, fields)?;
    Ok(())
}

/// Judges the line that says how many contexts there are, after all entries.
fn judge_count(alloc: Global, set: &TaskSet, text: &[u8]) -> Result<(), TextKind>
    ensures read { OnOk result (IsCountForm set.now text.now) }
    ensures refused { IfErr result (λ kind. IsOutOfMemory kind
        ⊎ ((kind ≡ BadLine) × (IsCountForm set.now text.now → ⊥))) }
{
    if !is_numbered(alloc, b"contexts ", set.len() as u64, text)? {
        return Err(TextKind::BadLine);
    }
    Ok(())
}

/// Lists the context of a line.
fn list_context<'a>(
    set: &TaskSet,
    contexts: &mut Vec<Context>,
    text: &'a [u8],
    room: &mut Vec<&'a [u8]>,
) -> Result<(), TextKind>
    requires { length contexts.old.items < length set.now.tasks }
    ensures read { OnOk result ((version : ℕ) (entries : List Entry)
        → Says (ContextsExpected version set.now entries contexts.old.items) text.now
        (ContextsExpected version set.now entries contexts.new.items)) }
    ensures refused { IfErr result (λ kind. (version : ℕ) (entries : List Entry)
        → IsFaultOf (ContextsExpected version set.now entries contexts.old.items) text.now kind) }
{
    let _valid = set.len();
    let context = read_context(set, contexts.len() as u32, text, room)?;
    if contexts.push(context).is_err() {
        return Err(TextKind::OutOfMemory);
    }
    Ok(())
}

/// Judges the last line.
fn judge_end(text: &[u8]) -> Result<Reached, TextKind>
    ensures { MatchResult result
        (λ reached. (reached ≡ Reached.End) × (text.now ≡ codes "end"))
        (λ kind. (kind ≡ BadLine) × (text.now ≢ codes "end")) }
{
    if is_word(text, "end") {
        Ok(Reached::End)
    } else {
        Err(TextKind::BadLine)
    }
}
