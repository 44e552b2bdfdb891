//! What is known after some lines of a trace, and what a line of the trace adds.
ghost use Rattle.std.specs.Prelude.{◌≡◌, ◌⊎◌, ◌<◌, ◌≤◌, ◌↔◌, ◌++◌, ◌∷◌, [], min, not, length, set, replicate, option_to_list, IsTrue, OnOk, IfOk, IfErr};
ghost use Rattle.std.specs.Option.{option_map};
ghost use Rattle.task_set.specs.declared.event.Event.TheVariants.{Tick};
ghost use Rattle.kernel_trace.specs.Course.{ticks, passed, written, event_of, on_first_stream, after_mention, after_mentions, mention_of, mentions, misses_wakeup, is_unseen, is_backward, is_in_window, agrees, says_ready, standing_of, standing_after, names_task};
ghost use Rattle.kernel_trace.specs.Passage.{task_of, task_change, first_mention, second_mention, changing, marked, at_time};
ghost use Rattle.kernel_trace.specs.Processor.{processor_of};
ghost use Rattle.kernel_trace.specs.Reading.{course_of, mentions_view, window_view, IsCourse, IsOutOfMemory, AreTasks};
ghost use Rattle.kernel_trace.specs.StampView.{time_of};
ghost use Rattle.kernel_trace.specs.Survey.{is_gap, begins_whole};
ghost use Rattle.kernel_trace.specs.SurveyView.{look_of};
ghost use Rattle.kernel_trace.specs.TraceText.{Tracing, used_outcome, timed_outcome, said_outcome, trace_outcome, input_of};
ghost use Rattle.kernel_trace.specs.TraceLine.{said_by};
ghost use Rattle.kernel_trace.specs.Unlisted.{number_read};
ghost use Rattle.text_fields.specs.Lines.{fields_of};
ghost use Rattle.text_fields.specs.Machine.{Leads, Fails};

use crate::change::{Change, Standing};
use crate::event::{Said, read_line};
use crate::fault::TraceKind;
use crate::processor::read_processor;
use crate::stamp::Stamp;
use crate::survey::{Survey, is_of_overwriting};
use crate::task_change::TaskChange;
use crate::unlisted::MAX_ID;
use affinity_mask::OutOfMemory;
use indexmap::IndexSet;
use task_set::{Event, TaskSet};
use text_fields::limits::{FIRST_VERSION, MAX_EVENTS, MAX_UNITS};
use trace_passages::Readiness;
use trace_reader::Input;
use trace_reader::posted::Posted;

/// What stands for more microseconds since the last event. They do not fit into the ticks of an input.
const MANY_MICROSECONDS: u64 = 20_001_000_000;

/// The times between which lines are used, both included.
#[derive(Clone, Copy)]
pub struct Window<'a> {
    pub from: Stamp<'a>,
    pub to: Stamp<'a>,
}

/// The tasks and their thread ids, the window, and what the lines of the trace said so far.
#[derive(Drop)]
pub struct Course<'a> {
    pub set: TaskSet,
    pub ids: IndexSet<u32>,
    pub window: Option<Window<'a>>,

    /// When the last line of the scheduler was, whether it is used or not.
    pub last: Option<Stamp<'a>>,

    /// When the last event was.
    pub clock: Option<Stamp<'a>>,

    /// When the last used line was.
    pub used: Option<Stamp<'a>>,

    pub standings: Vec<Standing>,
    pub events: Vec<Posted>,
}

/// What a line mentions, in this order: a task as in, which is ready, or as out.
#[derive(Clone, Copy)]
pub struct Mentions {
    pub first: Option<Readiness>,
    pub second: Option<Readiness>,
}

impl<'a> Course<'a> {
    /// Goes on by a line of the trace.
    pub fn after_line(&mut self, look: Survey, line: &'a [u8]) -> Result<(), TraceKind>
        requires { IsCourse (course_of self.old) }
        ensures read { OnOk result (trace_outcome (look_of look.entry) (course_of self.old) line.now
            ≡ Leads (Tracing (course_of self.new))) }
        ensures refused { IfErr result (λ kind. IsOutOfMemory kind
            ⊎ (trace_outcome (look_of look.entry) (course_of self.old) line.now ≡ Fails kind)) }
    {
        if self.is_gap(look, line) {
            return Err(TraceKind::Overwritten);
        }
        self.after_whole_line(look.waking, line)
    }

    /// Whether a line says that lines were overwritten, and the window does not begin where those of all processors are there.
    pub fn is_gap(&self, look: Survey, line: &[u8]) -> bool
        ensures { result ≡ is_gap (look_of look.entry) (course_of self.now).window (fields_of line.now) }
    {
        is_of_overwriting(line) && !self.begins_whole(look)
    }

    /// Whether the window begins where the lines of all processors are there.
    fn begins_whole(&self, look: Survey) -> bool
        ensures { result ≡ begins_whole (course_of self.now).window (look_of look.entry).whole }
    {
        match (self.window, look.whole) {
            (Some(window), Some(time)) => !window.from.is_before(&time),
            _ => false,
        }
    }

    /// Whether some used line mentioned a task.
    pub fn names_task(&self) -> bool
        ensures { result ≡ names_task (course_of self.now).standings }
    {
        self.standings
            .iter()
            .any(|standing| standing.is_mentioned())
    }

    /// Goes on by a line of the trace with no gap before it.
    fn after_whole_line(&mut self, waking: bool, line: &'a [u8]) -> Result<(), TraceKind>
        requires { IsCourse (course_of self.old) }
        ensures read { OnOk result (said_outcome (course_of self.old) (said_by waking (fields_of line.now))
            ≡ Leads (Tracing (course_of self.new))) }
        ensures refused { IfErr result (λ kind. IsOutOfMemory kind
            ⊎ (said_outcome (course_of self.old) (said_by waking (fields_of line.now)) ≡ Fails kind)) }
    {
        match read_line(waking, line) {
            Said::Nothing => Ok(()),
            Said::LostEvents => Err(TraceKind::Lost),
            Said::Malformed => Err(TraceKind::BadForm),
            Said::Happened { stamp, change } => {
                if self.is_backward(&stamp) {
                    return Err(TraceKind::Backward);
                }
                self.after_change(stamp, change)
            }
        }
    }

    /// Whether a time is less than that of the last line.
    pub fn is_backward(&self, stamp: &Stamp) -> bool
        ensures { result ≡ is_backward (course_of self.now).last (time_of stamp.now) }
    {
        match self.last {
            Some(last) => stamp.is_before(&last),
            None => false,
        }
    }

    /// Goes on by a change that is not less than the one before.
    fn after_change(&mut self, stamp: Stamp<'a>, change: Change) -> Result<(), TraceKind>
        requires { IsCourse (course_of self.old) }
        ensures read { OnOk result (timed_outcome (course_of self.old) (time_of stamp.entry) change
            ≡ Leads (Tracing (course_of self.new))) }
        ensures refused { IfErr result (λ kind. IsOutOfMemory kind
            ⊎ (timed_outcome (course_of self.old) (time_of stamp.entry) change ≡ Fails kind)) }
    {
        if self.pass_to(stamp) {
            self.follow(change)
        } else {
            Ok(())
        }
    }

    /// Goes on to the time of a line, and whether the line is used.
    pub fn pass_to(&mut self, stamp: Stamp<'a>) -> bool
        ensures used { result ≡ is_in_window (course_of self.old).window (time_of stamp.entry) }
        ensures course { course_of self.new ≡ at_time (course_of self.old) (time_of stamp.entry) }
    {
        self.last = Some(stamp);
        let is_used = is_within(&self.window, &stamp);
        if is_used {
            self.used = Some(stamp);
        }
        is_used
    }

    /// Follows the change of a used line.
    fn follow(&mut self, change: Change) -> Result<(), TraceKind>
        requires { IsCourse (course_of self.old) }
        ensures read { OnOk result (used_outcome (course_of self.old) change
            ≡ Leads (Tracing (course_of self.new))) }
        ensures refused { IfErr result (λ kind. IsOutOfMemory kind
            ⊎ (used_outcome (course_of self.old) change ≡ Fails kind)) }
    {
        let said = self.mentions(change);
        if self.is_unseen(change, &said) {
            return Err(TraceKind::Unseen);
        }
        if self.is_full() {
            return Err(TraceKind::ManyEvents);
        }
        if self.take_all(&said).is_err() {
            return Err(TraceKind::OutOfMemory);
        }
        if self.is_full() {
            return Err(TraceKind::ManyEvents);
        }
        Ok(())
    }

    /// The mentions of a change.
    pub fn mentions(&self, change: Change) -> Mentions
        requires { IsCourse (course_of self.now) }
        ensures value { mentions_view result ≡ mentions (course_of self.now).ids change }
        ensures first { result.first ≡ first_mention (course_of self.now).ids change }
        ensures second { result.second ≡ second_mention (course_of self.now).ids change }
        ensures tasks { AreTasks (length (course_of self.now).ids) (mentions_view result) }
    {
        match change {
            Change::Wakeup(id) => Mentions {
                first: self.mention(id, true),
                second: None,
            },
            Change::Switch { from, stays, to } => Mentions {
                first: self.mention(from.id, stays),
                second: self.mention(to.id, true),
            },
        }
    }

    /// The mention of the task of a thread; other threads are nobody's.
    fn mention(&self, id: u32, is_in: bool) -> Option<Readiness>
        requires { IsCourse (course_of self.now) }
        ensures value { result ≡ mention_of (course_of self.now).ids id is_in }
        ensures task { AreTasks (length (course_of self.now).ids) (option_to_list result) }
    {
        match self.task(id) {
            Some(task) => Some(Readiness { task, is_in }),
            None => None,
        }
    }

    /// The task of a thread, if it is one's.
    fn task(&self, id: u32) -> Option<u32>
        requires { IsCourse (course_of self.now) }
        ensures { result ≡ task_of (course_of self.now).ids id }
    {
        match self.ids.get_index_of(&id) {
            Some(task) => Some(task as u32),
            None => None,
        }
    }

    /// The number of a thread while the text is read: that of its task, or its id after the tasks.
    fn number(&self, id: u32) -> Option<u32>
        requires { IsCourse (course_of self.now) }
        ensures { result ≡ number_read (course_of self.now).ids id }
    {
        match self.task(id) {
            Some(task) => Some(task),
            None if id <= MAX_ID => Some(self.set.len() + id),
            None => None,
        }
    }

    /// What a change says of threads; nothing, where it is a switch and its line names no processor.
    pub fn task_change(&self, waking: bool, change: Change, line: &[u8]) -> Option<TaskChange>
        requires { IsCourse (course_of self.now) }
        ensures { result ≡ task_change (course_of self.now).ids
            (number_read (course_of self.now).ids) change (processor_of waking (fields_of line.now)) }
    {
        match change {
            Change::Wakeup(id) => Some(TaskChange::Wakeup(self.task(id))),
            Change::Switch { from, to, .. } => match read_processor(waking, line) {
                Some(processor) => Some(TaskChange::Switch {
                    processor,
                    from: self.number(from.id),
                    to: self.number(to.id),
                }),
                None => None,
            },
        }
    }

    /// Whether a wakeup of a task is missing.
    pub fn is_unseen(&self, change: Change, said: &Mentions) -> bool
        requires value { mentions_view said.now ≡ mentions (course_of self.now).ids change }
        requires tasks { AreTasks (length (course_of self.now).standings) (mentions_view said.now) }
        ensures { result ≡ is_unseen (course_of self.now).standings (course_of self.now).ids change }
    {
        match change {
            Change::Wakeup(_) => false,
            Change::Switch { .. } => self.misses_wakeup(said),
        }
    }

    /// Whether a mention is of a task that was mentioned and is not ready.
    fn misses_wakeup(&self, said: &Mentions) -> bool
        requires { AreTasks (length (course_of self.now).standings) (mentions_view said.now) }
        ensures { result ≡ misses_wakeup (course_of self.now).standings (mentions_view said.now) }
    {
        let Some(first) = said.first else {
            return match said.second {
                Some(second) => self.standings[second.task as usize].is_absent(),
                None => false,
            };
        };
        if self.standings[first.task as usize].is_absent() {
            return true;
        }
        match said.second {
            Some(second) if second.task == first.task => Standing::after(first.is_in).is_absent(),
            Some(second) => self.standings[second.task as usize].is_absent(),
            None => false,
        }
    }

    /// Whether the events up to the last used line are too many.
    fn is_full(&self) -> bool
        ensures { IsTrue result ↔ (20000 < length (written (course_of self.now))) }
    {
        let passed = self.passed();
        let part = if passed % MAX_UNITS == 0 { 0 } else { 1 };
        let ticks = passed / MAX_UNITS + part;
        self.events.len() > MAX_EVENTS || ticks > (MAX_EVENTS - self.events.len()) as u64
    }

    /// How many microseconds passed since the last event, up to the last used line, where they are not too many for an
    /// input.
    fn passed(&self) -> u64
        ensures { result ≡ min (passed (course_of self.now)) 20001000000 }
    {
        match (self.clock, self.used) {
            (Some(clock), Some(used)) => used.microseconds_since(&clock, MANY_MICROSECONDS),
            _ => 0,
        }
    }

    /// Takes the mentions of a line, one after another.
    fn take_all(&mut self, said: &Mentions) -> Result<(), OutOfMemory>
        requires tasks { AreTasks (length (course_of self.old).standings) (mentions_view said.now) }
        requires short { passed (course_of self.old) < 20001000000 }
        ensures { OnOk result (course_of self.new
            ≡ after_mentions (course_of self.old) (mentions_view said.now)) }
    {
        if let Some(first) = said.first {
            self.take(first)?;
        }
        if let Some(second) = said.second {
            self.take(second)?;
        }
        Ok(())
    }

    /// Takes a mention: where it changes whether the task is ready, time passes, and an event is written.
    fn take(&mut self, mention: Readiness) -> Result<(), OutOfMemory>
        requires task { mention.task < length (course_of self.old).standings }
        requires short { passed (course_of self.old) < 20001000000 }
        ensures { OnOk result (course_of self.new ≡ after_mention (course_of self.old) mention) }
    {
        if !self.mark(mention) {
            return Ok(());
        }
        self.pass_time()?;
        self.post(mention)
    }

    /// Marks what a mention says, and whether it changes that the task is ready, or is not.
    fn mark(&mut self, mention: Readiness) -> bool
        requires { mention.task < length (course_of self.old).standings }
        ensures changes { result ≡ not (agrees (says_ready
            (standing_of (course_of self.old).standings mention.task)) mention.is_in) }
        ensures course { course_of self.new ≡ record (course_of self.old) {
          standings = set (course_of self.old).standings mention.task (standing_after mention.is_in);
        } }
    {
        let place = mention.task as usize;
        let was_ready = self.standings[place].is_ready();
        self.standings[place] = Standing::after(mention.is_in);
        was_ready != mention.is_in
    }

    /// Marks what a mention says, where there is one; it is answered where it changes whether the task is ready.
    pub fn mark_changing(&mut self, mention: Option<Readiness>) -> Option<Readiness>
        requires { AreTasks (length (course_of self.old).standings) (option_to_list mention) }
        ensures changes { result ≡ changing (course_of self.old).standings mention }
        ensures course { course_of self.new ≡ record (course_of self.old) {
          standings = marked (course_of self.old).standings mention;
        } }
    {
        let Some(mention) = mention else {
            return None;
        };
        if self.mark(mention) {
            Some(mention)
        } else {
            None
        }
    }

    /// Writes the ticks since the last event.
    fn pass_time(&mut self) -> Result<(), OutOfMemory>
        requires { passed (course_of self.old) < 20001000000 }
        ensures { OnOk result (course_of self.new ≡ record (course_of self.old) {
          clock = (course_of self.old).used;
          events = written (course_of self.old);
        }) }
    {
        let passed = self.passed();
        push_ticks(&mut self.events, passed)?;
        self.clock = self.used;
        Ok(())
    }

    /// Writes the event of a mention.
    fn post(&mut self, mention: Readiness) -> Result<(), OutOfMemory>
        ensures { OnOk result (course_of self.new ≡ record (course_of self.old) {
          events = (course_of self.old).events ++ on_first_stream (event_of mention) ∷ [];
        }) }
    {
        let event = if mention.is_in {
            Event::Arrive(mention.task)
        } else {
            Event::Depart(mention.task)
        };
        self.events.push(Posted { stream: 0, event })?;
        Ok(())
    }

    /// The input, after the last line.
    pub fn into_input(self) -> Result<Input, OutOfMemory>
        requires valid { IsCourse (course_of self) }
        requires few { length (written (course_of self)) ≤ 20000 }
        ensures { IfOk result (λ input. input ≡ input_of (course_of self.entry)) }
    {
        let passed = self.passed();
        let Course {
            set,
            mut events,
            ..
        } = self;
        push_ticks(&mut events, passed)?;
        Ok(Input::new(FIRST_VERSION, set, events))
    }
}

/// Whether a time is in a window; without one each is.
fn is_within(window: &Option<Window>, stamp: &Stamp) -> bool
    ensures { result ≡ is_in_window (option_map window_view window.now) (time_of stamp.now) }
{
    match window {
        None => true,
        Some(window) => !stamp.is_before(&window.from) && !window.to.is_before(stamp),
    }
}

/// Appends the ticks of so many microseconds.
fn push_ticks(events: &mut Vec<Posted>, units: u64) -> Result<(), OutOfMemory>
    ensures { OnOk result (events.new.items ≡ events.old.items ++ ticks units) }
{
    push_full_ticks(events, units / MAX_UNITS)?;
    let left = units % MAX_UNITS;
    if left > 0 {
        events.push(Posted {
            stream: 0,
            event: Event::Tick(left as u32),
        })?;
    }
    Ok(())
}

/// Appends so many ticks of the greatest length.
fn push_full_ticks(events: &mut Vec<Posted>, count: u64) -> Result<(), OutOfMemory>
    ensures { OnOk result (events.new.items
        ≡ events.old.items ++ replicate count (on_first_stream (Tick 1000000))) }
{
    for done in 0..count {
        events.push(Posted {
            stream: 0,
            event: Event::Tick(MAX_UNITS as u32),
        })?;
    }
    Ok(())
}
