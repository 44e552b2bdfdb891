//! What was read so far of a trace whose passages are kept.
ghost use Rattle.std.specs.Prelude.{◌≡◌, ◌⊎◌, ◌||◌, is_some, IfOk, IfErr, OnOk, MatchResult};
ghost use Rattle.std.specs.Option.{option_map};
ghost use Rattle.kernel_trace.specs.Course.{CourseData};
ghost use Rattle.kernel_trace.specs.Passage.{clock_of, nothing_followed, at_time, start_after, kept_outcome, changed_outcome, used_outcome, timed_outcome, told_outcome, said_outcome, fields_outcome, IsFollowed, IsFollowedEnd};
ghost use Rattle.kernel_trace.specs.PassageView.{following_of, CanFollow, IsRefusedBy};
ghost use Rattle.kernel_trace.specs.Processor.{processor_of};
ghost use Rattle.kernel_trace.specs.Reading.{course_of, IsCourse, IsOutOfMemory};
ghost use Rattle.kernel_trace.specs.StampView.{time_of};
ghost use Rattle.kernel_trace.specs.SurveyView.{look_of};
ghost use Rattle.kernel_trace.specs.TraceLine.{said_by};
ghost use Rattle.kernel_trace.specs.Unlisted.{with_said};
ghost use Rattle.kernel_trace.specs.declared.stage.Step.TheVariants as step;
ghost use Rattle.text_fields.specs.Lines.{fields_of};
ghost use Rattle.text_fields.specs.Machine.{Leads, Fails};

use crate::change::Change;
use crate::course::Mentions;
use crate::event::{Said, read_line};
use crate::fault::TraceKind;
use crate::stage::{Stage, Step};
use crate::stamp::Stamp;
use crate::survey::Survey;
use crate::task_change::TaskChange;
use crate::task_trace::TaskTrace;
use crate::unlisted::Unlisted;
use affinity_mask::OutOfMemory;
use std::alloc::Global;
use trace_passages::Passage;

/// The least moment that is too late.
const LATE_MOMENT: u64 = 9_223_372_036_854_775_808;

/// What is expected and known of a trace, and the passages so far. No event is written of it.
#[derive(Drop)]
pub struct TaskStage<'a> {
    pub stage: Stage<'a>,

    /// When the first change was.
    pub start: Option<Stamp<'a>>,

    /// By the numbers that threads have while the text is read.
    pub passages: Vec<Passage>,

    pub unlisted: Unlisted,
}

impl<'a> TaskStage<'a> {
    /// Nothing is read yet.
    pub fn new(alloc: Global) -> Result<TaskStage<'a>, OutOfMemory>
        ensures { IfOk result (λ stage. following_of stage ≡ nothing_followed) }
    {
        let passages = Vec::new(alloc);
        let stage = Stage::new(alloc)?;
        Ok(TaskStage {
            stage,
            start: None,
            passages,
            unlisted: Unlisted::new(alloc),
        })
    }

    /// Goes on by a line. The room is for the fields of a line of the head.
    pub fn after_line(
        &mut self,
        alloc: Global,
        look: Survey,
        line: &'a [u8],
        room: &mut Vec<&'a [u8]>,
    ) -> Result<(), TraceKind>
        requires { CanFollow (following_of self.old) }
        ensures read { OnOk result (IsFollowed (look_of look.entry) (following_of self.old) line.now
            (Leads (following_of self.new))) }
        ensures refused { IfErr result (IsRefusedBy (IsFollowed (look_of look.entry) (following_of self.old)
            line.now)) }
    {
        match self.stage.step {
            Step::Trace => self.after_trace_line(look, line),
            _ => self.stage.after_head_line(alloc, line, room),
        }
    }

    /// Goes on by a line of the trace.
    fn after_trace_line(&mut self, look: Survey, line: &'a [u8]) -> Result<(), TraceKind>
        requires step { self.old.stage.step ≡ step.Trace }
        requires course { IsCourse (course_of self.old.stage.course) }
        ensures read { OnOk result (fields_outcome (look_of look.entry) (following_of self.old)
            (course_of self.old.stage.course) (fields_of line.now) ≡ Leads (following_of self.new)) }
        ensures refused { IfErr result (λ kind. IsOutOfMemory kind
            ⊎ (fields_outcome (look_of look.entry) (following_of self.old) (course_of self.old.stage.course)
            (fields_of line.now) ≡ Fails kind)) }
    {
        if self.stage.course.is_gap(look, line) {
            return Err(TraceKind::Overwritten);
        }
        self.after_whole_line(look.waking, line)
    }

    /// Goes on by a line of the trace with no gap before it.
    fn after_whole_line(&mut self, waking: bool, line: &'a [u8]) -> Result<(), TraceKind>
        requires step { self.old.stage.step ≡ step.Trace }
        requires course { IsCourse (course_of self.old.stage.course) }
        ensures read { OnOk result (said_outcome (following_of self.old)
            (course_of self.old.stage.course) (said_by waking (fields_of line.now))
            (processor_of waking (fields_of line.now)) ≡ Leads (following_of self.new)) }
        ensures refused { IfErr result (λ kind. IsOutOfMemory kind
            ⊎ (said_outcome (following_of self.old) (course_of self.old.stage.course)
            (said_by waking (fields_of line.now)) (processor_of waking (fields_of line.now)) ≡ Fails kind)) }
    {
        match read_line(waking, line) {
            Said::Nothing => Ok(()),
            Said::LostEvents => Err(TraceKind::Lost),
            Said::Malformed => Err(TraceKind::BadForm),
            Said::Happened { stamp, change } => {
                let told = self.stage.course.task_change(waking, change, line);
                self.after_told(stamp, change, told)
            }
        }
    }

    /// Goes on by a change and what it says of tasks; where it says nothing, its line has not its form.
    fn after_told(
        &mut self,
        stamp: Stamp<'a>,
        change: Change,
        told: Option<TaskChange>,
    ) -> Result<(), TraceKind>
        requires step { self.old.stage.step ≡ step.Trace }
        requires course { IsCourse (course_of self.old.stage.course) }
        ensures read { OnOk result (told_outcome (following_of self.old)
            (course_of self.old.stage.course) (time_of stamp.entry) change told
            ≡ Leads (following_of self.new)) }
        ensures refused { IfErr result (λ kind. IsOutOfMemory kind
            ⊎ (told_outcome (following_of self.old) (course_of self.old.stage.course)
            (time_of stamp.entry) change told ≡ Fails kind)) }
    {
        let Some(told) = told else {
            return Err(TraceKind::BadForm);
        };
        if self.stage.course.is_backward(&stamp) {
            return Err(TraceKind::Backward);
        }
        if self.stage.course.pass_to(stamp) {
            self.follow(stamp, change, told)
        } else {
            Ok(())
        }
    }

    /// Follows the mentions of a used line.
    fn follow(
        &mut self,
        stamp: Stamp<'a>,
        change: Change,
        told: TaskChange,
    ) -> Result<(), TraceKind>
        requires step { self.old.stage.step ≡ step.Trace }
        requires course { IsCourse (course_of self.old.stage.course) }
        ensures read { OnOk result (used_outcome (following_of self.old)
            (course_of self.old.stage.course) (time_of stamp.entry) change told
            ≡ Leads (following_of self.new)) }
        ensures refused { IfErr result (λ kind. IsOutOfMemory kind
            ⊎ (used_outcome (following_of self.old) (course_of self.old.stage.course)
            (time_of stamp.entry) change told ≡ Fails kind)) }
    {
        let said = self.stage.course.mentions(change);
        if self.stage.course.is_unseen(change, &said) {
            return Err(TraceKind::Unseen);
        }
        if self.tell_apart(change).is_err() {
            return Err(TraceKind::OutOfMemory);
        }
        let first = self.stage.course.mark_changing(said.first);
        let second = self.stage.course.mark_changing(said.second);
        self.keep(stamp, told, Mentions { first, second })
    }

    /// Tells the threads of a used line apart.
    fn tell_apart(&mut self, change: Change) -> Result<(), OutOfMemory>
        ensures apart { OnOk result (following_of self.new ≡ record (following_of self.old) {
          unlisted = with_said (course_of self.old.stage.course).ids (following_of self.old).unlisted
              change;
        }) }
        ensures stage { self.new.stage ≡ self.old.stage }
    {
        self.unlisted.tell_apart(&self.stage.course.ids, change)
    }

    /// Keeps a used line with its changes, from the first change on.
    fn keep(
        &mut self,
        stamp: Stamp<'a>,
        told: TaskChange,
        changes: Mentions,
    ) -> Result<(), TraceKind>
        ensures read { OnOk result (changed_outcome (following_of self.old) (time_of stamp.entry)
            told changes.first changes.second ≡ Leads (following_of self.new)) }
        ensures refused { IfErr result (λ kind. IsOutOfMemory kind
            ⊎ (changed_outcome (following_of self.old) (time_of stamp.entry) told changes.first
            changes.second ≡ Fails kind)) }
    {
        let Some(start) = self.start_at(stamp, &changes) else {
            return Ok(());
        };
        let moment = stamp.microseconds_since(&start, LATE_MOMENT);
        if moment >= LATE_MOMENT {
            return Err(TraceKind::ManyEvents);
        }
        self.start = Some(start);
        let passage = Passage {
            moment,
            turn: told.turn(changes.first),
            first: changes.first,
            second: changes.second,
        };
        match self.passages.push(passage) {
            Ok(()) => Ok(()),
            Err(_) => Err(TraceKind::OutOfMemory),
        }
    }

    /// When the first change was, up to a line with these changes.
    fn start_at(&self, stamp: Stamp<'a>, changes: &Mentions) -> Option<Stamp<'a>>
        ensures { option_map time_of result ≡ start_after (following_of self.now).start
            (is_some changes.now.first || is_some changes.now.second) (time_of stamp.entry) }
    {
        match self.start {
            Some(start) => Some(start),
            None if changes.first.is_some() || changes.second.is_some() => Some(stamp),
            None => None,
        }
    }

    /// The trace, where it came.
    pub fn at_end(self) -> Result<TaskTrace, TraceKind>
        ensures { MatchResult result
            (λ trace. IsFollowedEnd (following_of self.entry) (Leads trace))
            (λ kind. IsFollowedEnd (following_of self.entry) (Fails kind)) }
    {
        let TaskStage {
            stage,
            start,
            mut passages,
            unlisted,
        } = self;
        let Stage { step, course } = stage;
        match step {
            Step::Trace if course.names_task() => {
                unlisted.settle(&mut passages, course.set.len());
                Ok(TaskTrace::new(
                    course.set,
                    clock_of(start),
                    passages,
                    course.standings,
                    unlisted,
                ))
            }
            Step::Trace => Err(TraceKind::NothingSaid),
            _ => Err(TraceKind::NoEvents),
        }
    }
}

/// The microseconds of a time, where there is one and they are less than 2^63.
fn clock_of(time: Option<Stamp>) -> Option<u64>
    ensures { result ≡ clock_of (option_map time_of time.entry) }
{
    match time {
        Some(stamp) => stamp.clock(),
        None => None,
    }
}
