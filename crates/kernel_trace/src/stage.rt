//! What was read so far, and what is expected.
ghost use Rattle.std.specs.Prelude.{◌≡◌, ℕ, ◌+◌, ◌*◌, ◌≤◌, ◌↔◌, ◌⊎◌, true, false, IsTrue, length, codes, IfOk, IfErr, OnOk, MatchOption, MatchResult};
ghost use Rattle.std.specs.Option.{option_map};
ghost use Rattle.task_set.specs.Refusal.{new_task, AddsTask, IsRefusal};
ghost use Rattle.task_set.specs.declared.fault.TaskFault.TheVariants as task;
ghost use Rattle.text_fields.specs.Fields.{texts};
ghost use Rattle.text_fields.specs.LineRule.{IsLineOutcome};
ghost use Rattle.text_fields.specs.Machine.{Leads, Fails};
ghost use Rattle.kernel_trace.specs.SurveyView.{look_of};
ghost use Rattle.kernel_trace.specs.Reading.{course_of, progress_of, line_of, window_view, IsSoundSoFar, IsCourse, IsOutOfMemory, IsRefusedBy};
ghost use Rattle.kernel_trace.specs.declared.stage.Step.TheVariants as step;
ghost use Rattle.kernel_trace.specs.TraceFault.{trace_kind};
ghost use Rattle.kernel_trace.specs.TraceText.{IsWorded, IsTaskForm, TaskLine, BeginsWith, events_line, window_of, window_between, without_tasks, IsHeadOutcome, IsTaskOutcome, window_outcome, IsLine, IsEndOutcome, HeaderExpected, ProcessorsExpected, Listed};

use crate::change::Standing;
use crate::course::{Course, Window};
use crate::fault::TraceKind;
use crate::fields::{fields, is_plain, is_skipped};
use crate::stamp::Stamp;
use crate::survey::Survey;
use affinity_mask::{OutOfMemory, ProcSet};
use indexmap::IndexSet;
use std::alloc::Global;
use std::str;
use task_set::{TaskFault, TaskSet};
use text_fields::limits::{FIRST_VERSION, MAX_PROCESSORS};
use text_fields::{is_word, read_number};
use trace_reader::Input;

/// The most bytes of a line of the head.
const LONGEST_LINE: usize = 4096;

/// The greatest priority that a trace prints: below it stand the places of 1,024 tasks in 32 bits.
const MAX_LEVEL: u64 = 4_194_303;

/// The greatest thread id.
const MAX_ID: u64 = 4_194_304;

/// How many tasks of one kernel priority there may be.
const TASKS_OF_LEVEL: u32 = 1024;

/// What is expected.
#[derive(Clone, Copy)]
pub enum Step {
    /// The header.
    Header,

    /// The number of processors.
    Processors,

    /// A task, a window or `events`.
    Head,

    /// A line of the trace.
    Trace,
}

/// What is expected after some lines, and what they said from the processors on.
#[derive(Drop)]
pub struct Stage<'a> {
    pub step: Step,
    pub course: Course<'a>,
}

/// What a task line says, with its name and its list as they stand.
#[derive(Clone, Copy)]
pub struct TaskForm<'a> {
    pub name: &'a [u8],
    pub level: u32,
    pub list: &'a [u8],
    pub id: u32,
}

impl<'a> Stage<'a> {
    /// Nothing is read yet.
    pub fn new(alloc: Global) -> Result<Stage<'a>, OutOfMemory>
        ensures { IfOk result (λ stage. progress_of stage ≡ HeaderExpected) }
    {
        let course = without_tasks(alloc, 1)?;
        Ok(Stage {
            step: Step::Header,
            course,
        })
    }

    /// Goes on by a line. The room is for the fields of a line of the head.
    pub fn after_line(
        &mut self,
        alloc: Global,
        look: Survey,
        line: &'a [u8],
        room: &mut Vec<&'a [u8]>,
    ) -> Result<(), TraceKind>
        requires { IsSoundSoFar (progress_of self.old) }
        ensures read { OnOk result (IsLine (look_of look.entry) (progress_of self.old) line.now
            (Leads (progress_of self.new))) }
        ensures refused { IfErr result (IsRefusedBy (IsLine (look_of look.entry) (progress_of self.old)
            line.now)) }
    {
        match self.step {
            Step::Trace => self.course.after_line(look, line),
            _ => self.after_head_line(alloc, line, room),
        }
    }

    /// Goes on by a line of the head.
    pub fn after_head_line(
        &mut self,
        alloc: Global,
        line: &'a [u8],
        room: &mut Vec<&'a [u8]>,
    ) -> Result<(), TraceKind>
        requires { IsSoundSoFar (progress_of self.old) }
        ensures read { OnOk result (IsLineOutcome 4096 true trace_kind IsHeadOutcome
            (progress_of self.old) line.now (Leads (progress_of self.new))) }
        ensures refused { IfErr result (IsRefusedBy (IsLineOutcome 4096 true trace_kind
            IsHeadOutcome (progress_of self.old) line.now)) }
    {
        if !is_plain(line) {
            return Err(TraceKind::BadByte);
        }
        if line.len() > LONGEST_LINE {
            return Err(TraceKind::LongLine);
        }
        let Ok(fields) = fields(line, room) else {
            return Err(TraceKind::OutOfMemory);
        };
        if is_skipped(fields) {
            Ok(())
        } else {
            self.after_fields(alloc, fields)
        }
    }

    /// Goes on by a line of the head that is not skipped, by its fields. A line of the trace is not read so.
    fn after_fields(&mut self, alloc: Global, fields: &[&'a [u8]]) -> Result<(), TraceKind>
        requires { IsSoundSoFar (progress_of self.old) }
        ensures read { OnOk result (IsHeadOutcome (progress_of self.old) (texts fields.now)
            (Leads (progress_of self.new))) }
        ensures refused { IfErr result (IsRefusedBy (IsHeadOutcome (progress_of self.old)
            (texts fields.now))) }
    {
        match self.step {
            Step::Header => {
                read_header(fields)?;
                self.step = Step::Processors;
                Ok(())
            }
            Step::Processors => {
                self.course = start(alloc, fields)?;
                self.step = Step::Head;
                Ok(())
            }
            Step::Head => self.after_listed(fields),
            Step::Trace => Ok(()),
        }
    }

    /// Goes on by a line of the head after the processors, by its fields.
    fn after_listed(&mut self, fields: &[&'a [u8]]) -> Result<(), TraceKind>
        requires step { self.old.step ≡ step.Head }
        requires listed { IsCourse (course_of self.old.course) }
        ensures read { OnOk result (IsHeadOutcome (progress_of self.old) (texts fields.now)
            (Leads (progress_of self.new))) }
        ensures refused { IfErr result (IsRefusedBy (IsHeadOutcome (progress_of self.old)
            (texts fields.now))) }
    {
        if begins(fields, "task") {
            read_task(&mut self.course, fields)
        } else if begins(fields, "window") {
            take_window(&mut self.course, fields)
        } else if is_events(fields) {
            self.step = Step::Trace;
            Ok(())
        } else {
            Err(TraceKind::BadHead)
        }
    }

    /// The input, where the trace came.
    pub fn at_end(self) -> Result<Input, TraceKind>
        requires { IsSoundSoFar (progress_of self) }
        ensures { MatchResult result
            (λ input. IsEndOutcome (progress_of self.entry) (Leads input))
            (λ kind. IsOutOfMemory kind ⊎ IsEndOutcome (progress_of self.entry) (Fails kind)) }
    {
        let Stage { step, course } = self;
        let Step::Trace = step else {
            return Err(TraceKind::NoEvents);
        };
        if !course.names_task() {
            return Err(TraceKind::NothingSaid);
        }
        match course.into_input() {
            Ok(input) => Ok(input),
            Err(_) => Err(TraceKind::OutOfMemory),
        }
    }
}

/// The number of a line that has this word and a number between these bounds.
fn read_worded(fields: &[&[u8]], word: &str, least: u64, most: u64) -> Option<u64>
    ensures { MatchOption result
        ((n : ℕ) → IsWorded word.now least most n (texts fields.now) → ⊥)
        (λ n. IsWorded word.now least most n (texts fields.now)) }
{
    match fields {
        [first, number] if is_word(first, word) => read_number(number, least, most),
        _ => None,
    }
}

/// Reads the header.
fn read_header(fields: &[&[u8]]) -> Result<(), TraceKind>
    ensures read { OnOk result (IsHeadOutcome HeaderExpected (texts fields.now)
        (Leads ProcessorsExpected)) }
    ensures refused { IfErr result (IsRefusedBy (IsHeadOutcome HeaderExpected
        (texts fields.now))) }
{
    match read_worded(fields, "trace", FIRST_VERSION as u64, FIRST_VERSION as u64) {
        Some(_) => Ok(()),
        None => Err(TraceKind::BadHeader),
    }
}

/// Nothing is listed yet, on as many processors as a line says.
fn start<'a>(alloc: Global, fields: &[&[u8]]) -> Result<Course<'a>, TraceKind>
    ensures read { IfOk result (λ course. IsHeadOutcome ProcessorsExpected (texts fields.now)
        (Leads (Listed (course_of course)))) }
    ensures refused { IfErr result (IsRefusedBy (IsHeadOutcome ProcessorsExpected
        (texts fields.now))) }
{
    let Some(processors) = read_worded(fields, "processors", 1, MAX_PROCESSORS) else {
        return Err(TraceKind::BadProcessors);
    };
    match without_tasks(alloc, processors as u8) {
        Ok(course) => Ok(course),
        Err(_) => Err(TraceKind::OutOfMemory),
    }
}

/// Nothing is listed yet, on so many processors.
fn without_tasks<'a>(alloc: Global, processors: u8) -> Result<Course<'a>, OutOfMemory>
    requires { (1 ≤ processors) × (processors ≤ 64) }
    ensures { IfOk result (λ course. course_of course ≡ without_tasks processors) }
{
    let set = TaskSet::new(alloc, processors)?;
    Ok(Course {
        set,
        ids: IndexSet::new(alloc),
        window: None,
        last: None,
        clock: None,
        used: None,
        standings: Vec::new(alloc),
        events: Vec::new(alloc),
    })
}

/// Whether the first field is this word.
fn begins(fields: &[&[u8]], word: &str) -> bool
    ensures { IsTrue result ↔ BeginsWith word.now (texts fields.now) }
{
    match fields {
        [first, ..] => is_word(first, word),
        [] => false,
    }
}

/// Whether the line is `events` alone.
fn is_events(fields: &[&[u8]]) -> bool
    ensures { IsTrue result ↔ (texts fields.now ≡ events_line) }
{
    match fields {
        [word] => is_word(word, "events"),
        _ => false,
    }
}

/// Takes the window of a line that begins with `window`.
fn take_window<'a>(course: &mut Course<'a>, fields: &[&'a [u8]]) -> Result<(), TraceKind>
    ensures read { OnOk result (window_outcome (course_of course.old) (course_of course.old).window
        (window_of (texts fields.now)) ≡ Leads (Listed (course_of course.new))) }
    ensures refused { IfErr result (λ kind. window_outcome (course_of course.old)
        (course_of course.old).window (window_of (texts fields.now)) ≡ Fails kind) }
{
    if course.window.is_some() {
        return Err(TraceKind::BadWindow);
    }
    let Some(window) = read_window(fields) else {
        return Err(TraceKind::BadWindow);
    };
    course.window = Some(window);
    Ok(())
}

/// The window of a line that begins with `window`.
fn read_window<'a>(fields: &[&'a [u8]]) -> Option<Window<'a>>
    ensures { option_map window_view result ≡ window_of (texts fields.now) }
{
    match fields {
        [_word, from, to] => read_between(from, to),
        _ => None,
    }
}

/// The window between two stamps.
fn read_between<'a>(from: &'a [u8], to: &'a [u8]) -> Option<Window<'a>>
    ensures { option_map window_view result ≡ window_between from.now to.now }
{
    let Some(from) = Stamp::read(from) else {
        return None;
    };
    let Some(to) = Stamp::read(to) else {
        return None;
    };
    if to.is_before(&from) {
        return None;
    }
    Some(Window { from, to })
}

/// Reads a task of a line that begins with `task`.
fn read_task(course: &mut Course, fields: &[&[u8]]) -> Result<(), TraceKind>
    requires listed { IsCourse (course_of course.old) }
    requires task { BeginsWith (codes "task") (texts fields.now) }
    ensures read { OnOk result (IsHeadOutcome (Listed (course_of course.old)) (texts fields.now)
        (Leads (Listed (course_of course.new)))) }
    ensures refused { IfErr result (IsRefusedBy (IsHeadOutcome (Listed (course_of course.old))
        (texts fields.now))) }
{
    match TaskForm::read(fields) {
        Some(form) => list_task(course, &form),
        None => Err(TraceKind::BadTask),
    }
}

impl<'a> TaskForm<'a> {
    /// What the fields of a task line say, if they have its form.
    pub fn read(fields: &[&'a [u8]]) -> Option<TaskForm<'a>>
        ensures { MatchOption result
            ((line : TaskLine) → IsTaskForm (texts fields.now) line → ⊥)
            (λ form. IsTaskForm (texts fields.now) (line_of form)) }
    {
        let [word, name, level, list, id] = fields else {
            return None;
        };
        if !is_word(word, "task") {
            return None;
        }
        let Some(level) = read_number(level, 0, MAX_LEVEL) else {
            return None;
        };
        let Some(id) = read_number(id, 1, MAX_ID) else {
            return None;
        };
        Some(TaskForm {
            name,
            level: level as u32,
            list,
            id: id as u32,
        })
    }
}

/// Lists the task of a line.
fn list_task(course: &mut Course, form: &TaskForm) -> Result<(), TraceKind>
    requires listed { IsCourse (course_of course.old) }
    requires level { form.now.level ≤ 4194303 }
    ensures read { OnOk result (IsTaskOutcome (course_of course.old) (line_of form.now)
        (Leads (Listed (course_of course.new)))) }
    ensures refused { IfErr result (IsRefusedBy (IsTaskOutcome (course_of course.old)
        (line_of form.now))) }
{
    let mask = ProcSet::read_list(form.list)?;
    let Ok(name) = str::from_utf8(form.name) else {
        return Err(TraceKind::TaskRefused(TaskFault::BadName));
    };
    add(&mut course.set, name, form.level, mask)?;
    let Ok(is_new) = course.ids.insert(form.id) else {
        return Err(TraceKind::OutOfMemory);
    };
    if !is_new {
        return Err(TraceKind::SamePid);
    }
    if course.standings.push(Standing::Unmentioned).is_err() {
        return Err(TraceKind::OutOfMemory);
    }
    Ok(())
}

/// Adds a task by its kernel priority and its place. Where the set is full, the place does not fit, and nothing rests on the
/// priority.
fn add(set: &mut TaskSet, name: &str, level: u32, mask: ProcSet) -> Result<u32, TaskFault>
    requires { level ≤ 4194303 }
    ensures added { IfOk result (AddsTask set.old set.new
        (new_task name.now (1024 * level + length set.old.tasks) mask)) }
    ensures refused { IfErr result (λ fault. (fault ≡ task.OutOfMemory)
        ⊎ IsRefusal set.old (new_task name.now (1024 * level + length set.old.tasks) mask)
        fault) }
{
    let place = set.len().min(TASKS_OF_LEVEL - 1);
    set.add(name, TASKS_OF_LEVEL * level + place, mask)
}
