//! What a trace says of tasks, and its reader.
ghost use Rattle.std.specs.Prelude.{◌≡◌, ◌⊎◌, ◌+◌, ◌<◌, ◌≤◌, ℕ, false, length, map, slice_index, slice_index_or, IfOk, IfErr, MatchResult};
ghost use Rattle.kernel_trace.specs.Passage.{TaskTraceData, nothing_followed, IsTaskTextBy, IsTaskRefusedBy, IsTaskTraceText, IsTaskTraceRefused};
ghost use Rattle.kernel_trace.specs.Passages.{IsTaskTrace};
ghost use Rattle.kernel_trace.specs.PassageView.{following_of};
ghost use Rattle.kernel_trace.specs.Reading.{IsOutOfMemory};
ghost use Rattle.kernel_trace.specs.SurveyView.{look_of};
ghost use Rattle.kernel_trace.specs.declared.fault.TraceKind.{TraceKind};

use crate::change::Standing;
use crate::fault::{TraceFault, TraceKind};
use crate::fields::first_line;
use crate::survey::{Survey, look_over};
use crate::task_stage::TaskStage;
use crate::unlisted::Unlisted;
use std::alloc::Global;
use std::marker::Model;
use task_set::TaskSet;
use trace_passages::Passage;

/// The tasks of a head, and the passages of a trace in their order.
#[derive(Drop)]
pub struct TaskTrace {
    set: TaskSet,

    /// When the first change was, in microseconds.
    clock: Option<u64>,

    passages: Vec<Passage>,

    /// What the last mention of each task says.
    standings: Vec<Standing>,

    /// The threads that are told apart. Their numbers in the passages come after those of the tasks.
    unlisted: Unlisted,
}

impl Model for TaskTrace {
    ghost use Rattle.kernel_trace.specs.Passage.{TaskTraceData, task_trace_view};

    ghost Value = { TaskTraceData };

    ghost view = { task_trace_view };
}

impl TaskTrace {
    ghost use Rattle.kernel_trace.specs.Course.{is_mentioned};
    ghost use Rattle.kernel_trace.specs.Passage.{span_of};

    /// A trace of these parts.
    pub fn new(
        set: TaskSet,
        clock: Option<u64>,
        passages: Vec<Passage>,
        standings: Vec<Standing>,
        unlisted: Unlisted,
    ) -> TaskTrace
        ensures { result ≡ record {
          set = set;
          clock = clock;
          passages = passages.items;
          mentioned = map is_mentioned standings.items;
          unlisted = unlisted;
        } }
    {
        TaskTrace {
            set,
            clock,
            passages,
            standings,
            unlisted,
        }
    }

    /// The tasks.
    pub fn set(&self) -> &TaskSet
        ensures { result.now ≡ self.now.set }
    {
        &self.set
    }

    /// How many threads are told apart that are no tasks.
    pub fn unlisted(&self) -> u32
        ensures value { result ≡ length self.now.unlisted }
        ensures bound { result ≤ 1024 }
    {
        self.unlisted.len()
    }

    /// The id of one of them, in the order in which the lines name them.
    pub fn unlisted_id(&self, place: u32) -> u32
        requires { place < length self.now.unlisted }
        ensures { result ≡ slice_index self.now.unlisted place }
    {
        self.unlisted.id(place)
    }

    /// How many threads have a number: the tasks, and those told apart.
    pub fn threads(&self) -> u32
        ensures value { result ≡ length self.now.set.tasks + length self.now.unlisted }
        ensures bound { result ≤ 2048 }
    {
        self.set.len() + self.unlisted.len()
    }

    /// When the first change was: its microseconds by the clock of the trace, where they are less than 2^63.
    pub fn clock(&self) -> Option<u64>
        ensures { result ≡ self.now.clock }
    {
        self.clock
    }

    /// Whether some used line mentions a task.
    pub fn is_mentioned(&self, t: u32) -> bool
        ensures { result ≡ slice_index_or self.now.mentioned t false }
    {
        match self.standings.get(t as usize) {
            Some(standing) => standing.is_mentioned(),
            None => false,
        }
    }

    /// The used lines, from the first one on that changes whether a task is ready.
    pub fn passages(&self) -> &[Passage]
        ensures { result.now ≡ self.now.passages }
    {
        &self.passages
    }

    /// How many microseconds passed from the first change to the last used line.
    pub fn span(&self) -> u64
        ensures { result ≡ span_of self.now.passages }
    {
        match self.passages.last() {
            Some(passage) => passage.moment,
            None => 0,
        }
    }
}

/// The passages of a trace, or the first line that has a fault, with its kind. `OutOfMemory` may come in place of either.
/// Memory is taken for one passage of each used line.
pub fn read_task_trace(alloc: Global, bytes: &[u8]) -> Result<TaskTrace, TraceFault>
    ensures trace { IfOk result (IsTaskTraceText bytes.now) }
    ensures refused { IfErr result (λ fault. IsOutOfMemory fault.kind
        ⊎ IsTaskTraceRefused bytes.now fault.line fault.kind) }
    ensures passages { IfOk result (IsTaskTrace bytes.now) }

    // Only `OutOfMemory` comes in place of the expected answer.
    ensures accepts { (trace : TaskTraceData) → IsTaskTraceText bytes.now trace
        → MatchResult result (λ found. found ≡ trace) (λ fault. IsOutOfMemory fault.kind) }
    ensures refuses { (line : ℕ) (kind : TraceKind) → IsTaskTraceRefused bytes.now line kind
        → MatchResult result (λ trace. ⊥)
        (λ fault. IsOutOfMemory fault.kind ⊎ ((fault.line ≡ line) × (fault.kind ≡ kind))) }
{
    let Ok(look) = look_over(alloc, bytes) else {
        return Err(TraceFault {
            line: 1,
            kind: TraceKind::OutOfMemory,
        });
    };
    let Ok(stage) = TaskStage::new(alloc) else {
        return Err(TraceFault {
            line: 1,
            kind: TraceKind::OutOfMemory,
        });
    };
    run(alloc, look, stage, bytes)
}

/// Goes on line by line, from the first to the last.
fn run<'a>(
    alloc: Global,
    look: Survey,
    stage: TaskStage<'a>,
    bytes: &'a [u8],
) -> Result<TaskTrace, TraceFault>
    requires { following_of stage ≡ nothing_followed }
    ensures trace { IfOk result (IsTaskTextBy (look_of look.entry) bytes.now) }
    ensures refused { IfErr result (λ fault. IsOutOfMemory fault.kind
        ⊎ IsTaskRefusedBy (look_of look.entry) bytes.now fault.line fault.kind) }
{
    let mut room = Vec::new(alloc);
    let mut stage = stage;
    let mut rest = bytes;
    let mut line = 1;
    while !rest.is_empty() {
        let (text, after) = first_line(rest);
        match stage.after_line(alloc, look, text, &mut room) {
            Ok(()) => {}
            Err(kind) => return Err(TraceFault { line, kind }),
        }
        rest = after;
        line += 1;
    }
    match stage.at_end() {
        Ok(trace) => Ok(trace),
        Err(kind) => Err(TraceFault { line, kind }),
    }
}
