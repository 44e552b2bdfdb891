//! Why a text is not a trace.
ghost use Rattle.std.specs.Prelude.{◌≡◌};
ghost use Rattle.kernel_trace.specs.TraceFault.{kind_number};

use affinity_mask::MaskFault;
use task_set::TaskFault;

/// The first line that has a fault, from 1, and the kind of its fault. A text without the line `events` is refused at the
/// line after its last one. Out of memory, the line means nothing.
#[derive(Clone, Copy, Debug, PartialEq, Eq)]
pub struct TraceFault {
    pub line: u64,
    pub kind: TraceKind,
}

/// What is wrong with a line. Of several that hold, the first in this order is answered.
#[derive(Clone, Copy, Debug, PartialEq, Eq)]
pub enum TraceKind {
    /// The line is of the head, and has a byte that is neither a tab nor printable ASCII.
    BadByte,

    /// The line is of the head, and has more than 4,096 bytes.
    LongLine,

    /// The header is expected, and the line is not one.
    BadHeader,

    /// The number of processors is expected, and the line does not say it.
    BadProcessors,

    /// A task line has not five fields, or its third is no number up to 4,194,303, or its fifth none from 1 to 4,194,304.
    BadTask,

    /// The fourth field of a task line is no processor list.
    BadMask(MaskFault),

    /// The task of a task line cannot be added. The cause is never out of memory here.
    TaskRefused(TaskFault),

    /// An earlier task has the thread id.
    SamePid,

    /// A window line has not two stamps, of which the second is not less than the first, or there was a window before.
    BadWindow,

    /// The line is none of those that are expected: a task, a window, or `events`.
    BadHead,

    /// The line of the trace tells of lost events.
    Lost,

    /// The line of the trace is of the scheduler, and has not its form; or, where passages are read, it is a switch and names no
    /// processor.
    BadForm,

    /// The stamp of the line is less than that of the line of the scheduler before it.
    Backward,

    /// A switch mentions a task that was mentioned before and is not ready: a wakeup is missing.
    Unseen,

    /// The input of the lines up to this one has more than 20,000 events; or, where passages are read, the line is 2^63
    /// microseconds or more after the first change.
    ManyEvents,

    /// All lines were read, and the line `events` did not come.
    NoEvents,

    /// The line is of the head of ftrace, and says that the recorder overwrote lines; and the window does not begin where the lines
    /// of all processors are there.
    Overwritten,

    /// All lines were read, and no used line names a task.
    NothingSaid,

    /// The memory that the input needs was refused. It may come in place of any answer.
    OutOfMemory,
}

impl TraceKind {
    /// The number of the kind. Out of memory has none.
    pub fn number(&self) -> Option<u8>
        ensures { result ≡ kind_number self.now }
    {
        match self {
            TraceKind::BadByte => Some(1),
            TraceKind::LongLine => Some(2),
            TraceKind::BadHeader => Some(3),
            TraceKind::BadProcessors => Some(4),
            TraceKind::BadTask => Some(5),
            TraceKind::BadMask(_) => Some(6),
            TraceKind::TaskRefused(_) => Some(7),
            TraceKind::SamePid => Some(16),
            TraceKind::BadWindow => Some(17),
            TraceKind::BadHead => Some(8),
            TraceKind::Lost => Some(20),
            TraceKind::BadForm => Some(18),
            TraceKind::Backward => Some(19),
            TraceKind::Unseen => Some(21),
            TraceKind::ManyEvents => Some(10),
            TraceKind::NoEvents => Some(12),
            TraceKind::Overwritten => Some(22),
            TraceKind::NothingSaid => Some(23),
            TraceKind::OutOfMemory => None,
        }
    }
}

impl From<affinity_mask::OutOfMemory> for TraceKind {
    ghost use Rattle.kernel_trace.specs.declared.fault.TraceKind.TheVariants.{OutOfMemory};

    ghost from_gives = { λ _ kind. kind ≡ OutOfMemory };

    fn from(_refused: affinity_mask::OutOfMemory) -> TraceKind {
        TraceKind::OutOfMemory
    }
}

impl From<MaskFault> for TraceKind {
    ghost use Rattle.kernel_trace.specs.declared.fault.TraceKind.TheVariants.{BadMask};

    ghost from_gives = { λ fault kind. kind ≡ BadMask fault };

    fn from(fault: MaskFault) -> TraceKind {
        TraceKind::BadMask(fault)
    }
}

impl From<TaskFault> for TraceKind {
    ghost use Rattle.kernel_trace.specs.TraceFault.{kind_of_refusal};

    ghost from_gives = { λ fault kind. kind ≡ kind_of_refusal fault };

    fn from(fault: TaskFault) -> TraceKind {
        match fault {
            TaskFault::OutOfMemory => TraceKind::OutOfMemory,
            _ => TraceKind::TaskRefused(fault),
        }
    }
}
