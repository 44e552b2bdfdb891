//! Why a text is not a schedule.
ghost use Rattle.std.specs.Prelude.{◌≡◌};
ghost use Rattle.schedule_text.specs.ScheduleFault.{kind_number};

use task_set::TaskFault;

/// The first line that has a fault, from 1, and the kind of its fault. Out of memory, the line means nothing.
#[derive(Clone, Copy, Debug, PartialEq, Eq)]
pub struct TextFault {
    pub line: u64,
    pub kind: TextKind,
}

/// What is wrong with a line. Whether a line comes at all is tested first, and else the first in this order is
/// answered.
#[derive(Clone, Copy, Debug, PartialEq, Eq)]
pub enum TextKind {
    /// The line is not of the expected form, in which any field may stand for the name of a new task and for the names
    /// of an entry.
    BadLine,

    /// The task of a task line cannot be added. The cause is never out of memory here.
    TaskRefused(TaskFault),

    /// An entry has the name of a task that there is not.
    UnknownTask,

    /// A line is expected, and no further line feed comes.
    Short,

    /// More bytes stand after the end.
    AfterEnd,

    /// The memory that the schedule needs was refused. It may come in place of any answer.
    OutOfMemory,
}

impl TextKind {
    /// The number of the kind, from 21. Out of memory has none.
    pub fn number(&self) -> Option<u8>
        ensures { result ≡ kind_number self.now }
    {
        match self {
            TextKind::BadLine => Some(21),
            TextKind::TaskRefused(_) => Some(22),
            TextKind::UnknownTask => Some(23),
            TextKind::Short => Some(24),
            TextKind::AfterEnd => Some(25),
            TextKind::OutOfMemory => None,
        }
    }
}

impl From<affinity_mask::OutOfMemory> for TextKind {
    ghost use Rattle.schedule_text.specs.declared.fault.TextKind.TheVariants.{OutOfMemory};

    ghost from_gives = { λ _ kind. kind ≡ OutOfMemory };

    fn from(_refused: affinity_mask::OutOfMemory) -> TextKind {
        TextKind::OutOfMemory
    }
}

impl From<TaskFault> for TextKind {
    ghost use Rattle.schedule_text.specs.ScheduleFault.{kind_of_refusal};

    ghost from_gives = { λ fault kind. kind ≡ kind_of_refusal fault };

    fn from(fault: TaskFault) -> TextKind {
        match fault {
            TaskFault::OutOfMemory => TextKind::OutOfMemory,
            _ => TextKind::TaskRefused(fault),
        }
    }
}
