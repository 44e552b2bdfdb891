//! Why a task is not added to a set.

ghost use Rattle.std.specs.Prelude.{◌≡◌};
ghost use Rattle.task_set.specs.declared.fault.TaskFault.TheVariants.{OutOfMemory};

use std::error::Error;
use std::fmt;

/// Why a task was not added. Of several that hold, the first in this order is answered.
#[derive(Clone, Copy, Debug, PartialEq, Eq)]
pub enum TaskFault {
    /// The text is no name.
    BadName,

    /// The set has `MAX_TASKS` tasks.
    Many,

    /// The task with this number has the name.
    SameName(u32),

    /// The task with this number has the priority.
    SamePriority(u32),

    /// The mask has no processor.
    EmptyMask,

    /// The mask has this number, the least of those that are no processor of the set.
    OutsideMask(u8),

    /// The memory that the task needs was refused. It may come in place of any answer.
    OutOfMemory,
}

impl fmt::Display for TaskFault {
    fn fmt<W: fmt::Write>(&self, f: &mut fmt::Formatter<W>) -> fmt::Result {
        match self {
            TaskFault::BadName => write!(f, "the text is no name of a task"),
            TaskFault::Many => write!(f, "the set of tasks is full"),
            TaskFault::SameName(t) => write!(f, "task {t} has the name"),
            TaskFault::SamePriority(t) => write!(f, "task {t} has the priority"),
            TaskFault::EmptyMask => write!(f, "the mask has no processor"),
            TaskFault::OutsideMask(p) => write!(
                f,
                "the mask has processor {p}, which is not there"
            ),
            TaskFault::OutOfMemory => write!(f, "out of memory"),
        }
    }
}

impl Error for TaskFault {}

impl From<affinity_mask::OutOfMemory> for TaskFault {
    ghost from_gives = { λ _ fault. fault ≡ OutOfMemory };

    fn from(_refused: affinity_mask::OutOfMemory) -> TaskFault {
        TaskFault::OutOfMemory
    }
}
