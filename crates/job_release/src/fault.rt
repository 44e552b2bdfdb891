//! Why a text is not one of jobs.
ghost use Rattle.std.specs.Prelude.{◌≡◌};
ghost use Rattle.job_release.specs.JobFault.{kind_number};

use affinity_mask::MaskFault;
use task_set::TaskFault;

/// The first line that has a fault, from 1, and the kind of its fault. A text without `end` is refused at the line
/// after its last one. Out of memory, the line means nothing.
#[derive(Clone, Copy, Debug, PartialEq, Eq)]
pub struct JobFault {
    pub line: u64,
    pub kind: JobKind,
}

/// What is wrong with a line. Of several that hold, the first in this order is answered.
#[derive(Clone, Copy, Debug, PartialEq, Eq)]
pub enum JobKind {
    /// The line has a byte that is neither a tab nor printable ASCII.
    BadByte,

    /// The line has more than 4,096 bytes.
    LongLine,

    /// The header is expected, and the line is not one.
    BadHeader,

    /// The number of processors is expected, and the line does not say it.
    BadProcessors,

    /// The horizon is expected, and the line does not say it.
    BadHorizon,

    /// A task line is expected, and the line has not its form: in version 1 wherever the line is not the end, and in version
    /// 2 where its first field is `task` and no job came yet.
    BadTask,

    /// The fourth field of a task line is no processor list.
    BadMask(MaskFault),

    /// The task of a task line cannot be added. The cause is never out of memory here.
    TaskRefused(TaskFault),

    /// In version 2 a task before the first job, a job or the end is expected, and the line is none of them.
    BadJob,

    /// No task has the name of a job line.
    UnknownTask,

    /// The job is released before the one before it of its task.
    Backward,

    /// The tasks and jobs up to this line are more than 4,000 jobs below the horizon.
    ManyJobs,

    /// The line stands after the end.
    AfterEnd,

    /// All lines were read, and the end did not come.
    NoEnd,

    /// The memory that the input needs was refused. It may come in place of any answer.
    OutOfMemory,
}

impl JobKind {
    /// The number of the kind. Out of memory has none.
    pub fn number(&self) -> Option<u8>
        ensures { result ≡ kind_number self.now }
    {
        match self {
            JobKind::BadByte => Some(1),
            JobKind::LongLine => Some(2),
            JobKind::BadHeader => Some(3),
            JobKind::BadProcessors => Some(4),
            JobKind::BadHorizon => Some(14),
            JobKind::BadTask => Some(5),
            JobKind::BadMask(_) => Some(6),
            JobKind::TaskRefused(_) => Some(7),
            JobKind::BadJob => Some(8),
            JobKind::UnknownTask => Some(9),
            JobKind::Backward => Some(19),
            JobKind::ManyJobs => Some(15),
            JobKind::AfterEnd => Some(11),
            JobKind::NoEnd => Some(12),
            JobKind::OutOfMemory => None,
        }
    }
}

impl From<affinity_mask::OutOfMemory> for JobKind {
    ghost use Rattle.job_release.specs.declared.fault.JobKind.TheVariants.{OutOfMemory};

    ghost from_gives = { λ _ kind. kind ≡ OutOfMemory };

    fn from(_refused: affinity_mask::OutOfMemory) -> JobKind {
        JobKind::OutOfMemory
    }
}

impl From<MaskFault> for JobKind {
    ghost use Rattle.job_release.specs.declared.fault.JobKind.TheVariants.{BadMask};

    ghost from_gives = { λ fault kind. kind ≡ BadMask fault };

    fn from(fault: MaskFault) -> JobKind {
        JobKind::BadMask(fault)
    }
}

impl From<TaskFault> for JobKind {
    ghost use Rattle.job_release.specs.JobFault.{kind_of_refusal};

    ghost from_gives = { λ fault kind. kind ≡ kind_of_refusal fault };

    fn from(fault: TaskFault) -> JobKind {
        match fault {
            TaskFault::OutOfMemory => JobKind::OutOfMemory,
            _ => JobKind::TaskRefused(fault),
        }
    }
}
