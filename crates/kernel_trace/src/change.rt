//! What lines of a trace say of threads and of tasks.

/// A thread of a switch: its id, and whether its priority is one of real time.
#[derive(Clone, Copy)]
pub struct Thread {
    pub id: u32,
    pub is_real_time: bool,
}

/// What a line of the scheduler says of threads, which go by their ids. 4,194,305 stands for all greater numbers, and is
/// nobody's id.
#[derive(Clone, Copy)]
pub enum Change {
    /// The thread becomes ready.
    Wakeup(u32),

    /// A processor goes from one thread, which stays ready or does not, to another one.
    Switch {
        from: Thread,
        stays: bool,
        to: Thread,
    },
}

/// What the last mention of a task says.
#[derive(Clone, Copy)]
pub enum Standing {
    /// No line mentioned the task.
    Unmentioned,

    /// The task was mentioned as in.
    Ready,

    /// The task was mentioned as out.
    Absent,
}

impl Standing {
    ghost use Rattle.std.specs.Prelude.{◌≡◌};
    ghost use Rattle.kernel_trace.specs.Course.{standing_after, says_ready, is_absent, is_mentioned};

    /// What a mention says.
    pub fn after(is_in: bool) -> Standing
        ensures { result ≡ standing_after is_in }
    {
        if is_in {
            Standing::Ready
        } else {
            Standing::Absent
        }
    }

    /// Whether the task is ready.
    pub fn is_ready(self) -> bool
        ensures { result ≡ says_ready self }
    {
        matches!(self, Standing::Ready)
    }

    /// Whether some line mentioned the task.
    pub fn is_mentioned(self) -> bool
        ensures { result ≡ is_mentioned self }
    {
        !matches!(self, Standing::Unmentioned)
    }

    /// Whether the task was mentioned and is not ready.
    pub fn is_absent(self) -> bool
        ensures { result ≡ is_absent self }
    {
        matches!(self, Standing::Absent)
    }
}
