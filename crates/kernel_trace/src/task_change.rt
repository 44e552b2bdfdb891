//! What a line of a trace says of tasks and other threads.
ghost use Rattle.std.specs.Prelude.{◌≡◌};
ghost use Rattle.kernel_trace.specs.Passage.{turn_of};

use trace_passages::{Readiness, Turn};

/// What a line says of threads, by their numbers. Those of the tasks come first; a thread without a number is left out.
#[derive(Clone, Copy)]
pub enum TaskChange {
    /// The task becomes ready, where it is not.
    Wakeup(Option<u32>),

    /// A processor goes from one thread to another one.
    Switch {
        processor: u32,
        from: Option<u32>,
        to: Option<u32>,
    },
}

impl TaskChange {
    /// What the line says of who runs where, by the mention that changes whether its first task is ready. A wakeup says
    /// something where there is one.
    pub fn turn(self, first: Option<Readiness>) -> Option<Turn>
        ensures { result ≡ turn_of self first }
    {
        match self {
            TaskChange::Switch {
                processor,
                from,
                to,
            } => Some(Turn::Switch {
                processor,
                from,
                to,
            }),
            TaskChange::Wakeup(Some(task)) if first.is_some() => Some(Turn::Woken(task)),
            TaskChange::Wakeup(_) => None,
        }
    }
}
