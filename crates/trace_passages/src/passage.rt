//! What a line of a trace says.

use crate::turn::Turn;

/// A mention of a task that changes whether it is ready.
#[derive(Clone, Copy)]
pub struct Readiness {
    pub task: u32,

    /// It becomes ready. Otherwise it becomes absent.
    pub is_in: bool,
}

/// What a used line of a trace says, by the numbers of the threads.
#[derive(Clone, Copy)]
pub struct Passage {
    /// Microseconds since the first change.
    pub moment: u64,

    /// Who runs where. A wakeup that makes nobody ready says nothing of it.
    pub turn: Option<Turn>,

    /// The tasks whose readiness changes, in this order.
    pub first: Option<Readiness>,
    pub second: Option<Readiness>,
}
