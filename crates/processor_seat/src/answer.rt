//! What a processor answers.
use task_set::Order;

/// Whether an order was obeyed.
#[derive(Clone, Copy, Debug, PartialEq, Eq)]
pub enum Obeyed {
    /// The order was obeyed.
    Done,

    /// The order is a `Take` of this task that is not at its turn: the task's turn word was found to be another one than
    /// that of the take. Nothing was taken, and the same order may be tried again.
    NotTurn { task: u32, found: u64 },
}

/// What a step did.
#[derive(Clone, Copy, Debug, PartialEq, Eq)]
pub enum Step {
    /// This order was obeyed. It is never `Stop`.
    Did(Order),

    /// No order was there to obey.
    Empty,

    /// The order is a `Take` of this task that is not at its turn: the task's turn word was found to be another one than
    /// that of the take. The order is pending, and the next step tries it again.
    NotTurn { task: u32, found: u64 },

    /// `Stop` was received, in this step or before. Each later step answers the same.
    Stopped,
}
