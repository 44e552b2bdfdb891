//! What a processor is told to do.

/// An order to one processor. Tasks go by their numbers in the set.
#[derive(Clone, Copy, Debug, PartialEq, Eq)]
pub enum Order {
    /// The processor lets go of the task that it holds.
    Release(u32),

    /// The processor takes the context of a task. The number says how often the task was taken before, on any
    /// processor.
    Take { task: u32, number: u32 },

    /// The task that is held runs this many units.
    Run(u32),

    /// No order follows.
    Stop,
}
