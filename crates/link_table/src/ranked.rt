//! An entry of the order of urgency.

/// A task with its priority.
#[derive(Clone, Copy)]
pub(crate) struct Ranked {
    pub(crate) priority: u32,
    pub(crate) task: u32,
}
