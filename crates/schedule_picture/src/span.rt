//! Spans: what is seen of a processor or of a task, from which entry on and how long.

/// What can be seen of a processor, or of a task.
#[derive(Clone, Copy, Debug, PartialEq, Eq)]
pub enum Seen {
    /// Of a processor: this task is linked to it.
    Task(u32),
    /// Of a processor: it is off line.
    OffLine,
    /// Of a task: it is linked to this processor.
    Processor(u8),
    /// Of a task: it is ready, and waits.
    Waiting,
}

/// What is seen after each entry from `from` on, and no more after the entry `until`. Entries are counted from 1.
#[derive(Clone, Copy, Debug, PartialEq, Eq)]
pub struct Span {
    pub what: Seen,
    pub from: u32,
    pub until: u32,
}
