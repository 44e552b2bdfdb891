//! Where threads were before a line moved them.

/// What a step back over a line undid. With it, the step is taken again the other way.
#[derive(Clone, Copy)]
pub struct Former {
    /// The thread that was on the processor of the line.
    pub stopped: Option<u32>,

    /// The processors of the thread that leaves or wakes up, and of the one that comes.
    pub from: Option<u32>,
    pub to: Option<u32>,
}
