//! What a scheduler by counts answers to an event.
use affinity_mask::ProcSet;

/// The reply to an event. A node is the mask of a task.
#[derive(Clone, Copy, Debug, PartialEq, Eq)]
pub enum NestedReply {
    /// The task arrived, and is linked.
    Entered,

    /// The task arrived, and is linked in place of the least urgent task that the node held.
    Displaced { out: u32, node: ProcSet },

    /// The task arrived, and waits: the node holds as many more urgent tasks as it has processors.
    Waits { node: ProcSet },

    /// The task departed, and this waiting task is linked then, if one could be.
    Freed { entered: Option<u32> },

    /// The task departed, and had waited.
    Left,

    /// Time passed.
    Ticked,

    /// The task that arrives was ready before.
    AlreadyReady,

    /// The task that departs was absent before.
    NotReady,
}
