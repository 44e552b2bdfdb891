//! What may happen in a scheduler.

use affinity_mask::ProcSet;

/// An event of the scheduler. Tasks go by their numbers in the set, and processors by their numbers from 0.
#[derive(Clone, Copy, Debug, PartialEq, Eq)]
pub enum Event {
    /// The task becomes ready.
    Arrive(u32),

    /// The task becomes absent.
    Depart(u32),

    /// Each linked task runs this many units on its processor.
    Tick(u32),

    /// The affinity mask of the task becomes this one. A ready task leaves and arrives again.
    Affinity { task: u32, mask: ProcSet },

    /// The processor goes off line, so that no task may run on it. A task that ran there leaves and arrives again.
    Offline(u8),

    /// The processor comes on line.
    Online(u8),
}
