//! Faults of lines.
use affinity_mask::OutOfMemory;

/// What may be wrong with a line whatever it is to say. Of several that hold, the first in this order is answered.
#[derive(Clone, Copy, Debug, PartialEq, Eq)]
pub enum LineKind {
    /// The line has a byte that is neither a tab nor printable ASCII.
    BadByte,

    /// The line has more bytes than the longest line of its machine.
    LongLine,

    /// The memory that the text needs was refused. It may come in place of any answer.
    OutOfMemory,
}

/// The first line that has a fault, from 1, and the kind of its fault. Out of memory, the line means nothing.
#[derive(Drop)]
pub struct LineFault<K> {
    pub line: u64,
    pub kind: K,
}
