//! What an observer knows.
use crate::chronicle::Reached;
use std::collections::LinkedList;

/// What an observer knows, which stands in the proofs alone: no value of it is made.
pub struct ObserverView {
    /// Whether it knows which board it is at.
    pub bound: bool,

    /// How many processors the pictures of that board have.
    pub processors: u8,

    /// The published entries that it has seen.
    pub seen: Reached,

    /// The lengths that its own looks found.
    pub looks: LinkedList<u64>,
}
