//! The numbers that an input is made from.

/// The numbers of a generated input.
#[derive(Clone, Copy, Debug, PartialEq, Eq)]
pub struct Sizes {
    /// The number from which tasks and events are drawn.
    pub number: u64,

    /// How many processors there are, from 1 to 64.
    pub processors: u8,

    /// How many tasks there are, from 1 to 1,024.
    pub tasks: u32,

    /// How many events there are, up to 20,000.
    pub events: u32,
}
