//! A hook for tests.

/// A call that a thread makes at certain points of its work. It promises no more than that it returns, so a test may
/// count the calls there, or slow a thread down.
pub trait Gate {
    /// Point 0 is before a post and point 1 after it, with the stream as `who`. Point 2 is before the first try of each
    /// `Take` that was received, with the processor as `who`. Point 3 is before each read that an observer makes beside the
    /// posts, with the observer's number, counted from 0, as `who`.
    fn at(&self, who: u32, point: u32);
}

/// The gate that does nothing.
#[derive(Clone, Copy)]
pub struct OpenGate;

impl Gate for OpenGate {
    fn at(&self, _who: u32, _point: u32) {}
}
