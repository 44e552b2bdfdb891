//! The window of a picture.

/// Which places of its axis a picture shows: units of time, or entries. It has no more than there are.
#[derive(Clone, Copy, Debug, PartialEq, Eq)]
pub struct Window {
    pub from: u64,
    pub to: u64,
}
