//! Why a text is no processor list.

use std::error::Error;
use std::fmt;

/// Why a text is no processor list. Of several faults the one of the first piece between commas is answered, and of
/// that piece the first in this order. A place is the index, from 0, of the first byte of the piece.
#[derive(Clone, Copy, Debug, PartialEq, Eq)]
pub enum MaskFault {
    /// The text has no bytes.
    Empty,

    /// The piece is neither a number nor two numbers joined by one '-'.
    BadItem { place: usize },

    /// The first number of the piece is greater than the second.
    Backward { place: usize },

    /// A number of the piece is greater than 63.
    Large { place: usize },
}

impl fmt::Display for MaskFault {
    fn fmt<W: fmt::Write>(&self, f: &mut fmt::Formatter<W>) -> fmt::Result {
        match self {
            MaskFault::Empty => write!(f, "the processor list has no bytes"),
            MaskFault::BadItem { place } => write!(
                f,
                "at {place} stands no number and no range of numbers"
            ),
            MaskFault::Backward { place } => write!(f, "the range at {place} begins above its end"),
            MaskFault::Large { place } => write!(f, "the item at {place} has a number above 63"),
        }
    }
}

impl Error for MaskFault {}
