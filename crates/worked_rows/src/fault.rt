//! What is wrong with the text of the cases.
use std::alloc::{AllocError, AllocFailed};
use std::error::Error;
use std::fmt;

/// What is wrong with a line.
#[derive(Clone, Copy, Debug, PartialEq, Eq)]
pub enum LineFault {
    /// There is no case that it could belong to.
    NoCase,
    /// It has none of the forms of a line.
    UnknownLine,
    /// A number is missing, or out of its bounds.
    BadNumber,
    /// The text before it has no end.
    OpenText,
    /// Out of memory.
    OutOfMemory,
}

impl fmt::Display for LineFault {
    fn fmt<W: fmt::Write>(&self, f: &mut fmt::Formatter<W>) -> fmt::Result {
        match self {
            LineFault::NoCase => write!(f, "no case stands before it"),
            LineFault::UnknownLine => write!(f, "no line of a case has this form"),
            LineFault::BadNumber => write!(f, "a number is missing or out of its bounds"),
            LineFault::OpenText => write!(f, "the text before it has no end"),
            LineFault::OutOfMemory => write!(f, "out of memory"),
        }
    }
}

impl From<AllocError> for LineFault {
    fn from(_error: AllocError) -> LineFault {
        LineFault::OutOfMemory
    }
}

impl<T: Drop> From<AllocFailed<T>> for LineFault {
    fn from(_error: AllocFailed<T>) -> LineFault {
        LineFault::OutOfMemory
    }
}

/// The first line with a fault, from 1.
#[derive(Clone, Copy, Debug, PartialEq, Eq)]
pub struct CasesFault {
    pub line: usize,
    pub fault: LineFault,
}

impl fmt::Display for CasesFault {
    fn fmt<W: fmt::Write>(&self, f: &mut fmt::Formatter<W>) -> fmt::Result {
        let line = self.line;
        let fault = self.fault;
        write!(f, "line {line} of the cases: {fault}")
    }
}

impl Error for CasesFault {}
