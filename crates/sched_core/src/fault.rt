//! Why an event is not applied.

ghost use Rattle.std.specs.Prelude.{◌≡◌};
ghost use Rattle.sched_core.specs.declared.fault.CoreFault.TheVariants.{OutOfMemory};

use std::error::Error;
use std::fmt;

/// Why an event was not applied.
#[derive(Clone, Copy, Debug, PartialEq, Eq)]
pub enum CoreFault {
    /// The core is closed, and stays so.
    Closed,

    /// The core is open, and its history has as many entries as a history may have.
    Full,

    /// The memory that one more entry needs was refused. It never comes where room was reserved for an entry.
    OutOfMemory,
}

impl fmt::Display for CoreFault {
    fn fmt<W: fmt::Write>(&self, f: &mut fmt::Formatter<W>) -> fmt::Result {
        match self {
            CoreFault::Closed => write!(f, "the core is closed"),
            CoreFault::Full => write!(f, "the history is full"),
            CoreFault::OutOfMemory => write!(f, "out of memory"),
        }
    }
}

impl Error for CoreFault {}

impl From<affinity_mask::OutOfMemory> for CoreFault {
    ghost from_gives = { λ _ fault. fault ≡ OutOfMemory };

    fn from(_refused: affinity_mask::OutOfMemory) -> CoreFault {
        CoreFault::OutOfMemory
    }
}
