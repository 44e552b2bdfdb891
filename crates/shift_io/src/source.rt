//! What bytes are taken from.
ghost use Rattle.std.specs.Prelude.{◌≡◌, ℕ, ◌+◌, List, Option, Some, codes};
ghost use Rattle.shift_io.specs.Causes.{HasCause};
ghost use Rattle.shift_io.specs.Stream.{Takes};

use std::error::Error;
use std::fmt;

/// A call on a source or a sink failed. The count of faults of that stream rose.
#[derive(Clone, Copy, Debug, PartialEq, Eq)]
pub struct Failed;

impl fmt::Display for Failed {
    ghost output = { λ _. Some (codes "the stream failed") };

    fn fmt<W: fmt::Write>(&self, f: &mut fmt::Formatter<W>) -> fmt::Result {
        write!(f, "the stream failed")
    }
}

impl Error for Failed {}

/// What gives bytes, from the first to the end of input.
pub trait Source {
    /// The bytes that are left, where the source reports them.
    ghost left: { Self → Option (List ℕ) };

    /// How often a call failed. It never falls.
    ghost faults: { Self → ℕ };

    /// How many calls of `take` there were. Each call adds one, and nothing else adds any.
    ghost calls: { Self → ℕ };

    /// Moves the first bytes left to the start of `into`, and answers how many. Where `into` has
    /// room, 0 is the end of input. What stands in `into` after them is free.
    ///
    /// Fails only where the count of faults rose; no byte was taken then.
    fn take(&mut self, into: &mut [u8]) -> Result<usize, Failed>
        ensures bytes { Takes (left self.old) (left self.new) result into.new }
        ensures cause { HasCause (faults self.old) (faults self.new) result }
        ensures one_call { calls self.new ≡ calls self.old + 1 };
}
