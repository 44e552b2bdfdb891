//! What bytes are put into.
ghost use Rattle.std.specs.Prelude.{◌≡◌, ℕ, ◌+◌, List, Option};
ghost use Rattle.shift_io.specs.Causes.{HasCause};
ghost use Rattle.shift_io.specs.Stream.{Puts};

use crate::source::Failed;

/// What takes bytes, each piece after the one before.
pub trait Sink {
    /// The bytes that it has, where the sink reports them.
    ghost bytes: { Self → Option (List ℕ) };

    /// How often a call failed. It never falls.
    ghost faults: { Self → ℕ };

    /// How many calls of `put` there were. Each call adds one, and nothing else adds any.
    ghost calls: { Self → ℕ };

    /// Appends a prefix of the piece, and answers its length: at least 1 where the piece is not
    /// empty, and 0 where it is.
    ///
    /// Fails only where the count of faults rose; nothing was appended then. A sink that takes
    /// nothing of a piece that is not empty has failed.
    fn put(&mut self, from: &[u8]) -> Result<usize, Failed>
        ensures bytes { Puts (bytes self.old) (bytes self.new) result from.now }
        ensures cause { HasCause (faults self.old) (faults self.new) result }
        ensures one_call { calls self.new ≡ calls self.old + 1 };
}
