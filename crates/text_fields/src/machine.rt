//! Machines that read lines.
ghost use Rattle.std.specs.Prelude.{◌≡◌, ℕ, ◌⊎◌, Bool, List, IfErr, OnOk, MatchResult};
ghost use Rattle.text_fields.specs.Machine.{Outcome, Leads, Fails};
ghost use Rattle.text_fields.specs.declared.kind.LineKind.{LineKind as Kinds};
ghost use Rattle.text_fields.specs.declared.kind.LineKind.TheVariants.{OutOfMemory};
ghost use Rattle.text_fields.specs.Fields.{texts};

use crate::kind::LineKind;
use std::alloc::Global;

/// What some lines said, and so what is expected after them.
pub trait LineMachine: Drop {
    /// What a text says.
    type Value;

    /// What is wrong with a line.
    type Kind;

    /// The most bytes of a line, without its line feed. `usize::MAX` sets no limit, since no line in memory is longer.
    const LONGEST_LINE: usize;

    /// Whether a line is a comment, and skipped, where its first field begins with `#`.
    const HAS_COMMENTS: bool;

    ghost LONGEST_LINE: { ℕ };

    ghost HAS_COMMENTS: { Bool };

    // What is expected, as contracts see it.
    ghost Progress: { Type 0 };

    // What is expected after the lines that a machine has read.
    ghost progress: { Self → Progress };

    // What is expected of the first line.
    ghost begins: { Progress };

    // What holds of what is expected after some lines without fault.
    ghost IsValid: { Progress → Type 0 };

    // What the fields of a line come to that is not skipped.
    ghost Says: { Progress → List (List ℕ) → Outcome Progress Self.Kind → Type 0 };

    // What the end comes to.
    ghost Ends: { Progress → Outcome Self.Value Self.Kind → Type 0 };

    // The kind of a fault that any line may have.
    ghost kind_of: { Kinds → Self.Kind };

    /// The kind of a fault that any line may have.
    fn kind_of(kind: LineKind) -> Self::Kind
        ensures { result ≡ kind_of kind };

    /// Goes on by a line that is not skipped, by its fields. After an `Err` the machine is not used again.
    fn after(&mut self, alloc: Global, fields: &[&[u8]]) -> Result<(), Self::Kind>
        requires { IsValid (progress self.old) }
        ensures read { OnOk result (Says (progress self.old) (texts fields.now)
            (Leads (progress self.new))) }
        ensures refused { IfErr result (λ kind. (kind ≡ kind_of OutOfMemory)
            ⊎ Says (progress self.old) (texts fields.now) (Fails kind)) };

    /// What was read, after the last line.
    fn at_end(self) -> Result<Self::Value, Self::Kind>
        requires { IsValid (progress self) }
        ensures { MatchResult result
            (λ value. Ends (progress self) (Leads value))
            (λ kind. (kind ≡ kind_of OutOfMemory) ⊎ Ends (progress self) (Fails kind)) };
}
