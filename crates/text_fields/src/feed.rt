//! Where lines end.
ghost use Rattle.std.specs.Prelude.{Contains, MatchOption};
ghost use Rattle.text_fields.specs.LineEnd.{IsLineEnd};

use memchr::memchr;

/// Where the first line feed of some bytes stands, if there is one.
pub fn line_end(bytes: &[u8]) -> Option<usize>
    ensures { MatchOption result (Contains bytes.now 10 → ⊥) (IsLineEnd bytes.now) }
{
    memchr(b'\n', bytes)
}
