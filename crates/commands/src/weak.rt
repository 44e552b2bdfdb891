//! From the bytes of an input to those of its comparison.
ghost use Rattle.commands.specs.Answers.{Answers};
ghost use Rattle.commands.specs.Refusal.{IsAccepted, IsAnsweredInput, RefusesInput};
ghost use Rattle.commands.specs.Weak.{IsWeakOf};

use crate::status::Status;
use std::alloc::Global;
use trace_reader::read_input;
use weak_apa::compare;

/// The text that compares the two schedulers on the input that these bytes are, or the status that says why there is
/// none.
pub fn weak_text(alloc: Global, bytes: &[u8]) -> Result<Vec<u8>, Status>
    ensures { Answers (IsWeakOf bytes.now) (IsAccepted bytes.now)
        (IsAnsweredInput (RefusesInput bytes.now)) result }
{
    let input = read_input(alloc, bytes)?;
    let text = compare(alloc, &input)?;
    Ok(text)
}
