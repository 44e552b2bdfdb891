//! From the bytes of an input to those of its run by counts.
ghost use Rattle.std.specs.Prelude.{◌≡◌};
ghost use Rattle.commands.specs.Answers.{Answers};
ghost use Rattle.commands.specs.NestedRun.{IsNestedOf, AcceptsNested, RefusesNested, status_of_nested};

use crate::status::Status;
use nested_masks::{NestedFault, replay_nested};
use std::alloc::Global;
use trace_reader::input::FIRST_VERSION;
use trace_reader::read_input;

/// The text of the run by counts of the input that these bytes are, or the status that says why there is none.
pub fn nested_text(alloc: Global, bytes: &[u8]) -> Result<Vec<u8>, Status>
    ensures { Answers (IsNestedOf bytes.now) (AcceptsNested bytes.now)
        (RefusesNested bytes.now) result }
{
    let input = read_input(alloc, bytes)?;
    if input.version() != FIRST_VERSION {
        return Err(Status::Version);
    }
    match replay_nested(alloc, &input) {
        Ok(text) => Ok(text),
        Err(fault) => Err(status_of(fault)),
    }
}

/// The status of a fault of a set of tasks.
fn status_of(fault: NestedFault) -> Status
    ensures { result ≡ status_of_nested fault }
{
    match fault {
        NestedFault::Crossing { one, other } => Status::Crossing { one, other },
        NestedFault::OutOfMemory => Status::OutOfMemory,
    }
}
