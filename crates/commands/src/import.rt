//! From the bytes of a trace of the Linux scheduler to those of its input.
ghost use Rattle.std.specs.Prelude.{◌≡◌};
ghost use Rattle.commands.specs.Answers.{Answers};
ghost use Rattle.commands.specs.Import.{AcceptsTrace, IsImportOf, RefusesTrace, status_of_trace_fault};

use crate::status::Status;
use kernel_trace::{TraceFault, read_trace};
use std::alloc::Global;
use trace_reader::write_input;

/// The canonical text of the input that a trace comes to, or the status that says why there is none.
pub fn imported_text(alloc: Global, bytes: &[u8]) -> Result<Vec<u8>, Status>
    ensures { Answers (IsImportOf bytes.now) (AcceptsTrace bytes.now) (RefusesTrace bytes.now)
        result }
{
    let input = match read_trace(alloc, bytes) {
        Ok(input) => input,
        Err(fault) => return Err(status_of(fault)),
    };
    let text = write_input(alloc, &input)?;
    Ok(text)
}

/// The status of a fault of the text.
pub(crate) fn status_of(fault: TraceFault) -> Status
    ensures { result ≡ status_of_trace_fault fault }
{
    match fault.kind.number() {
        Some(kind) => Status::Input {
            line: fault.line,
            kind,
        },
        None => Status::OutOfMemory,
    }
}
