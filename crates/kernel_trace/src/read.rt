//! The reader of a whole text.
ghost use Rattle.std.specs.Prelude.{◌≡◌, ◌⊎◌, ℕ, IfOk, IfErr, MatchResult};
ghost use Rattle.trace_reader.specs.Input.{InputData};
ghost use Rattle.kernel_trace.specs.TraceText.{HeaderExpected, IsTextBy, IsRefusedBy, IsTraceText, IsTraceRefused};
ghost use Rattle.kernel_trace.specs.Import.{IsImport};
ghost use Rattle.kernel_trace.specs.Reading.{progress_of, IsOutOfMemory};
ghost use Rattle.kernel_trace.specs.SurveyView.{look_of};
ghost use Rattle.kernel_trace.specs.declared.fault.TraceKind.{TraceKind};

use crate::fault::{TraceFault, TraceKind};
use crate::fields::first_line;
use crate::stage::Stage;
use crate::survey::{Survey, look_over};
use std::alloc::Global;
use trace_reader::Input;

/// The input of a trace, or the first line that has a fault, with its kind. `OutOfMemory` may come in place of either.
pub fn read_trace(alloc: Global, bytes: &[u8]) -> Result<Input, TraceFault>
    ensures input { IfOk result (IsTraceText bytes.now) }
    ensures refused { IfErr result (λ fault. IsOutOfMemory fault.kind
        ⊎ IsTraceRefused bytes.now fault.line fault.kind) }
    ensures import { IfOk result (IsImport bytes.now) }

    // Only `OutOfMemory` comes in place of the expected answer.
    ensures accepts { (input : InputData) → IsTraceText bytes.now input
        → MatchResult result (λ found. found ≡ input) (λ fault. IsOutOfMemory fault.kind) }
    ensures refuses { (line : ℕ) (kind : TraceKind) → IsTraceRefused bytes.now line kind
        → MatchResult result (λ input. ⊥)
        (λ fault. IsOutOfMemory fault.kind ⊎ ((fault.line ≡ line) × (fault.kind ≡ kind))) }
{
    let Ok(look) = look_over(alloc, bytes) else {
        return Err(TraceFault {
            line: 1,
            kind: TraceKind::OutOfMemory,
        });
    };
    let Ok(stage) = Stage::new(alloc) else {
        return Err(TraceFault {
            line: 1,
            kind: TraceKind::OutOfMemory,
        });
    };
    run(alloc, look, stage, bytes)
}

/// Goes on line by line, from the first to the last.
fn run<'a>(
    alloc: Global,
    look: Survey,
    stage: Stage<'a>,
    bytes: &'a [u8],
) -> Result<Input, TraceFault>
    requires { progress_of stage ≡ HeaderExpected }
    ensures input { IfOk result (IsTextBy (look_of look.entry) bytes.now) }
    ensures refused { IfErr result (λ fault. IsOutOfMemory fault.kind
        ⊎ IsRefusedBy (look_of look.entry) bytes.now fault.line fault.kind) }
{
    let mut room = Vec::new(alloc);
    let mut stage = stage;
    let mut rest = bytes;
    let mut line = 1;
    while !rest.is_empty() {
        let (text, after) = first_line(rest);
        match stage.after_line(alloc, look, text, &mut room) {
            Ok(()) => {}
            Err(kind) => return Err(TraceFault { line, kind }),
        }
        rest = after;
        line += 1;
    }
    match stage.at_end() {
        Ok(input) => Ok(input),
        Err(kind) => Err(TraceFault { line, kind }),
    }
}
