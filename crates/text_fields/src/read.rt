//! The reader of a whole text.
ghost use Rattle.std.specs.Prelude.{◌≡◌, ◌⊎◌, ℕ, IsTrue, All, IfOk, IfErr, OnOk, MatchResult};
ghost use Rattle.text_fields.specs.Lines.{lines_of, IsPlain};
ghost use Rattle.text_fields.specs.LineRule.{IsLineOutcome};
ghost use Rattle.text_fields.specs.Machine.{IsMachine, Leads, Fails};
ghost use Rattle.text_fields.specs.Laws.{IsTextOf, IsRefused};
ghost use Rattle.text_fields.specs.declared.kind.LineKind.TheVariants.{OutOfMemory};

use crate::fields::{fields, first_line, has_plain_lines, is_plain, is_skipped};
use crate::kind::{LineFault, LineKind};
use crate::machine::LineMachine;
use std::alloc::Global;

/// What a machine makes of a text: the value of the text, or the first line that has a fault, with its kind. Out of
/// memory may come in place of either.
pub fn read_lines<M: LineMachine>(
    alloc: Global,
    machine: M,
    bytes: &[u8],
) -> Result<M::Value, LineFault<M::Kind>>
    requires begins { M.progress machine ≡ M.begins }
    requires lawful { IsMachine M.begins M.IsValid M.Says M.Ends }
    ensures read { IfOk result (IsTextOf lines_of M.begins
        (IsLineOutcome M.LONGEST_LINE M.HAS_COMMENTS M.kind_of M.Says) M.Ends bytes.now) }
    ensures refused { IfErr result (λ fault. (fault.kind ≡ M.kind_of OutOfMemory)
        ⊎ IsRefused lines_of M.begins
        (IsLineOutcome M.LONGEST_LINE M.HAS_COMMENTS M.kind_of M.Says) M.Ends bytes.now fault.line fault.kind) }

    // Only out of memory comes in place of the expected answer.
    ensures accepts { (value : M.Value)
        → IsTextOf lines_of M.begins
        (IsLineOutcome M.LONGEST_LINE M.HAS_COMMENTS M.kind_of M.Says) M.Ends bytes.now value
        → MatchResult result (λ found. found ≡ value) (λ fault. fault.kind ≡ M.kind_of OutOfMemory) }
    ensures refuses { (line : ℕ) (kind : M.Kind)
        → IsRefused lines_of M.begins
        (IsLineOutcome M.LONGEST_LINE M.HAS_COMMENTS M.kind_of M.Says) M.Ends bytes.now line kind
        → MatchResult result (λ found. ⊥)
        (λ fault. (fault.kind ≡ M.kind_of OutOfMemory) ⊎ ((fault.line ≡ line) × (fault.kind ≡ kind))) }
{
    run(alloc, machine, bytes)
}

/// Runs a machine line by line, from the first to the last.
fn run<M: LineMachine>(
    alloc: Global,
    machine: M,
    bytes: &[u8],
) -> Result<M::Value, LineFault<M::Kind>>
    requires begins { M.progress machine ≡ M.begins }
    requires lawful { IsMachine M.begins M.IsValid M.Says M.Ends }
    ensures read { IfOk result (IsTextOf lines_of M.begins
        (IsLineOutcome M.LONGEST_LINE M.HAS_COMMENTS M.kind_of M.Says) M.Ends bytes.now) }
    ensures refused { IfErr result (λ fault. (fault.kind ≡ M.kind_of OutOfMemory)
        ⊎ IsRefused lines_of M.begins
        (IsLineOutcome M.LONGEST_LINE M.HAS_COMMENTS M.kind_of M.Says) M.Ends bytes.now fault.line fault.kind) }
{
    let mut room = Vec::new(alloc);
    let mut machine = machine;
    let all_plain = has_plain_lines(bytes);
    let mut rest = bytes;
    let mut line = 1;
    while !rest.is_empty() {
        let (text, after) = first_line(rest);
        match after_line(&mut machine, alloc, text, all_plain, &mut room) {
            Ok(()) => {}
            Err(kind) => return Err(LineFault { line, kind }),
        }
        rest = after;
        line += 1;
    }
    match machine.at_end() {
        Ok(value) => Ok(value),
        Err(kind) => Err(LineFault { line, kind }),
    }
}

/// Goes on by one more line, of which it may be known that it is plain. The room is for its fields.
fn after_line<'a, M: LineMachine>(
    machine: &mut M,
    alloc: Global,
    line: &'a [u8],
    known_plain: bool,
    room: &mut Vec<&'a [u8]>,
) -> Result<(), M::Kind>
    requires plain { IsTrue known_plain → All IsPlain line.now }
    requires valid { M.IsValid (M.progress machine.old) }
    ensures read { OnOk result (IsLineOutcome M.LONGEST_LINE M.HAS_COMMENTS M.kind_of M.Says
        (M.progress machine.old) line.now
        (Leads (M.progress machine.new))) }
    ensures refused { IfErr result (λ kind. (kind ≡ M.kind_of OutOfMemory)
        ⊎ IsLineOutcome M.LONGEST_LINE M.HAS_COMMENTS M.kind_of M.Says
        (M.progress machine.old) line.now (Fails kind)) }
{
    if !is_plain(line, known_plain) {
        return Err(M::kind_of(LineKind::BadByte));
    }
    if line.len() > M::LONGEST_LINE {
        return Err(M::kind_of(LineKind::LongLine));
    }
    let Ok(fields) = fields(line, room) else {
        return Err(M::kind_of(LineKind::OutOfMemory));
    };
    if is_skipped(fields, M::HAS_COMMENTS) {
        Ok(())
    } else {
        machine.after(alloc, fields)
    }
}
