//! What a field says.
ghost use Rattle.std.specs.Prelude.{◌≡◌, ◌≢◌, ℕ, codes, ◌⊎◌, ◌↔◌, ◌++◌, ◌∷◌, IsTrue, List, Contains, IfOk, IfErr, IfSome, MatchOption, MatchResult};
ghost use Rattle.text_fields.specs.Fields.{texts};
ghost use Rattle.schedule_text.specs.LineForms.{IsField};
ghost use Rattle.schedule_text.specs.Fields.{links_of, IsNumberField, IsProcessorField, IsListField, IsMaskField, IsSetField, IsChainField, AreProcessorFields, IsNumberAfter, IsSomebodyField, HasLeadingZero};
ghost use Rattle.schedule_text.specs.LineFields.{IsNameFault, both_of, first_reported};
ghost use Rattle.task_set.specs.Refusal.{IsNameOf};
ghost use Rattle.schedule_text.specs.declared.fault.TextKind.TheVariants.{BadLine};

use crate::fault::TextKind;
use affinity_mask::ProcSet;
use strong_apa::Chain;
use task_set::TaskSet;
use text_fields::limits::MAX_PROCESSOR;
use text_fields::{is_word, line_end, read_number, task_of};

/// The most processors of a chain.
const MAX_CHAIN: usize = 64;

/// The first line of some bytes, which a line feed ends, and what stands after it.
pub fn ended_line(bytes: &[u8]) -> Option<(&[u8], &[u8])>
    ensures { MatchOption result
        (Contains bytes.now 10 → ⊥)
        (λ parts. (bytes.now ≡ parts.0.now ++ 10 ∷ parts.1.now)
        × (Contains parts.0.now 10 → ⊥)) }
{
    match line_end(bytes) {
        Some(end) => Some((&bytes[..end], &bytes[end + 1..])),
        None => None,
    }
}

/// Whether the bytes can stand for a name.
pub fn is_field(bytes: &[u8]) -> bool
    ensures { IsTrue result ↔ IsField bytes.now }
{
    !bytes.is_empty() && !bytes.contains(&b' ') && !bytes.contains(&b'\t')
}

/// The value of a canonical number, where it is from `least` to `most`.
pub fn number_of(field: &[u8], least: u64, most: u64) -> Option<u64>
    ensures { MatchOption result
        ((n : ℕ) → IsNumberField least most field.now n → ⊥)
        (IsNumberField least most field.now) }
{
    if let Some(value) = one_digit(field, least, most) {
        return Some(value);
    }
    if has_leading_zero(field) {
        None
    } else {
        read_number(field, least, most)
    }
}

/// The value of a field of one digit, as most numbers are, where it is from `least` to `most`.
fn one_digit(field: &[u8], least: u64, most: u64) -> Option<u64>
    ensures { IfSome result (IsNumberField least most field.now) }
{
    let [digit] = field else {
        return None;
    };
    if !digit.is_ascii_digit() {
        return None;
    }
    let value = (*digit - b'0') as u64;
    if least <= value && value <= most {
        Some(value)
    } else {
        None
    }
}

/// The processor of the set that a canonical number names.
pub fn processor_of(set: &TaskSet, field: &[u8]) -> Option<u8>
    ensures { MatchOption result
        ((p : ℕ) → IsProcessorField set.now.processors field.now p → ⊥)
        (IsProcessorField set.now.processors field.now) }
{
    let p = number_of(field, 0, set.processors() as u64 - 1)?;
    Some(p as u8)
}

/// Whether a zero stands before further bytes.
fn has_leading_zero(field: &[u8]) -> bool
    ensures { IsTrue result ↔ HasLeadingZero field.now }
{
    field.len() > 1 && field[0] == b'0'
}

/// The processors of a canonical list, which has one at least. It is laid into its callers, since what it returns is taken
/// apart there at once.
#[inline(always)]
pub fn list_of(field: &[u8]) -> Result<ProcSet, TextKind>
    ensures read { IfOk result (IsListField field.now) }
    ensures refused { IfErr result (λ kind. ((kind ≡ BadLine) × ((X : ℕ) → IsListField field.now X → ⊥))) }
{
    match ProcSet::read_canonical_list(field) {
        Some(set) => Ok(set),
        None => Err(TextKind::BadLine),
    }
}

/// The mask of a canonical list, which has one processor at least, and those of the set alone.
pub fn mask_of(set: &TaskSet, field: &[u8]) -> Result<ProcSet, TextKind>
    ensures read { IfOk result (IsMaskField set.now.processors field.now) }
    ensures refused { IfErr result (λ kind. ((kind ≡ BadLine)
        × ((mask : ℕ) → IsMaskField set.now.processors field.now mask → ⊥))) }
{
    let all = ProcSet::first(set.processors());
    let mask = list_of(field)?;
    if mask.within(&all) {
        Ok(mask)
    } else {
        Err(TextKind::BadLine)
    }
}

/// The processors of a canonical list, or none for '-'.
pub fn set_of(field: &[u8]) -> Result<ProcSet, TextKind>
    ensures read { IfOk result (IsSetField field.now) }
    ensures refused { IfErr result (λ kind. ((kind ≡ BadLine) × ((X : ℕ) → IsSetField field.now X → ⊥))) }
{
    if is_word(field, "-") {
        Ok(ProcSet::empty())
    } else {
        list_of(field)
    }
}

/// The processors joined by '>', or none for '-'.
pub fn chain_of(field: &[u8]) -> Result<Chain, TextKind>
    ensures read { IfOk result (IsChainField field.now) }
    ensures refused { IfErr result (λ kind. ((kind ≡ BadLine) × ((chain : List ℕ) → IsChainField field.now chain → ⊥))) }
{
    if is_word(field, "-") {
        return Ok(Chain::new());
    }
    let Some(chain) = processors_of(field) else {
        return Err(TextKind::BadLine);
    };
    Ok(chain)
}

/// The processors that a field names between its arrows, at most 64.
fn processors_of(field: &[u8]) -> Option<Chain>
    ensures { MatchOption result
        ((chain : List ℕ) → AreProcessorFields (links_of field.now) chain → ⊥)
        (AreProcessorFields (links_of field.now)) }
{
    let mut chain = Chain::new();
    for link in field.split(|byte| *byte == b'>') {
        let p = number_of(link, 0, MAX_PROCESSOR)?;
        if chain.len() == MAX_CHAIN {
            return None;
        }
        chain.push(p as u8);
    }
    Some(chain)
}

/// The task that has this name.
pub fn known_task(set: &TaskSet, name: &[u8]) -> Result<u32, TextKind>
    ensures read { IfOk result (λ t. IsNameOf set.now t name.now) }
    ensures refused { IfErr result (IsNameFault set.now name.now) }
{
    match task_of(set, name) {
        Some(t) => Ok(t),
        None => {
            if is_field(name) {
                Err(TextKind::UnknownTask)
            } else {
                Err(TextKind::BadLine)
            }
        }
    }
}

/// The task that has this name, or nobody for '-'.
pub fn somebody_of(set: &TaskSet, name: &[u8]) -> Result<Option<u32>, TextKind>
    ensures read { IfOk result (IsSomebodyField set.now name.now) }
    ensures refused { IfErr result (λ kind. (name.now ≢ codes "-")
        × IsNameFault set.now name.now kind) }
{
    if is_word(name, "-") {
        return Ok(None);
    }
    match known_task(set, name) {
        Ok(t) => Ok(Some(t)),
        Err(kind) => Err(kind),
    }
}

/// The number after a word, where it is from `least` to `most`.
pub fn number_after(fields: &[&[u8]], word: &str, least: u64, most: u64) -> Option<u64>
    ensures { MatchOption result
        ((n : ℕ) → IsNumberAfter word.now least most (texts fields.now) n → ⊥)
        (IsNumberAfter word.now least most (texts fields.now)) }
{
    match fields {
        [first, number] if is_word(first, word) => number_of(number, least, most),
        _ => None,
    }
}

/// Two parts of a line, or of their faults the one that is reported: a wrong form comes before an unknown name.
pub fn both<A: Drop, B: Drop>(
    first: Result<A, TextKind>,
    second: Result<B, TextKind>,
) -> Result<(A, B), TextKind>
    ensures { result ≡ both_of first second }
{
    match first {
        Ok(one) => match second {
            Ok(other) => Ok((one, other)),
            Err(kind) => Err(kind),
        },
        Err(kind) => Err(fault_with(kind, second)),
    }
}

/// The fault that is reported where the first part has this one.
pub fn fault_with<B: Drop>(kind: TextKind, second: Result<B, TextKind>) -> TextKind
    ensures { MatchResult second (λ other. result ≡ kind) (λ other. result ≡ first_reported kind other) }
{
    match second {
        Ok(_) => kind,
        Err(other) => first_reported(kind, other),
    }
}

/// Of two faults the one that is reported.
fn first_reported(kind: TextKind, other: TextKind) -> TextKind
    ensures { result ≡ first_reported kind other }
{
    match kind {
        TextKind::UnknownTask => other,
        _ => kind,
    }
}
