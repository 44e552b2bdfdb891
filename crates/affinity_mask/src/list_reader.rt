//! The reader of processor lists.

ghost use Rattle.std.specs.Prelude.{◌≡◌, ℕ, ◌+◌, ◌≤◌, ◌&&◌, nat_le, [], ◌∷◌, ◌++◌, length, Contains, IfOk, IfErr, IfSome, IfNone, MatchOption};
ghost use Rattle.affinity_mask.specs.ProcSet.{has};
ghost use Rattle.affinity_mask.specs.Number.{IsNumber, number_value};
ghost use Rattle.affinity_mask.specs.ListText.{IsItem, IsListText};
ghost use Rattle.affinity_mask.specs.ListFault.{pieces, IsPieceFault, IsListFault};
ghost use Rattle.affinity_mask.specs.declared.mask_fault.MaskFault.{MaskFault};
ghost use Rattle.affinity_mask.specs.ListSteps.{ReadsItem};

use crate::mask_fault::MaskFault;
use crate::number::{is_above, is_number, processor_of};
use crate::proc_set::ProcSet;

impl ProcSet {
    /// The set of a processor list. A refusal is that of the first piece, between commas, that is no item of
    /// processors.
    pub fn read_list(text: &[u8]) -> Result<ProcSet, MaskFault>
        ensures read { IfOk result (λ set. IsListText text.now set) }
        ensures refused { IfErr result (IsListFault text.now) }
        ensures accepts { (X : ℕ) → IsListText text.now X → result ≡ Ok X }
        ensures refuses { (fault : MaskFault) → IsListFault text.now fault → result ≡ Err fault }
    {
        if text.is_empty() {
            return Err(MaskFault::Empty);
        }
        let mut set = ProcSet::empty();
        let mut rest = text;
        loop {
            let (piece, others) = first_piece(rest);
            let item = read_item(piece, text.len() - rest.len())?;
            set = set.either_of(&item);
            match others {
                Some(others) => rest = others,
                None => return Ok(set),
            }
        }
    }
}

/// What stands before the first comma, and what stands after it where there is one.
fn first_piece(text: &[u8]) -> (&[u8], Option<&[u8]>)
    ensures cut { MatchOption result.1 (pieces text.now ≡ result.0.now ∷ []) (λ others. pieces text.now ≡ result.0.now ∷ pieces others.now) }
    ensures shorter { IfSome result.1 (λ others. length text.now ≡ length result.0.now + 1 + length others.now) }
{
    match cut_at(text, b',') {
        Some((piece, others)) => (piece, Some(others)),
        None => (text, None),
    }
}

/// The processors of a piece that begins at this place.
fn read_item(piece: &[u8], place: usize) -> Result<ProcSet, MaskFault>
    ensures read { IfOk result (ReadsItem piece.now) }
    ensures refused { IfErr result (IsPieceFault piece.now place) }
{
    let Some((low, high)) = ends_of(piece) else {
        return Err(MaskFault::BadItem { place });
    };
    match (processor_of(low), processor_of(high)) {
        (Some(first), Some(last)) => {
            if first <= last {
                Ok(range(first, last))
            } else {
                Err(MaskFault::Backward { place })
            }
        }
        _ => {
            if is_above(low, high) {
                Err(MaskFault::Backward { place })
            } else {
                Err(MaskFault::Large { place })
            }
        }
    }
}

/// The two numbers of an item, or its one number twice.
fn ends_of(piece: &[u8]) -> Option<(&[u8], &[u8])>
    ensures ends { IfSome result (λ ends. IsNumber ends.0.now × IsNumber ends.1.now × IsItem piece.now (number_value ends.0.now) (number_value ends.1.now)) }
    ensures none { IfNone result ((low high : ℕ) → ¬ IsItem piece.now low high) }
{
    let (low, high) = cut_at(piece, b'-').unwrap_or((piece, piece));
    (is_number(low) && is_number(high)).then_some((low, high))
}

/// What stands before the first byte of this value, and what stands after it.
fn cut_at(text: &[u8], byte: u8) -> Option<(&[u8], &[u8])>
    ensures { MatchOption result (Contains text.now byte → ⊥) (λ parts. (text.now ≡ parts.0.now ++ byte ∷ parts.1.now) × (Contains parts.0.now byte → ⊥)) }
{
    let at = text.iter().position(|found| *found == byte)?;
    Some((&text[..at], &text[at + 1..]))
}

/// The processors from low to high.
pub(crate) fn range(low: u8, high: u8) -> ProcSet
    requires ascends { low ≤ high }
    requires small { high ≤ 63 }
    ensures { (p : ℕ) → has result p ≡ (nat_le low p && nat_le p high) }
{
    ProcSet::first(high + 1).minus(&ProcSet::first(low))
}
