//! The reader of canonical lists.

ghost use Rattle.std.specs.Prelude.{ℕ, IfSome, MatchOption};
ghost use Rattle.affinity_mask.specs.ListText.{IsCanonicalList};

use crate::list_reader::range;
use crate::list_writer::after_run;
use crate::proc_set::ProcSet;

impl ProcSet {
    /// The set of a canonical list, which has one processor at least.
    pub fn read_canonical_list(text: &[u8]) -> Option<ProcSet>
        ensures { MatchOption result ((X : ℕ) → IsCanonicalList text.now X → ⊥) (IsCanonicalList text.now) }
    {
        match one_run_of(text) {
            Some(set) => Some(set),
            None => any_list_of(text),
        }
    }
}

/// The set of any canonical list. Few lists have more than one run, so this stands apart.
#[cold]
fn any_list_of(text: &[u8]) -> Option<ProcSet>
    ensures { MatchOption result ((X : ℕ) → IsCanonicalList text.now X → ⊥) (IsCanonicalList text.now) }
{
    let Ok(set) = ProcSet::read_list(text) else {
        return None;
    };
    let _valid = set.count();
    if set.is_list(text) { Some(set) } else { None }
}

/// The set of a canonical list of one run, as most lists are. To compare a run costs less than to read a list.
fn one_run_of(text: &[u8]) -> Option<ProcSet>
    ensures { IfSome result (IsCanonicalList text.now) }
{
    let (low, high) = likely_ends(text);
    if low > high || high > 63 {
        return None;
    }
    let rest = after_run(text, low, high)?;
    if rest.is_empty() {
        Some(range(low, high))
    } else {
        None
    }
}

/// The ends of the run that a text is. Of any other text they are some numbers.
fn likely_ends(text: &[u8]) -> (u8, u8) {
    match text {
        [ones] => (two_digits(b'0', *ones), two_digits(b'0', *ones)),
        [tens, ones] => (two_digits(*tens, *ones), two_digits(*tens, *ones)),
        [low, _, high] => (two_digits(b'0', *low), two_digits(b'0', *high)),
        [low, _, tens, ones] => (two_digits(b'0', *low), two_digits(*tens, *ones)),
        [low_tens, low_ones, _, tens, ones] => {
            (two_digits(*low_tens, *low_ones), two_digits(*tens, *ones))
        }
        _ => (1, 0),
    }
}

/// The value of two digits. Of other bytes it is some number.
fn two_digits(tens: u8, ones: u8) -> u8 {
    tens % 16 * 10 + ones % 16
}
