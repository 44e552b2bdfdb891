//! A set of processors, and the operations on sets.

ghost use Rattle.std.specs.Prelude.{◌≡◌, ℕ, ◌<◌, ◌≤◌, ◌==◌, ◌||◌, ◌&&◌, not, nat_lt, IsTrue, ◌↔◌, IsNone, IfSome, length};
ghost use Rattle.affinity_mask.specs.ProcSet.{has, empty, all_below, intersection, Within, Meets, IsLeastMember, members};
ghost use Rattle.affinity_mask.specs.ListSteps.{RunsTo};

use std::marker::Model;

/// A set of processors, which are numbered from 0 to 63.
#[derive(Clone, Copy, Debug, PartialEq, Eq)]
pub struct ProcSet {
    /// Bit p says whether p is in the set.
    bits: u64,
}

impl Model for ProcSet {
    ghost use Rattle.std.specs.Prelude.{ℕ};

    ghost Value = { ℕ };

    ghost view = { λ s. s.bits };

    ghost inverse = { λ n. record { bits = n } };
}

impl ProcSet {
    /// The set without processors.
    pub fn empty() -> ProcSet
        ensures { result ≡ empty }
    {
        ProcSet { bits: 0 }
    }

    /// The set of the processors at whose places a word has a one, from the lowest place on.
    pub fn of_bits(bits: u64) -> ProcSet
        ensures { result ≡ bits }
    {
        ProcSet { bits }
    }

    /// The word that has a one at the place of each processor of the set, from the lowest place on.
    pub fn bits(&self) -> u64
        ensures { result ≡ self.now }
    {
        self.bits
    }

    /// The set of one processor.
    pub fn one(p: u8) -> ProcSet
        requires { p < 64 }
        ensures { (q : ℕ) → has result q ≡ (q == p) }
    {
        ProcSet { bits: 1u64 << p }
    }

    /// The set of all processors of a machine that has `m`.
    pub fn first(m: u8) -> ProcSet
        requires { m ≤ 64 }
        ensures value { result ≡ all_below m }
        ensures contents { (q : ℕ) → has result q ≡ nat_lt q m }
    {
        // A shift by the word's whole width is none, so the full set is a case of its own.
        if m == 64 {
            ProcSet { bits: u64::MAX }
        } else {
            ProcSet {
                bits: (1u64 << m) - 1,
            }
        }
    }

    /// Whether a processor is in the set.
    pub fn has(&self, p: u8) -> bool
        requires { p < 64 }
        ensures { result ≡ has self.now p }
    {
        (self.bits >> p) & 1 == 1
    }

    /// The set and a processor, which may be in it already.
    pub fn with(&self, p: u8) -> ProcSet
        requires { p < 64 }
        ensures { (q : ℕ) → has result q ≡ (has self.now q || (q == p)) }
    {
        ProcSet {
            bits: self.bits | (1u64 << p),
        }
    }

    /// The set but for a processor, which need not be in it.
    pub fn without(&self, p: u8) -> ProcSet
        requires { p < 64 }
        ensures { (q : ℕ) → has result q ≡ (has self.now q && not (q == p)) }
    {
        ProcSet {
            bits: self.bits & !(1u64 << p),
        }
    }

    /// The intersection.
    pub fn both(&self, other: &ProcSet) -> ProcSet
        ensures value { result ≡ intersection self.now other.now }
        ensures contents { (q : ℕ) → has result q ≡ (has self.now q && has other.now q) }
    {
        ProcSet {
            bits: self.bits & other.bits,
        }
    }

    /// The union.
    pub fn either_of(&self, other: &ProcSet) -> ProcSet
        ensures { (q : ℕ) → has result q ≡ (has self.now q || has other.now q) }
    {
        ProcSet {
            bits: self.bits | other.bits,
        }
    }

    /// The difference: what is in this set and not in the other.
    pub fn minus(&self, other: &ProcSet) -> ProcSet
        ensures { (q : ℕ) → has result q ≡ (has self.now q && not (has other.now q)) }
    {
        ProcSet {
            bits: self.bits & !other.bits,
        }
    }

    /// Whether each processor of the set is in the other one too. Equal sets are within one another.
    pub fn within(&self, other: &ProcSet) -> bool
        ensures { IsTrue result ↔ Within self.now other.now }
    {
        self.bits & !other.bits == 0
    }

    /// Whether some processor is in both sets.
    pub fn meets(&self, other: &ProcSet) -> bool
        ensures { IsTrue result ↔ Meets self.now other.now }
    {
        self.both(other).least().is_some()
    }

    /// Whether the set has no processor.
    pub fn is_empty(&self) -> bool
        ensures { IsTrue result ↔ (self.now ≡ empty) }
    {
        self.bits == 0
    }

    /// How many processors are in the set.
    pub fn count(&self) -> u8
        ensures value { result ≡ length (members self.now) }
        ensures bound { result ≤ 64 }

        // Of any set that code holds.
        ensures valid { Within self.now (all_below 64) }
    {
        self.bits.count_ones() as u8
    }

    /// The least processor of the set, if it has one.
    pub fn least(&self) -> Option<u8>
        ensures none { IsNone result ↔ (self.now ≡ empty) }
        ensures least { IfSome result (IsLeastMember self.now) }
        ensures bound { IfSome result (λ p. p < 64) }
    {
        if self.is_empty() {
            None
        } else {
            Some(self.bits.trailing_zeros() as u8)
        }
    }

    /// The processor at which the run of a member ends.
    pub(crate) fn run_end(&self, p: u8) -> u8
        requires member { IsTrue (has self.now p) }
        requires small { p < 64 }
        ensures { RunsTo self.now p result }
    {
        let _valid = self.count();
        match ProcSet::first(64)
            .minus(self)
            .minus(&ProcSet::first(p))
            .least()
        {
            Some(next) => next - 1,
            None => 63,
        }
    }
}
