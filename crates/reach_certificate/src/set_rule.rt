//! The test of a set.
ghost use Rattle.std.specs.Prelude.{◌≡◌, ℕ, ◌<◌, ◌↔◌, IsTrue, false};
ghost use Rattle.affinity_mask.specs.ProcSet.{has, all_below, Within};
ghost use Rattle.strong_apa.specs.State.{task_count};
ghost use Rattle.reach_certificate.specs.Judging.{IsFirstMisfitIfAny, IsSetRuleOf, FitsSetRule, IsHeld, HoldsItsPlace, ShiftsInto};

use crate::occupants::occupant;
use affinity_mask::ProcSet;
use link_table::Links;

/// What a set has to be.
#[derive(Clone, Copy)]
pub enum SetRule {
    /// A set that keeps this task waiting: it has the task's mask, and on each of its processors is a more urgent task
    /// that may run only within it.
    HeldAgainst(u32),

    /// The same around the first task, where the tasks on the set need only be no less urgent than the second one, which
    /// is displaced.
    HeldOver(u32, u32),

    /// A set from which shifts lead to this processor: it has the processor, none that the machine lacks, and no shift
    /// leads into it from outside.
    LeadsBack(u8),
}

impl SetRule {
    /// The least processor that does not fit a set. Each caller names the rule, so this is laid into it with the calls
    /// below, and does not ask at each processor which rule it is.
    #[inline(always)]
    pub fn first_misfit(self, links: &Links, set: ProcSet) -> Option<u8>
        requires { IsSetRuleOf (task_count links.now) self }
        ensures test { IsFirstMisfitIfAny (FitsSetRule links.now self set) 64 result }
        ensures processors { Within set (all_below 64) }
    {
        // A set that code holds has no number beyond those of processors.
        prove!(set.count() <= 64);
        let mut left = self.in_doubt(links, set);
        while let Some(q) = left.least() {
            if !self.fits(links, set, q) {
                return Some(q);
            }
            left = left.without(q);
        }
        None
    }

    /// The processors that have to be looked at one by one: each other one fits a set.
    fn in_doubt(self, links: &Links, set: ProcSet) -> ProcSet
        requires { IsSetRuleOf (task_count links.now) self }
        ensures { (q : ℕ) → q < 64 → has result q ≡ false → FitsSetRule links.now self set q }
    {
        match self {
            SetRule::HeldAgainst(t) | SetRule::HeldOver(t, _) => {
                set.either_of(&links.effective(t))
            }
            SetRule::LeadsBack(place) => {
                let unknown = set.minus(&ProcSet::first(links.processors()));
                let sources = feeders_of(links, set).either_of(&ProcSet::one(place));
                unknown.either_of(&sources.minus(&set))
            }
        }
    }

    /// Whether q fits a set.
    #[inline(always)]
    fn fits(self, links: &Links, set: ProcSet, q: u8) -> bool
        requires tasks { IsSetRuleOf (task_count links.now) self }
        requires processor { q < 64 }
        ensures { IsTrue result ↔ FitsSetRule links.now self set q }
    {
        match self {
            SetRule::HeldAgainst(t) | SetRule::HeldOver(t, _) => {
                if set.has(q) {
                    self.is_held(links, set, q)
                } else {
                    !links.effective(t).has(q)
                }
            }
            SetRule::LeadsBack(place) => {
                if set.has(q) {
                    q < links.processors()
                } else {
                    q != place && !shifts_into(links, q, set)
                }
            }
        }
    }

    /// Whether the occupant of q may run only within the set, and holds its place there.
    #[inline(always)]
    fn is_held(self, links: &Links, set: ProcSet, q: u8) -> bool
        requires tasks { IsSetRuleOf (task_count links.now) self }
        ensures { IsTrue result ↔ IsHeld links.now self set q }
    {
        match occupant(links, q) {
            Some(u) => links.effective(u).within(&set) && self.holds(links, u),
            None => false,
        }
    }

    /// Whether an occupant is urgent enough to hold its place.
    fn holds(self, links: &Links, u: u32) -> bool
        requires tasks { IsSetRuleOf (task_count links.now) self }
        requires occupant { u < task_count links.now }
        ensures { IsTrue result ↔ HoldsItsPlace links.now self u }
    {
        match self {
            SetRule::HeldAgainst(t) => links.is_more_urgent(u, t),
            SetRule::HeldOver(_, out) => !links.is_more_urgent(out, u),
            SetRule::LeadsBack(_) => true,
        }
    }
}

/// The processors whose occupant may run on a processor of the set.
fn feeders_of(links: &Links, set: ProcSet) -> ProcSet
    ensures { (q : ℕ) → IsTrue (has result q) ↔ ShiftsInto links.now q set }
{
    let mut found = ProcSet::empty();
    let mut left = set;
    while let Some(r) = left.least() {
        found = found.either_of(&links.feeders(r));
        left = left.without(r);
    }
    found
}

/// Whether the occupant of q may run on a processor of the set.
fn shifts_into(links: &Links, q: u8, set: ProcSet) -> bool
    ensures { IsTrue result ↔ ShiftsInto links.now q set }
{
    match occupant(links, q) {
        Some(u) => set.meets(&links.effective(u)),
        None => false,
    }
}
