//! The test of a chain.
ghost use Rattle.std.specs.Prelude.{◌≡◌, ℕ, ◌<◌, ◌↔◌, length, IsTrue};
ghost use Rattle.affinity_mask.specs.ProcSet.{has};
ghost use Rattle.strong_apa.specs.State.{task_count};
ghost use Rattle.reach_certificate.specs.Judging.{IsFirstMisfitIfAny, IsChainRuleOf, ChainMayBegin, Follows, ChainMayEnd, IsNextInChain, FitsChainRule, ComesBefore};

use crate::occupants::{can_shift, occupant};
use affinity_mask::ProcSet;
use link_table::{Chain, Links};

/// What a chain has to be.
#[derive(Clone, Copy)]
pub enum ChainRule {
    /// A chain of this task to an idle processor.
    ToIdle(u32),

    /// A chain of this task to an occupied processor.
    ToOccupied(u32),

    /// A back chain to a processor, along which a task enters, or nobody.
    Back { place: u8, entered: Option<u32> },
}

impl ChainRule {
    /// The first place at which a chain does not fit.
    pub fn first_misfit(self, links: &Links, chain: &Chain) -> Option<u8>
        requires { IsChainRuleOf (task_count links.now) self }
        ensures { IsFirstMisfitIfAny (FitsChainRule links.now self chain.now) (length chain.now) result }
    {
        if chain.is_empty() {
            return Some(0);
        }
        let mut seen = ProcSet::empty();
        for i in 0..chain.len() {
            if !self.fits(links, chain, i, &seen) {
                return Some(i as u8);
            }
            seen = seen.with(chain.at(i));
        }
        None
    }

    /// Whether place i of a chain fits, where the chain visited the processors that were seen before.
    fn fits(self, links: &Links, chain: &Chain, i: usize, seen: &ProcSet) -> bool
        requires task { IsChainRuleOf (task_count links.now) self }
        requires place { i < length chain.now }
        requires seen { (q : ℕ) → IsTrue (has seen.now q) ↔ ComesBefore chain.now i q }
        ensures { IsTrue result ↔ FitsChainRule links.now self chain.now i }
    {
        let q = chain.at(i);
        let last = chain.len() - 1;
        q < links.processors()
            && !seen.has(q)
            && self.goes_on(links, chain, i)
            && (i != last || self.ends(links, q))
    }

    /// Whether the processor at place i begins the chain, or follows the one before it.
    fn goes_on(self, links: &Links, chain: &Chain, i: usize) -> bool
        requires task { IsChainRuleOf (task_count links.now) self }
        requires place { i < length chain.now }
        ensures { IsTrue result ↔ IsNextInChain links.now self chain.now i }
    {
        if i == 0 {
            self.begins(links, chain.at(i))
        } else {
            self.follows(links, chain.at(i - 1), chain.at(i))
        }
    }

    /// Whether a chain may begin with q.
    fn begins(self, links: &Links, q: u8) -> bool
        requires task { IsChainRuleOf (task_count links.now) self }
        requires processor { q < 64 }
        ensures { IsTrue result ↔ ChainMayBegin links.now self q }
    {
        match self {
            ChainRule::ToIdle(t) | ChainRule::ToOccupied(t) => links.effective(t).has(q),
            ChainRule::Back { place, .. } => q == place,
        }
    }

    /// Whether q may follow a processor of the chain.
    fn follows(self, links: &Links, before: u8, q: u8) -> bool
        requires before { before < 64 }
        requires processor { q < 64 }
        ensures { IsTrue result ↔ Follows links.now self before q }
    {
        match self {
            ChainRule::ToIdle(_) | ChainRule::ToOccupied(_) => can_shift(links, before, q),
            ChainRule::Back { entered, .. } => entered.is_some() && can_shift(links, q, before),
        }
    }

    /// Whether a chain may end on q.
    fn ends(self, links: &Links, q: u8) -> bool
        ensures { IsTrue result ↔ ChainMayEnd links.now self q }
    {
        match self {
            ChainRule::ToIdle(_) => occupant(links, q).is_none(),
            ChainRule::ToOccupied(_) => occupant(links, q).is_some(),
            ChainRule::Back { .. } => true,
        }
    }
}
