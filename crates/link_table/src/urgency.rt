//! Which one of two tasks is more urgent, and who has to go out.
ghost use Rattle.std.specs.Prelude.{◌≡◌, ℕ, ◌<◌, ◌≤◌, ◌⊎◌, ◌↔◌, Some, IsTrue, IfSome, MatchOption};
ghost use Rattle.std.specs.Option.{ForSome};
ghost use Rattle.strong_apa.specs.State.{IsState, IsMoreUrgent, task_count, priority_of};
ghost use Rattle.strong_apa.specs.Step.{IsNobodyOn, IsLeastUrgentOn};

use crate::links::Links;
use affinity_mask::ProcSet;

impl Links {
    /// Whether a task is more urgent than another.
    pub fn is_more_urgent(&self, a: u32, b: u32) -> bool
        requires first { a < task_count self.now }
        requires second { b < task_count self.now }
        ensures { IsTrue result ↔ IsMoreUrgent self.now a b }
    {
        self.priority(a) < self.priority(b)
    }

    /// The more urgent one of a task and of the one found before, if there is one.
    pub fn more_urgent(&self, found: Option<u32>, t: u32) -> u32
        requires number { t < task_count self.now }
        requires found_number { ForSome found (λ u. u < task_count self.now) }
        ensures either { (result ≡ t) ⊎ (found ≡ Some result) }
        ensures first { priority_of self.now result ≤ priority_of self.now t }
        ensures first_of_found { IfSome found (λ u. priority_of self.now result ≤ priority_of self.now u) }
    {
        match found {
            Some(u) if self.is_more_urgent(u, t) => u,
            _ => t,
        }
    }

    /// The least urgent task on the processors of a set, if any is occupied.
    pub fn least_urgent_on(&self, set: ProcSet) -> Option<u32>
        ensures test { MatchOption result (IsNobodyOn self.now set) (IsLeastUrgentOn self.now set) }
        ensures valid { IsState self.now }
    {
        let _valid = self.processors();
        let mut found = None;
        let mut rest = set.both(&self.linked());
        while let Some(p) = rest.least() {
            let Some(t) = self.on(p) else { unreachable!() };
            found = Some(less_urgent(self, found, t));
            rest = rest.without(p);
        }
        found
    }
}

/// The less urgent one of a task and of the one found before, if there is one.
fn less_urgent(links: &Links, found: Option<u32>, t: u32) -> u32
    requires number { t < task_count links.now }
    requires found_number { ForSome found (λ u. u < task_count links.now) }
    ensures either { (result ≡ t) ⊎ (found ≡ Some result) }
    ensures last { priority_of links.now t ≤ priority_of links.now result }
    ensures last_of_found { IfSome found (λ u. priority_of links.now u ≤ priority_of links.now result) }
{
    match found {
        Some(u) if links.is_more_urgent(t, u) => u,
        _ => t,
    }
}
