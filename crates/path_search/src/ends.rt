//! The search for all that paths lead to.
ghost use Rattle.std.specs.Prelude.{◌≡◌, ℕ, ◌<◌, IsTrue, ◌↔◌};
ghost use Rattle.affinity_mask.specs.ProcSet.{has};
ghost use Rattle.path_search.specs.Paths.{Steps, LeadsTo};

use crate::direction::Direction;
use affinity_mask::ProcSet;
use link_table::Links;

/// The ends of all paths from a set of processors. The search ends where all processors on line are found, as no step
/// leads to another one.
pub fn ends_from(links: &Links, direction: Direction, start: ProcSet) -> ProcSet
    requires { (p : ℕ) → IsTrue (has start p) → p < links.now.processors }
    ensures { (q : ℕ) → IsTrue (has result q) ↔ LeadsTo (Steps links.now direction) start q }
{
    let online = links.online();
    let mut found = start;
    let mut done = ProcSet::empty();
    while let Some(p) = found.minus(&done).least() {
        done = done.with(p);
        found = found.either_of(&direction.after(links, p));
        if online.within(&found) {
            return found;
        }
    }
    found
}
