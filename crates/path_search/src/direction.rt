//! The two directions in which paths are searched.
ghost use Rattle.std.specs.Prelude.{◌≡◌, ℕ, ◌<◌, IsTrue, ◌↔◌};
ghost use Rattle.affinity_mask.specs.ProcSet.{has};
ghost use Rattle.strong_apa.specs.State.{IsState};
ghost use Rattle.path_search.specs.Paths.{Steps, StepsFrom, opposite_of};

use affinity_mask::ProcSet;
use link_table::Links;

/// How a path reads the shifts.
#[derive(Clone, Copy)]
pub enum Direction {
    /// As tasks move: a step leads to where the occupant of a processor can be shifted.
    Onward,

    /// Against it: a step leads to where an occupant can be shifted from.
    Back,
}

impl Direction {
    /// The other direction.
    pub fn opposite(self) -> Direction
        ensures { result ≡ opposite_of self }
    {
        match self {
            Direction::Onward => Direction::Back,
            Direction::Back => Direction::Onward,
        }
    }

    /// The processors to which one step leads from a processor.
    pub fn after(self, links: &Links, p: u8) -> ProcSet
        requires { p < links.now.processors }
        ensures contents { (q : ℕ) → IsTrue (has result q) ↔ Steps links.now self p q }
        ensures valid { IsState links.now }
    {
        match self {
            Direction::Onward => match links.on(p) {
                Some(u) => links.effective(u),
                None => ProcSet::empty(),
            },
            Direction::Back => links.feeders(p),
        }
    }

    /// The processors to which one step leads from a set.
    pub fn after_all(self, links: &Links, set: &ProcSet) -> ProcSet
        requires { (p : ℕ) → IsTrue (has set.now p) → p < links.now.processors }
        ensures { (q : ℕ) → IsTrue (has result q) ↔ StepsFrom links.now self set.now q }
    {
        let mut found = ProcSet::empty();
        let mut rest = *set;
        while let Some(p) = rest.least() {
            found = found.either_of(&self.after(links, p));
            rest = rest.without(p);
        }
        found
    }
}
