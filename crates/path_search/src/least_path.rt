//! The search for a least path.
ghost use Rattle.std.specs.Prelude.{◌≡◌, ℕ, ◌<◌, [], ◌∷◌, IsTrue};
ghost use Rattle.affinity_mask.specs.ProcSet.{has};
ghost use Rattle.strong_apa.specs.Chain.{IsLeastSuch};
ghost use Rattle.path_search.specs.Paths.{Steps, LeadsInto, IsLeastIfAny, opposite_of};
ghost use Rattle.path_search.specs.Levels.{EndsWhereItMeets};

use crate::direction::Direction;
use crate::level_search::levels_to;
use crate::levels::Levels;
use affinity_mask::ProcSet;
use link_table::{Chain, Links};

/// The least path from one set of processors into another. `None` just where none leads there. Where the two sets meet,
/// it is their least common processor, and no levels are searched. Most paths are such, so each caller has this part for itself.
#[inline(always)]
pub fn least_path(
    links: &Links,
    direction: Direction,
    start: ProcSet,
    target: ProcSet,
) -> Option<Chain>
    requires { (p : ℕ) → IsTrue (has target p) → p < links.now.processors }
    ensures { IsLeastIfAny (LeadsInto (Steps links.now direction) start target) result }
{
    if let Some(p) = start.both(&target).least() {
        return Some(chain_of_one(p));
    }
    if target.is_empty() {
        return None;
    }
    path_through_levels(links, direction, start, target)
}

/// The list of one processor.
fn chain_of_one(p: u8) -> Chain
    requires { p < 64 }
    ensures { result ≡ p ∷ [] }
{
    let mut chain = Chain::new();
    chain.push(p);
    chain
}

/// The least path from one set of processors into another, by the levels. `None` just where none leads there.
#[inline(never)]
fn path_through_levels(
    links: &Links,
    direction: Direction,
    start: ProcSet,
    target: ProcSet,
) -> Option<Chain>
    requires { (p : ℕ) → IsTrue (has target p) → p < links.now.processors }
    ensures { IsLeastIfAny (LeadsInto (Steps links.now direction) start target) result }
{
    let mut levels = Levels::new();
    if levels_to(links, direction.opposite(), target, &start, &mut levels) {
        Some(path_by(links, direction, start, target, &levels))
    } else {
        None
    }
}

/// The least path into a target, from which levels go against the direction up to the first one that meets the start.
///
/// A level has the processors from which the shortest paths into the target are so long. So each processor of the path is
/// the least one that can follow in the level of what is left.
fn path_by(
    links: &Links,
    direction: Direction,
    start: ProcSet,
    target: ProcSet,
    levels: &Levels,
) -> Chain
    requires target { (p : ℕ) → IsTrue (has target p) → p < links.now.processors }
    requires levels { EndsWhereItMeets (Steps links.now (opposite_of direction)) target start levels.now }
    ensures { IsLeastSuch (LeadsInto (Steps links.now direction) start target) result }
{
    let _valid = links.processors();
    let mut chain = Chain::new();
    let mut next = start;
    let mut left = levels.len();
    while left > 0 {
        left -= 1;
        let Some(p) = next.both(&levels.at(left)).least() else {
            unreachable!()
        };
        chain.push(p);
        next = direction.after(links, p);
    }
    chain
}
