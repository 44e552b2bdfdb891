//! The search of levels.
ghost use Rattle.std.specs.Prelude.{◌≡◌, ℕ, ◌<◌, [], IsTrue, false};
ghost use Rattle.affinity_mask.specs.ProcSet.{has};
ghost use Rattle.path_search.specs.Paths.{Steps};
ghost use Rattle.path_search.specs.Levels.{IsOutOfReach, EndsWhereItMeets};

use crate::direction::Direction;
use crate::levels::Levels;
use affinity_mask::ProcSet;
use link_table::Links;

/// Lists the levels of the paths from a set, up to the first one that meets the target. Answers whether a path leads into
/// the target.
pub fn levels_to(
    links: &Links,
    direction: Direction,
    start: ProcSet,
    target: &ProcSet,
    levels: &mut Levels,
) -> bool
    requires start { (p : ℕ) → IsTrue (has start p) → p < links.now.processors }
    requires empty { levels.old ≡ [] }
    ensures met { IsTrue result → EndsWhereItMeets (Steps links.now direction) start target.now levels.new }
    ensures out { result ≡ false → IsOutOfReach (Steps links.now direction) start target.now }
{
    let _valid = links.processors();
    let mut done = ProcSet::empty();
    let mut level = start;
    while !level.is_empty() {
        levels.push(level);
        if level.meets(target) {
            return true;
        }
        done = done.either_of(&level);
        level = direction.after_all(links, &level).minus(&done);
    }
    false
}
