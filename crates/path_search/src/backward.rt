//! Back chains to a processor.
ghost use Rattle.std.specs.Prelude.{◌≡◌, ℕ, ◌<◌};
ghost use Rattle.strong_apa.specs.State.{task_count};
ghost use Rattle.strong_apa.specs.Chain.{IsBackReach, EntersBy};
ghost use Rattle.path_search.specs.Paths.{IsLeastIfAny};

use crate::direction::Direction;
use crate::ends::ends_from;
use crate::least_path::least_path;
use affinity_mask::ProcSet;
use link_table::{Chain, Links};

/// The processors that back chains to processor `p` lead back to: who can enter at one of them can be shifted in, so
/// that `p` is taken.
pub fn back_set(links: &Links, p: u8) -> ProcSet
    requires { p < links.now.processors }
    ensures { IsBackReach links.now p result }
{
    prove!(p < links.processors());
    ends_from(links, Direction::Back, ProcSet::one(p))
}

/// The least of all back chains to processor `p` at whose end task `w` can enter, from `p` on. `None` just where `w`
/// can enter at none.
pub fn back_chain(links: &Links, w: u32, p: u8) -> Option<Chain>
    requires task { w < task_count links.now }
    requires processor { p < links.now.processors }
    ensures { IsLeastIfAny (EntersBy links.now p w) result }
{
    let entries = links.effective(w);
    let start = ProcSet::one(p);
    least_path(links, Direction::Back, start, entries)
}
