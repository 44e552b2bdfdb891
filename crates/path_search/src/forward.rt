//! Chains of a task.
ghost use Rattle.std.specs.Prelude.{◌≡◌, ℕ, ◌<◌, Some, IsTrue};
ghost use Rattle.affinity_mask.specs.ProcSet.{has};
ghost use Rattle.strong_apa.specs.State.{IsState, task_count, task_on};
ghost use Rattle.strong_apa.specs.Chain.{IsReach, IsChainOf, EndsIdle, EndsOnTask};
ghost use Rattle.path_search.specs.Paths.{IsLeastIfAny, EndsIn};

use crate::direction::Direction;
use crate::ends::ends_from;
use crate::least_path::least_path;
use affinity_mask::ProcSet;
use link_table::{Chain, Links};

/// The processors that a task reaches: those at the ends of all its chains.
pub fn reach(links: &Links, t: u32) -> ProcSet
    requires { t < task_count links.now }
    ensures { IsReach links.now t result }
{
    ends_from(links, Direction::Onward, links.effective(t))
}

/// The least of all chains of a task that end on an idle processor. `None` just where the task reaches none.
pub fn chain_to_idle(links: &Links, t: u32) -> Option<Chain>
    requires { t < task_count links.now }
    ensures least { IsLeastIfAny (EndsIdle links.now t) result }
    ensures valid { IsState links.now }
{
    let idle = links.idle();
    chain_into(links, t, idle)
}

/// The least of all chains of a task that end on processor `p`, and so on the task that is linked to it. `None` just
/// where the task does not reach `p`.
pub fn chain_to(links: &Links, t: u32, p: u8) -> Option<Chain>
    requires task { t < task_count links.now }
    requires processor { p < links.now.processors }
    ensures processor { IsLeastIfAny (λ chain. IsChainOf links.now t chain p) result }
    ensures occupant { (d : ℕ) → task_on links.now p ≡ Some d → IsLeastIfAny (EndsOnTask links.now t d) result }
{
    prove!(p < links.processors());
    chain_into(links, t, ProcSet::one(p))
}

/// The least of all chains of a task that end in a set.
fn chain_into(links: &Links, t: u32, ends: ProcSet) -> Option<Chain>
    requires task { t < task_count links.now }
    requires ends { (p : ℕ) → IsTrue (has ends p) → p < links.now.processors }
    ensures { IsLeastIfAny (EndsIn links.now t ends) result }
{
    let start = links.effective(t);
    least_path(links, Direction::Onward, start, ends)
}
