//! A task leaves the weak scheduler.
ghost use Rattle.std.specs.Prelude.{◌≡◌, ◌<◌, true, false};
ghost use Rattle.strong_apa.specs.State.{IsState, HasSameTasks, task_count, is_ready, task_on};
ghost use Rattle.weak_apa.specs.Stable.{IsWeaklyStable, IsStableBeside};
ghost use Rattle.weak_apa.specs.Step.{WeaklyLeaves, WeaklyFills};

use crate::arrival::go_on;
use affinity_mask::ProcSet;
use link_table::Links;

/// A ready task becomes absent. Where it leaves a processor, the most urgent waiting task that may run there goes on it.
pub(crate) fn withdraw(links: &mut Links, t: u32)
    requires number { t < task_count links.old }
    requires ready { is_ready links.old t ≡ true }
    requires stable { IsWeaklyStable links.old }
    ensures leaves { WeaklyLeaves links.old t links.new }
    ensures absent { is_ready links.new t ≡ false }
    ensures same { HasSameTasks links.old links.new }
    ensures stable { IsWeaklyStable links.new }
    ensures valid { IsState links.new }
{
    if links.is_waiting(t) {
        links.make_absent(t);
    } else {
        let p = links.leave(t);
        fill(links, p);
    }
}

/// The most urgent waiting task that may run on an idle processor goes on it, if there is one.
pub(crate) fn fill(links: &mut Links, p: u8)
    requires processor { p < links.old.processors }
    requires nobody { task_on links.old p ≡ None }
    requires stable { IsStableBeside links.old p }
    ensures fills { WeaklyFills links.old p links.new }
    ensures stable { IsWeaklyStable links.new }
    ensures valid { IsState links.new }
{
    let _valid = links.processors();
    if let Some(w) = links.most_urgent_in(ProcSet::one(p)) {
        go_on(links, w, p);
    }
}
