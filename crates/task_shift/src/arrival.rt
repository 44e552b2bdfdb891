//! A task arrives.
ghost use Rattle.std.specs.Prelude.{◌≡◌, ℕ, ◌<◌, false};
ghost use Rattle.strong_apa.specs.State.{IsState, task_count, is_ready};
ghost use Rattle.strong_apa.specs.Step.{ArriveStep, Comes};

use link_table::{Came, Links, Reply};
use path_search::{chain_to, chain_to_idle, reach};

/// A task arrives. It is placed where it reaches an idle processor, else it displaces the least urgent task that it
/// reaches where that one is less urgent, else it waits. Nothing changes where it was ready before. No memory is taken.
pub fn arrive(links: &mut Links, t: u32) -> Reply
    requires { t < task_count links.old }
    ensures step { ArriveStep links.old t result links.new }
    ensures valid { IsState links.new }
{
    if links.is_ready(t) {
        return Reply::AlreadyReady;
    }
    come(links, t).into()
}

/// An absent task becomes ready, and comes to an idle processor, or to that of a less urgent task, or waits.
pub(crate) fn come(links: &mut Links, t: u32) -> Came
    requires number { t < task_count links.old }
    requires absent { is_ready links.old t ≡ false }
    ensures comes { Comes links.old t result links.new }
    ensures valid { IsState links.new }
{
    if let Some(chain) = chain_to_idle(links, t) {
        links.enter(t, &chain);
        return Came::Placed { chain };
    }
    let reach = reach(links, t);
    match links.least_urgent_on(reach) {
        Some(out) if links.is_more_urgent(t, out) => {
            let p = links.of(out).unwrap();
            let chain = chain_to(links, t, p).unwrap();
            links.enter(t, &chain);
            Came::Displaced { chain, out, reach }
        }
        _ => {
            links.make_ready(t);
            Came::Waits { reach }
        }
    }
}
