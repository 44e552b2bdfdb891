//! A task departs.
ghost use Rattle.std.specs.Prelude.{◌≡◌, ◌<◌, true, [], ◌∷◌};
ghost use Rattle.strong_apa.specs.State.{IsState, task_count, is_ready};
ghost use Rattle.strong_apa.specs.Step.{DepartStep, LeaveStep, Fills};

use link_table::{Chain, Gone, Links, Reply};
use path_search::{back_chain, back_set};

/// A task departs. Where it leaves a processor, the most urgent waiting task that can be shifted there comes in.
/// Nothing changes where it was absent before. No memory is taken.
pub fn depart(links: &mut Links, t: u32) -> Reply
    requires { t < task_count links.old }
    ensures step { DepartStep links.old t result links.new }
    ensures valid { IsState links.new }
{
    if !links.is_ready(t) {
        return Reply::NotReady;
    }
    match withdraw(links, t) {
        Some(gone) => gone.into(),
        None => Reply::Left,
    }
}

/// A ready task becomes absent. Where it leaves a processor, the most urgent waiting task that can be shifted there
/// comes in.
pub(crate) fn withdraw(links: &mut Links, t: u32) -> Option<Gone>
    requires number { t < task_count links.old }
    requires ready { is_ready links.old t ≡ true }
    ensures leaves { LeaveStep links.old t result links.new }
    ensures valid { IsState links.new }
{
    if links.is_waiting(t) {
        links.make_absent(t);
        return None;
    }
    let p = links.leave(t);
    Some(fill(links, p))
}

/// Lets the most urgent waiting task in that can be shifted to processor `p`, which nobody is linked to.
pub(crate) fn fill(links: &mut Links, p: u8) -> Gone
    requires { p < links.old.processors }
    ensures fills { Fills links.old p result links.new }
    ensures valid { IsState links.new }
{
    let back = back_set(links, p);
    let Some(w) = links.most_urgent_in(back) else {
        return Gone {
            entered: None,
            chain: one_processor(p),
            back,
        };
    };
    let chain = back_chain(links, w, p).unwrap();
    links.shift(w, &chain.reversed());
    Gone {
        entered: Some(w),
        chain,
        back,
    }
}

/// The list of one processor.
fn one_processor(p: u8) -> Chain
    requires { p < 64 }
    ensures { result ≡ p ∷ [] }
{
    let mut chain = Chain::new();
    chain.push(p);
    chain
}
