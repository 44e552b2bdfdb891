//! A task arrives at the weak scheduler.
ghost use Rattle.std.specs.Prelude.{◌≡◌, ℕ, ◌<◌, ◌^◌, List, IfSome, MatchOption, true, false};
ghost use Rattle.strong_apa.specs.State.{IsState, IsWaiting, task_count, is_ready, effective_mask, priority_of};
ghost use Rattle.affinity_mask.specs.ProcSet.{has};
ghost use Rattle.weak_apa.specs.Stable.{IsWeaklyStable, IsToBePlaced};
ghost use Rattle.weak_apa.specs.Step.{WeaklyComes, IsPlacedInTurns, IsTurn, TakesProcessor};

use link_table::{Chain, Links};

/// An absent task becomes ready, and is placed in turns.
pub(crate) fn come(links: &mut Links, t: u32)
    requires number { t < task_count links.old }
    requires absent { is_ready links.old t ≡ false }
    requires stable { IsWeaklyStable links.old }
    ensures comes { WeaklyComes links.old t links.new }
    ensures stable { IsWeaklyStable links.new }
    ensures valid { IsState links.new }
{
    links.make_ready(t);
    place(links, t);
}

/// Places a waiting task, and then whom it displaces, until one finds an idle processor or has to wait.
fn place(links: &mut Links, t: u32)
    requires waits { IsToBePlaced links.old t }
    ensures turns { (displaced : List ℕ) × IsPlacedInTurns links.old t displaced links.new }
    ensures stable { IsWeaklyStable links.new }
    ensures valid { IsState links.new }
{
    let mut guest = t;
    while let Some(out) = take_turn(links, guest) {
        guest = out;
    }
}

/// One turn of a waiting task. Answers whom it displaces, who is less urgent, and waits then.
fn take_turn(links: &mut Links, x: u32) -> Option<u32>
    requires waits { IsToBePlaced links.old x }
    ensures turn { IsTurn links.old x result links.new }
    ensures next { MatchOption result (IsWeaklyStable links.new) (IsToBePlaced links.new) }
    ensures later { IfSome result (λ out. priority_of links.old x < priority_of links.new out
        × (priority_of links.new out < 2 ^ 32)) }
    ensures valid { IsState links.new }
{
    let own = links.effective(x);
    if let Some(p) = own.both(&links.idle()).least() {
        go_on(links, x, p);
        return None;
    }
    let Some(out) = links.least_urgent_on(own) else {
        return None;
    };
    if links.priority(x) >= links.priority(out) {
        return None;
    }
    let p = links.of(out).unwrap();
    go_on(links, x, p);
    Some(out)
}

/// A waiting task goes on a processor of its effective mask, and whoever was there waits then.
pub(crate) fn go_on(links: &mut Links, x: u32, p: u8)
    requires number { x < task_count links.old }
    requires waits { IsWaiting links.old x }
    requires there { has (effective_mask links.old x) p ≡ true }
    requires processor { p < 64 }
    ensures goes { TakesProcessor links.old x p links.new }
    ensures valid { IsState links.new }
{
    let mut chain = Chain::new();
    chain.push(p);
    links.shift(x, &chain);
}
