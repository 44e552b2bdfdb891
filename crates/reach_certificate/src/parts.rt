//! The judgement of what an arrival came to, and of who came in where a processor has become idle. What passes happens to
//! the links.
ghost use Rattle.std.specs.Prelude.{◌≡◌, ◌≢◌, ◌↔◌, ℕ, ◌<◌, [], ◌∷◌, true, false, IsTrue, IfNone, IfSome, Some, MatchOption};
ghost use Rattle.affinity_mask.specs.ProcSet.{has};
ghost use Rattle.strong_apa.specs.declared.reply.Came.TheVariants as came;
ghost use Rattle.strong_apa.specs.State.{IsMoreUrgent, is_ready, is_linked, task_count, task_on, effective_mask, state_with_ready, state_after_leaving};
ghost use Rattle.strong_apa.specs.Chain.{IsChainOf, IsSimple, state_after_shift};
ghost use Rattle.strong_apa.specs.Certificate.{IsCertificate};
ghost use Rattle.strong_apa.specs.History.{state_after_came, state_after_gone, state_after_left};
ghost use Rattle.strong_apa.specs.Passing.{CamePasses, GonePasses, LeavingPasses, PlacedPasses, DisplacedPasses};
ghost use Rattle.reach_certificate.specs.Defect.{IsCameDefect, IsGoneDefect, IsVacatedDefect, last_processor};

use crate::chain_rule::ChainRule;
use crate::defect::Defect;
use crate::entrant::{last_of, wrong_entrant};
use crate::occupants::occupant;
use crate::set_rule::SetRule;
use affinity_mask::ProcSet;
use link_table::{Came, Chain, Gone, Links};

/// The first part that fails of what an absent task came to. Where none does, it happens to the links.
pub fn come(links: &mut Links, t: u32, came: &Came) -> Option<Defect>
    requires number { t < task_count links.old }
    requires absent { is_ready links.old t ≡ false }
    ensures judged { MatchOption result (CamePasses links.old t came.now)
        (IsCameDefect links.old t came.now) }
    ensures followed { IfNone result (links.new ≡ state_after_came links.old t came.now) }
    ensures refused { IfSome result (λ d. links.new ≡ links.old) }
{
    match came {
        Came::Placed { chain } => come_placed(links, t, chain),
        Came::Displaced { chain, out, reach } => come_displaced(links, t, chain, *out, *reach),
        Came::Waits { reach } => come_waiting(links, t, *reach),
    }
}

/// The same where it was placed.
pub fn come_placed(links: &mut Links, t: u32, chain: &Chain) -> Option<Defect>
    requires number { t < task_count links.old }
    requires absent { is_ready links.old t ≡ false }
    ensures judged { MatchOption result (PlacedPasses links.old t chain.now)
        (IsCameDefect links.old t (came.Placed chain.now)) }
    ensures followed { IfNone result
        (links.new ≡ state_after_came links.old t (came.Placed chain.now)) }
    ensures refused { IfSome result (λ d. links.new ≡ links.old) }
{
    if let Some(defect) = placed_defect(links, t, chain) {
        return Some(defect);
    }
    enter(links, t, chain);
    None
}

/// The same where it displaced another task.
pub fn come_displaced(
    links: &mut Links,
    t: u32,
    chain: &Chain,
    out: u32,
    reach: ProcSet,
) -> Option<Defect>
    requires number { t < task_count links.old }
    requires absent { is_ready links.old t ≡ false }
    ensures judged { MatchOption result (DisplacedPasses links.old t chain.now out reach)
        (IsCameDefect links.old t (came.Displaced chain.now out reach)) }
    ensures followed { IfNone result
        (links.new ≡ state_after_came links.old t (came.Displaced chain.now out reach)) }
    ensures refused { IfSome result (λ d. links.new ≡ links.old) }
{
    if let Some(defect) = displaced_defect(links, t, chain, out, reach) {
        return Some(defect);
    }
    enter(links, t, chain);
    None
}

/// The same where it waits.
pub fn come_waiting(links: &mut Links, t: u32, reach: ProcSet) -> Option<Defect>
    requires number { t < task_count links.old }
    requires absent { is_ready links.old t ≡ false }
    ensures judged { MatchOption result (IsCertificate links.old t reach)
        (IsCameDefect links.old t (came.Waits reach)) }
    ensures followed { IfNone result
        (links.new ≡ state_after_came links.old t (came.Waits reach)) }
    ensures refused { IfSome result (λ d. links.new ≡ links.old) }
{
    if let Some(defect) = waits_defect(links, t, reach) {
        return Some(defect);
    }
    links.make_ready(t);
    None
}

/// A linked task leaves its processor: the first part that fails of who came in there. Where none does, it happens to the
/// links.
pub fn vacate(links: &mut Links, t: u32, gone: &Gone) -> Option<Defect>
    requires number { t < task_count links.old }
    requires linked { is_linked links.old t ≡ true }
    ensures judged { MatchOption result (LeavingPasses links.old t (Some gone.now))
        (IsVacatedDefect links.old t gone.now) }
    ensures followed { IfNone result (links.new ≡ state_after_left links.old t (Some gone.now)) }
    ensures refused { IfSome result (λ d. links.new ≡ links.old) }
{
    prove!(t < links.len());
    let p = links.leave(t);
    if let Some(defect) = gone_defect(links, p, gone) {
        come_back(links, t, p);
        return Some(defect);
    }
    let_in(links, p, gone);
    None
}

/// The first part that fails of what an absent task came to, where it was placed.
fn placed_defect(links: &Links, t: u32, chain: &Chain) -> Option<Defect>
    requires { t < task_count links.now }
    ensures { MatchOption result (PlacedPasses links.now t chain.now)
        (IsCameDefect links.now t (came.Placed chain.now)) }
{
    prove!(t < links.len());
    if let Some(place) = ChainRule::ToIdle(t).first_misfit(links, chain) {
        return Some(Defect::BadChain(place));
    }
    None
}

/// The same where it displaced another task.
fn displaced_defect(
    links: &Links,
    t: u32,
    chain: &Chain,
    out: u32,
    reach: ProcSet,
) -> Option<Defect>
    requires { t < task_count links.now }
    ensures { MatchOption result (DisplacedPasses links.now t chain.now out reach)
        (IsCameDefect links.now t (came.Displaced chain.now out reach)) }
{
    prove!(t < links.len());
    if let Some(place) = ChainRule::ToOccupied(t).first_misfit(links, chain) {
        return Some(Defect::BadChain(place));
    }
    let last = last_occupant(links, chain);
    if let Some(q) = SetRule::HeldOver(t, last).first_misfit(links, reach) {
        return Some(Defect::BadSet(q));
    }
    if displaces_rightly(links, t, last, out) {
        None
    } else {
        Some(Defect::WrongTask(last))
    }
}

/// Whether the task `out` is the one that the shift of `t` displaces, and is less urgent than `t`.
fn displaces_rightly(links: &Links, t: u32, displaced: u32, out: u32) -> bool
    requires number { t < task_count links.now }
    requires displaced_number { displaced < task_count links.now }
    ensures { IsTrue result ↔ (out ≡ displaced) × IsMoreUrgent links.now t displaced }
{
    out == displaced && links.is_more_urgent(t, displaced)
}

/// The same where it waits.
fn waits_defect(links: &Links, t: u32, reach: ProcSet) -> Option<Defect>
    requires { t < task_count links.now }
    ensures { MatchOption result (IsCertificate links.now t reach)
        (IsCameDefect links.now t (came.Waits reach)) }
{
    prove!(t < links.len());
    if let Some(q) = SetRule::HeldAgainst(t).first_misfit(links, reach) {
        return Some(Defect::BadSet(q));
    }
    None
}

/// The first part that fails of who came in where processor `p` has become idle.
pub fn gone_defect(links: &Links, p: u8, gone: &Gone) -> Option<Defect>
    requires { p < links.now.processors }
    ensures { MatchOption result (GonePasses links.now p gone.now)
        (IsGoneDefect links.now p gone.now) }
{
    prove!(p < links.processors());
    let rule = ChainRule::Back {
        place: p,
        entered: gone.entered,
    };
    if let Some(place) = rule.first_misfit(links, &gone.chain) {
        return Some(Defect::BadChain(place));
    }
    if let Some(q) = SetRule::LeadsBack(p).first_misfit(links, gone.back) {
        return Some(Defect::BadSet(q));
    }
    if let Some(task) = wrong_entrant(links, gone.entered, &gone.chain, gone.back) {
        return Some(Defect::WrongTask(task));
    }
    None
}

/// An absent task becomes ready, and is shifted along one of its chains.
fn enter(links: &mut Links, t: u32, chain: &Chain)
    requires number { t < task_count links.old }
    requires absent { is_ready links.old t ≡ false }
    requires chain { (q : ℕ) × IsChainOf links.old t chain.now q }
    requires simple { IsSimple chain.now }
    ensures { links.new ≡ state_after_shift (state_with_ready links.old t) t chain.now }
{
    let _valid = links.len();
    links.enter(t, chain);
}

/// A task that is absent is linked to an idle processor: so a departure is undone.
fn come_back(links: &mut Links, t: u32, p: u8)
    requires number { t < task_count links.old }
    requires absent { is_ready links.old t ≡ false }
    requires processor { p < 64 }
    requires allowed { IsTrue (has (effective_mask links.old t) p) }
    ensures { links.new ≡ state_after_shift (state_with_ready links.old t) t (p ∷ []) }
{
    let mut chain = Chain::new();
    chain.push(p);
    enter(links, t, &chain);
}

/// Who came in where processor `p` has become idle, where that passes, comes in.
pub fn let_in(links: &mut Links, p: u8, gone: &Gone)
    requires processor { p < links.old.processors }
    requires passes { GonePasses links.old p gone.now }
    ensures { links.new ≡ state_after_gone links.old gone.now }
{
    prove!(p < links.processors());
    if let Some(w) = gone.entered {
        links.shift(w, &gone.chain.reversed());
    }
}

/// The occupant of the processor on which a chain ends.
fn last_occupant(links: &Links, chain: &Chain) -> u32
    requires some { chain.now ≢ [] }
    requires occupied { (d : ℕ) × (task_on links.now (last_processor chain.now) ≡ Some d) }
    ensures there { task_on links.now (last_processor chain.now) ≡ Some result }
    ensures number { result < task_count links.now }
{
    occupant(links, last_of(chain)).unwrap()
}
