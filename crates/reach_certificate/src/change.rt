//! The judgement of changes of masks, and of processors that go off line or come on line. A task that leaves and comes
//! back is judged part by part, each in the links after the part before it. So the links are saved first, and are set
//! back where a part fails.
ghost use Rattle.std.specs.Prelude.{◌≡◌, ◌<◌, true, false, IfNone, IfSome, Some, MatchOption};
ghost use Rattle.affinity_mask.specs.ProcSet.{has};
ghost use Rattle.task_set.specs.TaskSet.{IsMask};
ghost use Rattle.task_set.specs.declared.event.Event.TheVariants.{Affinity, Offline, Online};
ghost use Rattle.strong_apa.specs.declared.reply.Reply.TheVariants.{Remasked, Off};
ghost use Rattle.strong_apa.specs.State.{HasSameTasks, task_count, task_on};
ghost use Rattle.strong_apa.specs.History.{state_after_left, state_after_reply};
ghost use Rattle.strong_apa.specs.Passing.{AffinityPasses, LeavingPasses, OfflinePasses, OnlinePasses};
ghost use Rattle.reach_certificate.specs.Defect.{IsLeavingDefect, IsMovedDefect, IsReplyDefect, IsReturnDefect};
ghost use Rattle.reach_certificate.specs.Returning.{IsLeaving, ReturnsRightly, MovesRightly};

use crate::defect::Defect;
use crate::parts::{come, gone_defect, let_in, vacate};
use affinity_mask::ProcSet;
use link_table::{Came, Gone, Links, Reply};
use strong_apa::Moved;

/// The defect of a reply to a change of the mask of a task.
pub fn follow_affinity(
    links: &mut Links,
    saved: &mut Links,
    t: u32,
    mask: ProcSet,
    reply: &Reply,
) -> Option<Defect>
    requires number { t < task_count links.old }
    requires mask { IsMask links.old.processors mask }
    requires saved { HasSameTasks links.old saved.old }
    ensures judged { MatchOption result (AffinityPasses links.old t mask reply.now)
        (IsReplyDefect links.old (Affinity t mask) reply.now) }
    ensures followed { IfNone result (links.new
        ≡ state_after_reply links.old (Affinity t mask) reply.now) }
    ensures refused { IfSome result (λ d. links.new ≡ links.old) }
    ensures saved { HasSameTasks links.old saved.new }
{
    if !links.is_ready(t) {
        if *reply != Reply::Masked {
            return Some(Defect::WrongReply);
        }
        links.set_mask(t, mask);
        return None;
    }
    let Reply::Remasked { gone, came } = reply else {
        return Some(Defect::WrongReply);
    };
    if gone.is_none() != links.is_waiting(t) {
        return Some(Defect::WrongReply);
    }
    saved.set_to(links);
    let defect = remask(links, t, mask, gone, came);
    if defect.is_some() {
        links.set_to(saved);
    }
    defect
}

/// A ready task leaves, its mask changes, and it comes back. Where a part fails, the links have followed those before it.
fn remask(
    links: &mut Links,
    t: u32,
    mask: ProcSet,
    gone: &Option<Gone>,
    came: &Came,
) -> Option<Defect>
    requires number { t < task_count links.old }
    requires mask { IsMask links.old.processors mask }
    requires leaves { IsLeaving links.old t gone.now }
    ensures judged { MatchOption result (ReturnsRightly links.old t mask gone.now came.now)
        (IsReturnDefect links.old t mask gone.now came.now) }
    ensures followed { IfNone result (links.new
        ≡ state_after_reply links.old (Affinity t mask) (Remasked gone.now came.now)) }
    ensures tasks { HasSameTasks links.old links.new }
{
    prove!(t < links.len());
    if let Some(defect) = leave(links, t, gone) {
        return Some(defect);
    }
    links.set_mask(t, mask);
    come(links, t, came)
}

/// A ready task leaves: it had waited, or others come in at its processor.
fn leave(links: &mut Links, t: u32, gone: &Option<Gone>) -> Option<Defect>
    requires number { t < task_count links.old }
    requires leaves { IsLeaving links.old t gone.now }
    ensures judged { MatchOption result (LeavingPasses links.old t gone.now)
        (IsLeavingDefect links.old t gone.now) }
    ensures followed { IfNone result (links.new ≡ state_after_left links.old t gone.now) }
    ensures refused { IfSome result (λ d. links.new ≡ links.old) }
{
    let Some(gone) = gone else {
        links.make_absent(t);
        return None;
    };
    vacate(links, t, gone)
}

/// The defect of a reply where a processor goes off line.
pub fn follow_offline(links: &mut Links, saved: &mut Links, p: u8, reply: &Reply) -> Option<Defect>
    requires processor { p < links.old.processors }
    requires saved { HasSameTasks links.old saved.old }
    ensures judged { MatchOption result (OfflinePasses links.old p reply.now)
        (IsReplyDefect links.old (Offline p) reply.now) }
    ensures followed { IfNone result (links.new ≡ state_after_reply links.old (Offline p) reply.now) }
    ensures refused { IfSome result (λ d. links.new ≡ links.old) }
    ensures saved { HasSameTasks links.old saved.new }
{
    if !links.is_online(p) {
        if *reply == Reply::AlreadyOff {
            return None;
        }
        return Some(Defect::WrongReply);
    }
    let Reply::Off { moved } = reply else {
        return Some(Defect::WrongReply);
    };
    take_off(links, saved, p, moved)
}

/// A processor that is on line goes off line.
fn take_off(links: &mut Links, saved: &mut Links, p: u8, moved: &Option<Moved>) -> Option<Defect>
    requires processor { p < links.old.processors }
    requires online { has links.old.online p ≡ true }
    requires saved { HasSameTasks links.old saved.old }
    ensures judged { MatchOption result (OfflinePasses links.old p (Off moved.now))
        (IsReplyDefect links.old (Offline p) (Off moved.now)) }
    ensures followed { IfNone result (links.new
        ≡ state_after_reply links.old (Offline p) (Off moved.now)) }
    ensures refused { IfSome result (λ d. links.new ≡ links.old) }
    ensures saved { HasSameTasks links.old saved.new }
{
    let occupant = links.on(p);
    let Some(moved) = moved else {
        if occupant.is_some() {
            return Some(Defect::WrongReply);
        }
        links.set_online(p, false);
        return None;
    };
    if occupant != Some(moved.task) {
        return Some(Defect::WrongReply);
    }
    saved.set_to(links);
    let defect = move_off(links, p, moved);
    if defect.is_some() {
        links.set_to(saved);
    }
    defect
}

/// The task of a processor leaves, the processor goes off line, and the task comes back. Where that fails, the links have
/// followed all but its return.
fn move_off(links: &mut Links, p: u8, moved: &Moved) -> Option<Defect>
    requires processor { p < links.old.processors }
    requires occupied { task_on links.old p ≡ Some moved.now.task }
    ensures judged { MatchOption result (MovesRightly links.old p moved.now)
        (IsMovedDefect links.old p moved.now) }
    ensures followed { IfNone result (links.new
        ≡ state_after_reply links.old (Offline p) (Off (Some moved.now))) }
    ensures tasks { HasSameTasks links.old links.new }
{
    prove!(p < links.processors());
    links.leave(moved.task);
    links.set_online(p, false);
    come(links, moved.task, &moved.came)
}

/// The defect of a reply where a processor comes on line.
pub fn follow_online(links: &mut Links, p: u8, reply: &Reply) -> Option<Defect>
    requires { p < links.old.processors }
    ensures judged { MatchOption result (OnlinePasses links.old p reply.now)
        (IsReplyDefect links.old (Online p) reply.now) }
    ensures followed { IfNone result (links.new ≡ state_after_reply links.old (Online p) reply.now) }
    ensures refused { IfSome result (λ d. links.new ≡ links.old) }
{
    if links.is_online(p) {
        if *reply == Reply::AlreadyOn {
            return None;
        }
        return Some(Defect::WrongReply);
    }
    let Reply::On { parts } = reply else {
        return Some(Defect::WrongReply);
    };
    links.set_online(p, true);
    if let Some(defect) = gone_defect(links, p, parts) {
        links.set_online(p, false);
        return Some(defect);
    }
    let_in(links, p, parts);
    None
}
