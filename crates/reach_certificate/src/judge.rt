//! The judgement of an entry, which follows it where its reply passes.
ghost use Rattle.std.specs.Prelude.{◌≡◌, ◌<◌, IfNone, IfSome, MatchOption};
ghost use Rattle.task_set.specs.declared.event.Event.TheVariants.{Arrive, Depart};
ghost use Rattle.strong_apa.specs.State.{HasSameTasks, task_count};
ghost use Rattle.strong_apa.specs.Step.{IsEventFor};
ghost use Rattle.strong_apa.specs.History.{effect_of, state_after_reply};
ghost use Rattle.strong_apa.specs.Passing.{Passes, ArrivalPasses, DeparturePasses};
ghost use Rattle.reach_certificate.specs.Defect.{IsDefect, IsReplyDefect};

use crate::change::{follow_affinity, follow_offline, follow_online};
use crate::defect::Defect;
use crate::parts::{come_displaced, come_placed, come_waiting, vacate};
use link_table::{Entry, Links, Reply};
use task_set::Event;

/// The defect of an entry. `None` just where its reply passes, and then the links are those after it. Where there is
/// a defect they stay as they were. Of a task that leaves and comes back, `saved` keeps the links before the entry.
pub fn follow_entry(links: &mut Links, saved: &mut Links, entry: &Entry) -> Option<Defect>
    requires event { IsEventFor links.old entry.now.event }
    requires saved { HasSameTasks links.old saved.old }
    ensures judged { MatchOption result (Passes links.old entry.now.event entry.now.reply)
        (IsDefect links.old entry.now) }
    ensures followed { IfNone result (links.new ≡ effect_of links.old entry.now) }
    ensures refused { IfSome result (λ d. links.new ≡ links.old) }
    ensures saved { HasSameTasks links.old saved.new }
{
    let reply = &entry.reply;
    match entry.event {
        Event::Arrive(t) => follow_arrival(links, t, reply),
        Event::Depart(t) => follow_departure(links, t, reply),
        Event::Tick(_) => match reply {
            Reply::Ticked => None,
            _ => Some(Defect::WrongReply),
        },
        Event::Affinity { task, mask } => follow_affinity(links, saved, task, mask, reply),
        Event::Offline(p) => follow_offline(links, saved, p, reply),
        Event::Online(p) => follow_online(links, p, reply),
    }
}

/// The defect of a reply to the arrival of a task.
fn follow_arrival(links: &mut Links, t: u32, reply: &Reply) -> Option<Defect>
    requires { t < task_count links.old }
    ensures judged { MatchOption result (ArrivalPasses links.old t reply.now)
        (IsReplyDefect links.old (Arrive t) reply.now) }
    ensures followed { IfNone result (links.new ≡ state_after_reply links.old (Arrive t) reply.now) }
    ensures refused { IfSome result (λ d. links.new ≡ links.old) }
{
    if links.is_ready(t) {
        return match reply {
            Reply::AlreadyReady => None,
            _ => Some(Defect::WrongReply),
        };
    }
    match reply {
        Reply::Placed { chain } => come_placed(links, t, chain),
        Reply::Displaced { chain, out, reach } => come_displaced(links, t, chain, *out, *reach),
        Reply::Waits { reach } => come_waiting(links, t, *reach),
        _ => Some(Defect::WrongReply),
    }
}

/// The defect of a reply to the departure of a task.
fn follow_departure(links: &mut Links, t: u32, reply: &Reply) -> Option<Defect>
    requires { t < task_count links.old }
    ensures judged { MatchOption result (DeparturePasses links.old t reply.now)
        (IsReplyDefect links.old (Depart t) reply.now) }
    ensures followed { IfNone result (links.new ≡ state_after_reply links.old (Depart t) reply.now) }
    ensures refused { IfSome result (λ d. links.new ≡ links.old) }
{
    if !links.is_ready(t) {
        return match reply {
            Reply::NotReady => None,
            _ => Some(Defect::WrongReply),
        };
    }
    if links.is_waiting(t) {
        let Reply::Left = reply else {
            return Some(Defect::WrongReply);
        };
        links.make_absent(t);
        return None;
    }
    let Some(gone) = reply.gone() else {
        return Some(Defect::WrongReply);
    };
    vacate(links, t, &gone)
}
