//! Any event.
ghost use Rattle.strong_apa.specs.Step.{IsEventFor, SchedulerStep};

use crate::arrival::arrive;
use crate::departure::depart;
use crate::mask_change::affinity;
use crate::processor_change::{offline, online};
use link_table::{Links, Reply};
use task_set::Event;

/// The scheduler's reply to an event, which the links follow. No memory is taken. Each case returns by itself: a reply is
/// long, and what cases join in is copied.
pub fn reply_to(links: &mut Links, event: &Event) -> Reply
    requires { IsEventFor links.old event.now }
    ensures { SchedulerStep links.old event.now result links.new }
{
    match event {
        Event::Arrive(t) => return arrive(links, *t),
        Event::Depart(t) => return depart(links, *t),
        Event::Tick(_) => return Reply::Ticked,
        Event::Affinity { task, mask } => return affinity(links, *task, *mask),
        Event::Offline(p) => return offline(links, *p),
        Event::Online(p) => return online(links, *p),
    }
}
