//! A processor goes off line, or comes on line.
ghost use Rattle.std.specs.Prelude.{◌<◌};
ghost use Rattle.strong_apa.specs.State.{IsState};
ghost use Rattle.strong_apa.specs.Step.{OfflineStep, OnlineStep};

use crate::arrival::come;
use crate::departure::fill;
use link_table::{Links, Moved, Reply};

/// A processor goes off line. Its task, if it has one, comes to another processor, or waits. Nothing changes where it
/// was off line before. No memory is taken.
pub fn offline(links: &mut Links, p: u8) -> Reply
    requires { p < links.old.processors }
    ensures step { OfflineStep links.old p result links.new }
    ensures valid { IsState links.new }
{
    if !links.is_online(p) {
        return Reply::AlreadyOff;
    }
    let Some(task) = links.on(p) else {
        links.set_online(p, false);
        return Reply::Off { moved: None };
    };
    links.leave(task);
    links.set_online(p, false);
    let came = come(links, task);
    Reply::Off {
        moved: Some(Moved { task, came }),
    }
}

/// A processor comes on line, and the most urgent waiting task that can be shifted there comes in. Nothing changes
/// where it was on line before. No memory is taken.
pub fn online(links: &mut Links, p: u8) -> Reply
    requires { p < links.old.processors }
    ensures step { OnlineStep links.old p result links.new }
    ensures valid { IsState links.new }
{
    if links.is_online(p) {
        return Reply::AlreadyOn;
    }
    links.set_online(p, true);
    let parts = fill(links, p);
    Reply::On { parts }
}
