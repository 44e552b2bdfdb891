//! The posts of a watched replay: the caller posts all events, and publishes what came of each.
ghost use Rattle.std.specs.Prelude.{◌≡◌, ◌≤◌, ◌<◌, ◌++◌, ◌∷◌, [], All, List, true, length, is_some, IfSome, OnOk, MatchResult};
ghost use mathlib.Core.List.{IsPrefix};
ghost use Rattle.strong_apa.specs.declared.reply.Entry.{Entry};
ghost use Rattle.trace_reader.specs.declared.posted.Posted.{Posted};
ghost use Rattle.event_history.specs.Boards.{Grown};
ghost use Rattle.schedule_board.specs.Boards.{board_of, published};
ghost use Rattle.replay.specs.Places.{AllFrom};
ghost use Rattle.replay.specs.Sharing.{IsShared};
ghost use Rattle.replay.specs.Streams.{IsForBoard, IsPassAt, IsStreamedAt};
ghost use Rattle.replay.specs.Passes.{FirstSaw, FirstSawJust, HaveGrown};

use crate::shared::Shared;
use crate::streams::{Poster, post_next};
use affinity_mask::OutOfMemory;
use event_history::Pass;
use processor_seat::Gate;
use schedule_board::Publisher;
use std::sync::Wait;
use trace_reader::Posted;

/// Publishes what the history has more than what is published, as this pass then sees it.
fn publish_seen<R: Wait, K: Wait + Drop, G>(
    shared: &Shared<R, G>,
    pass: &mut Pass,
    publisher: &mut Publisher<K>,
) -> Result<(), OutOfMemory>
    requires board { pass.old.board ≡ shared.now.board.now.id }
    requires published { IsPrefix (published publisher.old) pass.old.seen }
    ensures grown { Grown pass.old pass.new }
    ensures mine { pass.new.mine ≡ pass.old.mine }
    ensures eyes { pass.new.eyes ≡ pass.old.eyes }
    ensures board { board_of publisher.new ≡ board_of publisher.old }
    ensures published { MatchResult result
        (λ _. published publisher.new ≡ pass.new.seen)
        (λ _. published publisher.new ≡ published publisher.old) }
{
    let mut news = Vec::new(shared.alloc);
    shared
        .board
        .history_from(shared.rt, pass, publisher.count(), &mut news)?;
    publisher.publish(shared.rt, &news)?;
    Ok(())
}

/// Publishes what the history has more than what is published, as the pass of caller 0 then sees it.
pub fn publish_new<R: Wait, K: Wait + Drop, G>(
    shared: &Shared<R, G>,
    passes: &mut Vec<Pass>,
    publisher: &mut Publisher<K>,
) -> Result<(), OutOfMemory>
    requires passes { AllFrom (IsPassAt shared.now.board.now) 0 passes.old.items }
    requires published { FirstSaw (published publisher.old) passes.old.items }
    ensures grown { HaveGrown shared.now.board.now.queues passes.old.items passes.new.items }
    ensures board { board_of publisher.new ≡ board_of publisher.old }
    ensures published { FirstSaw (published publisher.new) passes.new.items }
    ensures all { OnOk result (FirstSawJust (published publisher.new) passes.new.items) }
{
    publish_seen(shared, &mut passes[0], publisher)
}

/// Posts an event under the pass of its stream. `owing` is how many events gave orders since the last flush; it is answered
/// as it is then, or None where the event could not be posted.
fn post_event<R: Wait, G: Gate>(
    shared: &Shared<R, G>,
    passes: &mut Vec<Pass>,
    posted: Posted,
    owing: u32,
) -> Option<u32>
    requires shared { IsShared shared.now }
    requires callers { length passes.old.items ≡ shared.now.board.now.callers }
    requires passes { AllFrom (IsPassAt shared.now.board.now) 0 passes.old.items }
    requires known { IsForBoard shared.now.board.now posted }
    requires owing { owing < 128 }
    ensures callers { length passes.new.items ≡ length passes.old.items }
    ensures passes { AllFrom (IsPassAt shared.now.board.now) 0 passes.new.items }
    ensures posted { (done : List Posted)
        → AllFrom (IsStreamedAt shared.now.board.now done true) 0 passes.old.items
        → AllFrom (IsStreamedAt shared.now.board.now (done ++ posted ∷ []) (is_some result)) 0
        passes.new.items }
    ensures seen { (entries : List Entry) → FirstSaw entries passes.old.items
        → FirstSaw entries passes.new.items }
    ensures owing { IfSome result (λ owing. owing < 128) }
{
    let pass = &mut passes[posted.stream as usize];
    let poster = Poster {
        rt: shared.rt,
        gate: shared.gate,
        board: shared.board,
        queues: shared.queues,
    };
    post_next(&poster, pass, posted.event, owing)
}

/// Posts an event, and publishes what came of it. None where it could not be posted, or not be published.
fn post_and_publish<R: Wait, K: Wait + Drop, G: Gate>(
    shared: &Shared<R, G>,
    passes: &mut Vec<Pass>,
    publisher: &mut Publisher<K>,
    posted: Posted,
    owing: u32,
) -> Option<u32>
    requires shared { IsShared shared.now }
    requires callers { length passes.old.items ≡ shared.now.board.now.callers }
    requires passes { AllFrom (IsPassAt shared.now.board.now) 0 passes.old.items }
    requires known { IsForBoard shared.now.board.now posted }
    requires owing { owing < 128 }
    requires published { FirstSaw (published publisher.old) passes.old.items }
    ensures callers { length passes.new.items ≡ length passes.old.items }
    ensures posted { (done : List Posted)
        → AllFrom (IsStreamedAt shared.now.board.now done true) 0 passes.old.items
        → AllFrom (IsStreamedAt shared.now.board.now (done ++ posted ∷ []) (is_some result)) 0
        passes.new.items }
    ensures board { board_of publisher.new ≡ board_of publisher.old }
    ensures published { FirstSaw (published publisher.new) passes.new.items }
    ensures owing { IfSome result (λ owing. owing < 128) }
{
    let owing = post_event(shared, passes, posted, owing)?;
    match publish_new(shared, passes, publisher) {
        Ok(()) => Some(owing),
        Err(_refused) => None,
    }
}

/// Posts all events in their order, each under the pass of its stream, and publishes what came of each. Reports whether
/// all of it was done; it ends with the first event that could not be posted or published.
pub fn post_all<R: Wait, K: Wait + Drop, G: Gate>(
    shared: &Shared<R, G>,
    passes: &mut Vec<Pass>,
    publisher: &mut Publisher<K>,
) -> bool
    requires shared { IsShared shared.now }
    requires callers { length passes.old.items ≡ shared.now.board.now.callers }
    requires passes { AllFrom (IsStreamedAt shared.now.board.now [] true) 0 passes.old.items }
    requires published { FirstSaw (published publisher.old) passes.old.items }
    ensures callers { length passes.new.items ≡ length passes.old.items }
    ensures streamed { AllFrom (IsStreamedAt shared.now.board.now shared.now.events.now result)
        0 passes.new.items }
    ensures board { board_of publisher.new ≡ board_of publisher.old }
    ensures published { FirstSaw (published publisher.new) passes.new.items }
{
    let mut owing = 0;
    for &posted in shared.events {
        match post_and_publish(shared, passes, publisher, posted, owing) {
            Some(now) => owing = now,
            None => return false,
        }
    }
    true
}
