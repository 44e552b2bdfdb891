//! The end of a watched replay: each observer is told of the whole history, and reads once more.
ghost use Rattle.std.specs.Prelude.{◌≡◌, ◌≤◌, ◌↔◌, List, All, IsTrue, length, IfOk};
ghost use Rattle.strong_apa.specs.declared.reply.Entry.{Entry};
ghost use Rattle.schedule_board.specs.Boards.{board_of, published};
ghost use Rattle.replay.specs.Places.{AllFrom};
ghost use Rattle.replay.specs.Streams.{IsPassAt};
ghost use Rattle.replay.specs.Passes.{FirstSaw, FirstSawJust, HaveGrown};
ghost use Rattle.replay.specs.Watches.{IsObservedOf, IsToldOf};
ghost use Rattle.replay.specs.declared.sighting.Sighting.{Sighting};

use crate::observing::Observed;
use crate::posting::publish_new;
use crate::shared::Shared;
use crate::sighting::Sighting;
use affinity_mask::OutOfMemory;
use event_history::Pass;
use schedule_board::Publisher;
use std::alloc::Global;
use std::sync::Wait;

/// Tells an observer of what is published, and lets it read once more.
fn tell_one<R: Wait, K: Wait + Drop>(
    rt: &R,
    publisher: &mut Publisher<K>,
    observed: &mut Observed,
) -> Sighting
    requires { IsObservedOf (board_of publisher.old) observed.old }
    ensures kept { publisher.new ≡ publisher.old }
    ensures observed { IsObservedOf (board_of publisher.old) observed.new }
    ensures told { IsToldOf (board_of publisher.old).processors (published publisher.old) result }
{
    publisher.tell(&mut observed.observer);
    let told = observed.observer.read(rt);
    let reads = observed.reads;
    Sighting {
        first: reads.first,
        last: reads.last,
        told,
    }
}

/// Tells all observers, and gives what each of them saw, in their order.
fn tell_all<R: Wait, K: Wait + Drop>(
    rt: &R,
    alloc: Global,
    publisher: &mut Publisher<K>,
    mut observed: Vec<Observed>,
) -> Result<Vec<Sighting>, OutOfMemory>
    requires { All (IsObservedOf (board_of publisher.old)) observed.items }
    ensures count { IfOk result (λ sightings. length sightings.items ≡ length observed.items) }
    ensures each { IfOk result (λ sightings. All
        (IsToldOf (board_of publisher.old).processors (published publisher.old)) sightings.items) }
{
    let mut sightings = Vec::with_capacity(alloc, observed.len())?;
    for i in 0..observed.len() {
        let sighting = tell_one(rt, publisher, &mut observed[i]);
        sightings.push_reserved(sighting);
    }
    Ok(sightings)
}

/// Publishes what is not published yet, and tells all observers of the whole.
pub fn tell_whole<R: Wait, K: Wait + Drop, G>(
    shared: &Shared<R, G>,
    passes: &mut Vec<Pass>,
    mut publisher: Publisher<K>,
    observed: Vec<Observed>,
) -> Result<Vec<Sighting>, OutOfMemory>
    requires passes { AllFrom (IsPassAt shared.now.board.now) 0 passes.old.items }
    requires published { FirstSaw (published publisher) passes.old.items }
    requires observed { All (IsObservedOf (board_of publisher)) observed.items }
    ensures grown { HaveGrown shared.now.board.now.queues passes.old.items passes.new.items }
    ensures count { IfOk result (λ sightings. length sightings.items ≡ length observed.items) }
    ensures each { IfOk result (λ sightings. (whole : List Entry)
        × FirstSawJust whole passes.new.items
        × All (IsToldOf (board_of publisher).processors whole) sightings.items) }
{
    publish_new(shared, passes, &mut publisher)?;
    tell_all(shared.rt, shared.alloc, &mut publisher, observed)
}

/// Whether no observer saw more entries in the end than this.
pub fn none_beyond(sightings: &[Sighting], count: usize) -> bool
    ensures { IsTrue result ↔ All (λ (s : Sighting). s.told.count ≤ count) sightings.now }
{
    sightings
        .iter()
        .all(|sighting| sighting.told.count() <= count as u64)
}
