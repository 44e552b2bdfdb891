//! The threads of a watched replay: a worker for each processor and a thread for each observer, beside the caller's posts.
ghost use Rattle.std.specs.Prelude.{◌≡◌, ◌≤◌, [], All, true, length, map, IfOk};
ghost use Rattle.schedule_board.specs.Boards.{board_of};
ghost use Rattle.replay.specs.Driving.{IsDone, seat_of};
ghost use Rattle.replay.specs.Joining.{AreJoined, AreTold, CanWatch};
ghost use Rattle.replay.specs.Passes.{FirstSawClose, HaveGrown};
ghost use Rattle.replay.specs.Places.{AllFrom};
ghost use Rattle.replay.specs.Seats.{IsSeated};
ghost use Rattle.replay.specs.Sharing.{IsShared};
ghost use Rattle.replay.specs.Streams.{IsPassAt};
ghost use Rattle.replay.specs.Threading.{CanRun};

use crate::observing::Observed;
use crate::on_threads::{Threaded, close_core};
use crate::posting::post_all;
use crate::rooms::{Rooms, make_rooms};
use crate::shared::Shared;
use crate::sighting::Sighting;
use crate::telling::tell_whole;
use crate::{observing, workers};
use affinity_mask::OutOfMemory;
use event_history::Pass;
use processor_seat::{Gate, Processor};
use schedule_board::{Observer, Publisher};
use std::sync::Wait;
use std::sync::atomic::AtomicBool;
use std::thread;
use std::thread::{Scope, Threads};

/// What a watched replay has beside its threads: who publishes, the observers, and a flag for each of them.
#[derive(Drop)]
pub struct Watching<'w, K: Wait + Drop> {
    pub publisher: Publisher<K>,
    pub observers: Vec<Observer>,
    pub refused: &'w [AtomicBool],
}

/// What the threads leave: what the threads of every replay leave, the publisher, and the observers with what they saw.
#[derive(Drop)]
pub struct Joined<K: Wait + Drop> {
    pub threaded: Threaded,
    pub publisher: Publisher<K>,
    pub observed: Vec<Observed>,
}

/// What is left once the observers were told of the whole history: what the threads of every replay leave, and what the
/// observers saw. Where there was no memory for it, not all is done.
pub struct Told {
    pub threaded: Threaded,
    pub sightings: Vec<Sighting>,
}

/// The pass of caller 0 closes the core.
fn close_by_first<R: Wait, G: Gate>(
    shared: &Shared<R, G>,
    passes: &mut Vec<Pass>,
    left: &mut Vec<Processor>,
)
    requires shared { IsShared shared.now }
    requires some { 1 ≤ length passes.old.items }
    requires passes { AllFrom (IsPassAt shared.now.board.now) 0 passes.old.items }
    requires seated { All (IsSeated shared.now.queues.now shared.now.slots.now) left.old.items }
    ensures grown { HaveGrown shared.now.board.now.queues passes.old.items passes.new.items }
    ensures closed { FirstSawClose passes.new.items }
    ensures same { map seat_of left.new.items ≡ map seat_of left.old.items }
    ensures done { All (IsDone shared.now.queues.now shared.now.slots.now) left.new.items }
{
    close_core(shared, &mut passes[0], left);
}

/// Starts the workers and the observers, posts the events, closes the core and joins all threads. All memory of the joins
/// is taken before the first start, since a worker that was started waits for its `Stop`.
fn run_threads<
    's,
    'a: 's,
    'b: 's,
    'w: 's,
    E,
    R: Threads + Wait + Sync,
    K: Wait + Drop,
    G: Gate + Sync,
>(
    scope: &Scope<'s, E>,
    shared: &Shared<'a, 'b, R, G>,
    mut passes: Vec<Pass>,
    processors: Vec<Processor>,
    watching: Watching<'w, K>,
) -> Result<Joined<K>, OutOfMemory>
    requires run { CanRun shared.now passes.items processors.items }
    requires watch { CanWatch watching }
    ensures { IfOk result (AreJoined shared.entry.now (board_of watching.entry.publisher)
        (length watching.entry.observers.items)) }
{
    let Rooms {
        workers,
        left,
        stopped,
        others,
        back,
    } = make_rooms(shared.alloc, shared.queues.len(), watching.observers.len())?;
    let Watching {
        mut publisher,
        observers,
        refused,
    } = watching;
    let (workers, mut left) = workers::start_all(scope, shared, processors, workers, left);
    let watchers = observing::start_all(scope, shared.rt, shared.gate, refused, observers, others);
    let whole = post_all(shared, &mut passes, &mut publisher);
    close_by_first(shared, &mut passes, &mut left);
    let processors = workers::join_all(shared, workers, left, stopped);
    let observed = observing::join_all(shared.rt, shared.gate, watchers, back);
    let threaded = Threaded {
        passes,
        whole,
        processors,
    };
    Ok(Joined {
        threaded,
        publisher,
        observed,
    })
}

/// Runs the threads in a scope of their own. Once all are joined, the observers are told of the whole history.
pub fn in_threads<R: Threads + Wait + Sync, K: Wait + Drop, G: Gate + Sync>(
    shared: &Shared<R, G>,
    passes: Vec<Pass>,
    processors: Vec<Processor>,
    watching: Watching<K>,
) -> Result<Told, OutOfMemory>
    requires run { CanRun shared.now passes.items processors.items }
    requires watch { CanWatch watching }
    ensures { IfOk result (AreTold shared.now (board_of watching.entry.publisher).processors
        (length watching.entry.observers.items)) }
{
    let joined = thread::scope(
        thread::scope_env(),
        shared.rt,
        move |scope| -> Result<Joined<K>, OutOfMemory>
            requires { CanRun shared.now passes.items processors.items × CanWatch watching }
            ensures { IfOk result (AreJoined shared.entry.now (board_of watching.entry.publisher)
                (length watching.entry.observers.items)) }
        { run_threads(scope, shared, passes, processors, watching) },
    )?;
    Ok(tell_joined(shared, joined))
}

/// Tells the observers of the whole history.
fn tell_joined<R: Wait, K: Wait + Drop, G>(shared: &Shared<R, G>, joined: Joined<K>) -> Told
    requires joined { AreJoined shared.now (board_of joined.publisher)
        (length joined.observed.items) joined }
    ensures { AreTold shared.now (board_of joined.publisher).processors
        (length joined.observed.items) result }
{
    let Joined {
        mut threaded,
        publisher,
        observed,
    } = joined;
    match tell_whole(shared, &mut threaded.passes, publisher, observed) {
        Ok(sightings) => Told {
            threaded,
            sightings,
        },
        Err(_none) => {
            threaded.whole = false;
            Told {
                threaded,
                sightings: Vec::new(shared.alloc),
            }
        }
    }
}
