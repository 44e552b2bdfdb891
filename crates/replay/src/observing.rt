//! The observers, which read beside the posts, each on a thread of its own.
//!
//! An observer goes into its thread by value and comes back when it is joined, with what it saw. Where no thread can be
//! started, it comes back at once, and the caller lets it read after the posts.
ghost use Rattle.std.specs.Prelude.{◌≡◌, ◌≤◌, [], All, length, vec_capacity, MatchResult};
ghost use mathlib.Core.List.{IsPrefix};
ghost use Rattle.schedule_board.specs.Boards.{board_at, seen, PictureBoardData};
ghost use Rattle.schedule_board.specs.Pictures.{IsPictureOf};
ghost use Rattle.replay.specs.Watches.{AreReadsOf, IsWatchOf, IsWatcherOf, IsObservedOf};

use processor_seat::Gate;
use schedule_board::{Observer, Picture};
use std::snapshot::Snapshot;
use std::sync::Wait;
use std::sync::atomic::AtomicBool;
use std::sync::atomic::Ordering::SeqCst;
use std::thread::{Promise, PromisedHandle, Scope, Threads};

/// So often an observer reads beside the posts.
const READS: u32 = 100;

/// The point of the gate before each read beside the posts.
const BEFORE_READ: u32 = 3;

/// The first and the last of an observer's reads beside the posts.
#[derive(Clone, Copy)]
pub struct Reads {
    pub first: Picture,
    pub last: Picture,
}

/// An observer, with what it saw, unless it has not read yet.
#[derive(Drop)]
pub struct Watch {
    observer: Observer,
    reads: Option<Reads>,
}

/// An observer, with what it saw.
#[derive(Drop)]
pub struct Observed {
    pub observer: Observer,
    pub reads: Reads,
}

/// What an observer's thread gives back: an observer of the same board, with what it saw there.
#[derive(Drop)]
pub struct WatchOf {
    observer: Snapshot<Observer>,
}

impl Promise<Watch> for WatchOf {
    ghost kept_by = { λ p watch. IsWatchOf (board_at p.observer.value) watch };
}

/// The thread of an observer; or, where none could be started, the observer.
pub type Watcher = Result<PromisedHandle<Watch, WatchOf>, Watch>;

/// One read, after a call of the gate.
fn look<R: Wait, G: Gate>(rt: &R, gate: &G, who: u32, observer: &mut Observer) -> Picture
    ensures board { board_at observer.new ≡ board_at observer.old }
    ensures later { IsPrefix (seen observer.old) (seen observer.new) }
    ensures picture { IsPictureOf (board_at observer.old).processors (seen observer.new) result }
{
    gate.at(who, BEFORE_READ);
    observer.read(rt)
}

/// All reads of an observer beside the posts.
fn read_beside<R: Wait, G: Gate>(rt: &R, gate: &G, who: u32, observer: &mut Observer) -> Reads
    ensures board { board_at observer.new ≡ board_at observer.old }
    ensures reads { AreReadsOf (board_at observer.old).processors (seen observer.new) result }
{
    let first = look(rt, gate, who, observer);
    let mut last = first;
    for _ in 1..READS {
        last = look(rt, gate, who, observer);
    }
    Reads { first, last }
}

/// An observer's work on its thread, unless the flag is raised, which only a refused start does.
fn watch_unless<R: Wait, G: Gate>(
    rt: &R,
    gate: &G,
    refused: &AtomicBool,
    who: u32,
    mut observer: Observer,
) -> Watch
    ensures { IsWatchOf (board_at observer) result }
{
    if refused.load(SeqCst) {
        return Watch {
            observer,
            reads: None,
        };
    }
    let reads = read_beside(rt, gate, who, &mut observer);
    Watch {
        observer,
        reads: Some(reads),
    }
}

/// Starts an observer's thread. Where none can be started, the flag is raised, so that the closure that comes back gives
/// the observer at once.
fn start<'s, E, R: Threads + Wait + Sync, G: Gate + Sync>(
    scope: &Scope<'s, E>,
    rt: &'s R,
    gate: &'s G,
    refused: &'s AtomicBool,
    who: u32,
    observer: Observer,
) -> Watcher
    ensures { IsWatcherOf (board_at observer) result }
{
    let promise = WatchOf {
        observer: Snapshot::of(&observer),
    };
    match scope.spawn_with(
        promise,
        move || watch_unless(rt, gate, refused, who, observer),
    ) {
        Ok(thread) => Ok(thread),
        Err(back) => {
            refused.store(true, SeqCst);
            Err((back.value)())
        }
    }
}

/// Starts a thread for each observer, from the last on, and gives them in that order.
pub fn start_all<'s, E, R: Threads + Wait + Sync, G: Gate + Sync>(
    scope: &Scope<'s, E>,
    rt: &'s R,
    gate: &'s G,
    refused: &'s [AtomicBool],
    mut observers: Vec<Observer>,
    mut watchers: Vec<Watcher>,
) -> Vec<Watcher>
    requires flags { length observers.items ≤ length refused.now }
    requires few { length observers.items ≤ 8 }
    requires room { (watchers.items ≡ []) × (length observers.items ≤ vec_capacity watchers) }
    ensures count { length result.items ≡ length observers.items }
    ensures each { (of : PictureBoardData) → All (λ (o : Observer). board_at o ≡ of) observers.items
        → All (IsWatcherOf of) result.items }
{
    while let Some(observer) = observers.pop() {
        let who = observers.len();
        let watcher = start(scope, rt, gate, &refused[who], who as u32, observer);
        watchers.push_reserved(watcher);
    }
    watchers
}

/// Joins an observer's thread. An observer that has not read yet reads now.
fn join<R: Threads + Wait, G: Gate>(rt: &R, gate: &G, who: u32, watcher: Watcher) -> Observed
    ensures { (of : PictureBoardData) → IsWatcherOf of watcher → IsObservedOf of result }
{
    let Watch {
        mut observer,
        reads,
    } = match watcher {
        Ok(thread) => thread.join(rt),
        Err(back) => back,
    };
    let reads = match reads {
        Some(reads) => reads,
        None => read_beside(rt, gate, who, &mut observer),
    };
    Observed { observer, reads }
}

/// Joins all observers, of which the last one was started last, and gives them in their order.
pub fn join_all<R: Threads + Wait, G: Gate>(
    rt: &R,
    gate: &G,
    mut watchers: Vec<Watcher>,
    mut observed: Vec<Observed>,
) -> Vec<Observed>
    requires few { length watchers.items ≤ 8 }
    requires room { (observed.items ≡ []) × (length watchers.items ≤ vec_capacity observed) }
    ensures count { length result.items ≡ length watchers.items }
    ensures each { (of : PictureBoardData) → All (IsWatcherOf of) watchers.items
        → All (IsObservedOf of) result.items }
{
    while let Some(watcher) = watchers.pop() {
        let who = observed.len() as u32;
        let back = join(rt, gate, who, watcher);
        observed.push_reserved(back);
    }
    observed
}
