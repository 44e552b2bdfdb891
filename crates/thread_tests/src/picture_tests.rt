//! What no clause says: that calls succeed where memory is ample, and that an observer reads beside a publisher.
ghost use Rattle.std.specs.Prelude.{◌≡◌, ◌<◌, ◌≤◌, [], ◌++◌, ◌∷◌, length};
ghost use Rattle.schedule_board.specs.Boards.{board_of, board_at, published};

use crate::same::same;
use affinity_mask::ProcSet;
use schedule_board::{Observer, Picture, Publisher, make_board};
use std::alloc::Global;
use std::process::Abort;
use std::sync::Wait;
use std::thread::{Threads, join};
use strong_apa::{Chain, Entry, Reply};
use task_set::{Event, TaskSet};

/// A list of two processors.
fn two(first: u8, second: u8) -> Chain
    requires { (first < 64) × (second < 64) }
{
    let mut chain = one(first);
    chain.push(second);
    chain
}

/// A list of one processor.
fn one(p: u8) -> Chain
    requires { p < 64 }
    ensures { length result ≡ 1 }
{
    let mut chain = Chain::new();
    chain.push(p);
    chain
}

/// The entry of a task that was placed along a chain.
fn placed(task: u32, chain: Chain) -> Entry {
    Entry {
        caller: 0,
        event: Event::Arrive(task),
        reply: Reply::Placed { chain },
    }
}

/// The entry of a task that departed, after which nobody came in.
fn departed(task: u32, chain: Chain) -> Entry {
    Entry {
        caller: 0,
        event: Event::Depart(task),
        reply: Reply::Freed {
            entered: None,
            chain,
            back: ProcSet::first(2),
        },
    }
}

/// Publishes one entry, tells the observer, and gives what it reads then.
fn publish_and_read<R: Wait + Abort, K: Wait + Drop>(
    rt: &R,
    publisher: &mut Publisher<K>,
    observer: &mut Observer,
    entry: &Entry,
) -> Picture
    requires board { board_of publisher.old ≡ board_at observer.old }
    requires room { length (published publisher.old) ≤ 8 }
    ensures board { board_of publisher.new ≡ board_at observer.new }
    ensures published { published publisher.new ≡ published publisher.old ++ entry.now ∷ [] }
{
    assert!(rt; publisher.publish(rt, &[entry.copy()]).is_ok());
    publisher.tell(observer);
    observer.read(rt)
}

/// A picture shows so many entries, and these tasks on the two processors.
fn expect(rt: &impl Abort, picture: Picture, count: u64, first: Option<u32>, second: Option<u32>) {
    same(rt, picture.count(), count);
    same(rt, picture.on(0), first);
    same(rt, picture.on(1), second);
    let linked = first.is_some() as u8 + second.is_some() as u8;
    same(rt, picture.linked().count(), linked);
}

/// Two tasks are placed, and the first one departs.
fn publish_three<R: Wait + Abort, K: Wait + Drop>(
    rt: &R,
    publisher: &mut Publisher<K>,
    observer: &mut Observer,
)
    requires board { board_of publisher.old ≡ board_at observer.old }
    requires none { published publisher.old ≡ [] }
{
    expect(rt, observer.read(rt), 0, None, None);
    let entry = placed(0, one(0));
    let picture = publish_and_read(rt, publisher, observer, &entry);
    expect(rt, picture, 1, Some(0), None);
    let entry = placed(1, two(0, 1));
    let picture = publish_and_read(rt, publisher, observer, &entry);
    expect(rt, picture, 2, Some(1), Some(0));
    let entry = departed(0, one(1));
    let picture = publish_and_read(rt, publisher, observer, &entry);
    expect(rt, picture, 3, Some(1), None);
}

/// The same over the board of a set.
fn publish_over<R: Wait + Abort>(rt: &R, alloc: Global, set: &TaskSet) {
    let (mut publisher, mut observers) = make_board(rt, alloc, set, 1).expect(rt, "memory");
    same(rt, observers.len(), 1);
    publish_three(rt, &mut publisher, &mut observers[0]);
}

#[test]
fn pictures_by_calls(rt: HostRuntime) {
    let set = TaskSet::new(rt.alloc(), 2).expect(&rt, "memory");
    publish_over(&rt, rt.alloc(), &set);
}

/// The counts of two reads, and the observer.
fn read_twice<R: Wait>(rt: &R, mut observer: Observer) -> (u64, u64, Observer)
    ensures { board_at result.2 ≡ board_at observer }
{
    let first = observer.read(rt).count();
    let last = observer.read(rt).count();
    (first, last, observer)
}

/// Publishes one entry, and says whether that succeeded.
fn publish_one<R: Wait, K: Wait + Drop>(
    rt: &R,
    mut publisher: Publisher<K>,
    entry: Entry,
) -> (Publisher<K>, bool)
    requires { published publisher ≡ [] }
    ensures { board_of result.0 ≡ board_of publisher }
{
    let done = publisher.publish(rt, &[entry]);
    (publisher, done.is_ok())
}

/// An observer reads while one entry is published on another thread.
fn read_beside<R: Threads + Wait + Abort + Sync, K: Wait + Drop + Send>(
    rt: &R,
    publisher: Publisher<K>,
    observer: Observer,
    entry: Entry,
)
    requires { (board_of publisher ≡ board_at observer) × (published publisher ≡ []) }
{
    let ((first, last, mut observer), (mut publisher, done)) = join(
        rt,
        || -> (u64, u64, Observer)
            ensures { board_at result.2 ≡ board_at observer }
        { read_twice(rt, observer) },
        || -> (Publisher<K>, bool)
            requires { published publisher ≡ [] }
            ensures { board_of result.0 ≡ board_of publisher }
        { publish_one(rt, publisher, entry) },
    );
    publisher.tell(&mut observer);
    let after = observer.read(rt).count();
    assert!(rt; done && first <= last && last <= 1);
    same(rt, after, 1);
}

#[test]
fn reads_beside_a_publisher(rt: HostRuntime) {
    let set = TaskSet::new(rt.alloc(), 2).expect(&rt, "memory");
    publish_beside(&rt, rt.alloc(), &set);
}

/// One of two observers of the board of a set reads beside its publisher.
fn publish_beside<R: Threads + Wait + Abort + Sync>(rt: &R, alloc: Global, set: &TaskSet) {
    let (publisher, mut observers) = make_board(rt, alloc, set, 2).expect(rt, "memory");
    let observer = observers.pop().expect(rt, "two observers");
    read_beside(rt, publisher, observer, placed(0, one(0)));
}
