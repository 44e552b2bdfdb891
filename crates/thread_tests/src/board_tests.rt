//! What no clause says: that calls succeed with ample memory, what they answer on runs followed by hand, and that they
//! may be made from several threads at once.
ghost use Rattle.std.specs.Prelude.{◌≡◌, ◌∷◌, [], length, map};
ghost use Rattle.task_set.specs.Event.{IsOfSystem};
ghost use Rattle.strong_apa.specs.State.{task_count};
ghost use Rattle.order_queues.specs.Ends.{new_sender};
ghost use Rattle.event_history.specs.Boards.{AreAllPasses, AreFor, Grown};

use crate::same::same;
use crate::two_processors::{list_of_one, list_of_two, two_queues, two_tasks};
use affinity_mask::ProcSet;
use event_history::{Board, EndFault, Pass, PostFault, Receipt};
use link_table::{Chain, Entry, Reply};
use order_queues::{Queue, Receiver, Sender};
use sched_core::{Core, CoreFault};
use std::alloc::Global;
use std::process::Abort;
use std::sync::{Mutex, Wait};
use std::thread;
use std::thread::Threads;
use task_set::{Event, Order, TaskSet};

/// A board of two callers with their passes, its queues and their receivers.
struct Bench {
    board: Board,
    first: Pass,
    second: Pass,
    queues: Vec<Queue>,
    ghost tasks: { (length board.set.tasks ≡ 2) × (board.set.processors ≡ 2) },
    ghost passes: { AreAllPasses board (first ∷ second ∷ []) },
    ghost lanes: { queues.items ≡ board.queues },
}

/// A board of two callers, with their passes.
fn board_of_two(
    rt: &impl Abort,
    alloc: Global,
    set: &TaskSet,
    senders: Vec<Sender>,
    queues: &[Queue],
) -> (Board, Pass, Pass)
    requires senders { senders.items ≡ map new_sender queues.now }
    requires one_each { length queues.now ≡ set.now.processors }
    requires tasks { AreFor set.now queues.now }
    ensures board { (result.0.set ≡ set.now) × (result.0.queues ≡ queues.now) }
    ensures passes { AreAllPasses result.0 (result.1 ∷ result.2 ∷ []) }
{
    let Ok((board, mut passes)) = Board::new(alloc, set, senders, queues, 2) else {
        panic!(rt; "out of memory")
    };
    let (Some(second), Some(first)) = (passes.pop(), passes.pop()) else {
        unreachable!()
    };
    (board, first, second)
}

/// The core of a board of two processors, when its two passes come back.
fn core_of(rt: &impl Abort, alloc: Global, board: Board, first: Pass, second: Pass) -> Core
    requires { AreAllPasses board (first ∷ second ∷ []) }
{
    let passes = list_of_two(rt, alloc, first, second);
    let Ok((core, senders)) = board.close(passes) else {
        panic!(rt; "out of memory")
    };
    same(rt, senders.len(), 2);
    core
}

impl Bench {
    /// A board over two processors.
    fn new(rt: &impl Abort, alloc: Global) -> Bench {
        let set = two_tasks(rt, alloc);
        Bench::over(rt, alloc, &set)
    }

    /// A board over this set of two tasks.
    fn over(rt: &impl Abort, alloc: Global, set: &TaskSet) -> Bench
        requires { (length set.now.tasks ≡ 2) × (set.now.processors ≡ 2) }
    {
        let (queues, senders, _receivers) = two_queues(rt, alloc);
        let (board, first, second) = board_of_two(rt, alloc, set, senders, queues.as_slice());
        Bench {
            board,
            first,
            second,
            queues,
        }
    }

    /// Posts an event with the first pass.
    fn post<R: Wait>(&mut self, rt: &R, event: Event) -> Result<Receipt, EndFault>
        requires { IsOfSystem 2 2 event }
    {
        self.board.post(rt, &mut self.first, event)
    }

    /// One try to post an event with the second pass.
    fn try_post(&mut self, event: Event) -> Result<Receipt, PostFault>
        requires { IsOfSystem 2 2 event }
    {
        self.board.try_post(&mut self.second, event)
    }

    /// The count that the second pass finds.
    fn count(&mut self) -> u64 {
        self.board.count(&mut self.second)
    }

    /// Both passes meet.
    fn meet(&mut self) {
        self.board.meet(&mut self.first, &mut self.second);
    }

    /// Closes the core with the first pass.
    fn finish<R: Wait>(&mut self, rt: &R) {
        self.board.finish(rt, &mut self.first);
    }

    /// Sends what is owed with the first pass.
    fn flush<R: Wait>(&mut self, rt: &R) -> u64 {
        self.board
            .flush(rt, &mut self.first, self.queues.as_slice())
    }

    /// How many entries there are, as the second pass copies them, and the reply of the last one, unless memory is out.
    fn copied<R: Wait>(&mut self, rt: &R, alloc: Global) -> Option<(usize, Option<Reply>)> {
        let mut entries = Vec::new(alloc);
        match self
            .board
            .history_from(rt, &mut self.second, 0, &mut entries)
        {
            Ok(()) => Some((
                entries.len(),
                entries.last().map(|entry| entry.reply.copy()),
            )),
            Err(_refused) => None,
        }
    }

    /// The core, when the passes come back.
    fn close(self, rt: &impl Abort, alloc: Global) -> Core {
        let Bench {
            board,
            first,
            second,
            queues: _,
        } = self;
        core_of(rt, alloc, board, first, second)
    }
}

/// A reply that places the task along these processors.
fn placed(rt: &impl Abort, processors: &[u8]) -> Reply {
    let mut chain = Chain::new();
    for &p in processors {
        assert!(rt; p < 64 && chain.len() < 64);
        chain.push(p);
    }
    Reply::Placed { chain }
}

/// The first pass posts an event, which gets this place and this reply.
fn posts<R: Wait + Abort>(rt: &R, bench: &mut Bench, event: Event, place: u64, reply: Reply)
    requires { IsOfSystem 2 2 event }
{
    let posted = bench.post(rt, event);
    same(rt, posted, Ok(Receipt { place, reply }));
}

/// The second pass posts an event by one try, which gets this place and this reply.
fn tries<R: Wait + Abort>(rt: &R, bench: &mut Bench, event: Event, place: u64, reply: Reply)
    requires { IsOfSystem 2 2 event }
{
    let posted = bench.try_post(event);
    same(rt, posted, Ok(Receipt { place, reply }));
}

/// There are two entries, and both passes know of them once they met.
fn knows_two<R: Wait + Abort>(rt: &R, bench: &mut Bench) {
    same(rt, bench.count(), 2);
    bench.meet();
    assert!(rt; bench.first.known() == 2 && bench.second.known() == 2 && !bench.first.saw_close());
}

/// No pass posts any more, and the second one has seen the close.
fn is_closed<R: Wait + Abort>(rt: &R, bench: &mut Bench) {
    same(rt, bench.post(rt, Event::Tick(1)), Err(EndFault::Closed));
    same(rt, bench.try_post(Event::Tick(1)), Err(PostFault::Closed));
    assert!(rt;
        bench.second.saw_close() && bench.second.known() == 3 && bench.second.caller() == 1
    );
}

/// Both tasks arrive, and the second one once more.
fn post_three<R: Wait + Abort>(rt: &R, bench: &mut Bench) {
    posts(rt, bench, Event::Arrive(0), 0, placed(rt, &[0]));
    tries(rt, bench, Event::Arrive(1), 1, placed(rt, &[0, 1]));
    knows_two(rt, bench);
    posts(rt, bench, Event::Arrive(1), 2, Reply::AlreadyReady);
}

/// So many orders are still owed after a flush.
fn owes<R: Wait + Abort>(rt: &R, bench: &mut Bench, orders: u64) {
    same(rt, bench.flush(rt), orders);
}

/// The core is closed, and no order is owed.
fn finishes<R: Wait + Abort>(rt: &R, bench: &mut Bench) {
    bench.finish(rt);
    is_closed(rt, bench);
    owes(rt, bench, 0);
}

/// The core has so many entries.
fn has_entries(rt: &impl Abort, core: &Core, entries: usize) {
    same(rt, core.history().len(), entries);
}

/// Closes the board, whose core has so many entries.
fn closes(rt: &impl Abort, alloc: Global, bench: Bench, entries: usize) {
    let core = bench.close(rt, alloc);
    has_entries(rt, &core, entries);
}

#[test]
fn board_by_calls(rt: HostRuntime) {
    let mut bench = Bench::new(&rt, rt.alloc());
    post_three(&rt, &mut bench);
    has_copied(&rt, rt.alloc(), &mut bench, 3, Reply::AlreadyReady);
    finishes(&rt, &mut bench);
    closes(&rt, rt.alloc(), bench, 3);
}

/// A copy of the history has so many entries, of which the last has this reply.
fn has_copied<R: Wait + Abort>(
    rt: &R,
    alloc: Global,
    bench: &mut Bench,
    entries: usize,
    last: Reply,
) {
    same(rt, bench.copied(rt, alloc), Some((entries, Some(last))));
}

/// Posts one event with a pass, and hands the pass back.
fn post_with<R: Wait>(
    rt: &R,
    board: &Board,
    mut pass: Pass,
    event: Event,
) -> (Pass, Option<Receipt>)
    requires board { pass.board ≡ board.now.id }
    requires of_task { IsOfSystem board.now.set.processors (length board.now.set.tasks) event }
    ensures { Grown pass result.0 × (result.0.eyes ≡ pass.eyes) }
{
    match board.post(rt, &mut pass, event) {
        Ok(receipt) => (pass, Some(receipt)),
        Err(_fault) => (pass, None),
    }
}

/// Whether an entry of this event stands at the receipt's place with its reply.
fn stands(history: &[Entry], event: Event, receipt: &Option<Receipt>) -> bool {
    let Some(receipt) = receipt else {
        return false;
    };
    match history.get(receipt.place as usize) {
        Some(entry) => entry.event == event && entry.reply == receipt.reply,
        None => false,
    }
}

/// Two passes of a board post at once, each on a thread of its own.
fn both_post<R: Threads + Wait + Sync>(
    rt: &R,
    board: &Board,
    first: Pass,
    one: Event,
    second: Pass,
    other: Event,
) -> ((Pass, Option<Receipt>), (Pass, Option<Receipt>))
    requires board { (first.board ≡ board.now.id) × (second.board ≡ board.now.id) }
    requires one { IsOfSystem board.now.set.processors (length board.now.set.tasks) one }
    requires other { IsOfSystem board.now.set.processors (length board.now.set.tasks) other }
    ensures first { Grown first result.0.0 × (result.0.0.eyes ≡ first.eyes) }
    ensures second { Grown second result.1.0 × (result.1.0.eyes ≡ second.eyes) }
{
    thread::join(
        rt,
        || post_with(rt, board, first, one),
        || post_with(rt, board, second, other),
    )
}

/// Both passes post at once.
fn post_at_once<R: Threads + Wait + Sync>(
    rt: &R,
    bench: Bench,
    one: Event,
    other: Event,
) -> (Bench, Option<Receipt>, Option<Receipt>)
    requires { IsOfSystem 2 2 one × IsOfSystem 2 2 other }
{
    let Bench {
        board,
        first,
        second,
        queues,
    } = bench;
    let ((first, of_first), (second, of_second)) = both_post(rt, &board, first, one, second, other);
    let bench = Bench {
        board,
        first,
        second,
        queues,
    };
    (bench, of_first, of_second)
}

#[test]
fn two_threads_post(rt: HostRuntime) {
    let bench = Bench::new(&rt, rt.alloc());
    let (mut bench, of_first, of_second) = post_at_once(
        &rt,
        bench,
        Event::Arrive(0),
        Event::Arrive(1),
    );
    both_know_two(&rt, &mut bench);
    let core = bench.close(&rt, rt.alloc());
    has_entries(&rt, &core, 2);
    assert!(rt; stands(core.history(), Event::Arrive(0), &of_first));
    assert!(rt; stands(core.history(), Event::Arrive(1), &of_second));
}

/// Both passes know of two entries once they met.
fn both_know_two(rt: &impl Abort, bench: &mut Bench) {
    bench.meet();
    assert!(rt; bench.first.known() == 2 && bench.second.known() == 2);
    same(rt, bench.count(), 2);
}

/// The core, to which the arrival of the first task was applied.
fn arrived(mut core: Core) -> Core
    requires { task_count core.links ≡ 2 }
{
    let _place = core.apply(0, Event::Arrive(0));
    core
}

/// Two cores, each moved to a thread and back; on the way the first task arrives.
fn arrived_elsewhere<R: Threads + Wait + Sync>(rt: &R, one: Core, other: Core) -> (Core, Core)
    requires one { task_count one.links ≡ 2 }
    requires other { task_count other.links ≡ 2 }
{
    thread::join(rt, || arrived(one), || arrived(other))
}

/// The second task arrives.
fn second_arrives(rt: &impl Abort, core: &mut Core) -> Result<u64, CoreFault> {
    assert!(rt; core.links().len() == 2);
    core.apply(1, Event::Arrive(1))
}

/// The second task arrives, and the core is closed.
fn goes_on(rt: &impl Abort, core: &mut Core) {
    same(rt, second_arrives(rt, core), Ok(1));
    core.close_now();
}

/// What the first processor is ordered where the first task arrives, the second one moves it on, and the core is closed.
static ORDERS: [Order; 5] = [
    Order::Take { task: 0, number: 0 },
    Order::Release(0),
    Order::Take { task: 1, number: 0 },
    Order::Release(1),
    Order::Stop,
];

/// Asserts that the orders are those of a core that stayed where it was.
fn has_orders(rt: &impl Abort, core: &Core) {
    assert!(rt; core.links().processors() == 2);
    same(rt, core.orders(0), ORDERS.as_slice());
    same(rt, core.orders(1).len(), 3);
}

/// Two new cores over the same two tasks.
fn two_cores(rt: &impl Abort, alloc: Global, set: &TaskSet) -> (Core, Core)
    ensures one { task_count result.0.links ≡ 2 }
    ensures other { task_count result.1.links ≡ 2 }
{
    let one = Core::new(alloc, set).expect(rt, "memory");
    let other = Core::new(alloc, set).expect(rt, "memory");
    assert!(rt; one.links().len() == 2 && other.links().len() == 2);
    (one, other)
}

/// Both cores go on, with the orders of cores that stayed where they were.
fn both_go_on(rt: &impl Abort, one: &mut Core, other: &mut Core) {
    goes_on(rt, one);
    goes_on(rt, other);
    has_orders(rt, one);
    has_orders(rt, other);
}

/// Two cores over this set are moved to another thread and back, and go on.
fn check_moved<R: Abort + Threads + Wait + Sync>(rt: &R, alloc: Global, set: &TaskSet) {
    let (one, other) = two_cores(rt, alloc, set);
    let (mut one, mut other) = arrived_elsewhere(rt, one, other);
    both_go_on(rt, &mut one, &mut other);
}

/// A core that was moved to another thread and back goes on as one that stayed.
#[test]
fn cores_move_between_threads(rt: HostRuntime) {
    let set = two_tasks(&rt, rt.alloc());
    check_moved(&rt, rt.alloc(), &set);
}

/// How many threads post at once, and how many events each: together as many as a history may have.
const THREADS: u32 = 8;

const EACH: u32 = 2500;

/// A receipt, with the caller that got it and its event.
#[derive(Drop)]
struct Told {
    caller: u32,
    event: Event,
    receipt: Receipt,
}

/// The event that a caller posts at this number: it arrives and departs with a task of its own, and every tick has
/// another length.
fn event_of(caller: u32, number: u32) -> Event
    ensures { IsOfSystem 1 8 result }
{
    let task = caller % THREADS;
    match number % 4 {
        0 => Event::Arrive(task),
        2 => Event::Depart(task),
        _ => Event::Tick(1 + task * EACH + number % EACH),
    }
}

/// Posts a caller's events, as long as nothing is refused, and writes the receipts down.
fn post_share<R: Wait>(rt: &R, board: &Board, pass: &mut Pass, told: &Mutex<Vec<Told>>)
    requires board { pass.old.board ≡ board.now.id }
    requires tasks { (length board.now.set.tasks ≡ 8) × (board.now.set.processors ≡ 1) }
    ensures { Grown pass.old pass.new × (pass.new.eyes ≡ pass.old.eyes) }
{
    let caller = pass.caller();
    for number in 0..EACH {
        let event = event_of(caller, number);
        let Ok(receipt) = board.post(rt, pass, event) else {
            return;
        };
        let one = Told {
            caller,
            event: event_of(caller, number),
            receipt,
        };
        if told.lock(rt).push(one).is_err() {
            return;
        }
    }
}

/// Each caller posts its events, on a thread of its own.
fn post_shares<R: Threads + Wait + Sync>(
    rt: &R,
    board: &Board,
    passes: &mut Vec<Pass>,
    told: &Mutex<Vec<Told>>,
)
    requires passes { AreAllPasses board.now passes.old.items }
    requires tasks { (length board.now.set.tasks ≡ 8) × (board.now.set.processors ≡ 1) }
    ensures { AreAllPasses board.now passes.new.items }
{
    thread::for_each_mut(
        rt,
        passes.as_mut_slice(),
        THREADS as usize,
        &|_, pass: &mut Pass|
            requires { (pass.old.board ≡ board.now.id) × (length board.now.set.tasks ≡ 8)
                × (board.now.set.processors ≡ 1) }
            ensures { Grown pass.old pass.new × (pass.new.eyes ≡ pass.old.eyes) }
        { post_share(rt, board, pass, told) },
    );
}

/// Whether the receipts stand in the history, each at a place of its own, and those of each caller in their order.
fn all_stand(history: &[Entry], told: &[Told]) -> bool {
    let mut next = [0u64; 16];
    for one in told {
        let place = one.receipt.place;
        let (Some(least), Some(entry)) = (
            next.get_mut(one.caller as usize),
            history.get(place as usize),
        ) else {
            return false;
        };
        if place < *least || entry.caller != one.caller || entry.event != one.event {
            return false;
        }
        if entry.reply != one.receipt.reply {
            return false;
        }
        *least = place.saturating_add(1);
    }
    true
}

/// Adds eight tasks for one processor.
fn add_eight(rt: &impl Abort, set: &mut TaskSet) {
    let mut priority = 0u32;
    for name in ["a", "b", "c", "d", "e", "f", "g", "h"] {
        priority = priority.saturating_add(1);
        assert!(rt; set.add(name, priority, ProcSet::first(1)).is_ok());
    }
}

/// A set of these eight tasks, counted.
fn eight_tasks(rt: &impl Abort, alloc: Global) -> TaskSet
    ensures { (length result.tasks ≡ 8) × (result.processors ≡ 1) }
{
    let mut set = TaskSet::new(alloc, 1).expect(rt, "memory");
    add_eight(rt, &mut set);
    assert!(rt; set.len() == THREADS);
    assert!(rt; set.processors() == 1);
    set
}

/// A queue for eight tasks and its sender, each in a list, and its receiver.
fn one_queue(rt: &impl Abort, alloc: Global) -> (Vec<Queue>, Vec<Sender>, Receiver)
    ensures senders { result.1.items ≡ map new_sender result.0.items }
    ensures queue { result.0.items ≡ result.2.queue ∷ [] }
    ensures tasks { result.2.queue.tasks ≡ 8 }
{
    let (queue, sender, receiver) = Queue::new(alloc, THREADS).expect(rt, "memory");
    let queues = list_of_one(rt, alloc, queue);
    let senders = list_of_one(rt, alloc, sender);
    (queues, senders, receiver)
}

/// A board of eight callers over this set, with their passes.
fn callers_over(rt: &impl Abort, alloc: Global, set: &TaskSet) -> (Board, Vec<Pass>)
    requires { (length set.now.tasks ≡ 8) × (set.now.processors ≡ 1) }
    ensures passes { AreAllPasses result.0 result.1.items }
    ensures tasks { (length result.0.set.tasks ≡ 8) × (result.0.set.processors ≡ 1) }
{
    let (queues, senders, _receiver) = one_queue(rt, alloc);
    match Board::new(alloc, set, senders, queues.as_slice(), THREADS) {
        Ok(made) => made,
        Err(_unmade) => panic!(rt; "out of memory"),
    }
}

/// A board of eight callers over eight tasks, with their passes.
fn eight_callers(rt: &impl Abort, alloc: Global) -> (Board, Vec<Pass>)
    ensures passes { AreAllPasses result.0 result.1.items }
    ensures tasks { (length result.0.set.tasks ≡ 8) × (result.0.set.processors ≡ 1) }
{
    let set = eight_tasks(rt, alloc);
    callers_over(rt, alloc, &set)
}

/// All receipts of the callers were written down, and stand in the history of this core.
fn all_told(rt: &impl Abort, core: &Core, told: &[Told]) {
    assert!(rt; told.len() == 20_000 && core.history().len() == 20_000);
    assert!(rt; all_stand(core.history(), told));
}

/// All receipts stand in the history of the board's core.
fn check_told(rt: &impl Abort, board: Board, passes: Vec<Pass>, told: Mutex<Vec<Told>>)
    requires { AreAllPasses board passes.items }
{
    let Ok((core, _senders)) = board.close(passes) else {
        assert!(rt; false);
        unreachable!()
    };
    let told = told.into_inner();
    all_told(rt, &core, told.as_slice());
}

#[test]
fn eight_threads_post(rt: HostRuntime) {
    let (board, mut passes) = eight_callers(&rt, rt.alloc());
    let told = Mutex::new(Vec::new(rt.alloc()));
    post_shares(&rt, &board, &mut passes, &told);
    check_told(&rt, board, passes, told);
}
