//! More orders than a queue holds, for processors that have no thread: one call at a time, and by a drive.
ghost use Rattle.std.specs.Prelude.{◌≡◌, ◌∷◌, [], All, None, Some, true, length, map, slice_get};
ghost use Rattle.task_set.specs.Event.{IsOfSystem};
ghost use Rattle.order_queues.specs.Ends.{new_receiver, new_sender};
ghost use Rattle.context_slots.specs.Hands.{new_hand};
ghost use Rattle.event_history.specs.Boards.{AreEyesOf, AreFor};
ghost use Rattle.replay.specs.Driving.{IsDone};
ghost use Rattle.replay.specs.Seats.{IsSeated};
ghost use Rattle.thread_tests.specs.Fitting.{are_for-prop};

use crate::same::same;
use crate::two_processors::{
    are_contexts, context, contexts_of_two, list_of_two, two_hands, two_queues, two_tasks,
};
use context_slots::{Hand, Slots};
use event_history::{Board, Pass};
use order_queues::{Queue, Receiver, Sender};
use processor_seat::{OpenGate, Processor, Step};
use replay::drive;
use std::alloc::Global;
use std::process::Abort;
use std::sync::Wait;
use task_set::{Context, Event, TaskSet};

/// A board of one caller over two processors that have no threads.
struct Bench {
    board: Board,
    pass: Pass,
    queues: Vec<Queue>,
    slots: Slots,
    first: Processor,
    second: Processor,
    ghost tasks: { (length board.set.tasks ≡ 2) × (board.set.processors ≡ 2)
        × (slots.set.processors ≡ 2) },
    ghost pass_is: { pass.board ≡ board.id },
    ghost eyes: { AreEyesOf board.queues pass.eyes },
    ghost lanes: { queues.items ≡ board.queues },
    ghost made_for: { AreFor slots.set queues.items } by { are_for-prop slots.set queues.items },
    ghost seated: { IsSeated queues.items slots first × IsSeated queues.items slots second },
}

/// A processor that did nothing yet, with the receiving end of the queue at its number.
fn seated(queues: &[Queue], slots: &Slots, number: u8, hand: Hand, receiver: Receiver) -> Processor
    requires hand { hand ≡ new_hand slots.now.id number }
    requires receiver { receiver ≡ new_receiver receiver.queue }
    requires queue { slice_get queues.now number ≡ Some receiver.queue }
    ensures { IsSeated queues.now slots.now result }
{
    Processor::new(number, hand, receiver)
}

/// Slots and two processors that did nothing yet, with the receiving ends of the two queues.
fn two_seats(
    rt: &impl Abort,
    alloc: Global,
    set: &TaskSet,
    queues: &[Queue],
    receivers: (Receiver, Receiver),
) -> (Slots, Processor, Processor)
    requires processors { set.now.processors ≡ 2 }
    requires ends { queues.now ≡ receivers.0.queue ∷ receivers.1.queue ∷ [] }
    requires new { (receivers.0 ≡ new_receiver receivers.0.queue)
        × (receivers.1 ≡ new_receiver receivers.1.queue) }
    ensures slots { result.0.set ≡ set.now }
    ensures first { IsSeated queues.now result.0 result.1 }
    ensures second { IsSeated queues.now result.0 result.2 }
{
    let (slots, hand_0, hand_1) = two_hands(rt, alloc, set);
    let first = seated(queues, &slots, 0, hand_0, receivers.0);
    let second = seated(queues, &slots, 1, hand_1, receivers.1);
    (slots, first, second)
}

/// A board of one caller, with its pass.
fn board_of(
    rt: &impl Abort,
    alloc: Global,
    set: &TaskSet,
    senders: Vec<Sender>,
    queues: &[Queue],
) -> (Board, Pass)
    requires senders { senders.items ≡ map new_sender queues.now }
    requires one_each { length queues.now ≡ set.now.processors }
    requires tasks { AreFor set.now queues.now }
    ensures board { (result.0.set ≡ set.now) × (result.0.queues ≡ queues.now) }
    ensures pass { (result.1.board ≡ result.0.id) × AreEyesOf result.0.queues result.1.eyes }
{
    match Board::new(alloc, set, senders, queues, 1) {
        Ok((board, mut passes)) => (board, passes.pop().unwrap()),
        Err(_unmade) => panic!(rt; "out of memory"),
    }
}

/// The queue of a processor.
fn queue_of<'a>(queues: &'a [Queue], slots: &Slots, processor: &Processor) -> &'a Queue
    requires seated { IsSeated queues.now slots.now processor.now }
    requires made_for { AreFor slots.now.set queues.now }
    ensures queue { result.now ≡ processor.now.receiver.queue }
    ensures made_for { result.now.tasks ≡ length slots.now.set.tasks }
{
    &queues[processor.number() as usize]
}

/// One step of a processor.
fn step_of<R: Wait>(rt: &R, queues: &[Queue], slots: &Slots, processor: &mut Processor) -> Step
    requires seated { IsSeated queues.now slots.now processor.old }
    requires made_for { AreFor slots.now.set queues.now }
    ensures { IsSeated queues.now slots.now processor.new }
{
    let queue = queue_of(queues, slots, processor);
    processor.step(rt, queue, slots, &OpenGate)
}

/// The hand of a processor that has stopped.
fn hand_of<R: Abort + Wait>(
    rt: &R,
    queues: &[Queue],
    slots: &Slots,
    mut processor: Processor,
) -> Hand
    requires seated { IsSeated queues.now slots.now processor }
    requires made_for { AreFor slots.now.set queues.now }
    ensures { (result.slots ≡ slots.now.id) × (result.holds ≡ None) }
{
    let queue = queue_of(queues, slots, &processor);
    match processor.step(rt, queue, slots, &OpenGate) {
        Step::Stopped => {}
        _ => panic!(rt; "it did not stop"),
    }
    let (hand, _receiver) = processor.finish();
    hand
}

/// The last two of a list of processors, in their order.
fn last_two(
    rt: &impl Abort,
    queues: &[Queue],
    slots: &Slots,
    mut processors: Vec<Processor>,
) -> (Processor, Processor)
    requires { All (IsDone queues.now slots.now) processors.items }
    ensures first { IsSeated queues.now slots.now result.0 }
    ensures second { IsSeated queues.now slots.now result.1 }
{
    let (Some(second), Some(first)) = (processors.pop(), processors.pop()) else {
        panic!(rt; "no two processors")
    };
    (first, second)
}

/// Two processors after a drive of both.
fn both_driven<R: Abort + Wait>(
    rt: &R,
    board: &Board,
    pass: &mut Pass,
    queues: &[Queue],
    slots: &Slots,
    mut processors: Vec<Processor>,
) -> (Processor, Processor)
    requires board { pass.old.board ≡ board.now.id }
    requires closed { pass.old.saw_close ≡ true }
    requires eyes { AreEyesOf board.now.queues pass.old.eyes }
    requires queues { queues.now ≡ board.now.queues }
    requires tasks { AreFor slots.now.set queues.now }
    requires processors { All (IsSeated queues.now slots.now) processors.items }
    ensures board { pass.new.board ≡ board.now.id }
    ensures eyes { AreEyesOf board.now.queues pass.new.eyes }
    ensures first { IsSeated queues.now slots.now result.0 }
    ensures second { IsSeated queues.now slots.now result.1 }
{
    drive(rt, board, pass, queues, slots, &mut processors, &OpenGate);
    last_two(rt, queues, slots, processors)
}

impl Bench {
    fn new(rt: &impl Abort, alloc: Global) -> Bench {
        let set = two_tasks(rt, alloc);
        Bench::for_set(rt, alloc, &set)
    }

    /// A bench for these two tasks.
    fn for_set(rt: &impl Abort, alloc: Global, set: &TaskSet) -> Bench
        requires { (length set.now.tasks ≡ 2) × (set.now.processors ≡ 2) }
    {
        let (queues, senders, receivers) = two_queues(rt, alloc);
        Bench::over(rt, alloc, set, queues, senders, receivers)
    }

    /// A bench with these queues and their ends.
    fn over(
        rt: &impl Abort,
        alloc: Global,
        set: &TaskSet,
        queues: Vec<Queue>,
        senders: Vec<Sender>,
        receivers: (Receiver, Receiver),
    ) -> Bench
        requires set { (length set.now.tasks ≡ 2) × (set.now.processors ≡ 2) }
        requires senders { senders.items ≡ map new_sender queues.items }
        requires ends { queues.items ≡ receivers.0.queue ∷ receivers.1.queue ∷ [] }
        requires new { (receivers.0 ≡ new_receiver receivers.0.queue)
            × (receivers.1 ≡ new_receiver receivers.1.queue) }
        requires tasks { (receivers.0.queue.tasks ≡ 2) × (receivers.1.queue.tasks ≡ 2) }
    {
        let (board, pass) = board_of(rt, alloc, set, senders, &queues);
        let (slots, first, second) = two_seats(rt, alloc, set, &queues, receivers);
        Bench {
            board,
            pass,
            queues,
            slots,
            first,
            second,
        }
    }

    fn post<R: Wait + Abort>(&mut self, rt: &R, event: Event)
        requires { IsOfSystem 2 2 event }
    {
        let posted = self.board.post(rt, &mut self.pass, event).is_ok();
        assert!(rt; posted);
    }

    fn finish<R: Wait>(&mut self, rt: &R) {
        self.board.finish(rt, &mut self.pass);
    }

    fn flush<R: Wait>(&mut self, rt: &R) -> u64 {
        self.board.flush(rt, &mut self.pass, &self.queues)
    }

    fn step_first<R: Wait>(&mut self, rt: &R) -> Step {
        step_of(rt, &self.queues, &self.slots, &mut self.first)
    }

    fn step_second<R: Wait>(&mut self, rt: &R) -> Step {
        step_of(rt, &self.queues, &self.slots, &mut self.second)
    }

    /// The same after a drive of both processors.
    fn driven<R: Wait + Abort>(self, rt: &R, alloc: Global) -> Bench {
        let Bench {
            board,
            mut pass,
            queues,
            slots,
            first,
            second,
        } = self;
        assert!(rt; pass.saw_close());
        let processors = list_of_two(rt, alloc, first, second);
        let (first, second) = both_driven(rt, &board, &mut pass, &queues, &slots, processors);
        Bench {
            board,
            pass,
            queues,
            slots,
            first,
            second,
        }
    }

    /// The contexts in the end, where both processors have stopped.
    fn contexts<R: Wait + Abort>(self, rt: &R, alloc: Global) -> Vec<Context> {
        let Bench {
            board: _,
            pass: _,
            queues,
            slots,
            first,
            second,
        } = self;
        let first = hand_of(rt, &queues, &slots, first);
        let second = hand_of(rt, &queues, &slots, second);
        contexts_of_two(rt, alloc, slots, first, second)
    }
}

/// How many orders the first processor obeys one after the other, of at most 1,000, and what the next step answers.
fn obeyed<R: Wait>(rt: &R, bench: &mut Bench) -> (u32, Step) {
    let mut count = 0u32;
    for _ in 0..1000 {
        match bench.step_first(rt) {
            Step::Did(_order) => count = count.saturating_add(1),
            other => return (count, other),
        }
    }
    (count, Step::Empty)
}

/// So many orders are still owed after a flush.
fn owes<R: Wait + Abort>(rt: &R, bench: &mut Bench, orders: u64) {
    same(rt, bench.flush(rt), orders);
}

/// The first processor obeys so many orders, and then its step answers this.
fn obeys<R: Wait + Abort>(rt: &R, bench: &mut Bench, orders: u32, answer: Step) {
    same(rt, obeyed(rt, bench), (orders, answer));
}

/// The first processor gets 301 orders, of which its queue has room for 256, and two more at the close; the second one
/// gets a `Stop`.
fn fill<R: Wait + Abort>(rt: &R, bench: &mut Bench) {
    bench.post(rt, Event::Arrive(0));
    for _ in 0..300 {
        bench.post(rt, Event::Tick(1));
    }
    owes(rt, bench, 45);
    bench.finish(rt);
    owes(rt, bench, 47);
}

/// The first processor steps through the orders that are in its queue, and then through those that were owed.
fn steps_to_stop<R: Wait + Abort>(rt: &R, bench: &mut Bench) {
    obeys(rt, bench, 256, Step::Empty);
    owes(rt, bench, 0);
    obeys(rt, bench, 46, Step::Stopped);
    same(rt, bench.step_second(rt), Step::Stopped);
}

/// One task ran for 300 units, one at a time, and the other one not at all.
fn ends_as_expected<R: Wait + Abort>(rt: &R, alloc: Global, bench: Bench) {
    let made = bench.contexts(rt, alloc);
    let a = context(0, 300, 1, 0, Some(0), 13480592892487708928);
    are_contexts(rt, &made, a, context(1, 0, 0, 0, None, 1));
}

#[test]
fn orders_owed_beyond_the_queue(rt: HostRuntime) {
    let mut bench = Bench::new(&rt, rt.alloc());
    fill(&rt, &mut bench);
    steps_to_stop(&rt, &mut bench);
    ends_as_expected(&rt, rt.alloc(), bench);
}

#[test]
fn orders_owed_are_driven(rt: HostRuntime) {
    let mut bench = Bench::new(&rt, rt.alloc());
    fill(&rt, &mut bench);
    let bench = bench.driven(&rt, rt.alloc());
    ends_as_expected(&rt, rt.alloc(), bench);
}
