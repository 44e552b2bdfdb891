//! Orders that go through queues to two processors, one call at a time, and on threads.
ghost use Rattle.std.specs.Prelude.{◌≡◌, ◌<◌, None, length};
ghost use Rattle.std.specs.Thread.{IsSync};
ghost use Rattle.context_slots.specs.Hands.{new_hand};
ghost use Rattle.processor_seat.specs.Stepping.{ProcessorData, IsInStep};

use crate::ends::{End, new_queue};
use crate::same::same;
use crate::two_processors::{are_contexts, context, contexts_of_two, two_hands, two_tasks};
use context_slots::{Hand, Slots};
use order_queues::Queue;
use processor_seat::{Gate, OpenGate, Processor, Step};
use std::alloc::Global;
use std::marker::Model;
use std::process::Abort;
use std::sync::Wait;
use std::sync::atomic::{AtomicU64, Ordering};
use std::thread;
use std::thread::Threads;
use task_set::{Context, Order, TaskSet};

/// A processor with its queue and the sending end.
#[derive(Drop)]
struct Seat {
    queue: Queue,
    end: End,
    processor: Processor,
}

impl Model for Seat {
    ghost Value = { ProcessorData };

    ghost view = { λ s. s.processor };

    ghost invariant = { λ s. (s.end ≡ s.queue)
        × (s.processor.receiver.queue ≡ s.queue)
        × (s.queue.tasks ≡ 2)
        × IsInStep s.processor };
}

/// What happens at a processor: an order is sent to it, or it makes a step that answers this.
#[derive(Clone, Copy)]
enum Act {
    Sends(Order),
    Steps(Step),
}

impl Seat {
    /// A processor that received nothing.
    fn new(rt: &impl Abort, alloc: Global, number: u8, hand: Hand, slots: &Slots) -> Seat
        requires hand { hand ≡ new_hand slots.now.id number }
        ensures slots { result.hand.slots ≡ slots.now.id }
    {
        let (queue, end, receiver) = new_queue(rt, alloc);
        Seat {
            queue,
            end,
            processor: Processor::new(number, hand, receiver),
        }
    }

    fn step<R: Abort + Wait>(&mut self, rt: &R, slots: &Slots, answer: Step)
        requires slots { self.old.hand.slots ≡ slots.now.id }
        requires tasks { length slots.now.set.tasks ≡ 2 }
        ensures slots { self.new.hand.slots ≡ slots.now.id }
    {
        let found = self.processor.step(rt, &self.queue, slots, &OpenGate);
        same(rt, found, answer);
    }

    fn act<R: Abort + Wait>(&mut self, rt: &R, slots: &Slots, act: Act)
        requires slots { self.old.hand.slots ≡ slots.now.id }
        requires tasks { length slots.now.set.tasks ≡ 2 }
        ensures slots { self.new.hand.slots ≡ slots.now.id }
    {
        match act {
            Act::Sends(order) => {
                same(rt, self.end.send(rt, &self.queue, order), Ok(()));
            }
            Act::Steps(answer) => self.step(rt, slots, answer),
        }
    }

    /// The hand of the processor, which has stopped, or stops by one step.
    fn into_hand<R: Abort + Wait>(self, rt: &R, slots: &Slots) -> Hand
        requires slots { self.hand.slots ≡ slots.now.id }
        requires tasks { length slots.now.set.tasks ≡ 2 }
        ensures { (result.slots ≡ slots.now.id) × (result.holds ≡ None) }
    {
        let Seat {
            queue,
            end: _,
            mut processor,
        } = self;
        match processor.step(rt, &queue, slots, &OpenGate) {
            Step::Stopped => {}
            _ => panic!(rt; "it did not stop"),
        }
        let (hand, _receiver) = processor.finish();
        hand
    }
}

/// Two processors that received nothing.
fn two_seats(
    rt: &impl Abort,
    alloc: Global,
    slots: &Slots,
    hand_0: Hand,
    hand_1: Hand,
) -> (Seat, Seat)
    requires hand_0 { hand_0 ≡ new_hand slots.now.id 0 }
    requires hand_1 { hand_1 ≡ new_hand slots.now.id 1 }
    ensures first { result.0.hand.slots ≡ slots.now.id }
    ensures second { result.1.hand.slots ≡ slots.now.id }
{
    let first = Seat::new(rt, alloc, 0, hand_0, slots);
    let second = Seat::new(rt, alloc, 1, hand_1, slots);
    (first, second)
}

/// What happens at two processors, one act after the other, each at the processor of this number.
fn act_in_turn<R: Abort + Wait>(
    rt: &R,
    slots: &Slots,
    first: &mut Seat,
    second: &mut Seat,
    acts: &[(u8, Act)],
)
    requires first { first.old.hand.slots ≡ slots.now.id }
    requires second { second.old.hand.slots ≡ slots.now.id }
    requires tasks { length slots.now.set.tasks ≡ 2 }
    ensures first { first.new.hand.slots ≡ slots.now.id }
    ensures second { second.new.hand.slots ≡ slots.now.id }
{
    for &(number, act) in acts {
        if number == 0 {
            first.act(rt, slots, act);
        } else {
            second.act(rt, slots, act);
        }
    }
}

/// The hands of two processors after these acts.
fn act_all<R: Abort + Wait>(
    rt: &R,
    slots: &Slots,
    mut first: Seat,
    mut second: Seat,
    acts: &[(u8, Act)],
) -> (Hand, Hand)
    requires first { first.hand.slots ≡ slots.now.id }
    requires second { second.hand.slots ≡ slots.now.id }
    requires tasks { length slots.now.set.tasks ≡ 2 }
    ensures hand_0 { (result.0.slots ≡ slots.now.id) × (result.0.holds ≡ None) }
    ensures hand_1 { (result.1.slots ≡ slots.now.id) × (result.1.holds ≡ None) }
{
    act_in_turn(rt, slots, &mut first, &mut second, acts);
    (first.into_hand(rt, slots), second.into_hand(rt, slots))
}

/// The contexts after two processors did these acts.
fn after_acts<R: Abort + Wait>(
    rt: &R,
    alloc: Global,
    set: &TaskSet,
    acts: &[(u8, Act)],
) -> Vec<Context>
    requires { (length set.now.tasks ≡ 2) × (set.now.processors ≡ 2) }
{
    let (slots, hand_0, hand_1) = two_hands(rt, alloc, set);
    let (first, second) = two_seats(rt, alloc, &slots, hand_0, hand_1);
    let (hand_0, hand_1) = act_all(rt, &slots, first, second, acts);
    contexts_of_two(rt, alloc, slots, hand_0, hand_1)
}

/// Two processors hand the task 0 over. The second one's take is not at its turn before the first one has the task, nor
/// while it has it.
fn hand_over() -> [(u8, Act); 18] {
    let first = Order::Take { task: 0, number: 0 };
    let second = Order::Take { task: 0, number: 1 };
    let release = Order::Release(0);
    [
        (0, Act::Steps(Step::Empty)),
        (0, Act::Sends(first)),
        (1, Act::Sends(second)),
        (1, Act::Steps(Step::NotTurn { task: 0, found: 0 })),
        (0, Act::Steps(Step::Did(first))),
        (1, Act::Steps(Step::NotTurn { task: 0, found: 1 })),
        (0, Act::Sends(Order::Run(4))),
        (0, Act::Sends(release)),
        (0, Act::Sends(Order::Stop)),
        (0, Act::Steps(Step::Did(Order::Run(4)))),
        (0, Act::Steps(Step::Did(release))),
        (1, Act::Steps(Step::Did(second))),
        (0, Act::Steps(Step::Stopped)),
        (0, Act::Steps(Step::Stopped)),
        (1, Act::Sends(release)),
        (1, Act::Sends(Order::Stop)),
        (1, Act::Steps(Step::Did(release))),
        (1, Act::Steps(Step::Stopped)),
    ]
}

#[test]
fn processors_by_calls(rt: HostRuntime) {
    let set = two_tasks(&rt, rt.alloc());
    check_hand_over(&rt, rt.alloc(), &set);
}

/// Two processors hand the task 0 over, which leaves these contexts.
fn check_hand_over<R: Abort + Wait>(rt: &R, alloc: Global, set: &TaskSet)
    requires { (length set.now.tasks ≡ 2) × (set.now.processors ≡ 2) }
{
    let made = after_acts(rt, alloc, set, &hand_over());
    let a = context(0, 4, 2, 1, Some(1), 256);
    are_contexts(rt, &made, a, context(1, 0, 0, 0, None, 1));
}

/// How often the gate yields before a take of processor 0. Meanwhile processor 1 goes to sleep.
const YIELDS_BEFORE_A_TAKE: u32 = 1_000;

/// It counts the calls before the first try of a take, and keeps processor 0 from its takes for a while.
#[derive(Drop)]
struct Takes {
    count: AtomicU64,
}

impl Gate for Takes {
    fn at(&self, who: u32, point: u32) {
        if point == 2 {
            self.count.fetch_add(1, Ordering::SeqCst);
            if who == 0 {
                yield_often();
            }
        }
    }
}

fn yield_often() {
    for _ in 0..YIELDS_BEFORE_A_TAKE {
        thread::yield_now();
    }
}

impl Seat {
    /// Sends two stints of the task 1, of which the second is two turns later, and Stop.
    fn send_two_stints<R: Abort + Wait>(&mut self, rt: &R, number: u32, units: u32)
        requires number { number < 2 }
        ensures slots { self.new.hand.slots ≡ self.old.hand.slots }
    {
        send_two_stints(rt, &self.queue, &mut self.end, number, units);
    }
}

/// Sends two stints of the task 1, of which the second is two turns later, and Stop.
fn send_two_stints<R: Abort + Wait>(rt: &R, queue: &Queue, end: &mut End, number: u32, units: u32)
    requires queue { end.old ≡ queue.now }
    requires number { number < 2 }
    ensures { end.new ≡ queue.now }
{
    let orders = [
        Order::Take { task: 1, number },
        Order::Run(units),
        Order::Release(1),
        Order::Take {
            task: 1,
            number: number + 2,
        },
        Order::Run(units),
        Order::Release(1),
        Order::Stop,
    ];
    for order in orders {
        same(rt, end.send(rt, queue, order), Ok(()));
    }
}

/// The hand of a processor that works to its end.
fn worked<R: Wait, G: Gate>(rt: &R, seat: Seat, slots: &Slots, gate: &G) -> Hand
    requires slots { seat.hand.slots ≡ slots.now.id }
    requires tasks { length slots.now.set.tasks ≡ 2 }
    ensures { (result.slots ≡ slots.now.id) × (result.holds ≡ None) }
{
    let Seat {
        queue,
        end: _,
        mut processor,
    } = seat;
    processor.work(rt, &queue, slots, gate);
    let (hand, _receiver) = processor.finish();
    hand
}

/// The hands of two processors that work to their ends, each in a thread of its own.
fn both_worked<R: Threads + Wait + Sync, G: Gate + Sync>(
    rt: &R,
    slots: &Slots,
    gate: &G,
    first: Seat,
    second: Seat,
) -> (Hand, Hand)
    requires first { first.hand.slots ≡ slots.now.id }
    requires second { second.hand.slots ≡ slots.now.id }
    requires tasks { length slots.now.set.tasks ≡ 2 }
    ensures hand_0 { (result.0.slots ≡ slots.now.id) × (result.0.holds ≡ None) }
    ensures hand_1 { (result.1.slots ≡ slots.now.id) × (result.1.holds ≡ None) }
{
    thread::join(
        rt,
        move || -> Hand
            requires { IsSync R.row × IsSync G.row × (first.hand.slots ≡ slots.now.id)
                × (length slots.now.set.tasks ≡ 2) }
            ensures { (result.slots ≡ slots.entry.now.id) × (result.holds ≡ None) }
        { worked(rt, first, slots, gate) },
        move || -> Hand
            requires { IsSync R.row × IsSync G.row × (second.hand.slots ≡ slots.now.id)
                × (length slots.now.set.tasks ≡ 2) }
            ensures { (result.slots ≡ slots.entry.now.id) × (result.holds ≡ None) }
        { worked(rt, second, slots, gate) },
    )
}

/// Two processors hand the task 1 to and fro, each in a thread of its own.
fn hand_to_and_fro<R: Abort + Threads + Wait + Sync, G: Gate + Sync>(
    rt: &R,
    slots: &Slots,
    gate: &G,
    mut first: Seat,
    mut second: Seat,
) -> (Hand, Hand)
    requires first { first.hand.slots ≡ slots.now.id }
    requires second { second.hand.slots ≡ slots.now.id }
    requires tasks { length slots.now.set.tasks ≡ 2 }
    ensures hand_0 { (result.0.slots ≡ slots.now.id) × (result.0.holds ≡ None) }
    ensures hand_1 { (result.1.slots ≡ slots.now.id) × (result.1.holds ≡ None) }
{
    first.send_two_stints(rt, 0, 3);
    second.send_two_stints(rt, 1, 5);
    both_worked(rt, slots, gate, first, second)
}

/// The contexts after two processors handed the task 1 to and fro.
fn after_to_and_fro<R: Abort + Threads + Wait + Sync, G: Gate + Sync>(
    rt: &R,
    alloc: Global,
    set: &TaskSet,
    gate: &G,
) -> Vec<Context>
    requires { (length set.now.tasks ≡ 2) × (set.now.processors ≡ 2) }
{
    let (slots, hand_0, hand_1) = two_hands(rt, alloc, set);
    let (first, second) = two_seats(rt, alloc, &slots, hand_0, hand_1);
    let (hand_0, hand_1) = hand_to_and_fro(rt, &slots, gate, first, second);
    contexts_of_two(rt, alloc, slots, hand_0, hand_1)
}

/// Whether the second context is that of a task with four stints and three moves, of 16 units, that was last on 1.
fn is_after_to_and_fro(contexts: &[Context]) -> bool {
    match contexts.get(1) {
        Some(b) => b.units == 16 && b.stints == 4 && b.moves == 3 && b.last == Some(1),
        None => false,
    }
}

#[test]
fn task_goes_to_and_fro(rt: HostRuntime) {
    let set = two_tasks(&rt, rt.alloc());
    check_to_and_fro(&rt, rt.alloc(), &set);
}

/// Two processors hand the task 1 to and fro by four takes, each of which calls the gate once.
fn check_to_and_fro<R: Abort + Threads + Wait + Sync>(rt: &R, alloc: Global, set: &TaskSet)
    requires { (length set.now.tasks ≡ 2) × (set.now.processors ≡ 2) }
{
    let gate = Takes {
        count: AtomicU64::new(0),
    };
    let contexts = after_to_and_fro(rt, alloc, set, &gate);
    same(rt, contexts.len(), 2);
    assert!(rt; is_after_to_and_fro(&contexts));
    same(rt, gate.count.load(Ordering::SeqCst), 4);
}
