//! Two tasks on two processors, with the queues and the hands of these, and their contexts.
ghost use Rattle.std.specs.Prelude.{◌≡◌, ◌∷◌, [], None, length, map};
ghost use Rattle.order_queues.specs.Ends.{new_receiver, new_sender};
ghost use Rattle.context_slots.specs.Hands.{AreAllHands, new_hand};

use crate::same::same;
use affinity_mask::ProcSet;
use context_slots::{Hand, Slots};
use order_queues::{Queue, Receiver, Sender};
use std::alloc::Global;
use std::process::Abort;
use task_set::{Context, TaskSet};

/// Adds a task that may run on both processors, and a less urgent one that may run on the first alone.
fn add_both(rt: &impl Abort, set: &mut TaskSet) {
    assert!(rt; set.add("a", 1, ProcSet::first(2)).is_ok());
    assert!(rt; set.add("b", 2, ProcSet::one(0)).is_ok());
}

/// A set of these two tasks, counted.
pub(crate) fn two_tasks(rt: &impl Abort, alloc: Global) -> TaskSet
    ensures { (length result.tasks ≡ 2) × (result.processors ≡ 2) }
{
    let mut set = TaskSet::new(alloc, 2).expect(rt, "memory");
    add_both(rt, &mut set);
    assert!(rt; set.len() == 2);
    assert!(rt; set.processors() == 2);
    set
}

/// A list of one thing.
pub(crate) fn list_of_one<T: Drop>(rt: &impl Abort, alloc: Global, only: T) -> Vec<T>
    ensures { result.items ≡ only ∷ [] }
{
    let mut one = Vec::with_capacity(alloc, 1).expect(rt, "memory");
    one.push_reserved(only);
    one
}

/// A list of two things.
pub(crate) fn list_of_two<T: Drop>(rt: &impl Abort, alloc: Global, first: T, second: T) -> Vec<T>
    ensures { result.items ≡ first ∷ second ∷ [] }
{
    let mut two = Vec::with_capacity(alloc, 2).expect(rt, "memory");
    two.push_reserved(first);
    two.push_reserved(second);
    two
}

/// Two queues for two tasks, and their ends.
pub(crate) fn two_queues(
    rt: &impl Abort,
    alloc: Global,
) -> (Vec<Queue>, Vec<Sender>, (Receiver, Receiver))
    ensures senders { result.1.items ≡ map new_sender result.0.items }
    ensures ends { result.0.items ≡ result.2.0.queue ∷ result.2.1.queue ∷ [] }
    ensures new { (result.2.0 ≡ new_receiver result.2.0.queue)
        × (result.2.1 ≡ new_receiver result.2.1.queue) }
    ensures tasks { (result.2.0.queue.tasks ≡ 2) × (result.2.1.queue.tasks ≡ 2) }
{
    let first = Queue::new(alloc, 2).expect(rt, "memory");
    let second = Queue::new(alloc, 2).expect(rt, "memory");
    in_lists(rt, alloc, first, second)
}

/// Two queues and their senders in two lists, and their receivers.
fn in_lists(
    rt: &impl Abort,
    alloc: Global,
    first: (Queue, Sender, Receiver),
    second: (Queue, Sender, Receiver),
) -> (Vec<Queue>, Vec<Sender>, (Receiver, Receiver))
    requires first { (first.1 ≡ new_sender first.0) × (first.2 ≡ new_receiver first.0)
        × (first.0.tasks ≡ 2) }
    requires second { (second.1 ≡ new_sender second.0) × (second.2 ≡ new_receiver second.0)
        × (second.0.tasks ≡ 2) }
    ensures senders { result.1.items ≡ map new_sender result.0.items }
    ensures ends { result.0.items ≡ result.2.0.queue ∷ result.2.1.queue ∷ [] }
    ensures new { (result.2.0 ≡ new_receiver result.2.0.queue)
        × (result.2.1 ≡ new_receiver result.2.1.queue) }
    ensures tasks { (result.2.0.queue.tasks ≡ 2) × (result.2.1.queue.tasks ≡ 2) }
{
    let queues = list_of_two(rt, alloc, first.0, second.0);
    let senders = list_of_two(rt, alloc, first.1, second.1);
    (queues, senders, (first.2, second.2))
}

/// Slots for two processors, with their hands.
pub(crate) fn two_hands(rt: &impl Abort, alloc: Global, set: &TaskSet) -> (Slots, Hand, Hand)
    requires { set.now.processors ≡ 2 }
    ensures slots { result.0.set ≡ set.now }
    ensures hands { (result.1 ≡ new_hand result.0.id 0) × (result.2 ≡ new_hand result.0.id 1) }
{
    let (slots, mut hands) = Slots::new(alloc, set).expect(rt, "memory");
    let hand_1 = hands.pop().unwrap();
    let hand_0 = hands.pop().unwrap();
    (slots, hand_0, hand_1)
}

/// The contexts in the end, where all hands come back.
pub(crate) fn contexts(
    rt: &impl Abort,
    alloc: Global,
    slots: Slots,
    hands: Vec<Hand>,
) -> Vec<Context>
    requires { AreAllHands slots hands.items }
{
    match slots.close(alloc, hands) {
        Ok(contexts) => contexts,
        Err(_unclosed) => panic!(rt; "out of memory"),
    }
}

/// The contexts in the end, of two hands that hold nothing.
pub(crate) fn contexts_of_two(
    rt: &impl Abort,
    alloc: Global,
    slots: Slots,
    hand_0: Hand,
    hand_1: Hand,
) -> Vec<Context>
    requires processors { slots.set.processors ≡ 2 }
    requires hand_0 { (hand_0.slots ≡ slots.id) × (hand_0.holds ≡ None) }
    requires hand_1 { (hand_1.slots ≡ slots.id) × (hand_1.holds ≡ None) }
{
    assert!(rt; hand_0.number() == 0 && hand_1.number() == 1);
    let hands = list_of_two(rt, alloc, hand_0, hand_1);
    contexts(rt, alloc, slots, hands)
}

/// The context of a task, by the numbers of its line.
pub(crate) fn context(
    task: u32,
    units: u64,
    stints: u64,
    moves: u64,
    last: Option<u8>,
    trail: u64,
) -> Context {
    Context {
        task,
        units,
        stints,
        moves,
        last,
        trail,
    }
}

/// These are the contexts of the two tasks.
pub(crate) fn are_contexts(rt: &impl Abort, contexts: &[Context], a: Context, b: Context) {
    same(rt, contexts, [a, b].as_slice());
}
