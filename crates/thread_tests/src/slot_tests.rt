//! A hand-over by calls, and hand-overs between threads.
ghost use Rattle.std.specs.Prelude.{◌≡◌, ℕ, ◌<◌, ◌≤◌, None, All, IfOk, length, slice_index_or};
ghost use Rattle.std.specs.Thread.{IsSync};
ghost use Rattle.context_slots.specs.Hands.{HandData, AreAllHands};

use crate::same::same;
use crate::two_processors::{
    are_contexts, context, contexts, contexts_of_two, two_hands, two_tasks,
};
use affinity_mask::{OutOfMemory, ProcSet};
use context_slots::{Hand, Slots};
use std::alloc::{AllocError, Global};
use std::process::Abort;
use std::sync::Wait;
use std::thread;
use std::thread::Threads;
use task_set::{Context, TaskSet};

/// Slots for a set, and all their hands, which are free.
fn new_slots(alloc: Global, set: &TaskSet) -> Result<(Slots, Vec<Hand>), OutOfMemory>
    ensures slots { IfOk result (λ made. made.0.set ≡ set.now) }
    ensures hands { IfOk result (λ made. AreAllHands made.0 made.1.items) }
{
    Slots::new(alloc, set)
}

/// What the hand finds at the task 0, which it does not get for the stint of this number.
fn found(rt: &impl Abort, slots: &Slots, hand: &mut Hand, number: u32) -> u64
    requires hand { (hand.old.slots ≡ slots.now.id) × (hand.old.holds ≡ None) }
    requires tasks { 0 < length slots.now.set.tasks }
    ensures { (hand.new.slots ≡ slots.now.id) × (hand.new.holds ≡ None)
        × (hand.new.number ≡ hand.old.number) }
{
    match slots.take(hand, 0, number) {
        Ok(_held) => panic!(rt; "taken out of turn"),
        Err(no) => no.found,
    }
}

/// The hand takes the task 0 at its turn, runs it and releases it.
fn take_and_run(rt: &impl Abort, slots: &Slots, hand: &mut Hand, number: u32, units: u32)
    requires hand { (hand.old.slots ≡ slots.now.id) × (hand.old.holds ≡ None) }
    requires tasks { 0 < length slots.now.set.tasks }
    ensures { (hand.new.slots ≡ slots.now.id) × (hand.new.holds ≡ None)
        × (hand.new.number ≡ hand.old.number) }
{
    let mut held = slots.take(hand, 0, number).expect(rt, "its turn");
    slots.run(hand, &mut held, units);
    slots.release(hand, held);
}

/// The first hand has the task 0 for its first stint: what the second one finds meanwhile, by a take and by a look.
fn first_stint(rt: &impl Abort, slots: &Slots, first: &mut Hand, second: &mut Hand) -> (u64, u64)
    requires first { (first.old.slots ≡ slots.now.id) × (first.old.holds ≡ None) }
    requires second { (second.old.slots ≡ slots.now.id) × (second.old.holds ≡ None) }
    requires tasks { 0 < length slots.now.set.tasks }
    ensures first { (first.new.slots ≡ slots.now.id) × (first.new.holds ≡ None)
        × (first.new.number ≡ first.old.number) }
    ensures second { (second.new.slots ≡ slots.now.id) × (second.new.holds ≡ None)
        × (second.new.number ≡ second.old.number) }
{
    let mut held = slots.take(first, 0, 0).expect(rt, "its turn");
    let out = found(rt, slots, second, 0);
    let turn = slots.turn(second, 0);
    slots.run(first, &mut held, 5);
    slots.release(first, held);
    (out, turn)
}

/// What the second hand finds after the first stint of the task 0, of which it makes the next one.
fn second_stint(rt: &impl Abort, slots: &Slots, second: &mut Hand) -> u64
    requires second { (second.old.slots ≡ slots.now.id) × (second.old.holds ≡ None) }
    requires tasks { 0 < length slots.now.set.tasks }
    ensures { (second.new.slots ≡ slots.now.id) × (second.new.holds ≡ None)
        × (second.new.number ≡ second.old.number) }
{
    let next = found(rt, slots, second, 0);
    take_and_run(rt, slots, second, 1, 2);
    next
}

/// Two processors pass task 0 from one to the other: what the second one finds, one look after the other.
fn pass_by_calls(rt: &impl Abort, slots: &Slots, first: &mut Hand, second: &mut Hand) -> [u64; 3]
    requires first { (first.old.slots ≡ slots.now.id) × (first.old.holds ≡ None) }
    requires second { (second.old.slots ≡ slots.now.id) × (second.old.holds ≡ None) }
    requires tasks { 0 < length slots.now.set.tasks }
    ensures first { (first.new.slots ≡ slots.now.id) × (first.new.holds ≡ None)
        × (first.new.number ≡ first.old.number) }
    ensures second { (second.new.slots ≡ slots.now.id) × (second.new.holds ≡ None)
        × (second.new.number ≡ second.old.number) }
{
    let (out, turn) = first_stint(rt, slots, first, second);
    let next = second_stint(rt, slots, second);
    [out, turn, next]
}

/// What two hands find as they pass task 0 on, and the contexts in the end.
fn after_passing(rt: &impl Abort, alloc: Global, set: &TaskSet) -> ([u64; 3], Vec<Context>)
    requires { (length set.now.tasks ≡ 2) × (set.now.processors ≡ 2) }
{
    let (slots, mut first, mut second) = two_hands(rt, alloc, set);
    let found = pass_by_calls(rt, &slots, &mut first, &mut second);
    (found, contexts_of_two(rt, alloc, slots, first, second))
}

#[test]
fn hand_over_by_calls(rt: HostRuntime) {
    let set = two_tasks(&rt, rt.alloc());
    check_passed(&rt, rt.alloc(), &set);
}

/// What two hands find as they pass a task of this set on, and the contexts that this leaves.
fn check_passed(rt: &impl Abort, alloc: Global, set: &TaskSet)
    requires { (length set.now.tasks ≡ 2) × (set.now.processors ≡ 2) }
{
    let (found, made) = after_passing(rt, alloc, set);
    same(rt, found, [1, 1, 2]);
    let a = context(0, 7, 2, 1, Some(1), 7381743522923083969);
    are_contexts(rt, &made, a, context(1, 0, 0, 0, None, 1));
}

/// How many tasks go round, on how many processors, and how many stints all of them make.
const TASKS: u32 = 64;

const PROCESSORS: u8 = 8;

const STINTS: u32 = 10_000;

/// A stint of the round: its task, its number, its processor, and the units that it runs.
fn stint_of_round(i: u32) -> (u32, u32, u8, u32)
    ensures { (result.0 < 64) × (result.2 < 64) }
{
    let task = i % TASKS;
    let number = i / TASKS;
    (
        task,
        number,
        ((task + number) % PROCESSORS as u32) as u8,
        i % 50,
    )
}

/// Waits for the turn of a stint and makes it.
fn make_stint<R: Wait>(rt: &R, slots: &Slots, hand: &mut Hand, task: u32, number: u32, units: u32)
    requires hand { (hand.old.slots ≡ slots.now.id) × (hand.old.holds ≡ None) }
    requires task { task < length slots.now.set.tasks }
    ensures { (hand.new.slots ≡ slots.now.id) × (hand.new.holds ≡ None)
        × (hand.new.number ≡ hand.old.number) }
{
    for _ in rt.forever() {
        match slots.take(hand, task, number) {
            Ok(mut held) => {
                slots.run(hand, &mut held, units);
                slots.release(hand, held);
                break;
            }
            Err(no) => slots.wait(rt, task, no.found),
        }
    }
}

/// Makes the stints of one processor, in the order of the round.
fn go_round<R: Wait>(rt: &R, slots: &Slots, mut hand: Hand) -> Hand
    requires hand { (hand.slots ≡ slots.now.id) × (hand.holds ≡ None) }
    requires tasks { 64 ≤ length slots.now.set.tasks }
    ensures { (result.slots ≡ slots.now.id) × (result.holds ≡ None)
        × (result.number ≡ hand.number) }
{
    for i in 0..STINTS {
        let (task, number, processor, units) = stint_of_round(i);
        if processor == hand.number() {
            make_stint(rt, slots, &mut hand, task, number, units);
        }
    }
    hand
}

/// Each hand goes round in a thread of its own, and comes back at its place.
fn each_goes_round<R: Threads + Wait + Sync>(
    rt: &R,
    slots: &Slots,
    hands: Vec<Hand>,
) -> Result<Vec<Hand>, AllocError>
    requires hands { All (λ hand. (hand.slots ≡ slots.now.id) × (hand.holds ≡ None)) hands.items }
    requires tasks { 64 ≤ length slots.now.set.tasks }
    ensures length { IfOk result (λ back. length back.items ≡ length hands.items) }
    ensures each { IfOk result (λ back. (i : ℕ) (d : HandData) → i < length hands.items
        → ((slice_index_or back.items i d).slots ≡ slots.now.id)
        × ((slice_index_or back.items i d).holds ≡ None)
        × ((slice_index_or back.items i d).number ≡ (slice_index_or hands.items i d).number)) }
{
    let round = move |hand: Hand| -> Hand
        requires { IsSync R.row × (hand.slots ≡ slots.now.id) × (hand.holds ≡ None)
            × (64 ≤ length slots.now.set.tasks) }
        ensures { (result.slots ≡ slots.entry.now.id) × (result.holds ≡ None)
            × (result.number ≡ hand.number) }
    { go_round(rt, slots, hand) };
    thread::map_vec(rt, hands, &round)
}

/// All hands go round, each in a thread of its own.
fn all_go_round<R: Threads + Wait + Sync>(
    rt: &R,
    slots: &Slots,
    hands: Vec<Hand>,
) -> Result<Vec<Hand>, AllocError>
    requires hands { AreAllHands slots.now hands.items }
    requires tasks { 64 ≤ length slots.now.set.tasks }
    ensures { IfOk result (λ back. AreAllHands slots.now back.items) }
{
    each_goes_round(rt, slots, hands)
}

/// One task more.
fn add_task(rt: &impl Abort, alloc: Global, set: &mut TaskSet, t: u32) {
    let name = format!(in alloc; "t{t}").expect(rt, "memory");
    assert!(rt; set.add(&name, t, ProcSet::first(PROCESSORS)).is_ok());
}

/// The set of the round.
fn round_set(rt: &impl Abort, alloc: Global) -> TaskSet
    ensures { length result.tasks ≡ 64 }
{
    let mut set = TaskSet::new(alloc, PROCESSORS).expect(rt, "memory");
    for t in 0..TASKS {
        add_task(rt, alloc, &mut set, t);
    }
    assert!(rt; set.len() == 64);
    set
}

/// A context of each task that did nothing.
fn fresh_contexts(rt: &impl Abort, alloc: Global) -> Vec<Context> {
    let mut contexts = Vec::new(alloc);
    for t in 0..TASKS {
        assert!(rt; contexts.push(Context::fresh(t)).is_ok());
    }
    contexts
}

/// The contexts after the round, made by one processor after the other.
fn after_round(contexts: &mut Vec<Context>) {
    for i in 0..STINTS {
        let (task, _number, processor, units) = stint_of_round(i);
        if let Some(context) = contexts.get_mut(task as usize) {
            context.took(processor);
            context.ran(processor, units);
        }
    }
}

/// The contexts after the round, made by eight threads.
fn contexts_of_round<R: Abort + Threads + Wait + Sync>(
    rt: &R,
    alloc: Global,
    set: &TaskSet,
) -> Vec<Context>
    requires { length set.now.tasks ≡ 64 }
{
    let (slots, hands) = new_slots(alloc, set).expect(rt, "memory");
    let hands = all_go_round(rt, &slots, hands).expect(rt, "memory");
    contexts(rt, alloc, slots, hands)
}

#[test]
fn eight_threads_pass_contexts_round(rt: HostRuntime) {
    let set = round_set(&rt, rt.alloc());
    check_round(&rt, rt.alloc(), &set);
}

/// Eight threads leave the contexts that one would.
fn check_round<R: Abort + Threads + Wait + Sync>(rt: &R, alloc: Global, set: &TaskSet)
    requires { length set.now.tasks ≡ 64 }
{
    let contexts = contexts_of_round(rt, alloc, set);
    let mut expected = fresh_contexts(rt, alloc);
    after_round(&mut expected);
    same(rt, contexts.as_slice(), expected.as_slice());
}
