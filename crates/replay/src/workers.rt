//! The worker threads: one for each processor.
//!
//! A worker gets its processor by value and gives it back when it is joined, so what a processor did is known from its
//! value alone. Where no thread can be started, the processor comes back at once, and the caller steps it.
ghost use Rattle.std.specs.Prelude.{◌≡◌, ◌≤◌, ◌<◌, ◌+◌, [], ◌∷◌, None, Some, IfSome, length, vec_capacity, MatchResult};
ghost use Rattle.event_history.specs.Boards.{AreFor};
ghost use Rattle.replay.specs.Crew.{IsCrew};
ghost use Rattle.replay.specs.Places.{AllFrom};
ghost use Rattle.replay.specs.Seats.{IsSeated, IsSeatedAt, HasStoppedAt, IsIdleAt, AreIdle};
ghost use Rattle.replay.specs.Sharing.{IsShared};

use crate::shared::Shared;
use context_slots::Slots;
use order_queues::Queue;
use processor_seat::{Gate, Processor};
use std::sync::Wait;
use std::sync::atomic::AtomicBool;
use std::sync::atomic::Ordering::SeqCst;
use std::thread::{Promise, PromisedHandle, Scope, Threads};

/// What a worker's thread gives back: the processor of this number, of these queues and slots, in step.
#[derive(Clone, Copy)]
pub struct WorkOf<'a, 'b> {
    queues: &'a [Queue],
    slots: &'b Slots,
    number: u8,
}

impl<'a, 'b> Promise<Processor> for WorkOf<'a, 'b> {
    ghost kept_by = { λ p processor. IsSeatedAt p.queues.now p.slots.now p.number processor };
}

/// The thread of a processor.
type WorkerThread<'a, 'b> = PromisedHandle<Processor, WorkOf<'a, 'b>>;

/// The thread of a processor, if it has one. Where none could be started, the processor is with the caller.
pub type Worker<'a, 'b> = Option<WorkerThread<'a, 'b>>;

/// The queue of a processor.
pub fn queue_of<'a>(queues: &'a [Queue], slots: &Slots, processor: &Processor) -> &'a Queue
    requires seat { IsSeated queues.now slots.now processor.now }
    requires tasks { AreFor slots.now.set queues.now }
    ensures queue { result.now ≡ processor.now.receiver.queue }
    ensures made_for { result.now.tasks ≡ length slots.now.set.tasks }
{
    &queues[processor.number() as usize]
}

/// Works a processor until it has received `Stop`.
fn work<R: Wait, G: Gate>(
    rt: &R,
    queues: &[Queue],
    slots: &Slots,
    gate: &G,
    mut processor: Processor,
) -> Processor
    requires seat { IsSeated queues.now slots.now processor }
    requires tasks { AreFor slots.now.set queues.now }
    ensures { HasStoppedAt queues.now slots.now processor.hand.number result }
{
    let queue = queue_of(queues, slots, &processor);
    processor.work(rt, queue, slots, gate);
    processor
}

/// Works a processor until it has received `Stop`, unless the flag is raised, which only a refused start does.
fn work_unless<R: Wait, G: Gate>(
    rt: &R,
    queues: &[Queue],
    slots: &Slots,
    gate: &G,
    refused: &AtomicBool,
    processor: Processor,
) -> Processor
    requires seat { IsSeated queues.now slots.now processor }
    requires tasks { AreFor slots.now.set queues.now }
    ensures { IsSeatedAt queues.now slots.now processor.hand.number result }
{
    if refused.load(SeqCst) {
        return processor;
    }
    work(rt, queues, slots, gate, processor)
}

/// Starts a worker. Where no thread can be started, the flag is raised, so that the closure that comes back gives the
/// processor at once.
fn start<'s, 'a: 's, 'b: 's, E, R: Threads + Wait + Sync, G: Gate + Sync>(
    scope: &Scope<'s, E>,
    shared: &Shared<'a, 'b, R, G>,
    refused: &'s AtomicBool,
    processor: Processor,
) -> Result<WorkerThread<'a, 'b>, Processor>
    requires shared { IsShared shared.now }
    requires seat { IsSeated shared.now.queues.now shared.now.slots.now processor }
    ensures { MatchResult result
        (λ h. (h.promise.queues.now ≡ shared.entry.now.queues.now)
        × (h.promise.slots.now ≡ shared.entry.now.slots.now)
        × (h.promise.number ≡ processor.hand.number))
        (IsSeatedAt shared.entry.now.queues.now shared.entry.now.slots.now processor.hand.number) }
{
    let promise = WorkOf {
        queues: shared.queues,
        slots: shared.slots,
        number: processor.number(),
    };
    let (rt, gate) = (shared.rt, shared.gate);
    let (queues, slots) = (shared.queues, shared.slots);
    match scope.spawn_with(
        promise,
        move || work_unless(rt, queues, slots, gate, refused, processor),
    ) {
        Ok(worker) => Ok(worker),
        Err(back) => {
            refused.store(true, SeqCst);
            Err((back.value)())
        }
    }
}

/// Puts a worker that was started before the others; a processor that came back before those that are left.
fn put_first<'a, 'b>(
    started: Result<WorkerThread<'a, 'b>, Processor>,
    workers: &mut Vec<Worker<'a, 'b>>,
    left: &mut Vec<Processor>,
)
    requires workers { length workers.old.items < vec_capacity workers.old }
    requires left { length left.old.items < vec_capacity left.old }
    ensures put { MatchResult started.entry
        (λ h. (workers.new.items ≡ Some h ∷ workers.old.items) × (left.new.items ≡ left.old.items))
        (λ p. (workers.new.items ≡ None ∷ workers.old.items) × (left.new.items ≡ p ∷ left.old.items)) }
    ensures count { (length workers.new.items ≡ length workers.old.items + 1)
        × (length left.new.items ≤ length left.old.items + 1) }
    ensures room { (vec_capacity workers.old ≤ vec_capacity workers.new)
        × (vec_capacity left.old ≤ vec_capacity left.new) }
{
    let worker = match started {
        Ok(thread) => Some(thread),
        Err(processor) => {
            if let Err(_full) = left.insert(0, processor) {
                unreachable!()
            }
            None
        }
    };
    if let Err(_full) = workers.insert(0, worker) {
        unreachable!()
    }
}

/// Starts a worker for each processor, from the last on, and gives them in the order of their processors, and those
/// processors for which no thread could be started, in their order.
pub fn start_all<'s, 'a: 's, 'b: 's, E, R: Threads + Wait + Sync, G: Gate + Sync>(
    scope: &Scope<'s, E>,
    shared: &Shared<'a, 'b, R, G>,
    mut processors: Vec<Processor>,
    mut workers: Vec<Worker<'a, 'b>>,
    mut left: Vec<Processor>,
) -> (Vec<Worker<'a, 'b>>, Vec<Processor>)
    requires shared { IsShared shared.now }
    requires idle { AreIdle shared.now.queues.now shared.now.slots.now processors.items }
    requires room { (workers.items ≡ []) × (length shared.now.queues.now ≤ vec_capacity workers) }
    requires left { (left.items ≡ []) × (length shared.now.queues.now ≤ vec_capacity left) }
    ensures count { length result.0.items ≡ length shared.entry.now.queues.now }
    ensures crew { IsCrew
        (λ n h. (h.promise.queues.now ≡ shared.entry.now.queues.now)
        × (h.promise.slots.now ≡ shared.entry.now.slots.now) × (h.promise.number ≡ n))
        (IsSeatedAt shared.entry.now.queues.now shared.entry.now.slots.now)
        0 result.0.items result.1.items }
{
    while let Some(processor) = processors.pop() {
        let flag = &shared.refused[processors.len()];
        let started = start(scope, shared, flag, processor);
        put_first(started, &mut workers, &mut left);
    }
    (workers, left)
}

/// Joins a worker's thread, and works its processor to the end, which a worker that was not refused has done.
fn join<'a, 'b, R: Threads + Wait, G: Gate>(
    shared: &Shared<R, G>,
    thread: WorkerThread<'a, 'b>,
) -> Processor
    requires shared { IsShared shared.now }
    requires thread { (thread.promise.queues.now ≡ shared.now.queues.now)
        × (thread.promise.slots.now ≡ shared.now.slots.now) }
    ensures { HasStoppedAt shared.now.queues.now shared.now.slots.now
        thread.entry.promise.number result }
{
    let processor = thread.join(shared.rt);
    work(
        shared.rt,
        shared.queues,
        shared.slots,
        shared.gate,
        processor,
    )
}

/// The processor of the last worker, which is joined; or the last of those that are left, where it has no thread. None
/// where there is no worker.
fn end_last<'a, 'b, R: Threads + Wait, G: Gate>(
    shared: &Shared<R, G>,
    workers: &mut Vec<Worker<'a, 'b>>,
    left: &mut Vec<Processor>,
) -> Option<Processor>
    requires shared { IsShared shared.now }
    requires crew { IsCrew
        (λ n h. (h.promise.queues.now ≡ shared.now.queues.now)
        × (h.promise.slots.now ≡ shared.now.slots.now) × (h.promise.number ≡ n))
        (HasStoppedAt shared.now.queues.now shared.now.slots.now) 0 workers.old.items left.old.items }
    ensures crew { IsCrew
        (λ n h. (h.promise.queues.now ≡ shared.now.queues.now)
        × (h.promise.slots.now ≡ shared.now.slots.now) × (h.promise.number ≡ n))
        (HasStoppedAt shared.now.queues.now shared.now.slots.now) 0 workers.new.items left.new.items }
    ensures last { IfSome result
        (λ p. (length workers.old.items ≡ length workers.new.items + 1)
        × HasStoppedAt shared.now.queues.now shared.now.slots.now (length workers.new.items) p) }
    ensures none { result ≡ None → workers.old.items ≡ [] }
{
    let Some(worker) = workers.pop() else {
        return None;
    };
    match worker {
        Some(thread) => Some(join(shared, thread)),
        None => match left.pop() {
            Some(processor) => Some(processor),
            None => unreachable!(),
        },
    }
}

/// Joins all workers, from the last on, and gives all processors in their order, those that were left among them.
pub fn join_all<'a, 'b, R: Threads + Wait, G: Gate>(
    shared: &Shared<R, G>,
    mut workers: Vec<Worker<'a, 'b>>,
    mut left: Vec<Processor>,
    mut processors: Vec<Processor>,
) -> Vec<Processor>
    requires shared { IsShared shared.now }
    requires crew { IsCrew
        (λ n h. (h.promise.queues.now ≡ shared.now.queues.now)
        × (h.promise.slots.now ≡ shared.now.slots.now) × (h.promise.number ≡ n))
        (HasStoppedAt shared.now.queues.now shared.now.slots.now) 0 workers.items left.items }
    requires room { (processors.items ≡ []) × (length workers.items ≤ vec_capacity processors) }
    ensures count { length result.items ≡ length workers.entry.items }
    ensures each { AllFrom (HasStoppedAt shared.now.queues.now shared.now.slots.now) 0 result.items }
{
    while let Some(processor) = end_last(shared, &mut workers, &mut left) {
        if let Err(_full) = processors.insert(0, processor) {
            unreachable!()
        }
    }
    processors
}
