//! What a replay on threads begins with.
ghost use Rattle.std.specs.Prelude.{◌≡◌, ◌≤◌, ◌<◌, ℕ, All, IfOk, length, map};
ghost use Rattle.task_set.specs.TaskSet.{IsTaskSet};
ghost use Rattle.context_slots.specs.Hands.{AreNewHands};
ghost use Rattle.order_queues.specs.Ends.{new_receiver, new_sender};
ghost use Rattle.event_history.specs.Boards.{AreAllPasses, AreFor};
ghost use Rattle.replay.specs.Seats.{AreIdle};
ghost use Rattle.replay.specs.Streams.{IsForBoard, IsUnused};
ghost use Rattle.trace_reader.specs.Input.{IsPostedOf};
ghost use Rattle.trace_reader.specs.declared.posted.Posted.{Posted};

use affinity_mask::OutOfMemory;
use context_slots::{Hand, Slots};
use event_history::{Board, Pass};
use order_queues::{Queue, Receiver, Sender};
use processor_seat::Processor;
use std::alloc::Global;
use task_set::TaskSet;
use trace_reader::Posted;

/// A board with its passes, a queue and a processor for each processor of the set, and the slots of the contexts.
#[derive(Drop)]
pub struct Beginning {
    pub board: Board,
    pub passes: Vec<Pass>,
    pub queues: Vec<Queue>,
    pub slots: Slots,
    pub processors: Vec<Processor>,
}

/// What a replay of these events begins with: board and slots are over the set, and nothing is done yet. The board has a
/// caller for each stream.
pub fn beginning_of(
    alloc: Global,
    set: &TaskSet,
    events: &[Posted],
) -> Result<Beginning, OutOfMemory>
    requires events { All (IsPostedOf set.now) events.now }
    ensures sets { IfOk result (λ made. (made.board.set ≡ set.now) × (made.slots.set ≡ set.now)) }
    ensures passes { IfOk result (λ made. AreAllPasses made.board made.passes.items) }
    ensures unused { IfOk result (λ made. All IsUnused made.passes.items) }
    ensures queues { IfOk result (λ made. made.queues.items ≡ made.board.queues) }
    ensures idle { IfOk result (λ made. AreIdle made.queues.items made.slots made.processors.items) }
    ensures events { IfOk result (λ made. All (IsForBoard made.board) events.now) }
{
    let Queues {
        queues,
        senders,
        receivers,
    } = queues_for(alloc, set)?;
    let callers = callers_of(events);
    let (board, passes) = match Board::new(alloc, set, senders, &queues, callers) {
        Ok(made) => made,
        Err(_unmade) => return Err(OutOfMemory),
    };
    let (slots, hands) = Slots::new(alloc, set)?;
    let processors = processors_of(alloc, &slots, &queues, hands, receivers)?;
    Ok(Beginning {
        board,
        passes,
        queues,
        slots,
        processors,
    })
}

/// How many callers a board needs for these events: the greatest stream plus one, and at least one.
pub fn callers_of(events: &[Posted]) -> u32
    requires { All (λ (posted : Posted). posted.stream < 16) events.now }
    ensures bounds { (1 ≤ result) × (result ≤ 16) }
    ensures above { All (λ (posted : Posted). posted.stream < result) events.now }
    ensures least { (n : ℕ) → 1 ≤ n → All (λ (posted : Posted). posted.stream < n) events.now
        → result ≤ n }
{
    let mut callers = 1;
    for posted in events {
        callers = with_stream(callers, posted.stream);
    }
    callers
}

/// So many callers, or as many as this stream needs where it needs more.
fn with_stream(callers: u32, stream: u32) -> u32
    requires stream { stream < 16 }
    requires most { callers ≤ 16 }
    ensures more { (callers ≤ result) × (result ≤ 16) }
    ensures above { stream < result }
    ensures least { (n : ℕ) → callers ≤ n → stream < n → result ≤ n }
{
    if stream < callers {
        callers
    } else {
        stream + 1
    }
}

/// The queues of all processors, in the order of their numbers, with their ends.
#[derive(Drop)]
pub struct Queues {
    pub queues: Vec<Queue>,
    pub senders: Vec<Sender>,
    pub receivers: Vec<Receiver>,
}

/// A queue for each processor of the set, for as many tasks as it has.
pub fn queues_for(alloc: Global, set: &TaskSet) -> Result<Queues, OutOfMemory>
    ensures valid { IsTaskSet set.now }
    ensures one_each { IfOk result (λ made. length made.queues.items ≡ set.now.processors) }
    ensures senders { IfOk result (λ made. made.senders.items ≡ map new_sender made.queues.items) }
    ensures receivers { IfOk result (λ made. made.receivers.items ≡ map new_receiver made.queues.items) }
    ensures tasks { IfOk result (λ made. AreFor set.now made.queues.items) }
{
    let tasks = set.len();
    let count = set.processors() as usize;
    let mut queues = Vec::with_capacity(alloc, count)?;
    let mut senders = Vec::with_capacity(alloc, count)?;
    let mut receivers = Vec::with_capacity(alloc, count)?;
    for _ in 0..count {
        let (queue, sender, receiver) = Queue::new(alloc, tasks)?;
        queues.push_reserved(queue);
        senders.push_reserved(sender);
        receivers.push_reserved(receiver);
    }
    Ok(Queues {
        queues,
        senders,
        receivers,
    })
}

/// A processor for each hand, with the receiver of its queue.
pub fn processors_of(
    alloc: Global,
    slots: &Slots,
    queues: &[Queue],
    mut hands: Vec<Hand>,
    mut receivers: Vec<Receiver>,
) -> Result<Vec<Processor>, OutOfMemory>
    requires hands { AreNewHands slots.now hands.items }
    requires receivers { receivers.items ≡ map new_receiver queues.now }
    requires one_each { length queues.now ≡ slots.now.set.processors }
    ensures { IfOk result (λ processors. AreIdle queues.now slots.now processors.items) }
{
    let mut processors = Vec::with_capacity(alloc, hands.len())?;
    while let Some(hand) = hands.pop() {
        let Some(receiver) = receivers.pop() else {
            unreachable!()
        };
        let processor = Processor::new(hand.number(), hand, receiver);
        if let Err(_full) = processors.insert(0, processor) {
            unreachable!()
        }
    }
    Ok(processors)
}
