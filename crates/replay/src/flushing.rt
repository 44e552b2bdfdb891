//! Flushes: orders that are owed go to the queues.
ghost use Rattle.std.specs.Prelude.{◌≡◌, ◌≢◌, ℕ, false, length};
ghost use Rattle.event_history.specs.Boards.{AreEyesOf, Grown};
ghost use Rattle.event_history.specs.Flushing.{Flushed};
ghost use Rattle.event_history.specs.Posting.{SawAll, TookTurn};

use event_history::{Board, Pass};
use order_queues::Queue;
use std::sync::Wait;
use std::thread;

/// Sends what is owed, and yields once where a queue was full. Reports whether nothing is owed any more.
pub fn flush<R: Wait>(rt: &R, board: &Board, queues: &[Queue], pass: &mut Pass) -> bool
    requires board { pass.old.board ≡ board.now.id }
    requires queues { queues.now ≡ board.now.queues }
    requires eyes { AreEyesOf board.now.queues pass.old.eyes }
    ensures grown { Grown pass.old pass.new }
    ensures mine { pass.new.mine ≡ pass.old.mine }
    ensures seen { SawAll board.now.set pass.old pass.new }
    ensures turn { TookTurn pass.old pass.new (length pass.new.seen) }
    ensures eyes { AreEyesOf board.now.queues pass.new.eyes }
    ensures owed { result ≡ false → (owed : ℕ) × (owed ≢ 0)
        × Flushed board.now.set pass.old pass.new owed }
{
    let owed = board.flush(rt, pass, queues);
    if owed > 0 {
        thread::yield_now();
    }
    owed == 0
}

/// Sends what is owed until nothing is, and wakes those to whom it was sent, who may sleep for long.
pub fn flush_all<R: Wait>(rt: &R, board: &Board, queues: &[Queue], pass: &mut Pass)
    requires board { pass.old.board ≡ board.now.id }
    requires queues { queues.now ≡ board.now.queues }
    requires eyes { AreEyesOf board.now.queues pass.old.eyes }
    ensures grown { Grown pass.old pass.new }
    ensures mine { pass.new.mine ≡ pass.old.mine }
    ensures seen { SawAll board.now.set pass.old pass.new }
    ensures turn { TookTurn pass.old pass.new (length pass.new.seen) }
    ensures eyes { AreEyesOf board.now.queues pass.new.eyes }
{
    for _ in rt.forever() {
        let done = flush(rt, board, queues, pass);
        wake_all(queues);
        if done {
            return;
        }
    }
    unreachable!()
}

/// Wakes the processors that sleep because they had no orders.
fn wake_all(queues: &[Queue]) {
    for queue in queues {
        queue.wake();
    }
}
