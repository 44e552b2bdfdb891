//! How a processor waits when it cannot go on.
//!
//! It yields once first: what it waits for may be near, and a yield costs less than a sleep. When the yield was in vain it
//! sleeps, so that it leaves its hardware thread to others. What ends the sleep depends on what it waits for. A release
//! wakes those who sleep for the turn of its task. An order wakes nobody, since that would cost a sender many times what it
//! costs to send the order; so a processor without orders looks again after a nap, unless who sends no more wakes it before.
ghost use Rattle.std.specs.Prelude.{◌<◌, length};

use context_slots::Slots;
use order_queues::{Queue, Receiver};
use std::sync::Wait;
use std::thread;
use std::time::Duration;

/// How often in a row a processor yields before it sleeps. More of them make no run shorter: with four of them a run on 64
/// processors took 4 percent longer.
const YIELDS: u32 = 1;

/// The first nap of a processor without orders, in microseconds. Meanwhile its queue takes the orders of many events. A
/// shorter one costs more, and ends no run earlier, since the last orders wake all who nap.
const SHORTEST_NAP: u64 = 800;

/// Each nap in a row is twice as long as the one before, up to this many microseconds. So a processor that is idle for long
/// costs little, also where there are many; an order after a long pause waits for the end of a nap.
const LONGEST_NAP: u64 = 1_600;

/// How a processor that could not go on waits next.
#[derive(Drop)]
pub struct Patience {
    yields: u32,
    nap: u64,
}

impl Patience {
    /// The processor did not wait yet.
    pub fn new() -> Patience {
        Patience {
            yields: 0,
            nap: SHORTEST_NAP,
        }
    }

    /// The processor went on: when it waits again, it begins with the yields.
    pub fn renew(&mut self) {
        *self = Patience::new();
    }

    /// Waits for an order.
    pub fn wait_for_order<R: Wait>(&mut self, rt: &R, queue: &Queue, receiver: &Receiver) {
        if !self.yielded() {
            receiver.wait(rt, queue, Duration::from_micros(self.nap));
            self.nap = self.nap.saturating_mul(2).min(LONGEST_NAP);
        }
    }

    /// Waits for another turn of the task than the one that was found.
    pub fn wait_for_turn<R: Wait>(&mut self, rt: &R, slots: &Slots, task: u32, found: u64)
        requires { task < length slots.now.set.tasks }
    {
        if !self.yielded() {
            slots.wait(rt, task, found);
        }
    }

    /// Yields, unless it did so often enough.
    fn yielded(&mut self) -> bool {
        let more = self.yields < YIELDS;
        if more {
            self.yields += 1;
            thread::yield_now();
        }
        more
    }
}
