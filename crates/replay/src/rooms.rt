//! All memory of the joins, which is taken before the first start.
ghost use Rattle.std.specs.Prelude.{◌≡◌, ◌≤◌, [], length, vec_capacity, IfOk};
ghost use Rattle.replay.specs.Rooms.{AreRooms};

use crate::workers::Worker;
use affinity_mask::OutOfMemory;
use context_slots::Hand;
use processor_seat::Processor;
use std::alloc::Global;
use std::sync::atomic::AtomicBool;

/// Room for the threads of the workers and of others, and for what all of them leave.
#[derive(Drop)]
pub struct Rooms<'a, 'b, T, B> {
    pub workers: Vec<Worker<'a, 'b>>,
    pub left: Vec<Processor>,
    pub stopped: Vec<Processor>,
    pub others: Vec<T>,
    pub back: Vec<B>,
}

/// Room for so many workers and others.
pub fn make_rooms<'a, 'b, T: Drop, B: Drop>(
    alloc: Global,
    workers: usize,
    others: usize,
) -> Result<Rooms<'a, 'b, T, B>, OutOfMemory>
    ensures { IfOk result (AreRooms workers others) }
{
    Ok(Rooms {
        workers: Vec::with_capacity(alloc, workers)?,
        left: Vec::with_capacity(alloc, workers)?,
        stopped: Vec::with_capacity(alloc, workers)?,
        others: Vec::with_capacity(alloc, others)?,
        back: Vec::with_capacity(alloc, others)?,
    })
}

/// Flags that are not raised, one for each thread that is to be started.
pub fn flags(alloc: Global, count: usize) -> Result<Vec<AtomicBool>, OutOfMemory>
    ensures { IfOk result (λ flags. length flags.items ≡ count) }
{
    let mut flags = Vec::with_capacity(alloc, count)?;
    for _ in 0..count {
        flags.push_reserved(AtomicBool::new(false));
    }
    Ok(flags)
}

/// As many flags that are not raised, and room for as many hands.
pub fn flags_and_hands(
    alloc: Global,
    count: usize,
) -> Result<(Vec<AtomicBool>, Vec<Hand>), OutOfMemory>
    ensures flags { IfOk result (λ made. length made.0.items ≡ count) }
    ensures hands { IfOk result (λ made. (made.1.items ≡ []) × (count ≤ vec_capacity made.1)) }
{
    let hands = Vec::with_capacity(alloc, count)?;
    let flags = flags(alloc, count)?;
    Ok((flags, hands))
}
