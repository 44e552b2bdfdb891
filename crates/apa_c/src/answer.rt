//! The numbers that calls answer.
ghost use Rattle.std.specs.Prelude.{◌≡◌};
ghost use Rattle.apa_c.specs.Stages.{answer_of, set_of, back_of, came_set, word, word_of};

use link_table::{Came, Reply};
use live_core::Move;

/// Done.
pub const DONE: u32 = 0;

/// The memory that the call needs was refused.
pub const NO_MEMORY: u32 = 1;

/// The call does not come at this stage.
pub const NOT_NOW: u32 = 2;

/// There is no such processor, or a number of processors that cannot be.
pub const NO_PROCESSOR: u32 = 3;

/// There is no such task: no slot has the number, or the slot is free.
pub const NO_TASK: u32 = 4;

/// A mask is empty, or has a processor that there is not.
pub const BAD_MASK: u32 = 5;

/// Another task has the priority.
pub const SAME_PRIORITY: u32 = 6;

/// There are 1,024 tasks.
pub const TOO_MANY: u32 = 7;

/// There is no such kind of event.
pub const NO_EVENT: u32 = 8;

/// The name that the task is stored under was refused.
pub const NO_NAME: u32 = 9;

/// The task is ready, and has to depart first.
pub const STILL_READY: u32 = 10;

/// No slot is free.
pub const NO_SLOT: u32 = 11;

/// An admission is answered by so much more than the number of the task, which tells it from a fault.
pub const FIRST_SLOT: u32 = 1024;

/// No task, no processor, or no move.
pub const NOTHING: u32 = 4294967295;

/// No processor, in the word of a move.
const NOWHERE: u16 = 65535;

/// No move, as a word.
pub const NO_MOVE: u64 = 18446744073709551615;

/// What the scheduler did.
pub fn answer_of(reply: &Reply) -> u32
    ensures { result ≡ answer_of reply.now }
{
    match reply {
        Reply::Placed { .. } => 16,
        Reply::Displaced { .. } => 17,
        Reply::Waits { .. } => 18,
        Reply::Freed { .. } => 19,
        Reply::Left => 20,
        Reply::Ticked => 21,
        Reply::AlreadyReady => 22,
        Reply::NotReady => 23,
        Reply::Masked => 24,
        Reply::Remasked { .. } => 25,
        Reply::AlreadyOff => 26,
        Reply::AlreadyOn => 27,
        Reply::Off { .. } => 28,
        Reply::On { .. } => 29,
    }
}

/// The set of processors that justifies a reply, as bits.
pub fn set_of(reply: &Reply) -> u64
    ensures { result ≡ set_of reply.now }
{
    match reply {
        Reply::Displaced { reach, .. } => reach.bits(),
        Reply::Waits { reach } => reach.bits(),
        Reply::Freed { back, .. } => back.bits(),
        Reply::Remasked { came, .. } => came_set(came),
        Reply::Off { moved: Some(moved) } => came_set(&moved.came),
        Reply::On { parts } => parts.back.bits(),
        _ => 0,
    }
}

/// The set of processors that justifies who came in at one that became free, as bits.
pub fn back_of(reply: &Reply) -> u64
    ensures { result ≡ back_of reply.now }
{
    match reply {
        Reply::Freed { back, .. } => back.bits(),
        Reply::Remasked {
            gone: Some(gone),
            ..
        } => gone.back.bits(),
        Reply::On { parts } => parts.back.bits(),
        _ => 0,
    }
}

/// The set of processors that justifies what a task came to.
fn came_set(came: &Came) -> u64
    ensures { result ≡ came_set came.now }
{
    match came {
        Came::Displaced { reach, .. } => reach.bits(),
        Came::Waits { reach } => reach.bits(),
        Came::Placed { .. } => 0,
    }
}

/// A move in one word.
pub fn word_of(step: &Move) -> u64
    ensures { result ≡ word_of (Some step.now) }
{
    match step {
        Move::Start { task, to } => word(*task, NOWHERE, *to as u16),
        Move::Shift { task, from, to } => word(*task, *from as u16, *to as u16),
        Move::Stop { task, from } => word(*task, *from as u16, NOWHERE),
    }
}

/// A task and two processors in one word.
fn word(task: u32, from: u16, to: u16) -> u64
    ensures { result ≡ word task from to }
{
    task as u64 + 4294967296 * from as u64 + 281474976710656 * to as u64
}
