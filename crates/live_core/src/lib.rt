//! The scheduler for a program that runs for long: who is linked where, the last reply, and what the last event asks for.
//!
//! [`LiveCore`] takes one event at a time. Each is the scheduler's step, after which the linked tasks are the best
//! placeable set of the ready ones. [`LiveCore::moves`] says how to get there from the links before, a [`Move`] at a time,
//! so that before each move nobody is on the processor that its task goes to. No history is kept, and any number of events
//! may come. Tasks come and go in the slots that there are from the start:
//! [`LiveCore::retire`] makes one free, and [`LiveCore::admit`] gives a free one.
#![tactic(auto)]

mod live;
mod moves;
mod seen;
mod slots;

pub use live::LiveCore;
pub use moves::Move;
pub use slots::SlotFault;
