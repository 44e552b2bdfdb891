//! A processor: it obeys the orders that it receives, in their order.
//!
//! A [`Processor`] has a hand of its own and the receiving end of a queue. What it obeyed is read off its hand: the stints
//! that the hand ended, and the one that it runs. A processor that steps or works is in step: what it obeyed, then the
//! order that it could not obey yet, then `Stop`, is what it received. A task's context goes from one processor to the
//! next by its turn word, so a `Take` that comes before its turn waits, and the orders after it too.
//!
//! [`Gate`] is a hook for tests.
#![tactic(auto)]

mod answer;
mod gate;
mod processor;
mod waiting;
mod working_hand;

pub use answer::{Obeyed, Step};
pub use gate::{Gate, OpenGate};
pub use processor::Processor;
