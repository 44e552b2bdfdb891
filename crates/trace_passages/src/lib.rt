//! What the used lines of a trace of the Linux scheduler say, one after another.
//!
//! Threads have numbers. Those of the tasks come first, in the order of the tasks; those of other threads that are told apart follow.
//! A thread without a number is left out.
#![tactic(auto)]

mod passage;
mod turn;

pub use passage::{Passage, Readiness};
pub use turn::Turn;
