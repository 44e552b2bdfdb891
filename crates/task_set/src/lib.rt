//! The tasks of a scheduler: who they are, what may happen to them, what a processor is told to do with them, and what
//! each has run.
//!
//! A `TaskSet` names and numbers the tasks. It takes a task exactly where no refusal of `TaskFault` holds, and answers
//! the first one that holds. A `Context` is changed by `took` and `ran` alone, exactly as specs/Context.antt says.
//! Orders and stints are plain data, with the laws of `laws` above them.
#![tactic(auto)]

mod columns;
mod context;
mod event;
mod fault;
pub mod laws;
mod name;
mod order;
mod set;

pub use context::Context;
pub use event::Event;
pub use fault::TaskFault;
pub use order::Order;
pub use set::{MAX_TASKS, TaskSet};
