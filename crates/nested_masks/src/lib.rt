//! A scheduler by counts, for masks that nest.
//!
//! Where of any two masks that meet one lies within the other, a set of tasks can be placed exactly where no mask holds
//! more of its tasks than it has processors. So [`Nested`] decides arrivals and departures by counts, and its linked tasks
//! are the best placeable set of the ready tasks after every event. [`replay_nested`] writes the text of such a run.
#![tactic(auto)]

mod counts;
mod crossing;
pub mod fault;
mod held_counts;
pub mod laws;
pub mod nested;
pub mod replay;
pub mod reply;

pub use fault::NestedFault;
pub use nested::Nested;
pub use replay::replay_nested;
pub use reply::NestedReply;
