//! The weak scheduler, by itself and beside the strong one.
//!
//! Of [`Weak`] each task looks at the processors of its own mask alone, whom it displaces is placed in turn, and no running task
//! moves aside to let another one in. [`compare`] gives both schedulers the events of an input, and writes after each event what
//! the two have linked.
#![tactic(auto)]

mod arrival;
mod comparing;
pub mod comparison;
mod departure;
pub mod laws;
mod weak;

pub use comparing::compare;
pub use comparison::Comparison;
pub use weak::Weak;
