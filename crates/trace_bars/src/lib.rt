//! The bars of a recorded trace: what the machine did, and beside it what strong scheduling would have done for the same readiness.
//!
//! [`bars_of`] gives the bars of a window of the trace: who ran on which processor, whom the strong scheduler links to which one, and of
//! each thread where it ran, where it waited and was lost, and where it waited rightly.
#![tactic(auto)]

mod bars;
mod layer;
mod mark;
mod sight;
mod track;
mod walk;

pub use bars::{Bars, Part, bars_of};
pub use mark::{Bar, Kind, Mark};
pub use sight::Sight;
