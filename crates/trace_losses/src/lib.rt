//! What the kernel did beside the best set: for each task how many moments it was ready, ran, and was lost.
//!
//! A task is lost at a moment where it is in the best set and runs nowhere. [`losses_of`] says of each task of a trace how long it
//! was lost, and who ran meanwhile. A [`Tally`] goes on by stretches of equal moments, and its numbers are those of the moments one
//! by one: how many there are of each kind, and the longest stretch of lost moments.
#![tactic(auto)]

mod ahead;
mod backward;
mod beside;
mod book;
mod chains;
mod count;
mod former;
mod job;
mod jumps;
pub mod laws;
mod loss;
mod runners;
mod seen;
mod tally;
mod walk;
mod watch;

pub use backward::{Trail, trail_of};
pub use beside::Beside;
pub use book::Book;
pub use chains::{ChainStep, chain_at};
pub use former::Former;
pub use job::{TraceJob, TraceJobs, jobs_of};
pub use loss::{Loss, Losses, losses_of};
pub use runners::Runners;
pub use seen::Seen;
pub use tally::{Stretch, Tally};
pub use watch::{StretchWatch, most};
