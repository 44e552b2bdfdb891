//! Why a task rightly waits, a checker of anybody's schedule, and what certificates are worth.
//!
//! A set of processors certifies a task where the task may run only there, and each processor of the set has a more
//! urgent task that may run only there as well. [`is_certificate`] tests a set that somebody gives, and never
//! searches for one; [`all_certified`] tests one for each waiting task.
//!
//! [`Checker`] follows a schedule entry by entry. It looks at the chain and the set that a reply gives, and searches for
//! nothing: a chain need not be the least, nor a set the smallest. It accepts an entry exactly where the reply passes,
//! else it answers the first part that fails, a [`Defect`]. After every entry the linked tasks are the best set of the
//! ready ones, whoever made the schedule.
//!
//! Where each waiting task has a certificate, the linked tasks are the best placeable set of the ready tasks: so say
//! the [`laws`], of any state, and of each state of a history whose replies pass. [`best_set`] finds the best set by a plain
//! program of its own, for tests of schedulers.
#![tactic(auto)]

mod admission;
mod certificate;
mod certified;
mod chain_rule;
mod change;
mod checker;
mod contexts;
mod defect;
mod entrant;
mod judge;
pub mod laws;
mod occupants;
mod parts;
mod search;
mod set_rule;

pub use admission::best_set;
pub use certificate::is_certificate;
pub use certified::all_certified;
pub use checker::Checker;
pub use contexts::Contexts;
pub use defect::Defect;
