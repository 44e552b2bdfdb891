//! The replay of an input's events on threads, from a task set and its events to one history and the contexts.
//!
//! [`schedule_of`] makes a queue and a processor for each processor of the set, a board over the set and the slots of the
//! contexts. It starts a worker thread for each processor and a thread for each stream that has events. The streams post to
//! the board; the orders go through a queue to each worker; the workers hand the contexts of the tasks to each other. What
//! comes back is one closed core, whose legal history is a merge of the events, and the contexts that the workers carried.
//! Its steps are for callers that have a board and slots of their own, too: [`beginning_of`] makes the parts, [`replay`] runs
//! the threads over them, and [`carried_contexts`] closes the slots.
//!
//! [`watched_schedule_of`] does the same with observers beside it: its caller posts all events in their order, and publishes
//! each entry on a board that the observers read meanwhile, each on a thread of its own, without a turn.
//!
//! [`drive`] does the work of processors that have no thread. The [`laws`] say what a history has of the events that it
//! merges.
#![tactic(auto)]

mod driving;
mod ends;
mod flushing;
pub mod laws;
mod making;
mod observing;
mod on_threads;
mod posting;
mod rooms;
mod schedule;
mod shared;
mod sighting;
mod streams;
mod telling;
mod watched_threads;
mod watching;
mod workers;

pub use driving::drive;
pub use making::{Beginning, beginning_of};
pub use on_threads::{Replayed, replay};
pub use schedule::{Schedule, carried_contexts, schedule_of};
pub use sighting::Sighting;
pub use watching::{Watched, watched_schedule_of};
