//! What the scheduler does at each event.
//!
//! [`arrive`] shifts an arriving task along its least chain to an idle processor, else along its least chain to the
//! least urgent task that it reaches, where that one is less urgent, else it waits. [`depart`] takes a task from its
//! processor, and lets the most urgent waiting task in that can be shifted there. [`affinity`] changes the mask of a
//! task, which departs and comes back where it is ready. [`offline`] takes a processor off line, whose task comes back
//! elsewhere, and [`online`] puts it on line again, where it is filled as after a departure. [`reply_to`] does what an
//! event asks for. None takes memory.
#![tactic(auto)]

mod arrival;
mod departure;
mod event;
mod mask_change;
mod processor_change;

pub use arrival::arrive;
pub use departure::depart;
pub use event::reply_to;
pub use mask_change::affinity;
pub use processor_change::{offline, online};
