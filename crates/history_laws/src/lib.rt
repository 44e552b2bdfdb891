//! What holds of every legal history of the scheduler, and of what it orders of each processor.
//!
//! The [`laws`] say that in every state an event has a step, that events have just one legal history, that the linked tasks
//! are the best placeable set after every entry of it, and that no task waits that could be shifted in. The [`order_laws`] are
//! about histories from any state in which nobody is ready: each processor can obey its orders, which are few, name tasks
//! of the state and only grow; and a task that carries its context through the stints that its history ordered has the
//! context that the history gives it.
#![tactic(auto)]

pub mod laws;
pub mod order_laws;
