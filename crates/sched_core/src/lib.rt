//! The scheduler on one thread.
//!
//! [`Core`] keeps the history of the events that were applied to it, with the reply to each, and the orders that the
//! history gives each processor. The history is legal: each entry is the scheduler's step from the links before it to
//! the links after it. Once the core is closed it takes no further event, and the orders end.
#![tactic(auto)]

mod fault;
mod order_row;
mod order_rows;
mod scheduler;

pub use fault::CoreFault;
pub use scheduler::{Core, MAX_ENTRIES};
