//! Who is linked to which processor, and who waits for which.
//!
//! [`Links`] is the state of a scheduler: what is known of each task, which tasks are ready, and which task is linked
//! to which processor. At every moment its links are a placement: each task is on a processor of its mask that is on
//! line, no two tasks share a processor, no task has two, and only ready tasks are linked. [`Links::shift`] moves tasks
//! along a [`Chain`] of processors.
//!
//! [`WaitingTasks`] knows of each task its priority and the set of processors that it waits for, which is empty where it does
//! not wait. Its question is for the most urgent task that waits for a processor of a set.
//!
//! The definitions of the subject, states, chains and steps among them, stand in `strong_apa`.
#![tactic(auto)]

pub mod links;
mod places;
mod ranked;
mod reordering;
mod set_tree;
mod urgency;
pub mod waiting_tasks;

pub use links::Links;
pub use strong_apa::{Came, Chain, Entry, Gone, Moved, Reply};
pub use waiting_tasks::WaitingTasks;
