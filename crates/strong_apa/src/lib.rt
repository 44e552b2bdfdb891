//! Strong APA scheduling: what a scheduler replies, what the right reply is, and why replies that pass keep the best set linked.
//!
//! A [`Reply`] says what the scheduler did, with the [`Chain`] of processors along which tasks were shifted or the set of
//! processors that justifies it. Its parts are [`Came`], the result of an arrival, [`Gone`], who came in at a processor that
//! became idle, and [`Moved`], what became of a task that had to leave its processor. An [`Entry`] is an event with its caller
//! and its reply. These are plain data, and the only code here.
//!
//! All else is definitions, for every crate above: states, placements and the best set, chains and least chains, the
//! scheduler's step, legal histories, certificates, replies that pass, and what a history orders of each processor. A set of
//! processors certifies that a task rightly waits where the task may run only there, and each processor of the set has a
//! more urgent task that may run only there as well. Where each waiting task has a certificate, the linked tasks are the
//! best placeable set of the ready tasks. A reply passes where its chain and its set are what it says of them, whoever
//! gave it; a chain need not be the least, nor a set the smallest.
//!
//! The [`laws`] say that a step is unique and keeps a state, and the [`passing_laws`] that a reply that passes leaves each
//! waiting task with a certificate, and that each step of the scheduler passes.
#![tactic(auto)]

pub mod chain;
pub mod laws;
pub mod passing_laws;
pub mod reply;

pub use chain::Chain;
pub use reply::{Came, Entry, Gone, Moved, Reply};
