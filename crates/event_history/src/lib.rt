//! One history that several callers extend, each in its turn.
//!
//! A [`Board`] keeps a scheduler core where threads share it, with the sender of each processor's queue. Each caller has
//! a [`Pass`], with which it posts events and sends the orders that the events gave. One word says whose turn it is: it
//! is 2c while the turn is free and the history has c entries, and 2c + 1 while a caller has the turn. Who has the turn
//! has the core and the senders, and nobody else has.
//!
//! A pass knows a beginning of the history. When all passes come back, [`Board::close`] gives the whole history, and
//! what each pass was told is so of it.
#![tactic(auto)]

mod board;
mod entering;
mod eyes;
mod fault;
mod held;
pub mod laws;
mod owed;
mod pass;
mod pass_state;
mod turn;
mod view;

pub use board::Board;
pub use fault::{EndFault, PostFault, Receipt, Unfinished, Unmade, Unread};
pub use pass::Pass;
