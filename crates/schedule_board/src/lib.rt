//! What observers see of a history, without the turn.
//!
//! A [`Publisher`] publishes entries of a history as they come, and each [`Observer`] reads which task is linked to which
//! processor after the entries that are published then. Both are made by [`make_board`]. A reader takes no lock and never
//! waits for the publisher. Two copies of the newest [`Picture`] are kept by `left_right`: observers read one, while the
//! publisher writes the other.
//!
//! What is published stands as a list in the proofs alone. Each picture that is handed out goes with a token of no bytes,
//! which says that the published list had reached these entries.
#![tactic(auto)]

mod board;
mod chronicle;
mod occupants;
mod picture;
mod rule;
mod shown;
mod view;

pub use board::{Observer, Publisher, make_board};
pub use picture::Picture;
