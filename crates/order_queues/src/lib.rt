//! Orders on their way to one processor.
//!
//! A [`Queue`] carries the orders of one processor from a [`Sender`] to a [`Receiver`], which may lie in two threads.
//! Beside it stand two words: the number of orders sent, which the sender alone writes, and the number of orders
//! received, which the receiver alone writes. The receiver looks at the first before it takes an order out. An [`Eye`]
//! looks at the second for the sender before an order goes in, so that each refusal has its cause in what one load
//! found.
//!
//! Orders go through in batches of up to four. [`lane`] has the rule of the queue, and [`count`] the rule of a word, which
//! serves both words.
#![tactic(auto)]

mod batch;
mod count;
mod lane;
mod parts;
mod queue;
mod steps;

pub use queue::{Eye, QUEUE_ROOM, Queue, Receiver, Sender, Settled, settle};
