//! Contexts that go from processor to processor, each by its own turn word.
//!
//! A task is taken by one compare and exchange that finds its word at 2k, the turn of its stint with number k, and is
//! put home by one store. In between exactly one processor holds its context. The stints that the processors' hands
//! ended say, at the end, what each context is.
#![tactic(auto)]

mod hand;
mod hand_seat;
mod held;
mod making;
mod slots;
mod turn_words;
mod view;

pub use hand::Hand;
pub use held::{Held, NotTurn};
pub use slots::{Slots, Unclosed};
pub use view::OpenStint;
