//! Searches over the chains of a state.
//!
//! [`reach`] is the set of the processors that a task reaches, and [`back_set`] the set of those from which shifts lead
//! to a processor. [`chain_to_idle`], [`chain_to`] and [`back_chain`] answer the least chain of a kind: of fewest
//! processors, and of equally many the lexicographically least. They answer `None` just where there is none. No call
//! takes memory.
//!
//! A back chain is a chain read against the shifts, so both kinds are paths in a direction: one search serves for the
//! sets, and one for the least lists. A least list is searched by levels of sets from its end, against the direction, up to
//! the first level that meets the start. The list is read from there, each time the least processor of the next level.
#![tactic(auto)]

mod backward;
mod direction;
mod ends;
mod forward;
mod least_path;
mod level_search;
mod levels;

pub use backward::{back_chain, back_set};
pub use forward::{chain_to, chain_to_idle, reach};
