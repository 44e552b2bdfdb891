//! Tests by the public calls of the crates with threads. It has nothing else.
#![tactic(auto)]

#[cfg(test)]
mod board_tests;
#[cfg(test)]
mod ends;
#[cfg(test)]
mod owed_orders;
#[cfg(test)]
mod picture_tests;
#[cfg(test)]
mod processor_tests;
#[cfg(test)]
mod queue_tests;
#[cfg(test)]
mod same;
#[cfg(test)]
mod slot_tests;
#[cfg(test)]
mod two_processors;
