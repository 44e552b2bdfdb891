//! Tests by the public calls of the crates without threads. It has nothing else.
#![tactic(auto)]

#[cfg(test)]
mod best_tests;
#[cfg(test)]
mod core_tests;
#[cfg(test)]
mod entry_tests;
#[cfg(test)]
mod history_tests;
#[cfg(test)]
mod link_tests;
#[cfg(test)]
mod mask_tests;
#[cfg(test)]
mod plain;
#[cfg(test)]
mod priority_tests;
#[cfg(test)]
mod same;
#[cfg(test)]
mod search_tests;
#[cfg(test)]
mod stated;
#[cfg(test)]
mod stream_tests;
#[cfg(test)]
mod task_tests;
#[cfg(test)]
mod text_tests;
