//! What the field looks for in strong APA scheduling, as theorems: the best set and its urgent part, work that is conserved,
//! isolation, predictability, orders that never wait in a circle, and one end of all merges. [`laws`] has them.
#![tactic(auto)]

pub mod laws;
