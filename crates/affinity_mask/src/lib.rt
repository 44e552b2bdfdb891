//! Affinity masks: sets of the processors 0 to 63, each in one word.
//!
//! Contracts see a set as the number whose ones stand at its members, so equal sets are equal values. Each call says
//! of every number whether it is in the result, or gives the set as a whole. A text is read as a processor list exactly
//! where it is one, else its first fault is answered; each set is written as its one canonical list.
#![tactic(auto)]

mod canonical_list;
pub mod laws;
mod list_reader;
mod list_writer;
mod mask_fault;
mod number;
mod out_of_memory;
mod proc_set;

pub use mask_fault::MaskFault;
pub use out_of_memory::OutOfMemory;
pub use proc_set::ProcSet;
