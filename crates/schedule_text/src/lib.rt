//! Schedule texts: what was scheduled, for people and for checkers.
//!
//! [`write_schedule`] writes a task set, the history of a scheduler on it, and the contexts of the tasks, in a version of
//! the format. There is one text for each schedule: a header with the version, the tasks, a line for each entry of the
//! history with the reply and the chain or the set of processors that justifies it, and a line for each task with what it
//! has run. The second version also has masks that change, and processors that go off line and come back.
//! [`read_schedule`] reads the text of a [`Schedule`] in the version that its header says; any other text is refused with
//! the first line that has a fault, and the kind of the fault.
#![tactic(auto)]

mod entry;
pub mod fault;
mod field;
pub mod laws;
mod line;
pub mod read;
mod reply;
pub mod schedule;
mod spacing;
mod stage;
pub mod write;

pub use fault::{TextFault, TextKind};
pub use read::read_schedule;
pub use schedule::Schedule;
pub use write::write_schedule;
