//! Traces of the Linux scheduler, which become inputs, or passages of tasks.
//!
//! [`read_trace`] reads a head, with tasks and their thread ids, and after it the lines that `ftrace` or `trace-cmd` printed. The
//! input has an arrival or a departure where a line changes whether a task is ready, and ticks for the time between. Any other
//! text is refused with the first line that has a fault, and the kind of the fault. [`read_task_trace`] reads the same text, and keeps
//! of each used line what it says of tasks. [`write_losses`] writes what was counted of them, and [`write_stamp`] a time of the trace.
#![tactic(auto)]

pub mod change;
pub mod course;
mod digits;
pub mod event;
pub mod fault;
mod fields;
mod key;
pub mod laws;
pub mod loss_text;
mod processor;
pub mod read;
mod stage;
pub mod stamp;
pub mod stamp_text;
mod survey;
pub mod task_change;
mod task_stage;
pub mod task_trace;
pub mod unlisted;

pub use fault::{TraceFault, TraceKind};
pub use loss_text::{ChainRow, LossEnd, LossRow, StepRow, ThreadRow, write_losses};
pub use read::read_trace;
pub use stamp_text::write_stamp;
pub use task_trace::{TaskTrace, read_task_trace};
