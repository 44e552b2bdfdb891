//! Jobs of tasks, from their text to the text of their finishes.
//!
//! [`read_jobs`] reads the text of a [`JobInput`]: a header with the version, the number of processors, the horizon, the tasks,
//! and the end, with comments, blank lines and further blanks where a person puts them. In version 1 the line of a task has the
//! offset, the period and the cost of its jobs; in version 2 each job has a line of its own after the tasks, with its release,
//! its cost and, where it has one, its deadline. Any other text is refused with the first line that has a fault, and the kind of
//! the fault. [`write_job_list`] writes a text of version 2.
//!
//! [`drive`] releases the jobs up to the horizon, and any [`JobScheduler`] runs them; [`drive_jobs`] is that with the strong
//! scheduler, and [`write_jobs`] writes when each job is finished.
//!
//! [`WeakHistory`] is the weak scheduler as one that jobs can be driven with. [`compare_jobs`] drives the jobs of an input with it
//! and with the strong scheduler, and writes of each job when it is finished under both and under which of them it is late.
//!
//! The [`laws`] say that a text has one input, that the jobs of a periodic task ask for what its offset, its period and its cost
//! say, that a job is finished at least its cost after its release, and that all histories which run the jobs of one input give
//! each task the same service and have one text.
#![tactic(auto)]

mod compare;
mod comparison;
mod driver;
pub mod fault;
mod figures;
mod form;
pub mod input;
mod job_list;
pub mod laws;
mod outcome;
pub mod read;
mod row;
mod run;
pub mod scheduler;
mod stage;
mod strong;
mod weak_history;
mod write;

pub use compare::compare_jobs;
pub use fault::{JobFault, JobKind};
pub use input::{Job, JobInput, JobTask, MAX_JOBS, MAX_PERIODIC_TIME, MAX_TIME};
pub use job_list::{ListedJob, write_job_list};
pub use read::read_jobs;
pub use run::{Driven, JobRun, drive, drive_jobs};
pub use scheduler::JobScheduler;
pub use strong::Strong;
pub use weak_history::WeakHistory;
pub use write::write_jobs;
