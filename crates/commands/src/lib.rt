//! The commands that run on one thread, each from the bytes that it reads to the bytes that it writes: [`checked_text`] for `check`,
//! [`weak_text`] for `weak`, and so on. [`input_of`] and [`write_summary`] are what `large` takes of them. [`Status`] says how a call
//! ended, and [`report`] tells it.
#![tactic(auto)]

mod check;
mod chrome;
mod draw;
mod generate;
mod import;
mod import_jobs;
mod jobs;
mod jobs_schedule;
pub mod laws;
mod lost;
mod lost_chain;
mod lost_threads;
mod nested;
mod reporting;
mod show;
mod sizes;
mod status;
mod summary;
mod weak;
mod weak_jobs;
mod witness;

pub use check::checked_text;
pub use chrome::chrome_trace;
pub use draw::drawn_text;
pub use generate::{input_of, made_text};
pub use import::imported_text;
pub use import_jobs::imported_jobs_text;
pub use jobs::jobs_text;
pub use jobs_schedule::jobs_schedule_text;
pub use lost::lost_text;
pub use nested::nested_text;
pub use reporting::{exit_status, report};
pub use show::show_text;
pub use sizes::Sizes;
pub use status::{MAX_BYTES, MAX_TRACE_BYTES, Status};
pub use summary::write_summary;
pub use weak::weak_text;
pub use weak_jobs::weak_jobs_text;
