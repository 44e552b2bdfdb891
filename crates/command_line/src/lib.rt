//! The commands: from the words of a call and the bytes of a source to the bytes of a sink.
//!
//! [`run`] is the top call. [`command_of`] reads the words that it is given, and [`report`] tells how the call ended. Here are also the
//! commands that run on threads: [`replayed_text`] for `run`, [`watched_text`] for `watch`, and [`summary_of`] for `large`.
#![tactic(auto)]

mod call;
mod large;
mod observers;
mod replayed;
mod watch;
mod words;

pub use call::run;
pub use commands::{Status, exit_status, report};
pub use large::summary_of;
pub use replayed::replayed_text;
pub use watch::{MAX_OBSERVERS, watched_text};
pub use words::{Command, command_of};
