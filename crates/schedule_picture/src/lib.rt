//! Pictures of schedules: what each processor and each task did.
//!
//! A [`Tracker`] sees the links after each entry of a schedule, from whoever judges these. Each [`Track`] that it has in the end
//! has the spans of one processor or one task, each that there is, once, in order. [`picture_text`] draws a window of them as
//! SVG, over units of time or with a column for each entry. [`chrome_text`] gives the stays as a trace in Chrome's format.
#![tactic(auto)]

mod around;
mod assembly;
pub mod axis;
mod chrome;
mod colours;
mod groups;
mod listing;
mod page;
mod picture;
mod rows;
mod sheet;
pub mod span;
pub mod track;
pub mod tracker;
pub mod tracks;
pub mod window;

pub use axis::Axis;
pub use chrome::{LAST_START, chrome_text};
pub use picture::picture_text;
pub use span::{Seen, Span};
pub use track::Track;
pub use tracker::Tracker;
pub use tracks::Tracks;
pub use window::Window;
