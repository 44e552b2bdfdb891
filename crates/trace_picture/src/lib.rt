//! The picture of a part of a recorded trace, as SVG: who ran on which processor, whom strong scheduling would have had there, and what
//! became of each task.
//!
//! [`picture_text`] draws bars that trace_bars gives. It looks at no trace.
#![tactic(auto)]

mod around;
mod lanes;
mod listing;
mod page;
mod picture;
mod rows;
mod scene;

pub use picture::picture_text;
pub use scene::Scene;
