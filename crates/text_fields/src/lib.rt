//! What the formats have in common: texts that are read line by line, and numbers, words, names, the lines of tasks, events
//! as text, and the limits.
//!
//! A machine ([`LineMachine`]) says what the fields of a line come to, by what the lines before it said; [`read_lines`]
//! runs it over the lines of a text, and answers the value of the text or its first faulty line. What holds of the texts
//! of each machine, as that a text has one value, is proved here once ([`laws`]).
//!
//! Each writer appends the one text that specs/LineText.antt and specs/EventText.antt define. [`read_number`] accepts
//! exactly the numbers within two bounds, with leading zeros; [`task_of`] answers exactly the task that has a
//! name. Schedule texts cut their lines by themselves, and not by a machine.
#![tactic(auto)]

pub mod event;
pub mod feed;
mod fields;
pub mod kind;
pub mod laws;
pub mod limits;
pub mod line;
pub mod machine;
pub mod name;
pub mod number;
pub mod read;
pub mod word;

pub use event::write_event_text;
pub use feed::line_end;
pub use kind::{LineFault, LineKind};
pub use line::{write_processors_line, write_task_line, write_task_lines};
pub use machine::LineMachine;
pub use name::{task_of, write_name};
pub use number::{read_number, write_number};
pub use read::read_lines;
pub use word::{EventWord, event_word, is_word, is_word_of};
