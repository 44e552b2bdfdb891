//! Sources and sinks of bytes that count their calls and their faults: the edge between the program
//! and the world.
//!
//! A call that fails has raised the count of faults of the stream that it was made on, so a caller
//! can distinguish a fault of the world from a fault of its own. `read_all` reads to the end of input
//! within a limit, and `put_all` puts every byte; both say what was taken or put at each answer, and how
//! many calls they make at most. Streams in memory fail at the calls that a test asks for, and two
//! wrappers make streams of std's readers and writers.
#![tactic(auto)]

mod calls;
mod fault_plan;
mod mem_sink;
mod mem_source;
mod sink;
mod sound_source;
mod source;
mod std_sink;
mod std_source;
mod whole;

pub use calls::Calls;
pub use mem_sink::MemSink;
pub use mem_source::MemSource;
pub use sink::Sink;
pub use sound_source::SoundSource;
pub use source::{Failed, Source};
pub use std_sink::StdSink;
pub use std_source::StdSource;
pub use whole::{ReadAllFault, put_all, read_all};
