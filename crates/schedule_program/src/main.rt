//! The strong APA scheduler as a program: its words are those of the command line, it reads standard input and writes to
//! standard output.
#![tactic(auto)]

use command_line::{Status, report, run};
use processor_seat::OpenGate;
use shift_io::{StdSink, StdSource};
use std::process::ExitCode;
use std::rt::Env;
use std::{env, io};

fn main(rt: HostRuntime) -> ExitCode {
    let status = match words_of(&rt) {
        Ok(words) => {
            let mut source = StdSource::new(rt.reader());
            let mut sink = StdSink::new(io::writer(&rt));
            run(&rt, rt.alloc(), &words, &mut source, &mut sink, &OpenGate)
        }
        Err(error) if error.kind() == io::ErrorKind::OutOfMemory => Status::OutOfMemory,
        Err(_) => Status::Usage,
    };
    report(&rt, status)
}

/// The words of the command line, without the program's own name. Words that are no text are an error as a whole.
fn words_of<R: Env + AllocGlobal>(rt: &R) -> io::Result<Vec<String>> {
    let words = env::args(rt)?.skip(1).collect(rt.alloc())?;
    Ok(words)
}
