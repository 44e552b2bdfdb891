//! The answers of a program.
ghost use Rattle.std.specs.Prelude.{◌≡◌, Some};

use affinity_mask::OutOfMemory;
use schedule_text::TextFault;
use std::fmt;
use trace_reader::InputFault;

/// The most bytes of a text that a program reads.
pub const MAX_BYTES: usize = 16_777_216;

/// The most bytes of a recorded trace, with its head, that a program reads.
pub const MAX_TRACE_BYTES: usize = 268_435_456;

/// What became of a call of a program.
#[derive(Clone, Copy, Debug, PartialEq, Eq)]
pub enum Status {
    /// The text of the answer was written whole.
    Done,
    /// The schedule that was checked is wrong: its first line with a defect, from 1, and the defect's number.
    Invalid { line: u64, defect: u8 },
    /// The words are no command.
    Usage,
    /// The input is refused: its first faulty line, from 1, and the number of the fault's kind.
    Input { line: u64, kind: u8 },
    /// The input has version 2, where version 1 is wanted.
    Version,
    /// The masks of these two tasks meet, and neither lies within the other; the tasks count from 0.
    Crossing { one: u32, other: u32 },
    /// There are more bytes than these, the most that the program reads for its words.
    TooLong { most: u64 },
    /// The source failed.
    ReadFault,
    /// The sink failed.
    WriteFault,
    /// Memory was refused, or what else the program's call answers by it.
    OutOfMemory,
}

/// The line that reports a status, without its line feed. There is none for `Done`.
impl fmt::Display for Status {
    ghost use Rattle.commands.specs.Status.{status_text};

    ghost output = { λ status. Some (status_text status) };

    fn fmt<W: fmt::Write>(&self, f: &mut fmt::Formatter<W>) -> fmt::Result {
        match *self {
            Status::Done => Ok(()),
            Status::Invalid { line, defect } => write!(f, "invalid: line {line}, defect {defect}"),
            Status::Usage => write!(
                f,
                "usage: run, check, make n p t e, large n p t e, weak, nested, jobs, watch k, import, draw [A B], steps [A B], chrome [AT], lost, weakjobs, importjobs, runjobs, show [A B]"
            ),
            Status::Input { line, kind } => write!(f, "input: line {line}, kind {kind}"),
            Status::Version => write!(f, "input: version 1 wanted"),
            Status::Crossing { one, other } => {
                write!(f, "input: tasks {one} and {other} have crossing masks")
            }
            Status::TooLong { most } => write!(f, "input: more than {most} bytes"),
            Status::ReadFault => write!(f, "read fault"),
            Status::WriteFault => write!(f, "write fault"),
            Status::OutOfMemory => write!(f, "out of memory"),
        }
    }
}

impl From<InputFault> for Status {
    ghost use Rattle.commands.specs.Status.{status_of_fault};

    ghost from_gives = { λ fault status. status ≡ status_of_fault fault };

    fn from(fault: InputFault) -> Status {
        match fault.kind.number() {
            Some(kind) => Status::Input {
                line: fault.line,
                kind,
            },
            None => Status::OutOfMemory,
        }
    }
}

impl From<TextFault> for Status {
    ghost use Rattle.commands.specs.Status.{status_of_text_fault};

    ghost from_gives = { λ fault status. status ≡ status_of_text_fault fault };

    fn from(fault: TextFault) -> Status {
        match fault.kind.number() {
            Some(kind) => Status::Input {
                line: fault.line,
                kind,
            },
            None => Status::OutOfMemory,
        }
    }
}

impl From<OutOfMemory> for Status {
    ghost use Rattle.commands.specs.declared.status.Status.TheVariants.{OutOfMemory};

    ghost from_gives = { λ _ status. status ≡ OutOfMemory };

    fn from(_refused: OutOfMemory) -> Status {
        Status::OutOfMemory
    }
}
