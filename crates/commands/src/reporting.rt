//! How an answer is reported.
ghost use Rattle.std.specs.Prelude.{◌≡◌};
ghost use Rattle.std.specs.Process as process;
ghost use Rattle.commands.specs.Status.{exit_status_of};

use crate::status::Status;
use std::io::Eprint;
use std::process::ExitCode;

/// Writes the line of a status to standard error, where it has one, and returns what the process ends with. Where
/// standard error is closed, the exit status alone reports.
pub fn report<R: Eprint>(rt: &R, status: Status) -> ExitCode
    ensures { process.exit_status result ≡ exit_status_of status }
{
    if status != Status::Done {
        let _ = eprintln!(rt; "{status}");
    }
    ExitCode::from(exit_status(&status))
}

/// The exit status of the process.
pub fn exit_status(status: &Status) -> u8
    ensures { result ≡ exit_status_of status.now }
{
    match status {
        Status::Done => 0,
        Status::Invalid { .. } => 1,
        Status::Usage => 2,
        Status::Input { .. } | Status::Version | Status::Crossing { .. } | Status::TooLong { .. } =>
            3,
        Status::ReadFault => 4,
        Status::WriteFault => 5,
        Status::OutOfMemory => 6,
    }
}
