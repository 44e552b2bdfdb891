//! The trace in Chrome's format of a schedule that somebody wrote.
ghost use Rattle.std.specs.Prelude.{◌≡◌, ◌≤◌, ◌⊎◌, IfOk, IfErr};
ghost use Rattle.schedule_picture.specs.Chrome.{IsChrome};
ghost use Rattle.commands.specs.declared.status.Status.{Status};
ghost use Rattle.commands.specs.Answers.{Answers};
ghost use Rattle.commands.specs.Valid.{IsValid, IsValidText};
ghost use Rattle.commands.specs.Check.{RefusesCheck};
ghost use Rattle.commands.specs.Checking.{IsInvalidStatus};
ghost use Rattle.commands.specs.Chrome.{IsChromeOf};

use crate::status::Status;
use crate::witness::judged_tracks;
use schedule_picture::chrome_text;
use schedule_text::{Schedule, read_schedule};
use std::alloc::Global;

/// The trace in Chrome's format of the schedule of these bytes, which begins at the moment `start`, or the status that says why
/// it is not valid, as a check has it.
pub fn chrome_trace(alloc: Global, bytes: &[u8], start: u64) -> Result<Vec<u8>, Status>
    requires { start ≤ 9007199254740991 }
    ensures { Answers (IsChromeOf start bytes.now) (IsValidText bytes.now)
        (RefusesCheck bytes.now) result }
{
    let schedule = read_schedule(alloc, bytes)?;
    judged_trace(alloc, &schedule, start)
}

/// The trace of a schedule, or the status that says why it is not valid.
fn judged_trace(alloc: Global, schedule: &Schedule, start: u64) -> Result<Vec<u8>, Status>
    requires { start ≤ 9007199254740991 }
    ensures traced { IfOk result (λ text. IsValid schedule.now
        × IsChrome start schedule.now.set schedule.now.entries text.items) }
    ensures refused { IfErr result (λ status.
        IsInvalidStatus schedule.now status ⊎ (status ≡ Status.OutOfMemory)) }
{
    let tracks = judged_tracks(alloc, schedule)?;
    let text = chrome_text(alloc, schedule, &tracks, start)?;
    Ok(text)
}
