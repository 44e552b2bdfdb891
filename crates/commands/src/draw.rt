//! The picture of a schedule that somebody wrote.
ghost use Rattle.std.specs.Prelude.{◌≡◌, ◌⊎◌, IfOk, IfErr};
ghost use Rattle.schedule_picture.specs.Picture.{IsPicture};
ghost use Rattle.commands.specs.declared.status.Status.{Status};
ghost use Rattle.commands.specs.Answers.{Answers};
ghost use Rattle.commands.specs.Valid.{IsValid, IsValidText};
ghost use Rattle.commands.specs.Check.{RefusesCheck};
ghost use Rattle.commands.specs.Checking.{IsInvalidStatus};
ghost use Rattle.commands.specs.Draw.{IsDrawingOf};

use crate::status::Status;
use crate::witness::judged_tracks;
use schedule_picture::{Axis, Window, picture_text};
use schedule_text::{Schedule, read_schedule};
use std::alloc::Global;

/// The picture of a window of the schedule of these bytes, or the status that says why it is not valid, as a check has it.
pub fn drawn_text(
    alloc: Global,
    bytes: &[u8],
    axis: Axis,
    window: Window,
) -> Result<Vec<u8>, Status>
    ensures { Answers (IsDrawingOf axis window bytes.now) (IsValidText bytes.now)
        (RefusesCheck bytes.now) result }
{
    let schedule = read_schedule(alloc, bytes)?;
    judged_picture(alloc, &schedule, axis, window)
}

/// The picture of a window of a schedule, or the status that says why it is not valid.
fn judged_picture(
    alloc: Global,
    schedule: &Schedule,
    axis: Axis,
    window: Window,
) -> Result<Vec<u8>, Status>
    ensures drawn { IfOk result (λ text. IsValid schedule.now
        × IsPicture axis schedule.now.set schedule.now.entries window text.items) }
    ensures refused { IfErr result (λ status.
        IsInvalidStatus schedule.now status ⊎ (status ≡ Status.OutOfMemory)) }
{
    let tracks = judged_tracks(alloc, schedule)?;
    let text = picture_text(alloc, schedule, &tracks, axis, window)?;
    Ok(text)
}
