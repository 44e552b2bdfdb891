//! The reader of a whole text.
ghost use Rattle.std.specs.Prelude.{◌≡◌, ◌≢◌, ℕ, ◌⊎◌, [], IfOk, IfErr, MatchResult};
ghost use Rattle.schedule_text.specs.Laws.{text_of_schedule};
ghost use Rattle.schedule_text.specs.Schedule.{ScheduleData, IsSchedule};
ghost use Rattle.schedule_text.specs.ScheduleFault.{IsScheduleRefused};
ghost use Rattle.schedule_text.specs.Reading.{IsOutOfMemory, IsAnswerTo};
ghost use Rattle.schedule_text.specs.declared.fault.TextKind.{TextKind};
ghost use Rattle.schedule_text.specs.declared.fault.TextKind.TheVariants.{AfterEnd};

use crate::fault::{TextFault, TextKind};
use crate::field::ended_line;
use crate::schedule::Schedule;
use crate::stage::{Reached, Stage};
use std::alloc::Global;

/// The schedule of a text, or the first line that has a fault, with its kind. The header says the version.
/// `OutOfMemory` may come in place of either.
pub fn read_schedule(alloc: Global, bytes: &[u8]) -> Result<Schedule, TextFault>
    ensures schedule { IfOk result (λ schedule. bytes.now ≡ text_of_schedule schedule) }
    ensures refused { IfErr result (λ fault. IsOutOfMemory fault.kind
        ⊎ IsScheduleRefused bytes.now fault.line fault.kind) }

    // Only `OutOfMemory` comes in place of the expected answer.
    ensures accepts { (schedule : ScheduleData) → IsSchedule schedule
        → bytes.now ≡ text_of_schedule schedule
        → MatchResult result
        (λ answer. answer ≡ schedule)
        (λ fault. IsOutOfMemory fault.kind) }
    ensures refuses { (line : ℕ) (kind : TextKind) → IsScheduleRefused bytes.now line kind
        → MatchResult result (λ schedule. ⊥)
        (λ fault. IsOutOfMemory fault.kind ⊎ ((fault.line ≡ line) × (fault.kind ≡ kind))) }
{
    read_lines(alloc, bytes)
}

/// Reads a text line by line, from the first to the last.
fn read_lines(alloc: Global, bytes: &[u8]) -> Result<Schedule, TextFault>
    ensures { IsAnswerTo bytes.now result }
{
    let mut room = Vec::new(alloc);
    let mut stage = Stage::HeaderExpected;
    let mut rest = bytes;
    let mut line = 1;
    loop {
        let Some((text, after)) = ended_line(rest) else {
            let kind = TextKind::Short;
            return Err(TextFault { line, kind });
        };
        match stage.after_line(alloc, text, &mut room) {
            Ok(Reached::Expected) => {
                rest = after;
                line += 1;
            }
            Ok(Reached::End) => return at_end(stage.into_schedule(), after, line + 1),
            Err(kind) => return Err(TextFault { line, kind }),
        }
    }
}

/// The schedule, where no byte stands after its last line.
fn at_end(schedule: Schedule, after: &[u8], line: u64) -> Result<Schedule, TextFault>
    ensures read { IfOk result (λ answer. (answer ≡ schedule) × (after.now ≡ [])) }
    ensures refused { IfErr result (λ fault. (fault.line ≡ line) × (fault.kind ≡ AfterEnd)
        × (after.now ≢ [])) }
{
    if after.is_empty() {
        Ok(schedule)
    } else {
        let kind = TextKind::AfterEnd;
        Err(TextFault { line, kind })
    }
}
