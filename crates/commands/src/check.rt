//! The check of a schedule that somebody wrote.
ghost use Rattle.std.specs.Prelude.{◌≡◌, ◌⊎◌, ◌≤◌, ◌↔◌, IsTrue, OnOk, IfOk, IfErr, length};
ghost use Rattle.commands.specs.declared.status.Status.{Status};
ghost use Rattle.commands.specs.Answers.{Answers};
ghost use Rattle.commands.specs.Valid.{IsValid, IsValidText};
ghost use Rattle.commands.specs.Check.{IsCheckOf, RefusesCheck, valid_text};
ghost use Rattle.commands.specs.Checking.{HasFollowed, IsBadEntryStatus, IsBadContextStatus, IsInvalidStatus};

use crate::status::Status;
use crate::witness::{Nobody, Witness};
use affinity_mask::OutOfMemory;
use reach_certificate::Checker;
use schedule_text::{Schedule, read_schedule};
use std::alloc::Global;
use task_set::Context;

/// The number of the defect of a context that differs, after those of an entry.
const CONTEXT_DEFECT: u8 = 5;

/// The line that reports how many entries the schedule of these bytes has, or the status that says why it is not valid.
pub fn checked_text(alloc: Global, bytes: &[u8]) -> Result<Vec<u8>, Status>
    ensures { Answers (IsCheckOf bytes.now) (IsValidText bytes.now)
        (RefusesCheck bytes.now) result }
{
    let schedule = read_schedule(alloc, bytes)?;
    judged_text(alloc, &schedule)
}

/// The line that reports how many entries a schedule has, or the status that says why it is not valid.
fn judged_text(alloc: Global, schedule: &Schedule) -> Result<Vec<u8>, Status>
    ensures reported { IfOk result (λ text.
        IsValid schedule.now × (text.items ≡ valid_text (length schedule.now.entries))) }
    ensures refused { IfErr result (λ status.
        IsInvalidStatus schedule.now status ⊎ (status ≡ Status.OutOfMemory)) }
{
    judge(alloc, schedule, &mut Nobody)?;
    let text = write_valid(alloc, schedule.entries().len())?;
    Ok(text)
}

/// Judges each entry of a schedule, shows a witness the links after it, and then judges each context. Refused with the first
/// that is wrong, or where memory is out.
pub(crate) fn judge<W: Witness>(
    alloc: Global,
    schedule: &Schedule,
    witness: &mut W,
) -> Result<(), Status>
    requires { W.has_seen schedule.now.set schedule.now.entries 0 witness.old }
    ensures valid { OnOk result (IsValid schedule.now) }
    ensures seen { OnOk result (W.has_seen schedule.now.set schedule.now.entries
        (length schedule.now.entries) witness.new) }
    ensures refused { IfErr result (λ status.
        IsInvalidStatus schedule.now status ⊎ (status ≡ Status.OutOfMemory)) }
{
    let mut checker = Checker::new(alloc, schedule.set())?;
    judge_by(&mut checker, schedule, witness)
}

/// The same by a checker that accepted no entry yet.
fn judge_by<W: Witness>(
    checker: &mut Checker,
    schedule: &Schedule,
    witness: &mut W,
) -> Result<(), Status>
    requires followed { HasFollowed schedule.now 0 checker.old }
    requires seen { W.has_seen schedule.now.set schedule.now.entries 0 witness.old }
    ensures valid { OnOk result (IsValid schedule.now) }
    ensures seen { OnOk result (W.has_seen schedule.now.set schedule.now.entries
        (length schedule.now.entries) witness.new) }
    ensures refused { IfErr result (IsInvalidStatus schedule.now) }
{
    accept_entries(checker, schedule, witness)?;
    compare_contexts(schedule, checker)
}

/// Judges each entry of a schedule, and shows the links after it. Refused with the first that is wrong.
fn accept_entries<W: Witness>(
    checker: &mut Checker,
    schedule: &Schedule,
    witness: &mut W,
) -> Result<(), Status>
    requires followed { HasFollowed schedule.now 0 checker.old }
    requires seen { W.has_seen schedule.now.set schedule.now.entries 0 witness.old }
    ensures followed { OnOk result
        (HasFollowed schedule.now (length schedule.now.entries) checker.new) }
    ensures seen { OnOk result (W.has_seen schedule.now.set schedule.now.entries
        (length schedule.now.entries) witness.new) }
    ensures refused { IfErr result (IsBadEntryStatus schedule.now) }
{
    let mut line = u64::from(schedule.set().len()) + 4;
    for entry in schedule.entries() {
        match checker.accept(entry) {
            Ok(()) => {
                witness.see(checker.links(), entry);
                line += 1;
            }
            Err(defect) => {
                return Err(Status::Invalid {
                    line,
                    defect: defect.number(),
                });
            }
        }
    }
    Ok(())
}

/// Compares the contexts of a schedule with those of a checker that accepted all its entries.
fn compare_contexts(schedule: &Schedule, checker: &Checker) -> Result<(), Status>
    requires { HasFollowed schedule.now (length schedule.now.entries) checker.now }
    ensures valid { OnOk result (IsValid schedule.now) }
    ensures refused { IfErr result (IsBadContextStatus schedule.now) }
{
    let mut line = u64::from(schedule.set().len()) + schedule.entries().len() as u64 + 5;
    for context in schedule.contexts() {
        if !is_same(checker.context(context.task), context) {
            return Err(Status::Invalid {
                line,
                defect: CONTEXT_DEFECT,
            });
        }
        line += 1;
    }
    Ok(())
}

/// Whether two contexts are the same.
fn is_same(one: &Context, other: &Context) -> bool
    ensures { IsTrue result ↔ (one.now ≡ other.now) }
{
    one == other
}

/// The line that reports how many entries a valid schedule has.
fn write_valid(alloc: Global, count: usize) -> Result<Vec<u8>, OutOfMemory>
    requires { count ≤ 20000 }
    ensures { IfOk result (λ text. text.items ≡ valid_text count) }
{
    let text = format!(in alloc; "valid {count}\n")?;
    Ok(text.into_bytes())
}
