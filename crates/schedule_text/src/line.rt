//! The lines of tasks and of contexts.
ghost use Rattle.std.specs.Prelude.{◌≡◌, ℕ, ◌<◌, ◌⊎◌, ◌++◌, ◌↔◌, IsTrue, IfOk, IfErr, OnOk, MatchBool, MatchOption, Option, length};
ghost use Rattle.task_set.specs.declared.context.Context.{Context};
ghost use Rattle.text_fields.specs.Fields.{texts};
ghost use Rattle.affinity_mask.specs.Number.{canonical_number};
ghost use Rattle.schedule_text.specs.Reading.{IsOutOfMemory};
ghost use Rattle.schedule_text.specs.LineFields.{AreContextWords, IsContextFields, IsAdded, IsTaskFault};
ghost use Rattle.schedule_text.specs.Fields.{spaced_fields_of, IsLastField};
ghost use Rattle.schedule_text.specs.declared.fault.TextKind.TheVariants.{BadLine};

use crate::fault::TextKind;
use crate::field::{is_field, list_of, number_of};
use crate::spacing::spaced_fields;
use affinity_mask::OutOfMemory;
use std::alloc::Global;
use std::str;
use task_set::{Context, TaskFault, TaskSet};
use text_fields::limits::{MAX_PRIORITY, MAX_PROCESSOR};
use text_fields::{is_word, write_number};

/// Adds the task of some fields.
pub fn add_task(set: &mut TaskSet, fields: &[&[u8]]) -> Result<(), TextKind>
    ensures read { OnOk result (IsAdded (texts fields.now) set.old set.new) }
    ensures refused { IfErr result (λ kind. IsOutOfMemory kind
        ⊎ IsTaskFault set.old (texts fields.now) kind) }
{
    let [word, name, number, list] = fields else {
        return Err(TextKind::BadLine);
    };
    if !is_word(word, "task") || !is_field(name) {
        return Err(TextKind::BadLine);
    }
    let Some(priority) = number_of(number, 0, MAX_PRIORITY) else {
        return Err(TextKind::BadLine);
    };
    let mask = list_of(list)?;
    let Ok(name) = str::from_utf8(name) else {
        return Err(TextKind::TaskRefused(TaskFault::BadName));
    };
    set.add(name, priority as u32, mask)?;
    Ok(())
}

/// Whether a line is a label and this number.
pub fn is_numbered(
    alloc: Global,
    label: &[u8],
    number: u64,
    text: &[u8],
) -> Result<bool, OutOfMemory>
    ensures { IfOk result (λ is. MatchBool is
        (text.now ≡ label.now ++ canonical_number number)
        (text.now ≡ label.now ++ canonical_number number → ⊥)) }
{
    let mut expected = Vec::from_slice(alloc, label)?;
    write_number(&mut expected, number)?;
    Ok(expected.as_slice() == text)
}

/// The context of a line, where it is that of this task.
pub fn read_context<'a>(
    set: &TaskSet,
    t: u32,
    text: &'a [u8],
    room: &mut Vec<&'a [u8]>,
) -> Result<Context, TextKind>
    requires { t < length set.now.tasks }
    ensures read { IfOk result (IsContextFields set.now t (spaced_fields_of text.now)) }
    ensures refused { IfErr result (λ kind. IsOutOfMemory kind
        ⊎ ((kind ≡ BadLine) × ((context : Context)
        → IsContextFields set.now t (spaced_fields_of text.now) context → ⊥))) }
{
    let fields = spaced_fields(text, room)?;
    match context_of(set, t, fields) {
        Some(context) => Ok(context),
        None => Err(TextKind::BadLine),
    }
}

/// The context of eleven fields, where it is that of this task.
fn context_of(set: &TaskSet, t: u32, fields: &[&[u8]]) -> Option<Context>
    requires { t < length set.now.tasks }
    ensures { MatchOption result
        ((context : Context) → IsContextFields set.now t (texts fields.now) context → ⊥)
        (IsContextFields set.now t (texts fields.now)) }
{
    let [
        name,
        units_word,
        units,
        stints_word,
        stints,
        moves_word,
        moves,
        last_word,
        last,
        trail_word,
        trail,
    ] = fields
    else {
        return None;
    };
    if !is_word(name, set.name(t)) {
        return None;
    }
    if !are_context_words(units_word, stints_word, moves_word, last_word, trail_word) {
        return None;
    }
    let units = number_of(units, 0, u64::MAX)?;
    let stints = number_of(stints, 0, u64::MAX)?;
    let moves = number_of(moves, 0, u64::MAX)?;
    let last = last_of(last)?;
    let trail = number_of(trail, 0, u64::MAX)?;
    Some(Context {
        task: t,
        units,
        stints,
        moves,
        last,
        trail,
    })
}

/// Whether five words are those before the values of a context.
fn are_context_words(units: &[u8], stints: &[u8], moves: &[u8], last: &[u8], trail: &[u8]) -> bool
    ensures { IsTrue result
        ↔ AreContextWords units.now stints.now moves.now last.now trail.now }
{
    is_word(units, "units")
        && is_word(stints, "stints")
        && is_word(moves, "moves")
        && is_word(last, "last")
        && is_word(trail, "trail")
}

/// The last processor, or none for '-'.
fn last_of(field: &[u8]) -> Option<Option<u8>>
    ensures { MatchOption result
        ((last : Option ℕ) → IsLastField field.now last → ⊥)
        (IsLastField field.now) }
{
    if is_word(field, "-") {
        return Some(None);
    }
    let p = number_of(field, 0, MAX_PROCESSOR)?;
    Some(Some(p as u8))
}
