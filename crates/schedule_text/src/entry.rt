//! The lines of entries.
ghost use Rattle.std.specs.Prelude.{◌≡◌, ◌⊎◌, ◌∷◌, ◌++◌, [], List, ℕ, codes, IfOk, IfErr, OnOk, MatchOption};
ghost use Rattle.strong_apa.specs.declared.reply.Entry.{Entry as EntryData};
ghost use Rattle.strong_apa.specs.declared.reply.Reply.{Reply as ReplyData};
ghost use Rattle.text_fields.specs.Fields.{texts};
ghost use Rattle.schedule_text.specs.declared.fault.TextKind.TheVariants.{BadLine};
ghost use Rattle.schedule_text.specs.Fields.{IsProcessorField};
ghost use Rattle.schedule_text.specs.Reading.{IsOutOfMemory};
ghost use Rattle.schedule_text.specs.LineFields.{
  IsEventFields,
  IsEventFault,
  IsEventThen,
  IsReplyFields,
  IsReplyFault,
  IsEntryFields,
  IsEntryFault,
};

use crate::fault::TextKind;
use crate::field::{fault_with, known_task, mask_of, number_of, processor_of};
use crate::reply::{read_reply, waiting_reach};
use strong_apa::{Entry, Reply};
use task_set::{Event, TaskSet};
use text_fields::limits::{LAST_VERSION, MAX_STREAM, MAX_UNITS};
use text_fields::{EventWord, event_word, is_word, is_word_of};

/// How many fields an event has that sets a mask.
const AFFINITY_FIELDS: usize = 3;

/// How many fields any other event has.
const EVENT_FIELDS: usize = 2;

/// Lists the entry of some fields, in a version of the format.
pub fn add_entry(
    version: u8,
    set: &TaskSet,
    entries: &mut Vec<Entry>,
    fields: &[&[u8]],
) -> Result<(), TextKind>
    ensures read { OnOk result ((entry : EntryData)
        × (entries.new.items ≡ entries.old.items ++ entry ∷ [])
        × IsEntryFields version (texts fields.now) set.now entry) }
    ensures refused { IfErr result (λ kind. IsOutOfMemory kind
        ⊎ IsEntryFault version (texts fields.now) set.now kind) }
{
    let _valid = set.len();
    let [number, rest @ ..] = fields else {
        return Err(TextKind::BadLine);
    };
    let Some(stream) = number_of(number, 0, MAX_STREAM) else {
        return Err(TextKind::BadLine);
    };
    let Some((event, reply)) = event_then(rest) else {
        return Err(TextKind::BadLine);
    };
    match read_event(version, set, event) {
        Ok(event) => add_reply(version, set, entries, stream as u32, event, reply),
        Err(kind) => Err(fault_with(kind, read_reply(version, set, reply))),
    }
}

/// Lists the entry of an event and of a reply of some fields. Most replies are one of three short ones, and each of these is
/// listed by itself: of what several come to, all the bytes of a long reply are copied.
fn add_reply(
    version: u8,
    set: &TaskSet,
    entries: &mut Vec<Entry>,
    caller: u32,
    event: Event,
    fields: &[&[u8]],
) -> Result<(), TextKind>
    ensures read { OnOk result ((reply : ReplyData)
        × (entries.new.items ≡ entries.old.items
        ++ (record { caller = caller; event = event; reply = reply }) ∷ [])
        × IsReplyFields version (texts fields.now) set.now reply) }
    ensures refused { IfErr result (λ kind. IsOutOfMemory kind
        ⊎ IsReplyFault version (texts fields.now) set.now kind) }
{
    if let [word] = fields {
        if is_word(word, "left") {
            return list(entries, caller, event, Reply::Left);
        }
        if is_word(word, "ticked") {
            return list(entries, caller, event, Reply::Ticked);
        }
    }
    if let Some(reach) = waiting_reach(fields) {
        return list(entries, caller, event, Reply::Waits { reach });
    }
    add_long(version, set, entries, caller, event, fields)
}

/// The same of any reply. It is not laid into its caller, which would make room for a long reply at each entry.
#[inline(never)]
fn add_long(
    version: u8,
    set: &TaskSet,
    entries: &mut Vec<Entry>,
    caller: u32,
    event: Event,
    fields: &[&[u8]],
) -> Result<(), TextKind>
    ensures read { OnOk result ((reply : ReplyData)
        × (entries.new.items ≡ entries.old.items
        ++ (record { caller = caller; event = event; reply = reply }) ∷ [])
        × IsReplyFields version (texts fields.now) set.now reply) }
    ensures refused { IfErr result (λ kind. IsOutOfMemory kind
        ⊎ IsReplyFault version (texts fields.now) set.now kind) }
{
    let reply = read_reply(version, set, fields)?;
    list(entries, caller, event, reply)
}

/// Lists an entry. It is laid into its callers, where it is known how many bytes the reply has.
#[inline(always)]
fn list(entries: &mut Vec<Entry>, caller: u32, event: Event, reply: Reply) -> Result<(), TextKind>
    ensures listed { OnOk result (entries.new.items ≡ entries.old.items
        ++ (record { caller = caller; event = event; reply = reply }) ∷ []) }
    ensures refused { IfErr result IsOutOfMemory }
{
    let entry = Entry {
        caller,
        event,
        reply,
    };
    match entries.push(entry) {
        Ok(()) => Ok(()),
        Err(_) => Err(TextKind::OutOfMemory),
    }
}

/// The fields of an event, and those after it. Its word is compared with the one that counts, since most are another.
fn event_then<'f, 'a>(fields: &'f [&'a [u8]]) -> Option<(&'f [&'a [u8]], &'f [&'a [u8]])>
    ensures { MatchOption result
        ((event reply : List (List ℕ)) → IsEventThen (texts fields.now) event reply → ⊥)
        (λ parts. IsEventThen (texts fields.now) (texts parts.0.now) (texts parts.1.now)) }
{
    let [word, ..] = fields else {
        return None;
    };
    let count = if is_word(word, "affinity") {
        AFFINITY_FIELDS
    } else {
        EVENT_FIELDS
    };
    if fields.len() < count {
        None
    } else {
        Some((&fields[..count], &fields[count..]))
    }
}

/// The event of some fields.
fn read_event(version: u8, set: &TaskSet, fields: &[&[u8]]) -> Result<Event, TextKind>
    ensures read { IfOk result
        (IsEventFields version set.now.processors (texts fields.now) set.now) }
    ensures refused { IfErr result (λ kind. IsEventFault version (texts fields.now) set.now kind) }
{
    if let [word, value] = fields {
        return valued_event(version, set, word, value);
    }
    let [word, name, list] = fields else {
        return Err(TextKind::BadLine);
    };
    if version == LAST_VERSION && is_word_of(word, EventWord::Affinity) {
        affinity_of(set, name, list)
    } else {
        Err(TextKind::BadLine)
    }
}

/// The event of a word and a value: a task arrives or departs, units of time pass, or a processor goes off line or comes
/// on line.
fn valued_event(version: u8, set: &TaskSet, word: &[u8], value: &[u8]) -> Result<Event, TextKind>
    ensures read { IfOk result
        (IsEventFields version set.now.processors (word.now ∷ value.now ∷ []) set.now) }
    ensures refused { IfErr result (IsEventFault version (word.now ∷ value.now ∷ []) set.now) }
{
    match event_word(word) {
        Some(EventWord::Arrive) => Ok(Event::Arrive(known_task(set, value)?)),
        Some(EventWord::Depart) => Ok(Event::Depart(known_task(set, value)?)),
        Some(EventWord::Tick) => match number_of(value, 1, MAX_UNITS) {
            Some(units) => Ok(Event::Tick(units as u32)),
            None => Err(TextKind::BadLine),
        },
        Some(EventWord::Offline) => Ok(Event::Offline(switched_processor(version, set, value)?)),
        Some(EventWord::Online) => Ok(Event::Online(switched_processor(version, set, value)?)),
        Some(EventWord::Affinity) => Err(TextKind::BadLine),
        None => Err(TextKind::BadLine),
    }
}

/// The processor that goes off line or comes on line, in the version that has these events.
fn switched_processor(version: u8, set: &TaskSet, field: &[u8]) -> Result<u8, TextKind>
    ensures read { IfOk result (λ p. (version ≡ 2)
        × IsProcessorField set.now.processors field.now p) }
    ensures refused { IfErr result (λ kind. (kind ≡ BadLine)
        × ((p : ℕ) → version ≡ 2 → IsProcessorField set.now.processors field.now p → ⊥)) }
{
    if version != LAST_VERSION {
        return Err(TextKind::BadLine);
    }
    match processor_of(set, field) {
        Some(p) => Ok(p),
        None => Err(TextKind::BadLine),
    }
}

/// The event that a mask is set, by the fields after its word.
fn affinity_of(set: &TaskSet, name: &[u8], list: &[u8]) -> Result<Event, TextKind>
    ensures read { IfOk result (IsEventFields 2 set.now.processors
        (codes "affinity" ∷ name.now ∷ list.now ∷ []) set.now) }
    ensures refused { IfErr result (λ kind. IsEventFault 2
        (codes "affinity" ∷ name.now ∷ list.now ∷ []) set.now kind) }
{
    let mask = mask_of(set, list)?;
    let task = known_task(set, name)?;
    Ok(Event::Affinity { task, mask })
}
