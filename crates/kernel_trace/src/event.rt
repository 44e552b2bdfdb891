//! The lines of a trace. Each is gone through from the left, and nothing is kept but slices of it. Whether `sched_waking` is the word
//! of a wakeup is given.
ghost use Rattle.std.specs.Prelude.{◌≡◌, true, false, None, Some, is_some, MatchOption};
ghost use Rattle.std.specs.Option.{option_map};
ghost use Rattle.kernel_trace.specs.Reading.{ends_view, left_view, fields_view, event_view, said_view};
ghost use Rattle.kernel_trace.specs.Stamp.{nanoseconds};
ghost use Rattle.kernel_trace.specs.StampView.{time_of};
ghost use Rattle.kernel_trace.specs.TraceLine.{leaving_of, has_letter, is_running, event_fields, event_fields_after, switch_of, wakeup_of, wakeup_by, change_of, is_wakeup_word, bare_word, word_of, is_stamped, before_last, event_at, first_event, event_in, ends_in_lost, tells_of_loss, said_by, is_coming, coming_of};
ghost use Rattle.text_fields.specs.Lines.{fields_of};

use crate::change::{Change, Thread};
use crate::fields::first_field;
use crate::key::{begins_with, behind, id_of, is_keyed, is_priority, is_real_time, is_text};
use crate::stamp::Stamp;

/// What a line says.
#[derive(Clone, Copy)]
pub enum Said<'a> {
    /// Nothing of the scheduler.
    Nothing,

    /// Events were lost.
    LostEvents,

    /// An event that has not its form.
    Malformed,

    /// A change.
    Happened { stamp: Stamp<'a>, change: Change },
}

/// What happened, by the word of an event.
#[derive(Clone, Copy)]
pub enum EventWord {
    /// `sched_switch:`.
    Switch,

    /// `sched_wakeup:` or `sched_wakeup_new:`, or `sched_waking:`.
    Wakeup,
}

/// An event of the scheduler: when, its word, and what stands after it.
#[derive(Clone, Copy)]
pub struct SchedulerEvent<'a> {
    pub stamp: Stamp<'a>,
    pub word: EventWord,
    pub fields: &'a [u8],
}

/// The last four fields of some bytes so far. Those that are missing are empty.
#[derive(Clone, Copy)]
pub struct LastFields<'a> {
    pub fourth: &'a [u8],
    pub third: &'a [u8],
    pub second: &'a [u8],
    pub last: &'a [u8],
}

/// A thread that leaves, and its state as it stands.
#[derive(Clone, Copy)]
pub struct Leaving<'a> {
    pub thread: Thread,
    pub state: &'a [u8],
}

/// The last four fields of an event, and the first thread that leaves.
#[derive(Clone, Copy)]
pub struct EventFields<'a> {
    pub ends: LastFields<'a>,
    pub leaving: Option<Leaving<'a>>,
}

/// What a line says.
pub fn read_line(waking: bool, line: &[u8]) -> Said<'_>
    ensures { said_view result ≡ said_by waking (fields_of line.now) }
{
    let Some((first, rest)) = first_field(line) else {
        return Said::Nothing;
    };
    if is_of_loss(first, rest) {
        return Said::LostEvents;
    }
    let Some(event) = find_event(waking, first, rest) else {
        return Said::Nothing;
    };
    match read_change(event.word, event.fields) {
        Some(change) => Said::Happened {
            stamp: event.stamp,
            change,
        },
        None => Said::Malformed,
    }
}

#[tactic(auto, unfolding(crate::specs::TraceLine::tells_of_loss))]
/// Whether a line tells of lost events, by its first field and what stands after it.
fn is_of_loss(first: &[u8], rest: &[u8]) -> bool
    ensures { result ≡ tells_of_loss first.now (fields_of rest.now) }
{
    if begins_with(first, "CPU:") {
        let last = read_fields(rest).ends.last;
        is_text(last, "EVENTS]") || is_text(last, "DROPPED]")
    } else {
        is_keyed(first, "[") && ends_in_lost(rest)
    }
}

/// Whether the last two fields are `events` and `lost]`.
fn ends_in_lost(rest: &[u8]) -> bool
    ensures { result ≡ ends_in_lost (fields_of rest.now) }
{
    let ends = read_fields(rest).ends;
    is_text(ends.second, "events") && is_text(ends.last, "lost]")
}

/// Whether a line is of the scheduler.
pub fn is_of_scheduler(waking: bool, line: &[u8]) -> bool
    ensures { result ≡ is_some (event_in waking (fields_of line.now)) }
{
    event_of(waking, line).is_some()
}

/// The event of a line of the scheduler.
pub fn event_of(waking: bool, line: &[u8]) -> Option<SchedulerEvent<'_>>
    ensures { MatchOption result (event_in waking (fields_of line.now) ≡ None)
        (λ event. event_in waking (fields_of line.now) ≡ Some (event_view event)) }
{
    let Some((first, rest)) = first_field(line) else {
        return None;
    };
    find_event(waking, first, rest)
}

/// The event at the first place, by the first field and what stands after it.
fn find_event<'a>(waking: bool, first: &'a [u8], rest: &'a [u8]) -> Option<SchedulerEvent<'a>>
    ensures { MatchOption result (first_event waking first.now (fields_of rest.now) ≡ None)
        (λ event. first_event waking first.now (fields_of rest.now) ≡ Some (event_view event)) }
{
    let mut field = first;
    let mut rest = rest;
    while let Some((next, after)) = first_field(rest) {
        if let Some(event) = event_here(waking, field, next, after) {
            return Some(event);
        }
        field = next;
        rest = after;
    }
    None
}

/// The event of a field, the word after it, and what stands after that.
pub fn event_here<'a>(
    waking: bool,
    field: &'a [u8],
    next: &[u8],
    after: &'a [u8],
) -> Option<SchedulerEvent<'a>>
    ensures { MatchOption result (event_at field.now (word_of waking next.now) (fields_of after.now) ≡ None)
        (λ event. event_at field.now (word_of waking next.now) (fields_of after.now)
        ≡ Some (event_view event)) }
{
    let Some(word) = read_word(waking, next) else {
        return None;
    };
    let Some(stamp) = read_stamp(field) else {
        return None;
    };
    Some(SchedulerEvent {
        stamp,
        word,
        fields: after,
    })
}

#[tactic(auto, unfolding(crate::specs::TraceLine::word_of))]
/// The word of an event, with or without `sched:` before it.
fn read_word(waking: bool, field: &[u8]) -> Option<EventWord>
    ensures { result ≡ word_of waking field.now }
{
    let word = bare_word(field);
    if is_text(word, "sched_switch:") {
        Some(EventWord::Switch)
    } else if is_wakeup_word(waking, word) {
        Some(EventWord::Wakeup)
    } else {
        None
    }
}

/// What stands after `sched:`, where a field begins so.
pub fn bare_word(field: &[u8]) -> &[u8]
    ensures { result.now ≡ bare_word field.now }
{
    if begins_with(field, "sched:") {
        behind(field, "sched:")
    } else {
        field
    }
}

/// Whether a field is the word of a wakeup.
fn is_wakeup_word(waking: bool, field: &[u8]) -> bool
    ensures { result ≡ is_wakeup_word waking field.now }
{
    is_text(field, "sched_wakeup:")
        || is_text(field, "sched_wakeup_new:")
        || (waking && is_text(field, "sched_waking:"))
}

#[tactic(auto, unfolding(crate::specs::TraceLine::is_stamped))]
/// The stamp of a field that has a colon after it.
fn read_stamp(field: &[u8]) -> Option<Stamp<'_>>
    ensures { MatchOption result (is_stamped field.now ≡ false)
        (λ stamp. (is_stamped field.now ≡ true)
        × (time_of stamp ≡ nanoseconds (before_last field.now))) }
{
    let Some((colon, text)) = field.split_last() else {
        return None;
    };
    if *colon != b':' {
        return None;
    }
    Stamp::read(text)
}

/// The change that the fields after a word say, where they have its form.
fn read_change(word: EventWord, fields: &[u8]) -> Option<Change>
    ensures { result ≡ change_of word (fields_of fields.now) }
{
    let Some((first, _)) = first_field(fields) else {
        return None;
    };
    match word {
        EventWord::Switch if begins_with(first, "prev_comm=") => read_switch(&read_fields(fields)),
        EventWord::Wakeup if begins_with(first, "comm=") => read_wakeup(&read_fields(fields).ends),
        _ => None,
    }
}

/// The last fields of some bytes, and the first four that are of a thread that leaves.
fn read_fields(bytes: &[u8]) -> EventFields<'_>
    ensures { fields_view result ≡ event_fields (fields_of bytes.now) }
{
    let nothing: &[u8] = &[];
    let mut fields = EventFields {
        ends: LastFields {
            fourth: nothing,
            third: nothing,
            second: nothing,
            last: nothing,
        },
        leaving: None,
    };
    let mut rest = bytes;
    while let Some((field, after)) = first_field(rest) {
        fields = fields.with(field);
        rest = after;
    }
    fields
}

impl<'a> EventFields<'a> {
    /// The same with one field more.
    fn with(self, field: &'a [u8]) -> EventFields<'a>
        ensures { fields_view result ≡ event_fields_after (fields_view self.entry) field.now }
    {
        let ends = LastFields {
            fourth: self.ends.third,
            third: self.ends.second,
            second: self.ends.last,
            last: field,
        };
        let leaving = match self.leaving {
            Some(found) => Some(found),
            None => read_leaving(&ends),
        };
        EventFields { ends, leaving }
    }
}

#[tactic(auto, unfolding(crate::specs::TraceLine::is_leaving))]
/// The thread that leaves, where these fields are those of one.
fn read_leaving<'a>(fields: &LastFields<'a>) -> Option<Leaving<'a>>
    ensures { option_map left_view result ≡ leaving_of (ends_view fields.now) }
{
    if is_text(fields.last, "==>")
        && begins_with(fields.second, "prev_state=")
        && is_priority(fields.third, "prev_prio=")
        && is_keyed(fields.fourth, "prev_pid=")
    {
        Some(Leaving {
            thread: Thread {
                id: id_of(fields.fourth, "prev_pid="),
                is_real_time: is_real_time(fields.third, "prev_prio="),
            },
            state: behind(fields.second, "prev_state="),
        })
    } else {
        None
    }
}

/// A switch from one thread to another one.
fn read_switch(fields: &EventFields) -> Option<Change>
    ensures { result ≡ switch_of (ends_view fields.now.ends)
        (option_map left_view fields.now.leaving) }
{
    let Some(leaving) = fields.leaving else {
        return None;
    };
    if has_letter(leaving.state) && has_coming(&fields.ends) {
        Some(Change::Switch {
            from: leaving.thread,
            stays: is_running(leaving.state),
            to: read_coming(&fields.ends),
        })
    } else {
        None
    }
}

/// Whether a state begins with a letter.
fn has_letter(state: &[u8]) -> bool
    ensures { result ≡ has_letter state.now }
{
    match state {
        [letter, ..] => letter.is_ascii_alphabetic(),
        [] => false,
    }
}

/// Whether a state begins with `R`: the thread is ready still.
fn is_running(state: &[u8]) -> bool
    ensures { result ≡ is_running state.now }
{
    match state {
        [letter, ..] => *letter == b'R',
        [] => false,
    }
}

#[tactic(auto, unfolding(crate::specs::TraceLine::is_coming))]
/// Whether the last two fields are those of the thread that comes.
fn has_coming(ends: &LastFields) -> bool
    ensures { result ≡ is_coming (ends_view ends.now) }
{
    is_keyed(ends.second, "next_pid=") && is_priority(ends.last, "next_prio=")
}

/// The thread that comes, where the last two fields are those of one.
fn read_coming(ends: &LastFields) -> Thread
    requires { is_coming (ends_view ends.now) ≡ true }
    ensures { result ≡ coming_of (ends_view ends.now) }
{
    Thread {
        id: id_of(ends.second, "next_pid="),
        is_real_time: is_real_time(ends.last, "next_prio="),
    }
}

/// A wakeup, by its last fields, of which `success` may be missing.
fn read_wakeup(ends: &LastFields) -> Option<Change>
    ensures { result ≡ wakeup_by (ends_view ends.now) }
{
    if is_keyed(ends.second, "success=") {
        read_woken(ends.fourth, ends.third, ends.last)
    } else {
        read_woken(ends.third, ends.second, ends.last)
    }
}

/// A wakeup of the thread of these fields.
fn read_woken(pid: &[u8], prio: &[u8], target: &[u8]) -> Option<Change>
    ensures { result ≡ wakeup_of pid.now prio.now target.now }
{
    if is_keyed(target, "target_cpu=") && is_priority(prio, "prio=") && is_keyed(pid, "pid=") {
        Some(Change::Wakeup(id_of(pid, "pid=")))
    } else {
        None
    }
}
