//! The streams of inputs and schedules. In both the line of an event begins with its stream.
use std::alloc::{AllocError, Global};
use std::str;

/// An input with its events on stream 0 on so many streams, in turn.
pub fn spread(alloc: Global, input: &[u8], streams: u32) -> Result<Vec<u8>, AllocError> {
    let mut text = String::new(alloc);
    let mut events = 0u32;
    for line in str::from_utf8(input).unwrap_or("").lines() {
        let stream = events.checked_rem(streams).unwrap_or(0);
        let is_event = write_on(&mut text, line, stream)?;
        events = events.wrapping_add(is_event as u32);
    }
    Ok(text.into_bytes())
}

/// Appends a line, and an event of stream 0 on this stream; reports whether it is one.
fn write_on(text: &mut String, line: &str, stream: u32) -> Result<bool, AllocError> {
    match line.strip_prefix("0 ") {
        Some(event) => {
            writeln!(text, "{stream} {event}")?;
            Ok(true)
        }
        None => {
            writeln!(text, "{line}")?;
            Ok(false)
        }
    }
}

/// Whether the entries of each stream in a schedule are the events of that stream in an input, each once, in their order.
pub fn is_in_order(alloc: Global, input: &[u8], schedule: &[u8]) -> Result<bool, AllocError> {
    match str::from_utf8(input) {
        Ok(input) => is_in_order_of(alloc, input, schedule),
        Err(_) => Ok(false),
    }
}

fn is_in_order_of(alloc: Global, input: &str, schedule: &[u8]) -> Result<bool, AllocError> {
    match str::from_utf8(schedule) {
        Ok(schedule) => are_streams_in_order(alloc, input, schedule),
        Err(_) => Ok(false),
    }
}

fn are_streams_in_order(alloc: Global, input: &str, schedule: &str) -> Result<bool, AllocError> {
    for stream in 0u32..16 {
        let own = format!(in alloc; "{stream} ")?;
        if !is_stream_in_order(input, schedule, &own) {
            return Ok(false);
        }
    }
    Ok(true)
}

/// The same of the stream with which lines begin so.
fn is_stream_in_order(input: &str, schedule: &str, own: &str) -> bool {
    let mut entries = schedule.lines().filter(|line| line.starts_with(own));
    for event in input.lines() {
        if event.starts_with(own) && !is_entry_of(entries.next().unwrap_or(""), event) {
            return false;
        }
    }
    entries.next().is_none()
}

/// Whether an entry is of this event: a reply follows it.
fn is_entry_of(entry: &str, event: &str) -> bool {
    match entry.strip_prefix(event) {
        Some(reply) => reply.starts_with(' '),
        None => false,
    }
}
