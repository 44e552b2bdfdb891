//! A schedule as a trace in Chrome's format, which Perfetto opens.
ghost use Rattle.std.specs.Prelude.{◌≡◌, ◌≤◌, ◌++◌, ◌<◌, OnOk, IfOk};
ghost use Rattle.std.specs.List.{flat_map, range_with_len};
ghost use Rattle.text_fields.specs.EventText.{name_of};
ghost use Rattle.schedule_picture.specs.Chrome.{IsChrome, chrome_of, thread_of, event_of_span, stay_event_text, lane_events, thread_text};
ghost use Rattle.schedule_picture.specs.History.{HaveSpans};
ghost use Rattle.schedule_picture.specs.Picture.{spans_in};

use crate::axis::moments;
use crate::groups::{write_field, write_word};
use crate::sheet::{Sheet, spans_at};
use crate::span::{Seen, Span};
use crate::track::Track;
use crate::tracks::Tracks;
use crate::window::Window;
use affinity_mask::OutOfMemory;
use schedule_text::Schedule;
use std::alloc::Global;

/// The last moment of a clock at which a trace may begin: in JSON numbers up to it are exact.
pub const LAST_START: u64 = 9_007_199_254_740_991;

/// The stays of a schedule, of which these are the spans, as a trace in Chrome's format: a JSON array of events, of which the
/// process stands for the schedule, and a thread for each processor. A unit of time is a microsecond there, and the schedule
/// begins at the moment `start`. Refused only where memory runs out.
pub fn chrome_text(
    alloc: Global,
    schedule: &Schedule,
    tracks: &Tracks,
    start: u64,
) -> Result<Vec<u8>, OutOfMemory>
    requires spans { HaveSpans schedule.now.set schedule.now.entries tracks.now }
    requires early { start ≤ 9007199254740991 }
    ensures { IfOk result (λ text. IsChrome start schedule.now.set schedule.now.entries text.items) }
{
    let moments = moments(alloc, schedule.entries(), start)?;
    let text = trace_of(tracks, &moments, schedule)?;
    Ok(text)
}

/// The text of these spans, by these moments.
fn trace_of(
    tracks: &Tracks,
    moments: &Vec<u64>,
    schedule: &Schedule,
) -> Result<Vec<u8>, OutOfMemory>
    ensures { IfOk result (λ text.
        text.items ≡ chrome_of moments.now.items schedule.now.set (spans_in tracks.now.lanes.items)) }
{
    let alloc = *moments.allocator();
    let all = moments.as_slice();
    let sheet = Sheet {
        alloc,
        set: schedule.set(),
        places: all,
        window: Window { from: 0, to: 0 },
    };
    let text = events_text(&sheet, &tracks.lanes)?;
    Ok(text)
}

/// The text of these tracks of the processors.
fn events_text(sheet: &Sheet, lanes: &[Track]) -> Result<Vec<u8>, OutOfMemory>
    ensures { IfOk result (λ text.
        text.items ≡ chrome_of sheet.now.places.now sheet.now.set.now (spans_in lanes.now)) }
{
    let mut text = Vec::new(sheet.alloc);
    write_word(
        &mut text,
        b"[\n{\"name\":\"process_name\",\"ph\":\"M\",\"pid\":1,\"args\":{\"name\":\"processors\"}}",
    )?;
    let processors = sheet.set.processors();
    write_threads(&mut text, processors)?;
    write_processors(&mut text, sheet, lanes, processors)?;
    write_word(&mut text, b"\n]\n")?;
    Ok(text)
}

/// Appends the names of the threads of so many processors.
fn write_threads(text: &mut Vec<u8>, count: u8) -> Result<(), OutOfMemory>
    ensures { OnOk result (text.new.items ≡ text.old.items
        ++ flat_map thread_text (range_with_len 0 count)) }
{
    for p in 0..count {
        write_thread(text, p)?;
    }
    Ok(())
}

/// Appends the name of the thread of a processor.
fn write_thread(text: &mut Vec<u8>, p: u8) -> Result<(), OutOfMemory>
    ensures { OnOk result (text.new.items ≡ text.old.items ++ thread_text p) }
{
    write_field(
        text,
        b",\n{\"name\":\"thread_name\",\"ph\":\"M\",\"pid\":1,\"tid\":",
        thread_of(p),
    )?;
    write_field(text, b",\"args\":{\"name\":\"cpu ", p as u64)?;
    write_word(text, b"\"}}")?;
    Ok(())
}

/// The number of the thread of a processor.
fn thread_of(p: u8) -> u64
    ensures { result ≡ thread_of p }
{
    p as u64 + 1
}

/// Appends the events of so many processors.
fn write_processors(
    text: &mut Vec<u8>,
    sheet: &Sheet,
    lanes: &[Track],
    count: u8,
) -> Result<(), OutOfMemory>
    ensures { OnOk result (text.new.items ≡ text.old.items
        ++ flat_map (lane_events sheet.now.places.now sheet.now.set.now (spans_in lanes.now)) (range_with_len 0 count)) }
{
    for p in 0..count {
        write_events(text, sheet, p, spans_at(lanes, p as usize))?;
    }
    Ok(())
}

/// Appends the events of some stays on a processor.
fn write_events(text: &mut Vec<u8>, sheet: &Sheet, p: u8, stays: &[Span]) -> Result<(), OutOfMemory>
    ensures { OnOk result (text.new.items ≡ text.old.items
        ++ flat_map (event_of_span sheet.now.places.now sheet.now.set.now p) stays.now) }
{
    for span in stays {
        write_event(text, sheet, p, *span)?;
    }
    Ok(())
}

/// Appends the event of a stay, where it has a length.
#[tactic(auto, unfolding(crate::specs::Chrome::event_of_span))]
fn write_event(text: &mut Vec<u8>, sheet: &Sheet, p: u8, span: Span) -> Result<(), OutOfMemory>
    ensures { OnOk result (text.new.items ≡ text.old.items
        ++ event_of_span sheet.now.places.now sheet.now.set.now p span) }
{
    let Some(extent) = sheet.extent(span) else {
        return Ok(());
    };
    match span.what {
        Seen::Task(t) => write_stay_event(text, sheet, t, p, extent),
        Seen::OffLine | Seen::Processor(_) | Seen::Waiting => Ok(()),
    }
}

/// Appends the event of a stay of a task.
fn write_stay_event(
    text: &mut Vec<u8>,
    sheet: &Sheet,
    t: u32,
    p: u8,
    extent: (u64, u64),
) -> Result<(), OutOfMemory>
    requires { extent.0 < extent.1 }
    ensures { OnOk result (text.new.items ≡ text.old.items
        ++ stay_event_text (name_of sheet.now.set.now t) p extent.0 extent.1) }
{
    write_word(text, b",\n{\"name\":\"")?;
    write_word(text, sheet.name(t).as_bytes())?;
    write_field(text, b"\",\"ph\":\"X\",\"pid\":1,\"tid\":", thread_of(p))?;
    write_field(text, b",\"ts\":", extent.0)?;
    write_field(text, b",\"dur\":", extent.1 - extent.0)?;
    write_word(text, b"}")?;
    Ok(())
}
