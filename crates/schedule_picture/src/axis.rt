//! The axis of a picture: the place of the state after each number of entries.
ghost use Rattle.std.specs.Prelude.{◌≡◌, ◌≤◌, All, length, IfOk};
ghost use Rattle.task_set.specs.Event.{HasUnits};
ghost use Rattle.schedule_picture.specs.Picture.{units_of, clock_moments, clock_of, columns_of};

use affinity_mask::OutOfMemory;
use schedule_text::Schedule;
use std::alloc::Global;
use strong_apa::Entry;
use task_set::Event;

/// What the axis of a picture counts.
#[derive(Clone, Copy, Debug, PartialEq, Eq)]
pub enum Axis {
    /// Units of time.
    Time,
    /// Entries, with a column for each.
    Steps,
}

/// What the title of a picture says: the entries and the units of time, where the axis ends, and whether the window has so
/// few entries that each is marked.
#[derive(Clone, Copy)]
pub(crate) struct Facts {
    pub(crate) entries: usize,
    pub(crate) units: u64,
    pub(crate) whole: u64,
    pub(crate) few: bool,
}

/// The place of the state after each number of entries, and of the end of the last entry. Refused only where memory runs
/// out.
pub(crate) fn places_of(
    alloc: Global,
    axis: Axis,
    schedule: &Schedule,
) -> Result<Vec<u64>, OutOfMemory>
    ensures { IfOk result (λ places. places.items ≡ clock_moments axis schedule.now.entries) }
{
    let entries = schedule.entries();
    match axis {
        Axis::Time => moments(alloc, entries, 0),
        Axis::Steps => columns(alloc, entries.len()),
    }
}

/// The units of time of all entries.
pub(crate) fn units_in(entries: &[Entry]) -> u64 {
    let mut units = 0u64;
    for entry in entries {
        units = units.saturating_add(u64::from(units_of(entry.event)));
    }
    units
}

/// The moment before each entry, and after the last one, twice, by a clock that is at `start` before the first one.
pub(crate) fn moments(alloc: Global, entries: &[Entry], start: u64) -> Result<Vec<u64>, OutOfMemory>
    requires few { length entries.now ≤ 20000 }
    requires units { All (λ entry. HasUnits entry.event) entries.now }
    requires early { start ≤ 9007199254740991 }
    ensures { IfOk result (λ places. places.items ≡ clock_of start entries.now) }
{
    let mut places = Vec::new(alloc);
    let mut moment = start;
    for entry in entries {
        places.push(moment)?;
        moment += u64::from(units_of(entry.event));
    }
    places.push(moment)?;
    places.push(moment)?;
    Ok(places)
}

/// The units of an event.
fn units_of(event: Event) -> u32
    ensures { result ≡ units_of event }
{
    match event {
        Event::Tick(units) => units,
        _ => 0,
    }
}

/// The columns before the states, of which the first two begin at the left.
fn columns(alloc: Global, count: usize) -> Result<Vec<u64>, OutOfMemory>
    requires { count ≤ 20000 }
    ensures { IfOk result (λ places. places.items ≡ columns_of count) }
{
    let mut places = Vec::new(alloc);
    for n in 0..count + 2 {
        places.push((n as u64).saturating_sub(1))?;
    }
    Ok(places)
}
