//! The picture of a schedule.
ghost use Rattle.std.specs.Prelude.{◌≡◌, ◌≤◌, ◌+◌, All, length, slice_index, IfOk};
ghost use Rattle.schedule_text.specs.ScheduleText.{IsEntryOf};
ghost use Rattle.schedule_picture.specs.Elements.{IsWellFormedElement};
ghost use Rattle.schedule_picture.specs.History.{HaveSpans};
ghost use Rattle.schedule_picture.specs.Picture.{IsPicture, HasGroupsOf, cut_window, clock_moments, end_of};

use crate::around::{longest_label, text_after, text_before, text_between};
use crate::assembly::{Around, assembled};
use crate::axis::{Axis, Facts, places_of, units_in};
use crate::listing::listed;
use crate::page::Page;
use crate::sheet::Sheet;
use crate::tracks::Tracks;
use crate::window::Window;
use affinity_mask::OutOfMemory;
use schedule_text::Schedule;
use std::alloc::Global;
use strong_apa::Entry;

/// How many entries a window has at most whose moves, arrivals and departures are marked.
const MARKED_ENTRIES: u32 = 400;

/// The picture of a window of a schedule, of which these are the spans, over units of time or with a column for each entry.
/// Refused only where memory runs out.
pub fn picture_text(
    alloc: Global,
    schedule: &Schedule,
    tracks: &Tracks,
    axis: Axis,
    window: Window,
) -> Result<Vec<u8>, OutOfMemory>
    requires { HaveSpans schedule.now.set schedule.now.entries tracks.now }
    ensures { IfOk result (λ text.
        IsPicture axis schedule.now.set schedule.now.entries window text.items) }
{
    let places = places_of(alloc, axis, schedule)?;
    drawn(tracks, &places, schedule, axis, window)
}

/// The same, with the places.
fn drawn(
    tracks: &Tracks,
    places: &Vec<u64>,
    schedule: &Schedule,
    axis: Axis,
    window: Window,
) -> Result<Vec<u8>, OutOfMemory>
    requires spans { HaveSpans schedule.now.set schedule.now.entries tracks.now }
    requires places { places.now.items ≡ clock_moments axis schedule.now.entries }
    ensures { IfOk result (λ text.
        IsPicture axis schedule.now.set schedule.now.entries window text.items) }
{
    let alloc = *places.allocator();
    let all = places.as_slice();
    let end = end_in(all, schedule.entries().len());
    let sheet = Sheet {
        alloc,
        set: schedule.set(),
        places: all,
        window: cut(window, end),
    };
    let listed = listed(&sheet, &tracks.rows)?;
    let text = page_text(&sheet, schedule.entries(), tracks, axis, &listed)?;
    Ok(text)
}

/// The end of the last entry.
fn end_in(places: &[u64], entries: usize) -> u64
    requires { entries ≤ 20000 }
    ensures { result ≡ slice_index places.now (entries + 1) }
{
    places.get(entries + 1).copied().unwrap_or(0)
}

/// A window that has no more than there is.
fn cut(window: Window, end: u64) -> Window
    ensures { result ≡ cut_window window end }
{
    Window {
        from: window.from.min(end),
        to: window.to.min(end),
    }
}

/// The picture with these rows.
fn page_text(
    sheet: &Sheet,
    entries: &[Entry],
    tracks: &Tracks,
    axis: Axis,
    listed: &[u32],
) -> Result<Vec<u8>, OutOfMemory>
    requires about { All (IsEntryOf sheet.now.set.now) entries.now }
    requires few { length listed.now ≤ 64 }
    ensures groups { IfOk result (λ text.
        HasGroupsOf sheet.now.places.now sheet.now.set.now sheet.now.window tracks.now listed.now text.items) }
    ensures well_formed { IfOk result (λ text. IsWellFormedElement text.items) }
{
    let page = page_for(sheet, entries, axis, listed.len())?;
    let facts = facts_of(sheet, entries);
    let before = text_before(sheet, page, facts, entries)?;
    let between = text_between(sheet, page, tracks, facts, listed)?;
    let after = text_after(sheet, page, &tracks.rows, facts, listed)?;
    let around = Around {
        before,
        between,
        after,
    };
    assembled(sheet, page, tracks, &around, listed)
}

/// The sizes of the page.
fn page_for(sheet: &Sheet, entries: &[Entry], axis: Axis, rows: usize) -> Result<Page, OutOfMemory>
    requires about { All (IsEntryOf sheet.now.set.now) entries.now }
    requires few { rows ≤ 64 }
    ensures { IfOk result (λ page. 1 ≤ page.wide) }
{
    let lanes = sheet.set.processors();
    let rows = rows as u8;
    match axis {
        Axis::Time => Ok(Page {
            axis,
            lanes,
            rows,
            top: 36,
            wide: 1184,
        }),
        Axis::Steps => {
            let longest = longest_label(sheet, entries)?.min(1000) as u16;
            let wide = sheet.span().min(100) as u16;
            Ok(Page {
                axis,
                lanes,
                rows,
                top: 36 + 24 * longest / 5,
                wide: (56 * wide).min(1184),
            })
        }
    }
}

/// What the title says.
fn facts_of(sheet: &Sheet, entries: &[Entry]) -> Facts {
    Facts {
        entries: entries.len(),
        units: units_in(entries),
        whole: sheet.place(sheet.end()),
        few: entries_shown(sheet) <= MARKED_ENTRIES,
    }
}

/// How many entries the window shows.
fn entries_shown(sheet: &Sheet) -> u32 {
    let mut shown = 0u32;
    for n in 1..sheet.end() {
        if sheet.place(n) <= sheet.window.to && sheet.window.from <= sheet.place(n + 1) {
            shown = shown.saturating_add(1);
        }
    }
    shown
}
