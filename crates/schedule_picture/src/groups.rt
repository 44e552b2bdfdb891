//! The rectangles of the two groups of a picture.
ghost use Rattle.std.specs.Prelude.{◌≡◌, ◌++◌, ◌<◌, ◌≤◌, OnOk, length, get_or};
ghost use Rattle.std.specs.List.{flat_map};
ghost use Rattle.affinity_mask.specs.Number.{canonical_number};
ghost use Rattle.text_fields.specs.EventText.{name_of};
ghost use Rattle.schedule_picture.specs.Colours.{colour_of};
ghost use Rattle.schedule_picture.specs.Track.{fresh_track};
ghost use Rattle.schedule_picture.specs.Group.{stay_text, absence_text, lane_rect, lane_text, lanes_text, row_text, row_rect, rows_text};

use crate::colours::colour_of;
use crate::sheet::{Sheet, spans_at};
use crate::span::{Seen, Span};
use crate::track::Track;
use affinity_mask::OutOfMemory;
use text_fields::write_number;

/// The colour of a bar of a task that waits.
const WAITING_COLOUR: &[u8; 7] = b"#d9534f";

/// Appends the rectangles of so many lanes. Refused only where memory runs out.
pub(crate) fn write_lanes(
    text: &mut Vec<u8>,
    sheet: &Sheet,
    absences: &[Track],
    lanes: &[Track],
    count: u8,
) -> Result<(), OutOfMemory>
    ensures { OnOk result (text.new.items ≡ text.old.items
        ++ lanes_text sheet.now.places.now sheet.now.window sheet.now.set.now
        (λ p. (get_or absences.now p fresh_track).spans)
        (λ p. (get_or lanes.now p fresh_track).spans) count) }
{
    for p in 0..count {
        let off_line = spans_at(absences, p as usize);
        let stays = spans_at(lanes, p as usize);
        write_processor(text, sheet, p, off_line, stays)?;
    }
    Ok(())
}

/// Appends the rectangles of the absences and the stays of a processor.
fn write_processor(
    text: &mut Vec<u8>,
    sheet: &Sheet,
    p: u8,
    absences: &[Span],
    stays: &[Span],
) -> Result<(), OutOfMemory>
    ensures { OnOk result (text.new.items ≡ text.old.items
        ++ lane_text sheet.now.places.now sheet.now.window sheet.now.set.now p absences.now stays.now) }
{
    write_lane(text, sheet, p, absences)?;
    write_lane(text, sheet, p, stays)
}

/// Appends the rectangles of some spans of a processor.
fn write_lane(text: &mut Vec<u8>, sheet: &Sheet, p: u8, spans: &[Span]) -> Result<(), OutOfMemory>
    ensures { OnOk result (text.new.items ≡ text.old.items
        ++ flat_map (lane_rect sheet.now.places.now sheet.now.window sheet.now.set.now p) spans.now) }
{
    for span in spans {
        write_lane_rect(text, sheet, p, *span)?;
    }
    Ok(())
}

/// Appends the rectangle of a span of a processor, where its part in the window has a length.
#[tactic(auto, unfolding(crate::specs::Group::lane_rect))]
fn write_lane_rect(text: &mut Vec<u8>, sheet: &Sheet, p: u8, span: Span) -> Result<(), OutOfMemory>
    ensures { OnOk result (text.new.items ≡ text.old.items
        ++ lane_rect sheet.now.places.now sheet.now.window sheet.now.set.now p span) }
{
    let Some(part) = sheet.part(span) else {
        return Ok(());
    };
    match span.what {
        Seen::Task(t) => write_stay(text, sheet, t, p, part),
        Seen::OffLine => write_absence(text, p, part),
        Seen::Processor(_) | Seen::Waiting => Ok(()),
    }
}

/// Appends the rectangle of a stay.
fn write_stay(
    text: &mut Vec<u8>,
    sheet: &Sheet,
    t: u32,
    p: u8,
    part: (u64, u64),
) -> Result<(), OutOfMemory>
    requires { part.0 < part.1 }
    ensures { OnOk result (text.new.items ≡ text.old.items
        ++ stay_text (colour_of t) (name_of sheet.now.set.now t) p part.0 part.1) }
{
    write_field(text, b"<rect x=\"", part.0)?;
    write_field(text, b"\" y=\"", 8 * (p as u64) + 1)?;
    write_field(text, b"\" width=\"", part.1 - part.0)?;
    write_word(text, b"\" height=\"6\" fill=\"")?;
    write_word(text, colour_of(t))?;
    write_word(text, b"\"><title>")?;
    write_word(text, sheet.name(t).as_bytes())?;
    write_field(text, b" on cpu ", p as u64)?;
    write_field(text, b" from ", part.0)?;
    write_field(text, b" to ", part.1)?;
    write_word(text, b"</title></rect>\n")?;
    Ok(())
}

/// Appends the rectangle of an absence.
fn write_absence(text: &mut Vec<u8>, p: u8, part: (u64, u64)) -> Result<(), OutOfMemory>
    requires { part.0 < part.1 }
    ensures { OnOk result (text.new.items ≡ text.old.items ++ absence_text p part.0 part.1) }
{
    write_field(text, b"<rect x=\"", part.0)?;
    write_field(text, b"\" y=\"", 8 * (p as u64) + 1)?;
    write_field(text, b"\" width=\"", part.1 - part.0)?;
    write_word(text, b"\" height=\"6\" fill=\"#ccc\"/>\n")?;
    Ok(())
}

/// Appends some bytes.
pub(crate) fn write_word(text: &mut Vec<u8>, word: &[u8]) -> Result<(), OutOfMemory>
    ensures { OnOk result (text.new.items ≡ text.old.items ++ word.now) }
{
    text.extend_from_slice(word)?;
    Ok(())
}

/// Appends a label and a number.
pub(crate) fn write_field(text: &mut Vec<u8>, label: &[u8], number: u64) -> Result<(), OutOfMemory>
    ensures { OnOk result (text.new.items ≡ text.old.items ++ (label.now ++ canonical_number number)) }
{
    write_word(text, label)?;
    write_number(text, number)
}

/// Appends the rectangles of the rows of the tasks that are listed. Refused only where memory runs out.
pub(crate) fn write_rows(
    text: &mut Vec<u8>,
    sheet: &Sheet,
    rows: &[Track],
    listed: &[u32],
) -> Result<(), OutOfMemory>
    requires { length listed.now ≤ 64 }
    ensures { OnOk result (text.new.items ≡ text.old.items
        ++ rows_text sheet.now.places.now sheet.now.window
        (λ t. (get_or rows.now t fresh_track).spans) listed.now) }
{
    for k in 0..listed.len() {
        let t = listed[k];
        write_row(text, sheet, k, t, spans_at(rows, t as usize))?;
    }
    Ok(())
}

/// Appends the rectangles of the spans of the task that is listed in a row.
fn write_row(
    text: &mut Vec<u8>,
    sheet: &Sheet,
    k: usize,
    t: u32,
    spans: &[Span],
) -> Result<(), OutOfMemory>
    requires { k < 64 }
    ensures { OnOk result (text.new.items ≡ text.old.items
        ++ flat_map (row_rect sheet.now.places.now sheet.now.window k t) spans.now) }
{
    for span in spans {
        write_row_rect(text, sheet, k, t, *span)?;
    }
    Ok(())
}

/// Appends the rectangle of a span of a task, where its part in the window has a length.
#[tactic(auto, unfolding(crate::specs::Group::row_rect))]
fn write_row_rect(
    text: &mut Vec<u8>,
    sheet: &Sheet,
    k: usize,
    t: u32,
    span: Span,
) -> Result<(), OutOfMemory>
    requires { k < 64 }
    ensures { OnOk result (text.new.items ≡ text.old.items
        ++ row_rect sheet.now.places.now sheet.now.window k t span) }
{
    let Some(part) = sheet.part(span) else {
        return Ok(());
    };
    match span.what {
        Seen::Processor(_) => write_bar(text, k, colour_of(t), part),
        Seen::Waiting => write_bar(text, k, WAITING_COLOUR, part),
        Seen::Task(_) | Seen::OffLine => Ok(()),
    }
}

/// Appends a bar of the task that is listed in a row.
fn write_bar(
    text: &mut Vec<u8>,
    k: usize,
    colour: &[u8],
    part: (u64, u64),
) -> Result<(), OutOfMemory>
    requires few { k < 64 }
    requires some { part.0 < part.1 }
    ensures { OnOk result (text.new.items ≡ text.old.items ++ row_text k colour.now part.0 part.1) }
{
    write_field(text, b"<rect x=\"", part.0)?;
    write_field(text, b"\" y=\"", 8 * (k as u64) + 2)?;
    write_field(text, b"\" width=\"", part.1 - part.0)?;
    write_word(text, b"\" height=\"4\" fill=\"")?;
    write_word(text, colour)?;
    write_word(text, b"\"/>\n")?;
    Ok(())
}
