//! The two groups of a picture, and what stands around them, one after the other.
ghost use Rattle.std.specs.Prelude.{◌≡◌, ◌≤◌, ◌++◌, OnOk, IfOk, length};
ghost use Rattle.schedule_picture.specs.Elements.{BeginsText, Ends, GoesOn, IsWellFormedElement};
ghost use Rattle.schedule_picture.specs.Group.{group_head, span_of};
ghost use Rattle.schedule_picture.specs.Picture.{HasGroupsOf};

use crate::groups::{write_field, write_lanes, write_rows, write_word};
use crate::page::Page;
use crate::sheet::Sheet;
use crate::tracks::Tracks;
use affinity_mask::OutOfMemory;

/// What stands before the lanes, between them and the rows, and after these.
#[derive(Drop)]
pub(crate) struct Around {
    pub(crate) before: Vec<u8>,
    pub(crate) between: Vec<u8>,
    pub(crate) after: Vec<u8>,
}

/// The whole picture.
pub(crate) fn assembled(
    sheet: &Sheet,
    page: Page,
    tracks: &Tracks,
    around: &Around,
    listed: &[u32],
) -> Result<Vec<u8>, OutOfMemory>
    requires few { length listed.now ≤ 64 }
    requires wide { 1 ≤ page.wide }
    requires begins { BeginsText around.now.before.items }
    requires goes_on { GoesOn around.now.between.items }
    requires ends { Ends around.now.after.items }
    ensures groups { IfOk result (λ text.
        HasGroupsOf sheet.now.places.now sheet.now.set.now sheet.now.window tracks.now listed.now text.items) }
    ensures well_formed { IfOk result (λ text. IsWellFormedElement text.items) }
{
    let lanes = sheet.set.processors();
    let rows = listed.len() as u64;
    let mut text = Vec::new(sheet.alloc);
    write_word(&mut text, &around.before)?;
    write_head(
        &mut text,
        sheet,
        page,
        page.lane_top(0),
        24 * (lanes as u64),
        8 * (lanes as u64),
    )?;
    write_lanes(&mut text, sheet, &tracks.absences, &tracks.lanes, lanes)?;
    write_word(&mut text, b"</svg>\n")?;
    write_word(&mut text, &around.between)?;
    write_head(
        &mut text,
        sheet,
        page,
        page.rows_top(),
        16 * rows,
        (8 * rows).max(1),
    )?;
    write_rows(&mut text, sheet, &tracks.rows, listed)?;
    write_word(&mut text, b"</svg>\n")?;
    write_word(&mut text, &around.after)?;
    Ok(text)
}

/// Appends the beginning of a group.
fn write_head(
    text: &mut Vec<u8>,
    sheet: &Sheet,
    page: Page,
    top: u32,
    high: u64,
    eighths: u64,
) -> Result<(), OutOfMemory>
    ensures { OnOk result (text.new.items ≡ text.old.items
        ++ group_head top page.wide high sheet.now.window.from (span_of sheet.now.window) eighths) }
{
    write_field(text, b"<svg x=\"200\" y=\"", top as u64)?;
    write_field(text, b"\" width=\"", page.wide as u64)?;
    write_field(text, b"\" height=\"", high)?;
    write_field(text, b"\" viewBox=\"", sheet.window.from)?;
    write_field(text, b" 0 ", sheet.span())?;
    write_field(text, b" ", eighths)?;
    write_word(text, b"\" preserveAspectRatio=\"none\">\n")?;
    Ok(())
}
