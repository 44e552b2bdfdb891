//! The picture of a part of a trace.
ghost use Rattle.std.specs.Prelude.{◌≡◌, ◌++◌, ◌≤◌, OnOk, IfOk, length};
ghost use Rattle.trace_picture.specs.Picture.{IsPicture, rows_group, lanes_of, page_for};
ghost use Rattle.trace_picture.specs.Scene.{scene_of};

use crate::around::{put, step_of, write_around, write_head, write_legend};
use crate::lanes::{has_beyond, write_lanes};
use crate::listing::listed;
use crate::page::{Page, ROW, TOP};
use crate::rows::write_rows;
use crate::scene::Scene;
use affinity_mask::OutOfMemory;
use trace_bars::{Bar, Bars};

/// The picture of these bars, as SVG. Refused only where memory runs out.
pub fn picture_text(scene: &Scene, bars: &Bars) -> Result<Vec<u8>, OutOfMemory>
    ensures { IfOk result (λ text. IsPicture (scene_of scene.now) bars.now text.items) }
{
    let processors = scene.set.processors();
    let listed = listed(scene.alloc, scene.set.len() as usize, &bars.rows)?;
    let page = page_for(processors, bars, &listed);
    let mut text = Vec::new(scene.alloc);
    write_around(&mut text, scene, page, &listed, step_of(scene.span()))?;
    write_lanes(&mut text, scene, TOP, page.lanes, &bars.trace)?;
    write_lanes(
        &mut text,
        scene,
        page.strong_top(),
        processors,
        &bars.strong,
    )?;
    write_rows_group(&mut text, scene, page, &listed, &bars.rows)?;
    write_legend(&mut text, scene, page)?;
    put(&mut text, "</svg>\n")?;
    Ok(text)
}

/// The page for these bars and rows.
fn page_for(processors: u8, bars: &Bars, listed: &[usize]) -> Page
    requires processors { processors ≤ 64 }
    requires few { length listed.now ≤ 64 }
    ensures { result ≡ page_for processors bars.now listed.now }
{
    Page {
        processors,
        lanes: lanes_of(processors, &bars.trace),
        rows: listed.len() as u8,
    }
}

/// How many lanes of the trace are drawn: one for each processor, and one more where a bar is on a processor beyond these.
fn lanes_of(processors: u8, bars: &[Bar]) -> u8
    requires { processors ≤ 64 }
    ensures { result ≡ lanes_of processors bars.now }
{
    if has_beyond(processors, bars) {
        processors + 1
    } else {
        processors
    }
}

/// Appends the rows.
#[tactic(auto, unfolding(crate::specs::Picture::rows_group))]
fn write_rows_group(
    text: &mut Vec<u8>,
    scene: &Scene,
    page: Page,
    listed: &[usize],
    bars: &[Bar],
) -> Result<(), OutOfMemory>
    ensures { OnOk result (text.new.items ≡ text.old.items
        ++ rows_group (scene_of scene.now) page listed.now bars.now) }
{
    let rows = u32::from(page.rows);
    write_head(text, scene, page.rows_top(), ROW * rows, 8 * rows)?;
    write_rows(text, scene, listed, bars)?;
    put(text, "</svg>\n")?;
    Ok(())
}
