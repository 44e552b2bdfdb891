//! The bars of the rows: what became of each task.
ghost use Rattle.std.specs.Prelude.{◌≡◌, ◌++◌, OnOk, codes, position};
ghost use Rattle.std.specs.List.{flat_map};
ghost use Rattle.trace_picture.specs.Rows.{is_task, rect_text, row_bar, row_text, title_text, word_of};
ghost use Rattle.trace_picture.specs.Scene.{scene_of};

use crate::around::put;
use crate::lanes::write_extent;
use crate::scene::Scene;
use affinity_mask::OutOfMemory;
use trace_bars::{Bar, Mark};

/// Appends the bars of the rows of the tasks that are listed.
pub(crate) fn write_rows(
    text: &mut Vec<u8>,
    scene: &Scene,
    listed: &[usize],
    bars: &[Bar],
) -> Result<(), OutOfMemory>
    ensures { OnOk result (text.new.items ≡ text.old.items
        ++ flat_map (row_bar (scene_of scene.now) listed.now) bars.now) }
{
    for bar in bars {
        write_row_bar(text, scene, listed, *bar)?;
    }
    Ok(())
}

/// Appends a bar of a row, where its task is listed.
#[tactic(auto, unfolding(crate::specs::Rows::row_bar))]
fn write_row_bar(
    text: &mut Vec<u8>,
    scene: &Scene,
    listed: &[usize],
    bar: Bar,
) -> Result<(), OutOfMemory>
    ensures { OnOk result (text.new.items ≡ text.old.items
        ++ row_bar (scene_of scene.now) listed.now bar) }
{
    match row_of(listed, bar.thread) {
        Some(row) => write_bar(text, scene, row, bar),
        None => Ok(()),
    }
}

/// The row in which a task is listed, if it is.
fn row_of(listed: &[usize], thread: usize) -> Option<usize>
    ensures { result ≡ position (is_task thread) listed.now }
{
    listed.iter().position(|task| *task == thread)
}

/// Appends a bar of a row.
#[tactic(auto, unfolding(crate::specs::Rows::row_text))]
fn write_bar(text: &mut Vec<u8>, scene: &Scene, row: usize, bar: Bar) -> Result<(), OutOfMemory>
    ensures { OnOk result (text.new.items ≡ text.old.items
        ++ row_text (scene_of scene.now) row bar) }
{
    write_rect(text, scene, row, bar)?;
    write_title(text, scene, bar)?;
    write_extent(text, scene, bar)?;
    Ok(())
}

/// Appends where a bar of a row is.
#[tactic(auto, unfolding(crate::specs::Rows::rect_text))]
fn write_rect(text: &mut Vec<u8>, scene: &Scene, row: usize, bar: Bar) -> Result<(), OutOfMemory>
    ensures { OnOk result (text.new.items ≡ text.old.items
        ++ rect_text (scene_of scene.now) row bar) }
{
    let word = word_of(bar.mark);
    let colour = bar.thread % 24;
    let x = scene.along(bar.from);
    let y = 8 * row as u128 + 2;
    let wide = bar.to.saturating_sub(bar.from);
    let line = format!(in scene.alloc;
        "<rect class=\"c{colour} {word}\" x=\"{x}\" y=\"{y}\" width=\"{wide}\" height=\"4\">"
    )?;
    put(text, &line)?;
    Ok(())
}

/// Appends of whom a bar says what.
#[tactic(auto, unfolding(crate::specs::Rows::title_text))]
fn write_title(text: &mut Vec<u8>, scene: &Scene, bar: Bar) -> Result<(), OutOfMemory>
    ensures { OnOk result (text.new.items ≡ text.old.items ++ title_text (scene_of scene.now) bar) }
{
    let word = word_of(bar.mark);
    let name = scene.name(bar.thread);
    let line = format!(in scene.alloc; "<title>{name} {word}")?;
    put(text, &line)?;
    Ok(())
}

/// What a row says of a task.
fn word_of(mark: Mark) -> &'static str
    ensures { result.now ≡ word_of mark }
{
    match mark {
        Mark::Runs(_) | Mark::Linked(_) | Mark::Ran => "ran",
        Mark::Lost => "lost",
        Mark::Waits => "waited",
    }
}
