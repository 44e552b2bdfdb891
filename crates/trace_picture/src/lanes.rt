//! The lanes of processors: a bar for each stay of a thread, and its name where that fits.
ghost use Rattle.std.specs.Prelude.{◌≡◌, ◌++◌, OnOk};
ghost use Rattle.std.specs.List.{flat_map, list_any};
ghost use Rattle.trace_picture.specs.Lanes.{processor_of, extent_text, bar_text, name_text, middle_text, is_beyond, is_narrow, lane_bar, lane_name, lanes_text};
ghost use Rattle.trace_picture.specs.Scene.{scene_of};

use crate::around::{put, write_head};
use crate::page::LANE;
use crate::scene::Scene;
use affinity_mask::OutOfMemory;
use kernel_trace::stamp_text::write_stamp_after;
use trace_bars::{Bar, Mark};

/// Whether some bar is on a processor beyond so many.
pub(crate) fn has_beyond(processors: u8, bars: &[Bar]) -> bool
    ensures { result ≡ list_any (is_beyond processors) bars.now }
{
    bars.iter().any(|bar| is_beyond(processors, *bar))
}

/// Whether a bar is on a processor beyond so many.
fn is_beyond(processors: u8, bar: Bar) -> bool
    ensures { result ≡ is_beyond processors bar }
{
    match processor_of(bar.mark) {
        Some(p) => u32::from(processors) <= p,
        None => false,
    }
}

/// The processor that a bar of a lane is on.
fn processor_of(mark: Mark) -> Option<u32>
    ensures { result ≡ processor_of mark }
{
    match mark {
        Mark::Runs(p) => Some(p),
        Mark::Linked(p) => Some(u32::from(p)),
        Mark::Ran | Mark::Lost | Mark::Waits => None,
    }
}

/// Appends so many lanes, which begin here from above: the bars, and then the names.
#[tactic(auto, unfolding(crate::specs::Lanes::lanes_text))]
pub(crate) fn write_lanes(
    text: &mut Vec<u8>,
    scene: &Scene,
    top: u32,
    lanes: u8,
    bars: &[Bar],
) -> Result<(), OutOfMemory>
    ensures { OnOk result (text.new.items ≡ text.old.items
        ++ lanes_text (scene_of scene.now) top lanes bars.now) }
{
    let count = u32::from(lanes);
    write_head(text, scene, top, LANE * count, 8 * count)?;
    write_bars(text, scene, bars)?;
    put(text, "</svg>\n")?;
    write_names(text, scene, top, bars)?;
    Ok(())
}

/// Appends the bars of the lanes.
fn write_bars(text: &mut Vec<u8>, scene: &Scene, bars: &[Bar]) -> Result<(), OutOfMemory>
    ensures { OnOk result (text.new.items ≡ text.old.items
        ++ flat_map (lane_bar (scene_of scene.now)) bars.now) }
{
    for bar in bars {
        write_lane_bar(text, scene, *bar)?;
    }
    Ok(())
}

/// Appends a bar, where it is one of a lane.
#[tactic(auto, unfolding(crate::specs::Lanes::lane_bar))]
fn write_lane_bar(text: &mut Vec<u8>, scene: &Scene, bar: Bar) -> Result<(), OutOfMemory>
    ensures { OnOk result (text.new.items ≡ text.old.items ++ lane_bar (scene_of scene.now) bar) }
{
    match processor_of(bar.mark) {
        Some(p) => write_bar(text, scene, p, bar),
        None => Ok(()),
    }
}

/// Appends a bar of a processor. Those beyond have one lane, after the others.
#[tactic(auto, unfolding(crate::specs::Lanes::bar_text))]
fn write_bar(text: &mut Vec<u8>, scene: &Scene, p: u32, bar: Bar) -> Result<(), OutOfMemory>
    ensures { OnOk result (text.new.items ≡ text.old.items ++ bar_text (scene_of scene.now) p bar) }
{
    let colour = scene.colour(bar.thread);
    let x = scene.along(bar.from);
    let y = 8 * u64::from(scene.lane(p)) + 1;
    let wide = bar.to.saturating_sub(bar.from);
    let name = scene.name(bar.thread);
    let line = format!(in scene.alloc;
        "<rect class=\"c{colour}\" x=\"{x}\" y=\"{y}\" width=\"{wide}\" height=\"6\"><title>{name} on cpu {p}"
    )?;
    put(text, &line)?;
    write_extent(text, scene, bar)?;
    Ok(())
}

/// Appends when a bar begins and ends, and the end of its element.
#[tactic(auto, unfolding(crate::specs::Lanes::extent_text))]
pub(crate) fn write_extent(text: &mut Vec<u8>, scene: &Scene, bar: Bar) -> Result<(), OutOfMemory>
    ensures { OnOk result (text.new.items ≡ text.old.items ++ extent_text (scene_of scene.now) bar) }
{
    let from = bar.from;
    let to = bar.to;
    let line = format!(in scene.alloc; " from {from} to {to} at ")?;
    put(text, &line)?;
    write_stamp_after(text, scene.clock, from)?;
    put(text, "</title></rect>\n")?;
    Ok(())
}

/// Appends the names of the bars of lanes that begin here from above.
fn write_names(text: &mut Vec<u8>, scene: &Scene, top: u32, bars: &[Bar]) -> Result<(), OutOfMemory>
    ensures { OnOk result (text.new.items ≡ text.old.items
        ++ flat_map (lane_name (scene_of scene.now) top) bars.now) }
{
    for bar in bars {
        write_lane_name(text, scene, top, *bar)?;
    }
    Ok(())
}

/// Appends the name of a bar, where it is one of a lane, and the name fits.
#[tactic(auto, unfolding(crate::specs::Lanes::lane_name))]
fn write_lane_name(text: &mut Vec<u8>, scene: &Scene, top: u32, bar: Bar) -> Result<(), OutOfMemory>
    ensures { OnOk result (text.new.items ≡ text.old.items
        ++ lane_name (scene_of scene.now) top bar) }
{
    match processor_of(bar.mark) {
        Some(p) => write_name(text, scene, top, p, bar),
        None => Ok(()),
    }
}

/// Appends the name of a bar of a processor, where it fits.
#[tactic(auto, unfolding(crate::specs::Lanes::name_text))]
fn write_name(
    text: &mut Vec<u8>,
    scene: &Scene,
    top: u32,
    p: u32,
    bar: Bar,
) -> Result<(), OutOfMemory>
    ensures { OnOk result (text.new.items ≡ text.old.items
        ++ name_text (scene_of scene.now) top p bar) }
{
    if is_narrow(scene, bar) {
        return Ok(());
    }
    write_middle(text, scene, top, p, bar)
}

/// Whether the name of a bar does not fit.
fn is_narrow(scene: &Scene, bar: Bar) -> bool
    ensures { result ≡ is_narrow (scene_of scene.now) bar }
{
    let name = scene.name(bar.thread);
    scene.across(bar.to) < scene.across(bar.from) + 7 * name.len() as u128 + 6
}

/// Appends the name of a bar of a processor in its middle.
#[tactic(auto, unfolding(crate::specs::Lanes::middle_text))]
fn write_middle(
    text: &mut Vec<u8>,
    scene: &Scene,
    top: u32,
    p: u32,
    bar: Bar,
) -> Result<(), OutOfMemory>
    ensures { OnOk result (text.new.items ≡ text.old.items
        ++ middle_text (scene_of scene.now) top p bar) }
{
    let middle = (scene.across(bar.from) + scene.across(bar.to)) / 2;
    let name = scene.name(bar.thread);
    let y = u64::from(top) + 24 * u64::from(scene.lane(p)) + 16;
    let line = format!(in scene.alloc;
        "<text x=\"{middle}\" y=\"{y}\" text-anchor=\"middle\" pointer-events=\"none\">{name}</text>\n"
    )?;
    put(text, &line)?;
    Ok(())
}
