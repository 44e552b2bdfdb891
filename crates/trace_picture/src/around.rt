//! What stands around the bars of a picture: the title, the axis, the names and the legend.
ghost use Rattle.std.specs.Prelude.{◌≡◌, ◌≤◌, ◌++◌, OnOk};
ghost use Rattle.std.specs.List.{flat_map, range_with_len};
ghost use Rattle.trace_picture.specs.Around.{around_text, opening_text, title_text, headings_text, tick_line, tick_label, tick_stamp, tick_text, tick_at, axis_text, label_text, labels_text, other_text, beyond_text, task_text, tasks_text, group_head, style_text, legend_of_tasks, legend_of, meaning_text, legend_of_white, legend_text};
ghost use Rattle.trace_picture.specs.Scene.{scene_of, span_of};

use crate::page::{LANE, Page, ROW, TOP};
use crate::scene::Scene;
use affinity_mask::OutOfMemory;
use kernel_trace::stamp_text::write_stamp_after;
use text_fields::write_number;

/// At how many places there may be a line of the axis.
const PLACES: u64 = 14;

/// Appends some text.
pub(crate) fn put(text: &mut Vec<u8>, line: &str) -> Result<(), OutOfMemory>
    ensures { OnOk result (text.new.items ≡ text.old.items ++ line.now) }
{
    text.extend_from_slice(line.as_bytes())?;
    Ok(())
}

/// Appends all that stands before the bars.
pub(crate) fn write_around(
    text: &mut Vec<u8>,
    scene: &Scene,
    page: Page,
    listed: &[usize],
    step: u64,
) -> Result<(), OutOfMemory>
    requires { 1 ≤ step }
    ensures { OnOk result (text.new.items ≡ text.old.items
        ++ around_text (scene_of scene.now) page listed.now step) }
{
    write_opening(text, scene, page)?;
    write_title(text, scene)?;
    write_headings(text, scene, page)?;
    write_axis(text, scene, page, step)?;
    write_labels(text, scene, TOP, page.processors)?;
    write_beyond(text, scene, page)?;
    write_labels(text, scene, page.strong_top(), page.processors)?;
    write_tasks(text, scene, page.rows_top(), listed)?;
    Ok(())
}

/// Appends the beginning of the page.
#[tactic(auto, unfolding(crate::specs::Around::opening_text))]
fn write_opening(text: &mut Vec<u8>, scene: &Scene, page: Page) -> Result<(), OutOfMemory>
    ensures { OnOk result (text.new.items ≡ text.old.items ++ opening_text page) }
{
    let height = page.bottom() + 64;
    let line = format!(in scene.alloc;
        "<svg xmlns=\"http://www.w3.org/2000/svg\" width=\"1240\" height=\"{height}\" viewBox=\"0 0 1240 {height}\" font-family=\"DejaVu Sans,Arial,sans-serif\" font-size=\"11\">\n<rect width=\"1240\" height=\"{height}\" fill=\"#fff\"/>\n<style>"
    )?;
    put(text, &line)?;
    put(text, style())?;
    put(text, "</style>\n")?;
    Ok(())
}

/// The colours: of tasks by their numbers, light ones, so that a name can be read on each; of lost spans, and of waits.
#[tactic(auto, unfolding(crate::specs::Around::style_text))]
fn style() -> &'static str
    ensures { result.now ≡ style_text }
{
    ".c0{fill:#a6cee3}.c1{fill:#fdbf6f}.c2{fill:#b2df8a}.c3{fill:#a5ebe3}.c4{fill:#cab2d6}.c5{fill:#ffff99}.c6{fill:#8dd3c7}.c7{fill:#f4cae4}.c8{fill:#d9c3a5}.c9{fill:#9ec9ff}.c10{fill:#c7e89c}.c11{fill:#ffc9a3}.c12{fill:#7fc8d9}.c13{fill:#e8d174}.c14{fill:#8fd19e}.c15{fill:#94a8d8}.c16{fill:#b59ad0}.c17{fill:#e3e36b}.c18{fill:#66c2a5}.c19{fill:#e5a0c8}.c20{fill:#bfa27c}.c21{fill:#77a8e6}.c22{fill:#a3cf62}.c23{fill:#ffab73}.c24{fill:#bbb}.lost{fill:#d9534f}.waited{fill:#ddd}"
}

/// Appends the title.
#[tactic(auto, unfolding(crate::specs::Around::title_text))]
fn write_title(text: &mut Vec<u8>, scene: &Scene) -> Result<(), OutOfMemory>
    ensures { OnOk result (text.new.items ≡ text.old.items ++ title_text (scene_of scene.now)) }
{
    let processors = scene.set.processors();
    let tasks = scene.set.len();
    let from = scene.part.from;
    let to = scene.part.to;
    let line = format!(in scene.alloc;
        "<text x=\"8\" y=\"16\" font-weight=\"bold\">{processors} processors, {tasks} tasks, from {from} to {to} us, at "
    )?;
    put(text, &line)?;
    write_stamp_after(text, scene.clock, from)?;
    put(text, "</text>\n")?;
    Ok(())
}

/// Appends what the lanes and the rows are.
#[tactic(auto, unfolding(crate::specs::Around::headings_text))]
fn write_headings(text: &mut Vec<u8>, scene: &Scene, page: Page) -> Result<(), OutOfMemory>
    ensures { OnOk result (text.new.items ≡ text.old.items ++ headings_text page) }
{
    let strong = page.strong_top() - 8;
    let rows = page.rows_top() - 8;
    let line = format!(in scene.alloc;
        "<text x=\"8\" y=\"48\" fill=\"#666\">in the trace</text>\n<text x=\"8\" y=\"{strong}\" fill=\"#666\">under strong scheduling</text>\n<text x=\"8\" y=\"{rows}\" fill=\"#666\">tasks</text>\n"
    )?;
    put(text, &line)?;
    Ok(())
}

/// The distance of the lines of the axis: 1, 2 or 5 times a power of ten, so that there are at most 13.
pub(crate) fn step_of(span: u64) -> u64
    ensures { 1 ≤ result }
{
    let mut step = 1u64;
    for i in 0..60u32 {
        if span / step.max(1) <= 12 {
            break;
        }
        let next = if i % 3 == 1 {
            (step / 2).saturating_mul(5)
        } else {
            step.saturating_mul(2)
        };
        step = next.max(1);
    }
    step.max(1)
}

/// Appends the axis: a line at each multiple of the step within the part.
#[tactic(auto, unfolding(crate::specs::Around::axis_text))]
fn write_axis(text: &mut Vec<u8>, scene: &Scene, page: Page, step: u64) -> Result<(), OutOfMemory>
    requires { 1 ≤ step }
    ensures { OnOk result (text.new.items ≡ text.old.items
        ++ axis_text (scene_of scene.now) page step) }
{
    let bottom = page.bottom();
    for i in 0..PLACES {
        write_tick_at(text, scene, bottom, step, i)?;
    }
    let below = bottom + 14;
    let under = bottom + 27;
    let line = format!(in scene.alloc;
        "<text x=\"8\" y=\"{below}\" fill=\"#666\">ms</text>\n<text x=\"8\" y=\"{under}\" fill=\"#666\">clock</text>\n"
    )?;
    put(text, &line)?;
    Ok(())
}

/// Appends the line of the i-th multiple of the step from the last one on that is not after the beginning of the part, where it is in
/// the part.
#[tactic(auto, unfolding(crate::specs::Around::tick_at))]
fn write_tick_at(
    text: &mut Vec<u8>,
    scene: &Scene,
    bottom: u32,
    step: u64,
    i: u64,
) -> Result<(), OutOfMemory>
    requires some { 1 ≤ step }
    requires few { i ≤ 13 }
    requires page { bottom ≤ 65535 }
    ensures { OnOk result (text.new.items ≡ text.old.items
        ++ tick_at (scene_of scene.now) bottom step i) }
{
    let from = scene.part.from;
    let place = u128::from(from - from % step) + u128::from(i) * u128::from(step);
    if place < u128::from(from) || u128::from(scene.part.to) < place {
        return Ok(());
    }
    write_tick(text, scene, bottom, place as u64)
}

/// Appends the line of a moment.
#[tactic(auto, unfolding(crate::specs::Around::tick_text))]
fn write_tick(
    text: &mut Vec<u8>,
    scene: &Scene,
    bottom: u32,
    moment: u64,
) -> Result<(), OutOfMemory>
    requires { bottom ≤ 65535 }
    ensures { OnOk result (text.new.items ≡ text.old.items
        ++ tick_text (scene_of scene.now) bottom moment) }
{
    let x = scene.across(moment);
    write_tick_line(text, scene, bottom, x)?;
    write_tick_label(text, scene, bottom, x, moment)?;
    write_tick_stamp(text, scene, bottom, x, moment)?;
    Ok(())
}

/// Appends a line of the axis.
#[tactic(auto, unfolding(crate::specs::Around::tick_line))]
fn write_tick_line(
    text: &mut Vec<u8>,
    scene: &Scene,
    bottom: u32,
    x: u128,
) -> Result<(), OutOfMemory>
    ensures { OnOk result (text.new.items ≡ text.old.items ++ tick_line bottom x) }
{
    let line = format!(in scene.alloc; "<path d=\"M{x},52 V{bottom}\" stroke=\"#ddd\"/>")?;
    put(text, &line)?;
    Ok(())
}

/// Appends the milliseconds of a moment below its line.
#[tactic(auto, unfolding(crate::specs::Around::tick_label))]
fn write_tick_label(
    text: &mut Vec<u8>,
    scene: &Scene,
    bottom: u32,
    x: u128,
    moment: u64,
) -> Result<(), OutOfMemory>
    requires { bottom ≤ 65535 }
    ensures { OnOk result (text.new.items ≡ text.old.items ++ tick_label bottom x moment) }
{
    let below = bottom + 14;
    let ms = moment / 1000;
    let tenths = moment / 100 % 10;
    let hundredths = moment / 10 % 10;
    let thousandths = moment % 10;
    let line = format!(in scene.alloc;
        "<text x=\"{x}\" y=\"{below}\" text-anchor=\"middle\">{ms}.{tenths}{hundredths}{thousandths}</text>"
    )?;
    put(text, &line)?;
    Ok(())
}

/// Appends the clock of a moment below its milliseconds.
#[tactic(auto, unfolding(crate::specs::Around::tick_stamp))]
fn write_tick_stamp(
    text: &mut Vec<u8>,
    scene: &Scene,
    bottom: u32,
    x: u128,
    moment: u64,
) -> Result<(), OutOfMemory>
    requires { bottom ≤ 65535 }
    ensures { OnOk result (text.new.items ≡ text.old.items
        ++ tick_stamp scene.now.clock bottom x moment) }
{
    let under = bottom + 27;
    let line = format!(in scene.alloc;
        "<text x=\"{x}\" y=\"{under}\" text-anchor=\"middle\" font-size=\"9\" fill=\"#666\">"
    )?;
    put(text, &line)?;
    write_stamp_after(text, scene.clock, moment)?;
    put(text, "</text>\n")?;
    Ok(())
}

/// Appends the names of so many processors, and a line below each lane.
fn write_labels(text: &mut Vec<u8>, scene: &Scene, top: u32, count: u8) -> Result<(), OutOfMemory>
    requires { top ≤ 65535 }
    ensures { OnOk result (text.new.items ≡ text.old.items ++ labels_text top count) }
{
    for p in 0..count {
        write_label(text, scene, top, p)?;
    }
    Ok(())
}

/// Appends those of a processor.
#[tactic(auto, unfolding(crate::specs::Around::label_text))]
fn write_label(text: &mut Vec<u8>, scene: &Scene, top: u32, p: u8) -> Result<(), OutOfMemory>
    requires { top ≤ 65535 }
    ensures { OnOk result (text.new.items ≡ text.old.items ++ label_text top p) }
{
    let y = top + LANE * u32::from(p) + 16;
    let under = top + LANE * u32::from(p) + 24;
    let line = format!(in scene.alloc;
        "<text x=\"192\" y=\"{y}\" text-anchor=\"end\">cpu {p}</text><path d=\"M200,{under} h1000\" stroke=\"#ccc\"/>\n"
    )?;
    put(text, &line)?;
    Ok(())
}

/// Appends the name of the lane of processors beyond, where there is one.
#[tactic(auto, unfolding(crate::specs::Around::beyond_text))]
fn write_beyond(text: &mut Vec<u8>, scene: &Scene, page: Page) -> Result<(), OutOfMemory>
    ensures { OnOk result (text.new.items ≡ text.old.items ++ beyond_text page) }
{
    if page.lanes <= page.processors {
        return Ok(());
    }
    write_other(text, scene, page.processors)
}

/// Appends the name of the lane of processors beyond, and a line below it.
#[tactic(auto, unfolding(crate::specs::Around::other_text))]
fn write_other(text: &mut Vec<u8>, scene: &Scene, lane: u8) -> Result<(), OutOfMemory>
    ensures { OnOk result (text.new.items ≡ text.old.items ++ other_text lane) }
{
    let y = TOP + LANE * u32::from(lane) + 16;
    let under = TOP + LANE * u32::from(lane) + 24;
    let line = format!(in scene.alloc;
        "<text x=\"192\" y=\"{y}\" text-anchor=\"end\">other cpus</text><path d=\"M200,{under} h1000\" stroke=\"#ccc\"/>\n"
    )?;
    put(text, &line)?;
    Ok(())
}

/// Appends the colours and the names of the tasks that are listed, and a line below each row.
fn write_tasks(
    text: &mut Vec<u8>,
    scene: &Scene,
    top: u32,
    listed: &[usize],
) -> Result<(), OutOfMemory>
    ensures { OnOk result (text.new.items ≡ text.old.items
        ++ tasks_text (scene_of scene.now) top 0 listed.now) }
{
    for k in 0..listed.len() {
        write_task(text, scene, top, k, listed[k])?;
    }
    Ok(())
}

/// Appends those of a task.
#[tactic(auto, unfolding(crate::specs::Around::task_text))]
fn write_task(
    text: &mut Vec<u8>,
    scene: &Scene,
    top: u32,
    k: usize,
    task: usize,
) -> Result<(), OutOfMemory>
    ensures { OnOk result (text.new.items ≡ text.old.items
        ++ task_text (scene_of scene.now) top k task) }
{
    let row = u128::from(top) + u128::from(ROW) * k as u128;
    let box_top = row + 3;
    let y = row + 12;
    let under = row + 16;
    let colour = task % 24;
    let name = scene.name(task);
    let line = format!(in scene.alloc;
        "<rect class=\"c{colour}\" x=\"4\" y=\"{box_top}\" width=\"10\" height=\"10\"/><text x=\"20\" y=\"{y}\">{name}</text><path d=\"M200,{under} h1000\" stroke=\"#eee\"/>\n"
    )?;
    put(text, &line)?;
    Ok(())
}

/// Appends the beginning of a group of bars, with its place on the page and its view box: the part, and eight for each lane or row.
#[tactic(auto, unfolding(crate::specs::Around::group_head))]
pub(crate) fn write_head(
    text: &mut Vec<u8>,
    scene: &Scene,
    top: u32,
    high: u32,
    eighths: u32,
) -> Result<(), OutOfMemory>
    ensures { OnOk result (text.new.items ≡ text.old.items
        ++ group_head (span_of scene.now.part) top high eighths) }
{
    let span = scene.span();
    let line = format!(in scene.alloc;
        "<svg x=\"200\" y=\"{top}\" width=\"1000\" height=\"{high}\" viewBox=\"0 0 {span} {eighths}\" preserveAspectRatio=\"none\">\n"
    )?;
    put(text, &line)?;
    Ok(())
}

/// Appends the legend.
#[tactic(auto, unfolding(crate::specs::Around::legend_text))]
pub(crate) fn write_legend(text: &mut Vec<u8>, scene: &Scene, page: Page) -> Result<(), OutOfMemory>
    ensures { OnOk result (text.new.items ≡ text.old.items ++ legend_text page) }
{
    let bottom = page.bottom();
    write_legend_of_tasks(text, scene, bottom)?;
    write_legend_of(
        text,
        scene,
        bottom,
        262,
        "lost",
        "lost: in the best set, and ran nowhere",
    )?;
    write_legend_of(
        text,
        scene,
        bottom,
        522,
        "waited",
        "waited, as under strong scheduling",
    )?;
    write_legend_of_white(text, scene, bottom)?;
    Ok(())
}

/// Appends what the colours of tasks mean, of which three stand for all.
#[tactic(auto, unfolding(crate::specs::Around::legend_of_tasks))]
fn write_legend_of_tasks(text: &mut Vec<u8>, scene: &Scene, bottom: u32) -> Result<(), OutOfMemory>
    requires { bottom ≤ 65535 }
    ensures { OnOk result (text.new.items ≡ text.old.items ++ legend_of_tasks bottom) }
{
    let top = bottom + 41;
    let y = bottom + 50;
    let line = format!(in scene.alloc;
        "<rect class=\"c0\" x=\"200\" y=\"{top}\" width=\"8\" height=\"9\"/><rect class=\"c1\" x=\"208\" y=\"{top}\" width=\"8\" height=\"9\"/><rect class=\"c2\" x=\"216\" y=\"{top}\" width=\"8\" height=\"9\"/><text x=\"228\" y=\"{y}\" fill=\"#666\">ran</text>"
    )?;
    put(text, &line)?;
    Ok(())
}

/// Appends what the colour of a class means.
#[tactic(auto, unfolding(crate::specs::Around::legend_of))]
fn write_legend_of(
    text: &mut Vec<u8>,
    scene: &Scene,
    bottom: u32,
    x: u16,
    class: &str,
    meaning: &str,
) -> Result<(), OutOfMemory>
    requires { bottom ≤ 65535 }
    ensures { OnOk result (text.new.items ≡ text.old.items
        ++ legend_of bottom x class.now meaning.now) }
{
    let top = bottom + 41;
    let line = format!(in scene.alloc;
        "<rect class=\"{class}\" x=\"{x}\" y=\"{top}\" width=\"24\" height=\"9\"/>"
    )?;
    put(text, &line)?;
    write_meaning(text, scene, bottom, u32::from(x) + 28, meaning)?;
    Ok(())
}

/// Appends what a colour means.
#[tactic(auto, unfolding(crate::specs::Around::meaning_text))]
fn write_meaning(
    text: &mut Vec<u8>,
    scene: &Scene,
    bottom: u32,
    x: u32,
    meaning: &str,
) -> Result<(), OutOfMemory>
    requires { bottom ≤ 65535 }
    ensures { OnOk result (text.new.items ≡ text.old.items ++ meaning_text bottom x meaning.now) }
{
    let y = bottom + 50;
    let line = format!(in scene.alloc; "<text x=\"{x}\" y=\"{y}\" fill=\"#666\">{meaning}</text>")?;
    put(text, &line)?;
    Ok(())
}

/// Appends what no colour means.
#[tactic(auto, unfolding(crate::specs::Around::legend_of_white))]
fn write_legend_of_white(text: &mut Vec<u8>, scene: &Scene, bottom: u32) -> Result<(), OutOfMemory>
    requires { bottom ≤ 65535 }
    ensures { OnOk result (text.new.items ≡ text.old.items ++ legend_of_white bottom) }
{
    let y = bottom + 50;
    let line = format!(in scene.alloc;
        "<text x=\"770\" y=\"{y}\" fill=\"#666\">grey in a lane: not listed; white: idle, or not of real time</text>\n"
    )?;
    put(text, &line)?;
    Ok(())
}
