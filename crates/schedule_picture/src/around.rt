//! What stands around the two groups of a picture: the title, the axis, the names, the marks, the arrows and the legend.
//! The clauses say that it is elements, none of them a `rect` with a title, and not which.
ghost use Rattle.std.specs.Prelude.{◌≡◌, ◌++◌, ◌<◌, ◌≤◌, true, All, length, IfOk, OnOk};
ghost use Rattle.schedule_text.specs.ScheduleText.{IsEntryOf};
ghost use Rattle.text_fields.specs.EventText.{IsAboutSet};
ghost use Rattle.schedule_picture.specs.Labels.{label_step};
ghost use Rattle.schedule_picture.specs.Elements.{BeginsText, Ends, GoesOn, Keeps, are_plain, opens_picture};

use crate::axis::{Axis, Facts};
use crate::colours::colour_of;
use crate::groups::{write_field, write_word};
use crate::page::{LANE, LEFT, Page, ROW};
use crate::sheet::{Sheet, spans_at};
use crate::span::{Seen, Span};
use crate::track::Track;
use crate::tracks::Tracks;
use affinity_mask::OutOfMemory;
use strong_apa::Entry;
use task_set::Event;
use text_fields::write_event_text;

/// How wide a letter of a name is.
const LETTER: u32 = 7;

/// How many columns have a label each. Of more at most half as many have one.
const LABELLED_COLUMNS: u64 = 60;

/// How wide a stay is at least that begins with a line where a window has many entries.
const LEAST_LINED: u32 = 4;

/// How far an arrow bends at most.
const LONGEST_BEND: u32 = 16;

/// Appends some text.
fn put(text: &mut Vec<u8>, line: &str) -> Result<(), OutOfMemory>
    ensures { OnOk result (text.new.items ≡ text.old.items ++ line.now) }
{
    text.extend_from_slice(line.as_bytes())?;
    Ok(())
}

/// Appends the beginning of the page.
fn write_opening(text: &mut Vec<u8>, sheet: &Sheet, page: Page) -> Result<(), OutOfMemory>
    ensures { OnOk result (opens_picture text.old.items text.new.items) }
{
    let width = page.width();
    let height = page.bottom() + 24;
    let line = format!(in sheet.alloc;
        "<svg xmlns=\"http://www.w3.org/2000/svg\" width=\"{width}\" height=\"{height}\" viewBox=\"0 0 {width} {height}\" font-family=\"DejaVu Sans,Arial,sans-serif\" font-size=\"11\">\n<rect width=\"{width}\" height=\"{height}\" fill=\"#fff\"/>\n"
    )?;
    put(text, &line)
}

/// Appends the title.
fn write_title(
    text: &mut Vec<u8>,
    sheet: &Sheet,
    page: Page,
    facts: Facts,
) -> Result<(), OutOfMemory>
    ensures { OnOk result (Keeps text.old.items text.new.items) }
{
    let processors = page.lanes;
    let tasks = sheet.set.len();
    let entries = facts.entries;
    let units = facts.units;
    let line = format!(in sheet.alloc;
        "<text x=\"8\" y=\"16\" font-weight=\"bold\">{processors} processors, {tasks} tasks, {entries} entries, {units} units"
    )?;
    put(text, &line)?;
    write_part(text, sheet, facts)?;
    put(text, "</text>\n")
}

/// Appends what the title says of the part that is shown.
fn write_part(text: &mut Vec<u8>, sheet: &Sheet, facts: Facts) -> Result<(), OutOfMemory>
    ensures { OnOk result (Keeps text.old.items text.new.items) }
{
    write_window(text, sheet, facts)?;
    write_hint(text, facts)
}

/// Appends what the title says of the window, where it is not the whole.
#[tactic(auto, using(crate::proofs::Elements::keeps_same))]
fn write_window(text: &mut Vec<u8>, sheet: &Sheet, facts: Facts) -> Result<(), OutOfMemory>
    ensures { OnOk result (Keeps text.old.items text.new.items) }
{
    let from = sheet.window.from;
    let to = sheet.window.to;
    if from == 0 && to == facts.whole {
        return Ok(());
    }
    write_field(text, b", from ", from)?;
    write_field(text, b" to ", to)
}

/// Appends what the title says where the window has too many entries for marks.
#[tactic(auto, using(crate::proofs::Elements::keeps_same))]
fn write_hint(text: &mut Vec<u8>, facts: Facts) -> Result<(), OutOfMemory>
    ensures { OnOk result (Keeps text.old.items text.new.items) }
{
    if facts.few {
        return Ok(());
    }
    put(
        text,
        "; a window of at most 400 entries shows arrivals, departures and moves",
    )
}

/// Appends the axis.
fn write_axis(
    text: &mut Vec<u8>,
    sheet: &Sheet,
    page: Page,
    entries: &[Entry],
) -> Result<(), OutOfMemory>
    requires { All (IsEntryOf sheet.now.set.now) entries.now }
    ensures { OnOk result (Keeps text.old.items text.new.items) }
{
    write_axis_lines(text, sheet, page, entries)?;
    let word: &'static str = axis_word(page.axis);
    let below = page.bottom() + 14;
    let line = format!(in sheet.alloc; "<text x=\"8\" y=\"{below}\">{word}</text>\n")?;
    put(text, &line)
}

/// What the axis counts.
fn axis_word(axis: Axis) -> &'static str
    ensures { are_plain result.now ≡ true }
{
    match axis {
        Axis::Time => "units",
        Axis::Steps => "entry",
    }
}

/// Appends the lines of the axis.
fn write_axis_lines(
    text: &mut Vec<u8>,
    sheet: &Sheet,
    page: Page,
    entries: &[Entry],
) -> Result<(), OutOfMemory>
    requires { All (IsEntryOf sheet.now.set.now) entries.now }
    ensures { OnOk result (Keeps text.old.items text.new.items) }
{
    match page.axis {
        Axis::Time => write_times(text, sheet, page),
        Axis::Steps => write_columns(text, sheet, page, entries),
    }
}

/// The distance of the lines of a time axis: 1, 2 or 5 times a power of ten, so that there are at most 13.
fn step_of(span: u64) -> u64
    ensures { 1 ≤ result }
{
    let mut step = 1u64;
    for i in 0..60u32 {
        if span / step.max(1) <= 12 {
            break;
        }
        let next = if i % 3 == 1 {
            (step / 2).saturating_mul(5)
        } else {
            step.saturating_mul(2)
        };
        step = next.max(1);
    }
    step.max(1)
}

/// Appends a line at each round number of units.
fn write_times(text: &mut Vec<u8>, sheet: &Sheet, page: Page) -> Result<(), OutOfMemory>
    ensures { OnOk result (Keeps text.old.items text.new.items) }
{
    let step = step_of(sheet.span());
    let first = sheet.window.from.saturating_add(step - 1) / step;
    for i in 0..14u64 {
        let place = first.saturating_add(i).saturating_mul(step);
        if place > sheet.window.to {
            return Ok(());
        }
        write_time(text, sheet, page, place)?;
    }
    Ok(())
}

/// Appends the line of a number of units.
fn write_time(text: &mut Vec<u8>, sheet: &Sheet, page: Page, place: u64) -> Result<(), OutOfMemory>
    ensures { OnOk result (Keeps text.old.items text.new.items) }
{
    let above = u32::from(page.top).saturating_sub(4);
    let bottom = page.bottom();
    let below = bottom + 14;
    let x = page.across(sheet, place);
    let line = format!(in sheet.alloc;
        "<path d=\"M{x},{above} V{bottom}\" stroke=\"#ddd\"/><text x=\"{x}\" y=\"{below}\" text-anchor=\"middle\">{place}</text>\n"
    )?;
    put(text, &line)
}

/// Of so many columns each which one has a label.
fn label_step(columns: u64) -> u64
    ensures value { result ≡ label_step columns }
    ensures at_least_one { 1 ≤ result }
{
    if columns <= LABELLED_COLUMNS {
        1
    } else {
        (columns - 1) / (LABELLED_COLUMNS / 2) + 1
    }
}

/// Appends a line and a label at the entries of the window, or at each n-th where they are many.
fn write_columns(
    text: &mut Vec<u8>,
    sheet: &Sheet,
    page: Page,
    entries: &[Entry],
) -> Result<(), OutOfMemory>
    requires { All (IsEntryOf sheet.now.set.now) entries.now }
    ensures { OnOk result (Keeps text.old.items text.new.items) }
{
    let step = label_step(sheet.span());
    for i in 0..entries.len() {
        write_column(text, sheet, page, entries, i, step)?;
    }
    Ok(())
}

/// Appends the line and the label of an entry, where the window has it and its number is a multiple of the step.
#[tactic(auto, using(crate::proofs::Elements::keeps_same))]
fn write_column(
    text: &mut Vec<u8>,
    sheet: &Sheet,
    page: Page,
    entries: &[Entry],
    i: usize,
    step: u64,
) -> Result<(), OutOfMemory>
    requires about { All (IsEntryOf sheet.now.set.now) entries.now }
    requires there { i < length entries.now }
    requires some { 1 ≤ step }
    ensures { OnOk result (Keeps text.old.items text.new.items) }
{
    let place = i as u64;
    if place < sheet.window.from || sheet.window.to <= place || (place + 1) % step != 0 {
        return Ok(());
    }
    write_label(text, sheet, page, place, entries[i].event)?;
    write_number_of(text, sheet, page, place)
}

/// Appends the line of a column, and the event above it.
fn write_label(
    text: &mut Vec<u8>,
    sheet: &Sheet,
    page: Page,
    place: u64,
    event: Event,
) -> Result<(), OutOfMemory>
    requires { IsAboutSet sheet.now.set.now event }
    ensures { OnOk result (Keeps text.old.items text.new.items) }
{
    let _number = sheet.set.len();
    let x = page.across(sheet, place);
    let turned = (x + page.across(sheet, place.saturating_add(1))) / 2 + 2;
    let above = u32::from(page.top).saturating_sub(4);
    let label = u32::from(page.top).saturating_sub(6);
    let bottom = page.bottom();
    let grey = grey_of(&event);
    let line = format!(in sheet.alloc;
        "<path d=\"M{x},{above} V{bottom}\" stroke=\"#eee\"/><text transform=\"translate({turned},{label}) rotate(-55)\" fill=\"#{grey}{grey}{grey}\">"
    )?;
    put(text, &line)?;
    write_event_text(text, sheet.set, event)?;
    put(text, "</text>\n")
}

/// Appends the number of the entry of a column below it.
fn write_number_of(
    text: &mut Vec<u8>,
    sheet: &Sheet,
    page: Page,
    place: u64,
) -> Result<(), OutOfMemory>
    ensures { OnOk result (Keeps text.old.items text.new.items) }
{
    let number = place.saturating_add(1);
    let middle = (page.across(sheet, place) + page.across(sheet, number)) / 2;
    let below = page.bottom() + 14;
    let line = format!(in sheet.alloc;
        "<text x=\"{middle}\" y=\"{below}\" text-anchor=\"middle\">{number}</text>\n"
    )?;
    put(text, &line)
}

/// How light the label of an event is, as each digit of its colour: time that passes is grey.
fn grey_of(event: &Event) -> u8 {
    match event {
        Event::Tick(_) => 8,
        _ => 0,
    }
}

/// Appends the names of the processors, and a line below each lane.
fn write_processors(text: &mut Vec<u8>, sheet: &Sheet, page: Page) -> Result<(), OutOfMemory>
    ensures { OnOk result (Keeps text.old.items text.new.items) }
{
    for p in 0..page.lanes {
        write_processor(text, sheet, page, p)?;
    }
    Ok(())
}

/// Appends those of a processor.
fn write_processor(text: &mut Vec<u8>, sheet: &Sheet, page: Page, p: u8) -> Result<(), OutOfMemory>
    ensures { OnOk result (Keeps text.old.items text.new.items) }
{
    let left = LEFT;
    let before = LEFT - 8;
    let wide = page.wide;
    let y = page.lane_top(p) + 16;
    let under = page.lane_top(p) + LANE;
    let line = format!(in sheet.alloc;
        "<text x=\"{before}\" y=\"{y}\" text-anchor=\"end\">cpu {p}</text>\n<path d=\"M{left},{under} h{wide}\" stroke=\"#ccc\"/>\n"
    )?;
    put(text, &line)
}

/// Appends a mark where each stay begins, and the names of the tasks where they fit.
fn write_marks(
    text: &mut Vec<u8>,
    sheet: &Sheet,
    page: Page,
    facts: Facts,
    lanes: &[Track],
) -> Result<(), OutOfMemory>
    ensures { OnOk result (Keeps text.old.items text.new.items) }
{
    for p in 0..page.lanes {
        write_lane_marks(text, sheet, page, facts, p, spans_at(lanes, p as usize))?;
    }
    Ok(())
}

/// Appends those of a processor.
fn write_lane_marks(
    text: &mut Vec<u8>,
    sheet: &Sheet,
    page: Page,
    facts: Facts,
    p: u8,
    spans: &[Span],
) -> Result<(), OutOfMemory>
    ensures { OnOk result (Keeps text.old.items text.new.items) }
{
    for span in spans {
        write_mark(text, sheet, page, facts, p, *span)?;
    }
    Ok(())
}

/// Appends the mark of a stay, and the name of its task where it fits, where the stay touches the window.
#[tactic(auto, using(crate::proofs::Elements::keeps_same))]
fn write_mark(
    text: &mut Vec<u8>,
    sheet: &Sheet,
    page: Page,
    facts: Facts,
    p: u8,
    span: Span,
) -> Result<(), OutOfMemory>
    ensures { OnOk result (Keeps text.old.items text.new.items) }
{
    if !sheet.touches(span) {
        return Ok(());
    }
    write_begin(text, sheet, page, facts, p, span)?;
    write_name(text, sheet, page, p, span)
}

/// Appends the mark of a stay, unless there are many and it is narrow.
#[tactic(auto, using(crate::proofs::Elements::keeps_same))]
fn write_begin(
    text: &mut Vec<u8>,
    sheet: &Sheet,
    page: Page,
    facts: Facts,
    p: u8,
    span: Span,
) -> Result<(), OutOfMemory>
    ensures { OnOk result (Keeps text.old.items text.new.items) }
{
    if !facts.few && width_of(sheet, page, span) < LEAST_LINED {
        return Ok(());
    }
    let begin = page.across(sheet, sheet.place(span.from).max(sheet.window.from));
    let y = page.lane_top(p) + LANE / 8;
    let line = format!(in sheet.alloc; "<path d=\"M{begin},{y} v18\" stroke=\"#333\"/>\n")?;
    put(text, &line)
}

/// How wide the part of a span within the window is on the page.
fn width_of(sheet: &Sheet, page: Page, span: Span) -> u32 {
    match sheet.part(span) {
        Some(part) => page
            .across(sheet, part.1)
            .saturating_sub(page.across(sheet, part.0)),
        None => 0,
    }
}

/// Appends the name of the task of a stay where it fits.
#[tactic(auto, using(crate::proofs::Elements::keeps_same))]
fn write_name(
    text: &mut Vec<u8>,
    sheet: &Sheet,
    page: Page,
    p: u8,
    span: Span,
) -> Result<(), OutOfMemory>
    ensures { OnOk result (Keeps text.old.items text.new.items) }
{
    let (Some(part), Seen::Task(t)) = (sheet.part(span), span.what) else {
        return Ok(());
    };
    let begin = page.across(sheet, part.0);
    let end = page.across(sheet, part.1);
    let name = sheet.name(t);
    let needed = LETTER * (name.len().min(100) as u32) + 6;
    if end.saturating_sub(begin) < needed {
        return Ok(());
    }
    let middle = (begin + end) / 2;
    let y = page.lane_top(p) + 16;
    let line = format!(in sheet.alloc;
        "<text x=\"{middle}\" y=\"{y}\" text-anchor=\"middle\">{name}</text>\n"
    )?;
    put(text, &line)
}

/// A move of a task from one processor to another, by an entry.
#[derive(Clone, Copy)]
struct Move {
    n: u32,
    t: u32,
    from: u8,
    to: u8,
}

/// Appends an arrow for each move in the window, in the order of the entries, where it has few.
#[tactic(auto, using(crate::proofs::Elements::keeps_same))]
fn write_moves(
    text: &mut Vec<u8>,
    sheet: &Sheet,
    page: Page,
    facts: Facts,
    rows: &[Track],
) -> Result<(), OutOfMemory>
    ensures { OnOk result (Keeps text.old.items text.new.items) }
{
    if !facts.few {
        return Ok(());
    }
    let moves = moves_in(sheet, rows)?;
    write_arrows(text, sheet, page, &moves)
}

/// The moves in the window, in the order of the entries.
fn moves_in(sheet: &Sheet, rows: &[Track]) -> Result<Vec<Move>, OutOfMemory> {
    let mut moves = Vec::new(sheet.alloc);
    for t in 0..sheet.set.len() {
        add_moves(&mut moves, sheet, t, spans_at(rows, t as usize))?;
    }
    moves.sort_by_key(|found: &Move| found.n)?;
    Ok(moves)
}

/// Appends the arrows of moves.
fn write_arrows(
    text: &mut Vec<u8>,
    sheet: &Sheet,
    page: Page,
    moves: &[Move],
) -> Result<(), OutOfMemory>
    ensures { OnOk result (Keeps text.old.items text.new.items) }
{
    for found in moves {
        write_arrow(text, sheet, page, *found)?;
    }
    Ok(())
}

/// Lists the moves of a task in the window.
fn add_moves(
    moves: &mut Vec<Move>,
    sheet: &Sheet,
    t: u32,
    spans: &[Span],
) -> Result<(), OutOfMemory> {
    for i in 1..spans.len() {
        let before = spans[i - 1];
        let after = spans[i];
        if let (Seen::Processor(from), Seen::Processor(to)) = (before.what, after.what) {
            if before.until == after.from && sheet.shows(after.from) {
                let n = after.from;
                moves.push(Move { n, t, from, to })?;
            }
        }
    }
    Ok(())
}

/// Appends the arrow of a move.
fn write_arrow(
    text: &mut Vec<u8>,
    sheet: &Sheet,
    page: Page,
    found: Move,
) -> Result<(), OutOfMemory>
    ensures { OnOk result (Keeps text.old.items text.new.items) }
{
    let x = page.across(sheet, sheet.place(found.n));
    let z = page.lane_top(found.to) + LANE / 2;
    let far = beside(x, 6);
    let near = beside(x, 5);
    let over = z.saturating_sub(3);
    let under = z + 3;
    write_curve(text, sheet, page, found)?;
    let line = format!(in sheet.alloc; "<path d=\"M{x},{z} L{far},{over} L{near},{under} z\"/>\n")?;
    put(text, &line)
}

/// So far beside a place: to its left, or to its right where the names of the processors stand at its left.
fn beside(x: u32, far: u32) -> u32 {
    if x < LEFT + LONGEST_BEND {
        x.saturating_add(far)
    } else {
        x.saturating_sub(far)
    }
}

/// Appends the curve of a move, with a title.
fn write_curve(
    text: &mut Vec<u8>,
    sheet: &Sheet,
    page: Page,
    found: Move,
) -> Result<(), OutOfMemory>
    ensures { OnOk result (Keeps text.old.items text.new.items) }
{
    let x = page.across(sheet, sheet.place(found.n));
    let y = page.lane_top(found.from) + LANE / 2;
    let z = page.lane_top(found.to) + LANE / 2;
    let lanes = found.from.max(found.to) - found.from.min(found.to);
    let beside = beside(x, (5 + 3 * u32::from(lanes)).min(LONGEST_BEND));
    let line = format!(in sheet.alloc;
        "<path class=\"move\" d=\"M{x},{y} C{beside},{y} {beside},{z} {x},{z}\" fill=\"none\" stroke=\"#000\"><title>"
    )?;
    put(text, &line)?;
    write_move_title(text, sheet, found)?;
    put(text, "</title></path>")
}

/// Appends who moves, from where and to where.
fn write_move_title(text: &mut Vec<u8>, sheet: &Sheet, found: Move) -> Result<(), OutOfMemory>
    ensures { OnOk result (Keeps text.old.items text.new.items) }
{
    write_word(text, sheet.name(found.t).as_bytes())?;
    write_field(text, b" from cpu ", u64::from(found.from))?;
    write_field(text, b" to cpu ", u64::from(found.to))
}

/// Appends the legend.
fn write_legend(
    text: &mut Vec<u8>,
    sheet: &Sheet,
    page: Page,
    facts: Facts,
) -> Result<(), OutOfMemory>
    ensures { OnOk result (Keeps text.old.items text.new.items) }
{
    write_legend_of_colours(text, sheet, page)?;
    write_legend_of_marks(text, sheet, page, facts)
}

/// Appends what the colours mean: of waits, of three tasks in the place of all, and of absences.
fn write_legend_of_colours(text: &mut Vec<u8>, sheet: &Sheet, page: Page) -> Result<(), OutOfMemory>
    ensures { OnOk result (Keeps text.old.items text.new.items) }
{
    let y = page.rows_top().saturating_sub(8);
    let box_top = page.rows_top().saturating_sub(16);
    let line = format!(in sheet.alloc;
        "<text x=\"8\" y=\"{y}\" fill=\"#666\">task, priority, mask</text><rect x=\"200\" y=\"{box_top}\" width=\"14\" height=\"9\" fill=\"#d9534f\"/><text x=\"218\" y=\"{y}\" fill=\"#666\">waits</text><rect x=\"260\" y=\"{box_top}\" width=\"8\" height=\"9\" fill=\"#a6cee3\"/><rect x=\"268\" y=\"{box_top}\" width=\"8\" height=\"9\" fill=\"#fdbf6f\"/><rect x=\"276\" y=\"{box_top}\" width=\"8\" height=\"9\" fill=\"#b2df8a\"/><text x=\"288\" y=\"{y}\" fill=\"#666\">linked to a cpu</text><rect x=\"386\" y=\"{box_top}\" width=\"14\" height=\"9\" fill=\"#ccc\"/><text x=\"404\" y=\"{y}\" fill=\"#666\">off line</text>\n"
    )?;
    put(text, &line)
}

/// Appends what the triangles and the arrows mean, where there are some.
#[tactic(auto, using(crate::proofs::Elements::keeps_same))]
fn write_legend_of_marks(
    text: &mut Vec<u8>,
    sheet: &Sheet,
    page: Page,
    facts: Facts,
) -> Result<(), OutOfMemory>
    ensures { OnOk result (Keeps text.old.items text.new.items) }
{
    if !facts.few {
        return Ok(());
    }
    let y = page.rows_top().saturating_sub(8);
    let top = page.rows_top().saturating_sub(14);
    let middle = page.rows_top().saturating_sub(12);
    let line = format!(in sheet.alloc;
        "<path d=\"M464,{top} l3,5 l-6,0 z\"/><text x=\"471\" y=\"{y}\" fill=\"#666\">ready</text><path d=\"M517,{y} l3,-5 l-6,0 z\" fill=\"#777\"/><text x=\"524\" y=\"{y}\" fill=\"#666\">absent</text><path d=\"M574,{middle} h14 m-6,-3 l6,3 l-6,3 z\" stroke=\"#000\"/><text x=\"594\" y=\"{y}\" fill=\"#666\">moves</text>\n"
    )?;
    put(text, &line)
}

/// Appends the name, the priority and the mask of each task that is listed.
fn write_names(
    text: &mut Vec<u8>,
    sheet: &Sheet,
    page: Page,
    listed: &[u32],
) -> Result<(), OutOfMemory>
    ensures { OnOk result (Keeps text.old.items text.new.items) }
{
    for k in 0..page.rows {
        write_task(text, sheet, page, k, listed)?;
    }
    Ok(())
}

/// Appends those of a task.
#[tactic(auto, using(crate::proofs::Elements::keeps_same))]
fn write_task(
    text: &mut Vec<u8>,
    sheet: &Sheet,
    page: Page,
    k: u8,
    listed: &[u32],
) -> Result<(), OutOfMemory>
    ensures { OnOk result (Keeps text.old.items text.new.items) }
{
    let t = task_in(listed, k);
    if t >= sheet.set.len() {
        return Ok(());
    }
    write_colour(text, sheet, page, k, t)?;
    write_facts(text, sheet, page, k, t)
}

/// The task that is listed in a row, or a number of no task.
fn task_in(listed: &[u32], k: u8) -> u32 {
    listed.get(k as usize).copied().unwrap_or(u32::MAX)
}

/// Appends a box of the colour of a task.
fn write_colour(
    text: &mut Vec<u8>,
    sheet: &Sheet,
    page: Page,
    k: u8,
    t: u32,
) -> Result<(), OutOfMemory>
    ensures { OnOk result (Keeps text.old.items text.new.items) }
{
    let top = page.row_top(k) + 3;
    let line = format!(in sheet.alloc;
        "<rect x=\"4\" y=\"{top}\" width=\"10\" height=\"10\" fill=\""
    )?;
    put(text, &line)?;
    write_word(text, colour_of(t))?;
    put(text, "\" stroke=\"#555\"/>")
}

/// Appends the name, the priority and the mask of a task, and a line below its row.
fn write_facts(
    text: &mut Vec<u8>,
    sheet: &Sheet,
    page: Page,
    k: u8,
    t: u32,
) -> Result<(), OutOfMemory>
    requires { t < length sheet.now.set.now.tasks }
    ensures { OnOk result (Keeps text.old.items text.new.items) }
{
    let y = page.row_top(k) + 12;
    let name = sheet.name(t);
    let priority = sheet.set.priority(t);
    let head = format!(in sheet.alloc;
        "<text x=\"20\" y=\"{y}\">{name} <tspan fill=\"#666\">{priority} "
    )?;
    put(text, &head)?;
    sheet.set.mask(t).write_list(text)?;
    let left = LEFT;
    let under = page.row_top(k) + ROW;
    let wide = page.wide;
    let line = format!(in sheet.alloc;
        "</tspan></text><path d=\"M{left},{under} h{wide}\" stroke=\"#eee\"/>\n"
    )?;
    put(text, &line)
}

/// Appends the numbers of the processors in the rows, where they fit.
fn write_places(
    text: &mut Vec<u8>,
    sheet: &Sheet,
    page: Page,
    rows: &[Track],
    listed: &[u32],
) -> Result<(), OutOfMemory>
    ensures { OnOk result (Keeps text.old.items text.new.items) }
{
    for k in 0..page.rows {
        let t = task_in(listed, k);
        write_row_places(text, sheet, page, k, spans_at(rows, t as usize))?;
    }
    Ok(())
}

/// Appends those of a task.
fn write_row_places(
    text: &mut Vec<u8>,
    sheet: &Sheet,
    page: Page,
    k: u8,
    spans: &[Span],
) -> Result<(), OutOfMemory>
    ensures { OnOk result (Keeps text.old.items text.new.items) }
{
    for span in spans {
        write_row_place(text, sheet, page, k, *span)?;
    }
    Ok(())
}

/// Appends the number of the processor of a stay, where it fits.
#[tactic(auto, using(crate::proofs::Elements::keeps_same))]
fn write_row_place(
    text: &mut Vec<u8>,
    sheet: &Sheet,
    page: Page,
    k: u8,
    span: Span,
) -> Result<(), OutOfMemory>
    ensures { OnOk result (Keeps text.old.items text.new.items) }
{
    let (Some(part), Seen::Processor(p)) = (sheet.part(span), span.what) else {
        return Ok(());
    };
    let begin = page.across(sheet, part.0);
    let end = page.across(sheet, part.1);
    if end.saturating_sub(begin) < 16 {
        return Ok(());
    }
    let x = (begin + end) / 2;
    let y = page.row_top(k) + 11;
    let line = format!(in sheet.alloc;
        "<text x=\"{x}\" y=\"{y}\" font-size=\"9\" text-anchor=\"middle\">{p}</text>\n"
    )?;
    put(text, &line)
}

/// An arrival or a departure of a task that is listed, by an entry.
#[derive(Clone, Copy)]
struct Turn {
    n: u32,
    k: u8,
    arrives: bool,
}

/// Appends a mark at each arrival and each departure in the window, in the order of the entries, where it has few.
#[tactic(auto, using(crate::proofs::Elements::keeps_same))]
fn write_turns(
    text: &mut Vec<u8>,
    sheet: &Sheet,
    page: Page,
    facts: Facts,
    rows: &[Track],
    listed: &[u32],
) -> Result<(), OutOfMemory>
    ensures { OnOk result (Keeps text.old.items text.new.items) }
{
    if !facts.few {
        return Ok(());
    }
    let turns = turns_in(sheet, page, rows, listed)?;
    write_all_turns(text, sheet, page, &turns)
}

/// The arrivals and departures in the window, in the order of the entries.
fn turns_in(
    sheet: &Sheet,
    page: Page,
    rows: &[Track],
    listed: &[u32],
) -> Result<Vec<Turn>, OutOfMemory> {
    let mut turns = Vec::new(sheet.alloc);
    for k in 0..page.rows {
        let t = task_in(listed, k);
        add_turns(&mut turns, sheet, k, spans_at(rows, t as usize))?;
    }
    turns.sort_by_key(|turn: &Turn| turn.n)?;
    Ok(turns)
}

/// Appends their marks.
fn write_all_turns(
    text: &mut Vec<u8>,
    sheet: &Sheet,
    page: Page,
    turns: &[Turn],
) -> Result<(), OutOfMemory>
    ensures { OnOk result (Keeps text.old.items text.new.items) }
{
    for turn in turns {
        write_turn(text, sheet, page, *turn)?;
    }
    Ok(())
}

/// Lists the arrivals and the departures of a task in the window: where a span begins and none ended, and where one ends
/// and none begins.
fn add_turns(
    turns: &mut Vec<Turn>,
    sheet: &Sheet,
    k: u8,
    spans: &[Span],
) -> Result<(), OutOfMemory> {
    let mut ready_until = 0;
    for span in spans {
        if span.from != ready_until {
            add_turn(turns, sheet, k, ready_until, false)?;
            add_turn(turns, sheet, k, span.from, true)?;
        }
        ready_until = span.until;
    }
    add_turn(turns, sheet, k, ready_until, false)
}

/// Lists an arrival or a departure, where the window shows its entry.
fn add_turn(
    turns: &mut Vec<Turn>,
    sheet: &Sheet,
    k: u8,
    n: u32,
    arrives: bool,
) -> Result<(), OutOfMemory> {
    if n != 0 && n < sheet.end() && sheet.shows(n) {
        turns.push(Turn { n, k, arrives })?;
    }
    Ok(())
}

/// Appends the mark of an arrival or a departure.
fn write_turn(text: &mut Vec<u8>, sheet: &Sheet, page: Page, turn: Turn) -> Result<(), OutOfMemory>
    ensures { OnOk result (Keeps text.old.items text.new.items) }
{
    let x = page.across(sheet, sheet.place(turn.n));
    let y = page.row_top(turn.k);
    if turn.arrives {
        write_arrival(text, sheet, x, y)
    } else {
        write_departure(text, sheet, x, y)
    }
}

/// Appends the mark of an arrival, in a row that begins at y.
fn write_arrival(text: &mut Vec<u8>, sheet: &Sheet, x: u32, y: u32) -> Result<(), OutOfMemory>
    requires { y < 262144 }
    ensures { OnOk result (Keeps text.old.items text.new.items) }
{
    let over = y + 1;
    let line = format!(in sheet.alloc; "<path d=\"M{x},{over} l-3,5 h6 z\"/>\n")?;
    put(text, &line)
}

/// Appends the mark of a departure, in a row that begins at y.
fn write_departure(text: &mut Vec<u8>, sheet: &Sheet, x: u32, y: u32) -> Result<(), OutOfMemory>
    requires { y < 262144 }
    ensures { OnOk result (Keeps text.old.items text.new.items) }
{
    let under = y + ROW - 1;
    let line = format!(in sheet.alloc; "<path d=\"M{x},{under} l-3,-5 h6 z\" fill=\"#777\"/>\n")?;
    put(text, &line)
}

/// The length of the longest label of a column of the window.
pub(crate) fn longest_label(sheet: &Sheet, entries: &[Entry]) -> Result<usize, OutOfMemory>
    requires { All (IsEntryOf sheet.now.set.now) entries.now }
{
    let mut longest = 0;
    for i in 0..entries.len() {
        let place = i as u64;
        if sheet.window.from <= place && place < sheet.window.to {
            longest = longest.max(label_length(sheet, entries[i].event)?);
        }
    }
    Ok(longest)
}

/// The length of the label of a column.
fn label_length(sheet: &Sheet, event: Event) -> Result<usize, OutOfMemory>
    requires { IsAboutSet sheet.now.set.now event }
{
    let mut label = Vec::new(sheet.alloc);
    write_event_text(&mut label, sheet.set, event)?;
    Ok(label.len())
}

/// What stands before the lanes: the title, the axis, and the names of the processors.
pub(crate) fn text_before(
    sheet: &Sheet,
    page: Page,
    facts: Facts,
    entries: &[Entry],
) -> Result<Vec<u8>, OutOfMemory>
    requires { All (IsEntryOf sheet.now.set.now) entries.now }
    ensures { IfOk result (λ text. BeginsText text.items) }
{
    let mut text = Vec::new(sheet.alloc);
    write_opening(&mut text, sheet, page)?;
    write_title(&mut text, sheet, page, facts)?;
    write_axis(&mut text, sheet, page, entries)?;
    write_processors(&mut text, sheet, page)?;
    Ok(text)
}

/// What stands between the lanes and the rows: the marks, the names and the arrows of the lanes, the legend, and the names
/// of the tasks.
pub(crate) fn text_between(
    sheet: &Sheet,
    page: Page,
    tracks: &Tracks,
    facts: Facts,
    listed: &[u32],
) -> Result<Vec<u8>, OutOfMemory>
    ensures { IfOk result (λ text. GoesOn text.items) }
{
    let mut text = Vec::new(sheet.alloc);
    write_marks(&mut text, sheet, page, facts, &tracks.lanes)?;
    write_moves(&mut text, sheet, page, facts, &tracks.rows)?;
    write_legend(&mut text, sheet, page, facts)?;
    write_names(&mut text, sheet, page, listed)?;
    Ok(text)
}

/// What stands after the rows: the numbers of the processors, the arrivals and departures, and the end.
pub(crate) fn text_after(
    sheet: &Sheet,
    page: Page,
    rows: &[Track],
    facts: Facts,
    listed: &[u32],
) -> Result<Vec<u8>, OutOfMemory>
    ensures { IfOk result (λ text. Ends text.items) }
{
    let mut text = Vec::new(sheet.alloc);
    write_places(&mut text, sheet, page, rows, listed)?;
    write_turns(&mut text, sheet, page, facts, rows, listed)?;
    put(&mut text, "</svg>\n")?;
    Ok(text)
}
