//! The text of what a kernel did beside the best set.
ghost use Rattle.std.specs.Prelude.{◌≡◌, ◌<◌, ◌++◌, length, All, IfOk, OnOk, IfSome};
ghost use Rattle.affinity_mask.specs.Number.{canonical_number};
ghost use Rattle.kernel_trace.specs.LossText.{moment_text, rival_text, row_text, told_text, loss_line, loss_lines, span_text, thread_line, thread_lines, step_line, step_lines, chain_text, end_text, loss_text};

use crate::stamp_text::{write_stamp, write_stamp_after};
use affinity_mask::OutOfMemory;
use std::alloc::Global;
use task_set::TaskSet;
use text_fields::{write_name, write_number};

/// What is told of a task: at how many moments it was ready, ran, and was lost.
#[derive(Clone, Copy)]
pub struct LossRow {
    pub ready: u64,
    pub ran: u64,
    pub lost: u64,

    /// How many of the lost moments stand in a long stretch of them.
    pub over: u64,

    /// How many moments the longest stretch of lost ones has.
    pub longest: u64,

    /// The first moment of that stretch.
    pub first: u64,

    /// The task that ran most meanwhile and was not in the best set.
    pub rival: Option<u32>,
}

/// What is told of a thread that is no task: at how many moments it ran while a task was lost.
#[derive(Clone, Copy)]
pub struct ThreadRow {
    pub id: u32,
    pub ran: u64,
}

/// A task of a chain, and the processor that it would have gone to.
#[derive(Clone, Copy)]
pub struct StepRow {
    pub task: u32,
    pub processor: u8,
}

/// The chain that was not taken for the longest stretch of lost moments.
#[derive(Drop)]
pub struct ChainRow {
    /// How many moments the stretch has; none where no task was lost.
    pub count: u64,

    /// The first moment of it.
    pub first: u64,

    /// The lost task, and then whoever would have had to move.
    pub steps: Vec<StepRow>,
}

/// What stands after the tasks.
#[derive(Drop)]
pub struct LossEnd {
    pub chain: ChainRow,

    /// How many threads are told apart that are no tasks.
    pub unlisted: u32,

    /// Those of them that are named.
    pub threads: Vec<ThreadRow>,

    /// How many switches are from another thread than the one that the switch before it on the same processor went to.
    pub jumps: u64,
}

/// The text of a row for each task of a set, in their order; a task without one is mentioned nowhere. The clock is that of
/// moment 0, in microseconds. Refused only when out of memory.
pub fn write_losses(
    alloc: Global,
    set: &TaskSet,
    clock: Option<u64>,
    span: u64,
    rows: &[Option<LossRow>],
    end: &LossEnd,
) -> Result<Vec<u8>, OutOfMemory>
    requires tasks { length rows.now ≡ length set.now.tasks }
    requires rivals { All (λ row. IfSome row
        (λ row. IfSome row.rival (λ t. t < length set.now.tasks))) rows.now }
    requires steps { All (λ step. step.task < length set.now.tasks) end.now.chain.steps.items }
    ensures { IfOk result (λ text. text.items ≡ loss_text set.now clock span rows.now
        end.now.chain.count end.now.chain.first end.now.chain.steps.items
        end.now.unlisted end.now.threads.items end.now.jumps) }
{
    let mut text = Vec::new(alloc);
    write_span(&mut text, clock, span)?;
    write_rows(&mut text, set, clock, rows)?;
    write_chain(&mut text, set, clock, &end.chain)?;
    write_end(&mut text, end)?;
    Ok(text)
}

/// Appends the header and the span.
fn write_span(text: &mut Vec<u8>, clock: Option<u64>, span: u64) -> Result<(), OutOfMemory>
    ensures { OnOk result (text.new.items ≡ text.old.items ++ span_text clock span) }
{
    write_count(text, b"lost 3\nspan ", span)?;
    text.extend_from_slice(b" at ")?;
    write_stamp(text, clock)?;
    text.push(b'\n')?;
    Ok(())
}

/// Appends the lines of the tasks.
fn write_rows(
    text: &mut Vec<u8>,
    set: &TaskSet,
    clock: Option<u64>,
    rows: &[Option<LossRow>],
) -> Result<(), OutOfMemory>
    requires tasks { length rows.now ≡ length set.now.tasks }
    requires rivals { All (λ row. IfSome row
        (λ row. IfSome row.rival (λ t. t < length set.now.tasks))) rows.now }
    ensures { OnOk result (text.new.items ≡ text.old.items ++ loss_lines set.now clock 0 rows.now) }
{
    for t in 0..set.len() {
        write_line(text, set, clock, t, &rows[t as usize])?;
    }
    Ok(())
}

/// Appends the line of a task.
fn write_line(
    text: &mut Vec<u8>,
    set: &TaskSet,
    clock: Option<u64>,
    t: u32,
    row: &Option<LossRow>,
) -> Result<(), OutOfMemory>
    requires task { t < length set.now.tasks }
    requires rival { IfSome row.now (λ row. IfSome row.rival (λ t. t < length set.now.tasks)) }
    ensures { OnOk result (text.new.items ≡ text.old.items ++ loss_line set.now clock t row.now) }
{
    write_name(text, set, t)?;
    write_told(text, set, clock, row)?;
    text.push(b'\n')?;
    Ok(())
}

/// Appends what is told of a task after its name.
fn write_told(
    text: &mut Vec<u8>,
    set: &TaskSet,
    clock: Option<u64>,
    row: &Option<LossRow>,
) -> Result<(), OutOfMemory>
    requires { IfSome row.now (λ row. IfSome row.rival (λ t. t < length set.now.tasks)) }
    ensures { OnOk result (text.new.items ≡ text.old.items ++ told_text set.now clock row.now) }
{
    match row {
        Some(row) => write_row(text, set, clock, row),
        None => {
            text.extend_from_slice(b" -")?;
            Ok(())
        }
    }
}

/// Appends what a row tells.
fn write_row(
    text: &mut Vec<u8>,
    set: &TaskSet,
    clock: Option<u64>,
    row: &LossRow,
) -> Result<(), OutOfMemory>
    requires { IfSome row.now.rival (λ t. t < length set.now.tasks) }
    ensures { OnOk result (text.new.items ≡ text.old.items ++ row_text set.now clock row.now) }
{
    write_count(text, b" ready ", row.ready)?;
    write_count(text, b" ran ", row.ran)?;
    write_count(text, b" lost ", row.lost)?;
    write_count(text, b" over ", row.over)?;
    write_count(text, b" longest ", row.longest)?;
    text.extend_from_slice(b" at ")?;
    write_moment(text, clock, row.longest, row.first)?;
    text.extend_from_slice(b" while ")?;
    write_rival(text, set, row.rival)?;
    Ok(())
}

/// Appends the chain.
fn write_chain(
    text: &mut Vec<u8>,
    set: &TaskSet,
    clock: Option<u64>,
    chain: &ChainRow,
) -> Result<(), OutOfMemory>
    requires { All (λ step. step.task < length set.now.tasks) chain.now.steps.items }
    ensures { OnOk result (text.new.items ≡ text.old.items
        ++ chain_text set.now clock chain.now.count chain.now.first chain.now.steps.items) }
{
    text.extend_from_slice(b"chain ")?;
    write_moment(text, clock, chain.count, chain.first)?;
    text.push(b'\n')?;
    write_steps(text, set, &chain.steps)?;
    Ok(())
}

/// Appends the lines of the steps of a chain.
fn write_steps(text: &mut Vec<u8>, set: &TaskSet, steps: &[StepRow]) -> Result<(), OutOfMemory>
    requires { All (λ step. step.task < length set.now.tasks) steps.now }
    ensures { OnOk result (text.new.items ≡ text.old.items ++ step_lines set.now steps.now) }
{
    for i in 0..steps.len() {
        write_step(text, set, steps[i])?;
    }
    Ok(())
}

/// Appends the line of a step.
fn write_step(text: &mut Vec<u8>, set: &TaskSet, step: StepRow) -> Result<(), OutOfMemory>
    requires { step.task < length set.now.tasks }
    ensures { OnOk result (text.new.items ≡ text.old.items ++ step_line set.now step) }
{
    write_name(text, set, step.task)?;
    write_count(text, b" to ", step.processor as u64)?;
    text.push(b'\n')?;
    Ok(())
}

/// Appends what stands after the tasks and the chain.
fn write_end(text: &mut Vec<u8>, end: &LossEnd) -> Result<(), OutOfMemory>
    ensures { OnOk result (text.new.items ≡ text.old.items ++ end_text end.now.unlisted end.now.threads.items
        end.now.jumps) }
{
    write_count(text, b"unlisted ", end.unlisted as u64)?;
    text.push(b'\n')?;
    write_threads(text, &end.threads)?;
    write_count(text, b"jumps ", end.jumps)?;
    text.extend_from_slice(b"\nend\n")?;
    Ok(())
}

/// Appends the lines of threads.
fn write_threads(text: &mut Vec<u8>, rows: &[ThreadRow]) -> Result<(), OutOfMemory>
    ensures { OnOk result (text.new.items ≡ text.old.items ++ thread_lines rows.now) }
{
    for i in 0..rows.len() {
        write_thread(text, rows[i])?;
    }
    Ok(())
}

/// Appends the line of a thread.
fn write_thread(text: &mut Vec<u8>, row: ThreadRow) -> Result<(), OutOfMemory>
    ensures { OnOk result (text.new.items ≡ text.old.items ++ thread_line row) }
{
    write_count(text, b"thread ", row.id as u64)?;
    write_count(text, b" ran ", row.ran)?;
    text.push(b'\n')?;
    Ok(())
}

/// Appends a word and a number.
fn write_count(text: &mut Vec<u8>, word: &[u8], count: u64) -> Result<(), OutOfMemory>
    ensures { OnOk result (text.new.items ≡ text.old.items ++ word.now ++ canonical_number count) }
{
    text.extend_from_slice(word)?;
    write_number(text, count)
}

/// Appends the first moment of so many, and its clock.
fn write_moment(
    text: &mut Vec<u8>,
    clock: Option<u64>,
    count: u64,
    first: u64,
) -> Result<(), OutOfMemory>
    ensures { OnOk result (text.new.items ≡ text.old.items ++ moment_text clock count first) }
{
    if count == 0 {
        text.extend_from_slice(b"- -")?;
        return Ok(());
    }
    write_number(text, first)?;
    text.push(b' ')?;
    write_stamp_after(text, clock, first)
}

/// Appends who ran meanwhile.
fn write_rival(text: &mut Vec<u8>, set: &TaskSet, rival: Option<u32>) -> Result<(), OutOfMemory>
    requires { IfSome rival (λ t. t < length set.now.tasks) }
    ensures { OnOk result (text.new.items ≡ text.old.items ++ rival_text set.now rival) }
{
    match rival {
        Some(t) => write_name(text, set, t),
        None => {
            text.extend_from_slice(b"nobody")?;
            Ok(())
        }
    }
}
