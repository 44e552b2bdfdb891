//! Which tasks have a row in a picture.
ghost use Rattle.std.specs.Prelude.{◌≡◌, ◌≤◌, length, slice_index, vec_len, IfOk};
ghost use Rattle.std.specs.List.Sorted.{IsPermutation, IsNonDecreasingBy};
ghost use Rattle.task_set.specs.TaskSet.{priorities};
ghost use Rattle.schedule_picture.specs.Listing.{AreByUrgency, AreFoundBelow, IsListing, is_ready_in, is_seen, is_wait, touches_waiting, waits_in};
ghost use Rattle.schedule_picture.specs.Picture.{spans_in};

use crate::sheet::{Sheet, spans_at};
use crate::span::{Seen, Span};
use crate::track::Track;
use affinity_mask::OutOfMemory;

/// How many rows a picture has at most.
pub(crate) const MAX_ROWS: usize = 64;

/// The tasks that have a row: those that are ready in the window, by urgency; where these are too many, those that wait
/// in it, and of them the most urgent ones.
pub(crate) fn listed(sheet: &Sheet, rows: &[Track]) -> Result<Vec<u32>, OutOfMemory>
    ensures few { IfOk result (λ listed. vec_len listed ≤ 64) }
    ensures listing { IfOk result (λ listed.
        IsListing sheet.now.places.now sheet.now.window sheet.now.set.now (spans_in rows.now) listed.items) }
{
    let ready = by_urgency(sheet, rows, false)?;
    if ready.len() <= MAX_ROWS {
        return Ok(ready);
    }
    let mut waiting = by_urgency(sheet, rows, true)?;
    waiting.truncate(MAX_ROWS);
    Ok(waiting)
}

/// The tasks that are ready in the window, or those that wait in it, by urgency.
fn by_urgency(sheet: &Sheet, rows: &[Track], waiting: bool) -> Result<Vec<u32>, OutOfMemory>
    ensures { IfOk result (λ tasks. AreByUrgency sheet.now.set.now
        (λ t. is_seen sheet.now.places.now sheet.now.window waiting (spans_in rows.now t)) tasks.items) }
{
    let _valid = sheet.set.len();
    let mut tasks = found(sheet, rows, waiting)?;
    sort_by_urgency(sheet, &mut tasks);
    Ok(tasks)
}

/// The same, by their numbers.
fn found(sheet: &Sheet, rows: &[Track], waiting: bool) -> Result<Vec<u32>, OutOfMemory>
    ensures { IfOk result (λ tasks. AreFoundBelow
        (λ t. is_seen sheet.now.places.now sheet.now.window waiting (spans_in rows.now t))
        (length sheet.now.set.now.tasks) tasks.items) }
{
    let mut tasks = Vec::new(sheet.alloc);
    for t in 0..sheet.set.len() {
        if is_seen(sheet, spans_at(rows, t as usize), waiting) {
            tasks.push(t)?;
        }
    }
    Ok(tasks)
}

/// Sorts tasks by their priorities.
fn sort_by_urgency(sheet: &Sheet, tasks: &mut Vec<u32>)
    ensures moved { IsPermutation tasks.old.items tasks.new.items }
    ensures sorted { IsNonDecreasingBy (λ t. slice_index (priorities sheet.now.set.now) t) tasks.new.items }
{
    tasks.sort_unstable_by_key(|t| sheet.priority(*t));
}

/// Whether a task of these spans waits in the window, or is ready in it.
fn is_seen(sheet: &Sheet, spans: &[Span], waiting: bool) -> bool
    ensures { result ≡ is_seen sheet.now.places.now sheet.now.window waiting spans.now }
{
    if waiting {
        waits_in(sheet, spans)
    } else {
        is_ready_in(sheet, spans)
    }
}

/// Whether a task of these spans is ready in the window.
fn is_ready_in(sheet: &Sheet, spans: &[Span]) -> bool
    ensures { result ≡ is_ready_in sheet.now.places.now sheet.now.window spans.now }
{
    spans.iter().any(|span| sheet.touches(*span))
}

/// Whether a task of these spans waits in the window.
fn waits_in(sheet: &Sheet, spans: &[Span]) -> bool
    ensures { result ≡ waits_in sheet.now.places.now sheet.now.window spans.now }
{
    spans.iter().any(|span| touches_waiting(sheet, *span))
}

/// Whether a span touches the window, and the task waits in it.
fn touches_waiting(sheet: &Sheet, span: Span) -> bool
    ensures { result ≡ touches_waiting sheet.now.places.now sheet.now.window span }
{
    is_wait(span.what) && sheet.touches(span)
}

/// Whether a task is seen to wait.
fn is_wait(what: Seen) -> bool
    ensures { result ≡ is_wait what }
{
    matches!(what, Seen::Waiting)
}
