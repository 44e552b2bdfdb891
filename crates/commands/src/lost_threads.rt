//! Which threads that are no tasks ran most while a task was lost.
ghost use Rattle.std.specs.Prelude.{◌≡◌, ◌+◌, List, [], ◌∷◌, ◌++◌, drop, length, map, IsTrue, IfOk, MatchOption};
ghost use Rattle.commands.specs.LostThreads.{AreMost, IsMost, NoneRan, RanMost, rested, thread_rows};
ghost use Rattle.kernel_trace.specs.declared.loss_text.ThreadRow.{ThreadRow};

use kernel_trace::{TaskTrace, ThreadRow};
use std::alloc::{AllocError, Global};

/// How many threads are named.
const MAX_NAMED: u32 = 10;

/// Of the threads of a trace that are told apart those that ran most, by how long each thread ran. The tasks come first among these.
pub(crate) fn lost_threads(
    alloc: Global,
    trace: &TaskTrace,
    beside: &[u64],
) -> Result<Vec<ThreadRow>, AllocError>
    requires { length beside.now ≡ length trace.now.set.tasks + length trace.now.unlisted }
    ensures { IfOk result (λ rows. AreMost 10 (thread_rows trace.now.unlisted
        (drop (length trace.now.set.tasks) beside.now)) rows.items) }
{
    let rows = rows_of(alloc, trace, beside)?;
    most_of(alloc, rows)
}

/// The rows of the threads that are told apart.
fn rows_of(alloc: Global, trace: &TaskTrace, beside: &[u64]) -> Result<Vec<ThreadRow>, AllocError>
    requires { length beside.now ≡ length trace.now.set.tasks + length trace.now.unlisted }
    ensures { IfOk result (λ rows. rows.items ≡ thread_rows trace.now.unlisted
        (drop (length trace.now.set.tasks) beside.now)) }
{
    let tasks = trace.set().len() as usize;
    let mut rows = Vec::new(alloc);
    for place in 0..trace.unlisted() {
        rows.push(ThreadRow {
            id: trace.unlisted_id(place),
            ran: beside[tasks + place as usize],
        })?;
    }
    Ok(rows)
}

/// The rows of those that ran most, the first one first.
fn most_of(alloc: Global, rows: Vec<ThreadRow>) -> Result<Vec<ThreadRow>, AllocError>
    ensures { IfOk result (λ named. AreMost 10 rows.items named.items) }
{
    let mut left = rows;
    let mut named = Vec::new(alloc);
    for done in 0..MAX_NAMED {
        let Some(row) = most(&left) else {
            return Ok(named);
        };
        named.push(row)?;
        rest(&mut left, row.id);
    }
    Ok(named)
}

/// The row of the thread that ran most, if one did.
fn most(rows: &[ThreadRow]) -> Option<ThreadRow>
    ensures { MatchOption result (NoneRan rows.now) (IsMost rows.now) }
{
    let mut found = None;
    for i in 0..rows.len() {
        found = greater(found, rows[i]);
    }
    found
}

/// A row, or the one that was found before it.
fn greater(found: Option<ThreadRow>, row: ThreadRow) -> Option<ThreadRow>
    ensures { (rows : List ThreadRow) → MatchOption found (NoneRan rows) (IsMost rows)
        → MatchOption result (NoneRan (rows ++ row ∷ [])) (IsMost (rows ++ row ∷ [])) }
{
    if row.ran == 0 {
        return found;
    }
    match found {
        Some(first) if is_before(first, row) => found,
        _ => Some(row),
    }
}

/// Whether a thread ran no less than another.
fn is_before(row: ThreadRow, other: ThreadRow) -> bool
    ensures before { IsTrue result → RanMost row other }
    ensures after { (IsTrue result → ⊥) → RanMost other row }
{
    other.ran < row.ran || row.ran == other.ran && row.id <= other.id
}

/// A thread counts as one that did not run.
fn rest(rows: &mut Vec<ThreadRow>, id: u32)
    ensures { rows.new.items ≡ map (rested id) rows.old.items }
{
    for i in 0..rows.len() {
        rows[i] = rested(rows[i], id);
    }
}

/// The row of a thread as if it had not run, where it is this one.
fn rested(row: ThreadRow, id: u32) -> ThreadRow
    ensures { result ≡ rested id row }
{
    if row.id == id {
        ThreadRow { id, ran: 0 }
    } else {
        row
    }
}
