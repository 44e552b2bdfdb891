//! Which tasks have a row in a picture.
ghost use Rattle.std.specs.Prelude.{◌≡◌, ◌≤◌, IfOk, filter, vec_len};
ghost use Rattle.std.specs.List.{list_any, range_with_len};
ghost use Rattle.trace_picture.specs.Listing.{has_row, is_loss_of, listed_of};

use affinity_mask::OutOfMemory;
use std::alloc::Global;
use trace_bars::{Bar, Mark};

/// How many rows a picture has at most.
const MAX_ROWS: usize = 64;

/// The tasks that have a row: all of so many; where these are too many, the first ones of those that lost something.
pub(crate) fn listed(alloc: Global, tasks: usize, bars: &[Bar]) -> Result<Vec<usize>, OutOfMemory>
    ensures listing { IfOk result (λ listed. listed.items ≡ listed_of tasks bars.now) }
    ensures few { IfOk result (λ listed. vec_len listed ≤ 64) }
{
    let mut found = found(alloc, tasks, bars)?;
    found.truncate(MAX_ROWS);
    Ok(found)
}

/// All of so many tasks; where these are too many for a picture, those that lost something.
fn found(alloc: Global, tasks: usize, bars: &[Bar]) -> Result<Vec<usize>, OutOfMemory>
    ensures { IfOk result (λ found. found.items
        ≡ filter (has_row tasks bars.now) (range_with_len 0 tasks)) }
{
    let mut found = Vec::new(alloc);
    for t in 0..tasks {
        if has_row(tasks, bars, t) {
            found.push(t)?;
        }
    }
    Ok(found)
}

/// Whether a task of so many has a row, where there is room.
fn has_row(tasks: usize, bars: &[Bar], t: usize) -> bool
    ensures { result ≡ has_row tasks bars.now t }
{
    tasks <= MAX_ROWS || has_loss(bars, t)
}

/// Whether a task lost something.
fn has_loss(bars: &[Bar], t: usize) -> bool
    ensures { result ≡ list_any (is_loss_of t) bars.now }
{
    bars.iter().any(|bar| is_loss_of(t, *bar))
}

/// Whether a bar is a loss of a task.
fn is_loss_of(t: usize, bar: Bar) -> bool
    ensures { result ≡ is_loss_of t bar }
{
    match bar.mark {
        Mark::Lost => bar.thread == t,
        Mark::Runs(_) | Mark::Linked(_) | Mark::Ran | Mark::Waits => false,
    }
}
