//! From the bytes of a trace of the Linux scheduler to a picture of what its tasks did, beside what strong scheduling would have had.
ghost use Rattle.std.specs.Prelude.{◌≡◌, ◌+◌, ◌≤◌, length, IfOk};
ghost use Rattle.trace_passages.specs.Passages.{ArePassages};
ghost use Rattle.commands.specs.Answers.{Answers};
ghost use Rattle.commands.specs.Lost.{AcceptsTaskTrace, RefusesTaskTrace};
ghost use Rattle.commands.specs.Show.{IsShowOf, IsShown, part_of};

use crate::import::status_of;
use crate::status::Status;
use affinity_mask::OutOfMemory;
use kernel_trace::{TaskTrace, read_task_trace};
use schedule_picture::Window;
use std::alloc::Global;
use trace_bars::{Part, bars_of};
use trace_picture::{Scene, picture_text};

/// The picture of a window of a trace, or the status that says why there is none.
pub fn show_text(alloc: Global, bytes: &[u8], window: Window) -> Result<Vec<u8>, Status>
    ensures { Answers (IsShowOf window bytes.now) (AcceptsTaskTrace bytes.now)
        (RefusesTaskTrace bytes.now) result }
{
    let trace = match read_task_trace(alloc, bytes) {
        Ok(trace) => trace,
        Err(fault) => return Err(status_of(fault)),
    };
    let text = shown(alloc, &trace, window)?;
    Ok(text)
}

/// The picture of a window of a trace.
fn shown(alloc: Global, trace: &TaskTrace, window: Window) -> Result<Vec<u8>, OutOfMemory>
    requires { ArePassages (length trace.now.set.tasks)
        (length trace.now.set.tasks + length trace.now.unlisted) trace.now.passages }
    ensures { IfOk result (λ text. IsShown window trace.now text.items) }
{
    let part = part_of(window, trace.span());
    let threads = trace.set().len() + trace.unlisted();
    let bars = bars_of(alloc, trace.set(), threads, trace.passages(), part)?;
    let scene = Scene {
        alloc,
        set: trace.set(),
        clock: trace.clock(),
        part,
    };
    let text = picture_text(&scene, &bars)?;
    Ok(text)
}

/// The part of a trace of so many moments that a window shows.
fn part_of(window: Window, span: u64) -> Part
    ensures value { result ≡ part_of window span }
    ensures order { result.from ≤ result.to }
    ensures within { result.to ≤ span }
{
    let from = window.from.min(span);
    let to = window.to.min(span).max(from);
    Part { from, to }
}
