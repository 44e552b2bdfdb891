//! The summary of a run of the input that is made from four numbers.
ghost use Rattle.std.specs.Prelude.{IfOk};
ghost use Rattle.commands.specs.Generating.{IsInputOf};
ghost use Rattle.commands.specs.Sizes.{AreWithin};
ghost use Rattle.command_line.specs.Large.{IsLargeOf};

use affinity_mask::OutOfMemory;
use commands::{Sizes, input_of, write_summary};
use processor_seat::Gate;
use replay::schedule_of;
use std::alloc::Global;
use std::sync::Wait;
use std::thread::Threads;
use trace_reader::Input;

/// The summary of a replay of the input of these numbers, on threads. Refused only where memory is out.
pub fn summary_of<R: Threads + Wait + Sync, G: Gate + Sync>(
    rt: &R,
    alloc: Global,
    sizes: Sizes,
    gate: &G,
) -> Result<Vec<u8>, OutOfMemory>
    requires { AreWithin sizes }
    ensures { IfOk result (λ text. IsLargeOf sizes text.items) }
{
    let input = input_of(alloc, sizes)?;
    summary_over(rt, alloc, sizes, &input, gate)
}

/// The same over the input that was made.
fn summary_over<R: Threads + Wait + Sync, G: Gate + Sync>(
    rt: &R,
    alloc: Global,
    sizes: Sizes,
    input: &Input,
    gate: &G,
) -> Result<Vec<u8>, OutOfMemory>
    requires { IsInputOf sizes input.now.set input.now.events }
    ensures { IfOk result (λ text. IsLargeOf sizes text.items) }
{
    let made = schedule_of(rt, alloc, input.set(), input.events(), gate)?;
    write_summary(alloc, sizes, made.core.history(), &made.contexts)
}
