//! Inputs that are made from a number.
ghost use Rattle.std.specs.Prelude.{◌≡◌, ◌≤◌, IfOk};
ghost use Rattle.trace_reader.specs.Generated.{IsGeneratedInput};

use crate::drawn_events::draw_events;
use crate::drawn_tasks::draw_tasks;
use crate::generator::Generator;
use crate::input::{FIRST_VERSION, Input};
use affinity_mask::OutOfMemory;
use std::alloc::Global;

/// The input of a number, of version 1, with so many processors (1 to 64), tasks (1 to 1,024) and events (up to 20,000),
/// all on stream 0. Refused only where memory is out.
pub fn make_input(
    alloc: Global,
    number: u64,
    processors: u8,
    tasks: u32,
    events: u32,
) -> Result<Input, OutOfMemory>
    requires processors { (1 ≤ processors) × (processors ≤ 64) }
    requires tasks { (1 ≤ tasks) × (tasks ≤ 1024) }
    requires events { events ≤ 20000 }
    ensures generated { IfOk result (λ input.
        IsGeneratedInput number processors tasks events input.set input.events) }
    ensures version { IfOk result (λ input. input.version ≡ 1) }
{
    let mut generator = Generator { state: number };
    let set = draw_tasks(alloc, &mut generator, processors, tasks)?;
    let posted = draw_events(alloc, &mut generator, tasks, events)?;
    Ok(Input::new(FIRST_VERSION, set, posted))
}
