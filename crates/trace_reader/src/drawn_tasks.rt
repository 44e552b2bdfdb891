//! The tasks of a generated input.
ghost use Rattle.std.specs.Prelude.{◌≡◌, ℕ, ◌*◌, ◌<◌, ◌≤◌, ◌↔◌, IsTrue, IfOk, OnOk};
ghost use Rattle.affinity_mask.specs.ProcSet.{has};
ghost use Rattle.task_set.specs.TaskSet.{with_task};
ghost use Rattle.task_set.specs.Refusal.{CanAdd, new_task};
ghost use Rattle.trace_reader.specs.Generated.{task_name};
ghost use Rattle.trace_reader.specs.Generator.{generator_after};
ghost use Rattle.trace_reader.specs.Drawing.{DrawsTask, HasDrawnTasks};

use crate::generator::Generator;
use affinity_mask::{OutOfMemory, ProcSet};
use std::alloc::Global;
use task_set::{TaskFault, TaskSet};

/// How far the priorities of two tasks that follow each other lie apart.
const PRIORITY_STEP: u32 = 1000;

/// The most processors of a mask.
const MASK_SIZE: u32 = 4;

/// The priority and the mask of a task.
#[derive(Clone, Copy)]
struct Drawn {
    priority: u32,
    mask: ProcSet,
}

/// The set of the first tasks, each with three draws. Refused only where memory is out.
pub fn draw_tasks(
    alloc: Global,
    generator: &mut Generator,
    processors: u8,
    tasks: u32,
) -> Result<TaskSet, OutOfMemory>
    requires processors { (1 ≤ processors) × (processors ≤ 64) }
    requires tasks { tasks ≤ 1024 }
    ensures { IfOk result (λ set. HasDrawnTasks generator.old.state processors tasks generator.new.state set) }
{
    let mut set = TaskSet::new(alloc, processors)?;
    for i in 0..tasks {
        let drawn = draw_task(generator, processors, i);
        add_task(alloc, &mut set, i, &drawn)?;
    }
    Ok(set)
}

/// Draws the priority and the mask of task `i`.
fn draw_task(generator: &mut Generator, processors: u8, i: u32) -> Drawn
    requires processors { (1 ≤ processors) × (processors ≤ 64) }
    requires tasks { i < 1024 }
    ensures { (number : ℕ) → generator.old.state ≡ generator_after number (3 * i)
        → DrawsTask number processors i generator.new.state result.priority result.mask }
{
    let priority = PRIORITY_STEP * i + generator.draw(PRIORITY_STEP);
    let first = generator.draw(u32::from(processors));
    let room = u32::from(processors) - first;
    let last = first + generator.draw(room.min(MASK_SIZE));
    Drawn {
        priority,
        mask: range(first as u8, last as u8),
    }
}

/// The processors from `first` to `last`.
fn range(first: u8, last: u8) -> ProcSet
    requires order { first ≤ last }
    requires few { last < 64 }
    ensures { (p : ℕ) → IsTrue (has result p) ↔ ((first ≤ p) × (p ≤ last)) }
{
    ProcSet::first(last + 1).minus(&ProcSet::first(first))
}

/// Adds task `i`. Its name and its priority are new, so it is refused only where memory is out.
fn add_task(alloc: Global, set: &mut TaskSet, i: u32, drawn: &Drawn) -> Result<(), OutOfMemory>
    requires { CanAdd set.old (new_task (task_name i) drawn.now.priority drawn.now.mask) }
    ensures { OnOk result (set.new
        ≡ with_task set.old (new_task (task_name i) drawn.now.priority drawn.now.mask)) }
{
    let name = format!(in alloc; "t{i}")?;
    match set.add(name.as_str(), drawn.priority, drawn.mask) {
        Ok(_) => Ok(()),
        Err(TaskFault::OutOfMemory) => Err(OutOfMemory),
        Err(_) => unreachable!(),
    }
}
