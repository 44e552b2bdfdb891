//! The events of a generated input.
ghost use Rattle.std.specs.Prelude.{◌≡◌, ℕ, ◌*◌, ◌<◌, ◌≤◌, [], ◌∷◌, ◌++◌, List, IfOk, length};
ghost use Rattle.task_set.specs.declared.event.Event.{Event};
ghost use Rattle.trace_reader.specs.Generated.{draws_before, event_of_task};
ghost use Rattle.trace_reader.specs.Generator.{generator_after};
ghost use Rattle.trace_reader.specs.Drawing.{IsReadyTable, DrawsEvent, AreDrawnEvents};

use crate::generator::Generator;
use crate::posted::Posted;
use affinity_mask::OutOfMemory;
use std::alloc::Global;
use task_set::Event;

/// One event in so many is a tick.
const EVENTS_PER_TICK: u32 = 8;

/// The most units of a tick.
const TICK_UNITS: u32 = 100;

/// The events of an input, each with two draws, all on stream 0. Refused only where memory is out.
pub fn draw_events(
    alloc: Global,
    generator: &mut Generator,
    tasks: u32,
    count: u32,
) -> Result<Vec<Posted>, OutOfMemory>
    requires tasks { (1 ≤ tasks) × (tasks ≤ 1024) }
    requires count { count ≤ 20000 }
    ensures { (number : ℕ) → generator.old.state ≡ generator_after number (3 * tasks)
        → IfOk result (λ posted. AreDrawnEvents number tasks count posted.items) }
{
    let mut ready = vec![in alloc; false; tasks as usize]?;
    let mut events = Vec::with_capacity(alloc, count as usize)?;
    for _ in 0..count {
        let event = draw_event(generator, &mut ready, tasks);
        events.push_reserved(Posted { stream: 0, event });
    }
    Ok(events)
}

/// Draws the next event. The table says which tasks are ready, before it and after it.
fn draw_event(generator: &mut Generator, ready: &mut [bool], tasks: u32) -> Event
    requires tasks { 0 < tasks }
    requires table { length ready.old ≡ tasks }
    ensures { (number : ℕ) (earlier : List Event)
        → generator.old.state ≡ generator_after number (draws_before tasks earlier)
        → IsReadyTable tasks earlier ready.old
        → DrawsEvent number tasks generator.new.state earlier result ready.new }
{
    if generator.draw(EVENTS_PER_TICK) == 0 {
        return Event::Tick(1 + generator.draw(TICK_UNITS));
    }
    let t = generator.draw(tasks);
    turn(ready, t)
}

/// The event of a task: it departs where it is ready, and else arrives.
fn turn(ready: &mut [bool], t: u32) -> Event
    requires { t < length ready.old }
    ensures event { (tasks : ℕ) (earlier : List Event) → IsReadyTable tasks earlier ready.old
        → result ≡ event_of_task t earlier }
    ensures table { (tasks : ℕ) (earlier : List Event) → IsReadyTable tasks earlier ready.old
        → IsReadyTable tasks (earlier ++ result ∷ []) ready.new }
{
    let place = t as usize;
    let was_ready = ready[place];
    ready[place] = !was_ready;
    if was_ready {
        Event::Depart(t)
    } else {
        Event::Arrive(t)
    }
}
