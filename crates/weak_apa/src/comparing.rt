//! The events of an input, given to both schedulers.
ghost use Rattle.std.specs.Prelude.{◌≡◌, ◌<◌, false, length, IfOk, OnOk};
ghost use Rattle.strong_apa.specs.State.{start_of};
ghost use Rattle.strong_apa.specs.Step.{IsEventFor};
ghost use Rattle.sched_core.specs.CoreData.{Applied, max_entries};
ghost use Rattle.weak_apa.specs.Start.{new_core};
ghost use Rattle.weak_apa.specs.WeakText.{IsWeakTextOf, weak_heading};

use crate::comparison::Comparison;
use crate::weak::Weak;
use affinity_mask::OutOfMemory;
use sched_core::{Core, CoreFault};
use std::alloc::Global;
use text_fields::write_number;
use trace_reader::{Input, Posted};

/// The text that compares what the weak and the strong scheduler do at the events of an input, in the order of their
/// lines. Refused only where memory runs out.
pub fn compare(alloc: Global, input: &Input) -> Result<Vec<u8>, OutOfMemory>
    ensures { IfOk result (λ text. IsWeakTextOf input.now.set input.now.events text.items) }
{
    let mut weak = Weak::new(alloc, input.set())?;
    let mut core = Core::new(alloc, input.set())?;
    compared(alloc, &mut weak, &mut core, input)
}

/// The text of two schedulers that were given no event yet.
fn compared(
    alloc: Global,
    weak: &mut Weak,
    core: &mut Core,
    input: &Input,
) -> Result<Vec<u8>, OutOfMemory>
    requires weak { weak.old ≡ start_of input.now.set }
    requires core { core.old ≡ new_core input.now.set }
    ensures { IfOk result (λ text. IsWeakTextOf input.now.set input.now.events text.items) }
{
    let mut text = heading(alloc, input.events().len() as u64)?;
    add_lines(weak, core, input, &mut text)?;
    Ok(text)
}

/// Appends the lines of the events, and the end.
fn add_lines(
    weak: &mut Weak,
    core: &mut Core,
    input: &Input,
    text: &mut Vec<u8>,
) -> Result<(), OutOfMemory>
    requires weak { weak.old ≡ start_of input.now.set }
    requires core { core.old ≡ new_core input.now.set }
    requires text { text.old.items ≡ weak_heading (length input.now.events) }
    ensures { OnOk result (IsWeakTextOf input.now.set input.now.events text.new.items) }
{
    let set = input.set();
    let events = input.events();
    let _valid = core.links();
    for posted in events {
        weak.apply(posted.event);
        enter(core, *posted)?;
        Comparison::new(weak.links(), core.links()).write(text, set)?;
    }
    text.extend_from_slice(b"end\n")?;
    Ok(())
}

/// The lines before those of so many events.
fn heading(alloc: Global, events: u64) -> Result<Vec<u8>, OutOfMemory>
    ensures { IfOk result (λ text. text.items ≡ weak_heading events) }
{
    let mut text = Vec::new(alloc);
    text.extend_from_slice(b"weak 1\nentries ")?;
    write_number(&mut text, events)?;
    text.push(b'\n')?;
    Ok(text)
}

/// Applies an event to a core that is open and not full. Refused only where memory runs out.
fn enter(core: &mut Core, posted: Posted) -> Result<u64, OutOfMemory>
    requires known { IsEventFor core.old.links posted.event }
    requires not_closed { core.old.closed ≡ false }
    requires not_full { length core.old.history < max_entries }
    ensures { IfOk result (λ place.
        Applied core.old posted.stream posted.event place core.new) }
{
    match core.apply(posted.stream, posted.event) {
        Ok(place) => Ok(place),
        Err(CoreFault::OutOfMemory) => Err(OutOfMemory),
        Err(CoreFault::Closed | CoreFault::Full) => unreachable!(),
    }
}
