//! Events as text.
ghost use Rattle.std.specs.Prelude.{◌≡◌, ◌++◌, OnOk};
ghost use Rattle.text_fields.specs.EventText.{event_text, IsAboutSet};

use crate::name::write_name;
use crate::number::write_number;
use affinity_mask::OutOfMemory;
use task_set::{Event, TaskSet};

/// Appends an event. Refused only when out of memory.
pub fn write_event_text(text: &mut Vec<u8>, set: &TaskSet, event: Event) -> Result<(), OutOfMemory>
    requires { IsAboutSet set.now event }
    ensures { OnOk result (text.new.items ≡ text.old.items ++ event_text set.now event) }
{
    match event {
        Event::Arrive(t) => {
            text.extend_from_slice(b"arrive ")?;
            write_name(text, set, t)?;
        }
        Event::Depart(t) => {
            text.extend_from_slice(b"depart ")?;
            write_name(text, set, t)?;
        }
        Event::Tick(units) => {
            text.extend_from_slice(b"tick ")?;
            write_number(text, units as u64)?;
        }
        Event::Affinity { task, mask } => {
            text.extend_from_slice(b"affinity ")?;
            write_name(text, set, task)?;
            text.push(b' ')?;
            mask.write_list(text)?;
        }
        Event::Offline(p) => {
            text.extend_from_slice(b"offline ")?;
            write_number(text, p as u64)?;
        }
        Event::Online(p) => {
            text.extend_from_slice(b"online ")?;
            write_number(text, p as u64)?;
        }
    }
    Ok(())
}
