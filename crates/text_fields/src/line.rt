//! Lines that both texts have: the number of processors, and the tasks.
ghost use Rattle.std.specs.Prelude.{◌≡◌, ◌++◌, OnOk};
ghost use Rattle.std.specs.List.{flat_map};
ghost use Rattle.task_set.specs.Refusal.{new_task};
ghost use Rattle.text_fields.specs.LineText.{processors_line, task_line, PrioritiesFit};

use crate::number::write_number;
use affinity_mask::{OutOfMemory, ProcSet};
use task_set::TaskSet;

/// Appends the line with the number of processors. Refused only when out of memory.
pub fn write_processors_line(text: &mut Vec<u8>, set: &TaskSet) -> Result<(), OutOfMemory>
    ensures { OnOk result (text.new.items ≡ text.old.items ++ processors_line set.now) }
{
    text.extend_from_slice(b"processors ")?;
    write_number(text, set.processors() as u64)?;
    text.push(b'\n')?;
    Ok(())
}

/// Appends the lines of all tasks. Each priority fits the format, as it is a `u32`. Refused only when out of memory.
pub fn write_task_lines(text: &mut Vec<u8>, set: &TaskSet) -> Result<(), OutOfMemory>
    ensures written { OnOk result
        (text.new.items ≡ text.old.items ++ flat_map task_line set.now.tasks) }
    ensures fit { OnOk result (PrioritiesFit set.now) }
{
    for t in 0..set.len() {
        write_task_line(text, set.name(t), set.priority(t), &set.mask(t))?;
    }
    Ok(())
}

/// Appends the line of a task. Refused only when out of memory.
pub fn write_task_line(
    text: &mut Vec<u8>,
    name: &str,
    priority: u32,
    mask: &ProcSet,
) -> Result<(), OutOfMemory>
    ensures { OnOk result (text.new.items
        ≡ text.old.items ++ task_line (new_task name.now priority mask.now)) }
{
    text.extend_from_slice(b"task ")?;
    text.extend_from_slice(name.as_bytes())?;
    text.push(b' ')?;
    write_number(text, priority as u64)?;
    text.push(b' ')?;
    mask.write_list(text)?;
    text.push(b'\n')?;
    Ok(())
}
