//! Names of tasks.
ghost use Rattle.std.specs.Prelude.{◌≡◌, ◌<◌, ◌↔◌, ◌++◌, IsTrue, All, length, OnOk, MatchOption};
ghost use Rattle.task_set.specs.Refusal.{IsNameOf, IsNewName};
ghost use Rattle.text_fields.specs.EventText.{name_of};

use affinity_mask::OutOfMemory;
use std::str;
use task_set::TaskSet;

/// The task that has this name. Bytes that are not ASCII are the name of no task.
pub fn task_of(set: &TaskSet, name: &[u8]) -> Option<u32>
    ensures { MatchOption result (IsNewName set.now name.now) (λ t. IsNameOf set.now t name.now) }
{
    let _valid = set.len();
    if !is_ascii(name) {
        return None;
    }
    set.find(unsafe { str::from_utf8_unchecked(name) })
}

/// Whether all bytes are ASCII.
fn is_ascii(bytes: &[u8]) -> bool
    ensures { IsTrue result ↔ All (λ byte. byte < 128) bytes.now }
{
    bytes.iter().all(|byte| *byte < 128)
}

/// Appends the name of a task. Refused only when out of memory.
pub fn write_name(text: &mut Vec<u8>, set: &TaskSet, t: u32) -> Result<(), OutOfMemory>
    requires { t < length set.now.tasks }
    ensures { OnOk result (text.new.items ≡ text.old.items ++ name_of set.now t) }
{
    text.extend_from_slice(set.name(t).as_bytes())?;
    Ok(())
}
