//! The text of a run by counts.
ghost use Rattle.std.specs.Prelude.{◌≡◌, ◌⊎◌, ℕ, ◌<◌, [], ◌++◌, codes, length, IfOk, IfErr, IfSome, OnOk, IsOkUnless, Err};
ghost use Rattle.affinity_mask.specs.Number.{canonical_number};
ghost use Rattle.task_set.specs.TaskSet.{masks};
ghost use Rattle.text_fields.specs.LineText.{line};
ghost use Rattle.nested_masks.specs.Laminar.{IsLaminar, IsFirstCrossing};
ghost use Rattle.nested_masks.specs.Answers.{IsEventByCounts, IsCrossingFault};
ghost use Rattle.nested_masks.specs.NestedData.{nested_start};
ghost use Rattle.nested_masks.specs.NestedText.{IsNestedText, IsWritten, NamesTasks, head_text, reply_text, entered_text};
ghost use Rattle.nested_masks.specs.declared.fault.NestedFault.{NestedFault};

use crate::fault::NestedFault;
use crate::nested::Nested;
use crate::reply::NestedReply;
use affinity_mask::OutOfMemory;
use std::alloc::Global;
use task_set::{Event, TaskSet};
use text_fields::{write_name, write_number};
use trace_reader::Input;

/// The text of the run by counts of the events of an input. Refused where masks cross, and where memory runs out.
pub fn replay_nested(alloc: Global, input: &Input) -> Result<Vec<u8>, NestedFault>
    requires { input.now.version ≡ 1 }
    ensures text { IfOk result (λ text. IsNestedText input.now.set input.now.events text.items) }
    ensures laminar { IfOk result (λ text. IsLaminar (masks input.now.set)) }
    ensures refused { IfErr result (λ fault. (fault ≡ NestedFault.OutOfMemory)
        ⊎ IsCrossingFault input.now.set fault) }
{
    let _valid = input.events();
    let mut nested = Nested::new(alloc, input.set())?;
    let mut text = Vec::new(alloc);
    write_run(&mut text, &mut nested, input)?;
    Ok(text)
}

/// Writes the text of the run from the first moment on.
fn write_run(text: &mut Vec<u8>, nested: &mut Nested, input: &Input) -> Result<(), OutOfMemory>
    requires version { input.now.version ≡ 1 }
    requires start { nested.old ≡ nested_start input.now.set }
    requires empty { text.old.items ≡ [] }
    ensures { OnOk result (IsNestedText input.now.set input.now.events text.new.items) }
{
    write_head(text, input.events().len())?;
    for posted in input.events() {
        write_step(text, input.set(), nested, posted.event)?;
    }
    text.extend_from_slice(b"end\n")?;
    Ok(())
}

/// Appends the lines before the first entry.
fn write_head(text: &mut Vec<u8>, count: usize) -> Result<(), OutOfMemory>
    ensures { OnOk result (text.new.items ≡ text.old.items ++ head_text count) }
{
    text.extend_from_slice(b"nested 1\nentries ")?;
    write_number(text, count as u64)?;
    text.push(b'\n')?;
    Ok(())
}

/// Applies an event, and appends the line of the entry.
#[tactic(auto, unfolding(crate::specs::NestedText::entry_line))]
fn write_step(
    text: &mut Vec<u8>,
    set: &TaskSet,
    nested: &mut Nested,
    event: Event,
) -> Result<(), OutOfMemory>
    requires same { length nested.old.priorities ≡ length set.now.tasks }
    requires event { IsEventByCounts (length nested.old.priorities) event }
    ensures { OnOk result (IsWritten set.now event nested.old text.old.items nested.new
        text.new.items) }
{
    let reply = nested.apply(event);
    write_number(text, u64::from(nested.linked_count()))?;
    text.push(b' ')?;
    write_reply(text, set, reply)?;
    text.push(b'\n')?;
    Ok(())
}

/// Appends a reply.
#[tactic(auto, unfolding(crate::specs::NestedText::reply_text))]
fn write_reply(text: &mut Vec<u8>, set: &TaskSet, reply: NestedReply) -> Result<(), OutOfMemory>
    requires { NamesTasks (length set.now.tasks) reply }
    ensures { OnOk result (text.new.items ≡ text.old.items ++ reply_text set.now reply) }
{
    match reply {
        NestedReply::Entered => write_word(text, b"placed"),
        NestedReply::Displaced { out, node } => {
            write_word(text, b"displaced ")?;
            write_name(text, set, out)?;
            write_word(text, b" node ")?;
            node.write_list(text)
        }
        NestedReply::Waits { node } => {
            write_word(text, b"waits node ")?;
            node.write_list(text)
        }
        NestedReply::Freed { entered } => {
            write_word(text, b"freed ")?;
            write_entered(text, set, entered)
        }
        NestedReply::Left => write_word(text, b"left"),
        NestedReply::Ticked => write_word(text, b"ticked"),
        NestedReply::AlreadyReady => write_word(text, b"already"),
        NestedReply::NotReady => write_word(text, b"absent"),
    }
}

/// Appends the name of a task, or '-' for nobody.
fn write_entered(text: &mut Vec<u8>, set: &TaskSet, t: Option<u32>) -> Result<(), OutOfMemory>
    requires { IfSome t (λ t. t < length set.now.tasks) }
    ensures { OnOk result (text.new.items ≡ text.old.items ++ entered_text set.now t) }
{
    match t {
        Some(t) => write_name(text, set, t),
        None => write_word(text, b"-"),
    }
}

/// Appends some bytes.
fn write_word(text: &mut Vec<u8>, word: &[u8]) -> Result<(), OutOfMemory>
    ensures { OnOk result (text.new.items ≡ text.old.items ++ word.now) }
{
    text.extend_from_slice(word)?;
    Ok(())
}
