//! The writer of schedule texts.
ghost use Rattle.std.specs.Prelude.{◌≡◌, ◌<◌, ◌++◌, length, codes, All, IfOk, OnOk, IfSome};
ghost use Rattle.std.specs.List.{flat_map};
ghost use Rattle.affinity_mask.specs.Number.{canonical_number};
ghost use Rattle.text_fields.specs.LineText.{line};
ghost use Rattle.text_fields.specs.Version.{IsVersion};
ghost use Rattle.strong_apa.specs.Reply.{came_tasks};
ghost use Rattle.strong_apa.specs.declared.reply.Came.TheVariants as came;
ghost use Rattle.strong_apa.specs.declared.reply.Reply.TheVariants.{Remasked, Off};
ghost use Rattle.schedule_text.specs.ScheduleText.{
  chain_text,
  set_text,
  somebody_text,
  number_text,
  came_text,
  gone_text,
  reply_text,
  entry_line,
  context_line,
  schedule_text,
  AreTasksOf,
  IsReplyOf,
  IsEntryOf,
  IsEntryOfVersion,
};

use affinity_mask::{OutOfMemory, ProcSet};
use std::alloc::Global;
use strong_apa::{Came, Chain, Entry, Gone, Moved, Reply};
use task_set::{Context, TaskSet};
use text_fields::{
    write_event_text, write_name, write_number, write_processors_line, write_task_lines,
};

/// The text of a schedule in a version of the format: a task set, the entries of a history, and the contexts of the
/// tasks. What they are about is of the set, and their events and replies are of the version. Refused only when out of
/// memory.
pub fn write_schedule(
    alloc: Global,
    version: u8,
    set: &TaskSet,
    entries: &[Entry],
    contexts: &[Context],
) -> Result<Vec<u8>, OutOfMemory>
    requires version { IsVersion version }
    requires entries { All (IsEntryOf set.now) entries.now }
    requires of_version { All (IsEntryOfVersion version) entries.now }
    requires contexts { All (λ c. c.task < length set.now.tasks) contexts.now }
    ensures { IfOk result (λ text. text.items
        ≡ schedule_text version set.now entries.now contexts.now) }
{
    let mut text = Vec::new(alloc);
    write_numbered_line(&mut text, b"schedule ", version as u64)?;
    write_processors_line(&mut text, set)?;
    write_task_lines(&mut text, set)?;
    write_numbered_line(&mut text, b"history ", entries.len() as u64)?;
    write_entries(&mut text, set, entries)?;
    write_numbered_line(&mut text, b"contexts ", contexts.len() as u64)?;
    write_contexts(&mut text, set, contexts)?;
    text.extend_from_slice(b"end\n")?;
    Ok(text)
}

/// Appends the lines of entries.
fn write_entries(text: &mut Vec<u8>, set: &TaskSet, entries: &[Entry]) -> Result<(), OutOfMemory>
    requires { All (IsEntryOf set.now) entries.now }
    ensures { OnOk result (text.new.items ≡ text.old.items
        ++ flat_map (entry_line set.now) entries.now) }
{
    for entry in entries {
        write_entry(text, set, entry)?;
    }
    Ok(())
}

/// Appends the line of an entry: its stream, its event and its reply.
fn write_entry(text: &mut Vec<u8>, set: &TaskSet, entry: &Entry) -> Result<(), OutOfMemory>
    requires { IsEntryOf set.now entry.now }
    ensures { OnOk result (text.new.items ≡ text.old.items ++ entry_line set.now entry.now) }
{
    write_number(text, entry.caller as u64)?;
    text.push(b' ')?;
    write_event_text(text, set, entry.event)?;
    text.push(b' ')?;
    write_reply(text, set, &entry.reply)?;
    text.push(b'\n')?;
    Ok(())
}

/// Appends a reply.
#[tactic(auto, unfolding(crate::specs::ScheduleText::reply_text, crate::specs::ScheduleText::came_text, crate::specs::ScheduleText::gone_text))]
fn write_reply(text: &mut Vec<u8>, set: &TaskSet, reply: &Reply) -> Result<(), OutOfMemory>
    requires { IsReplyOf set.now reply.now }
    ensures { OnOk result (text.new.items ≡ text.old.items ++ reply_text set.now reply.now) }
{
    match reply {
        Reply::Placed { chain } => write_placed(text, chain),
        Reply::Displaced { chain, out, reach } => write_displaced(text, set, chain, *out, reach),
        Reply::Waits { reach } => write_waits(text, reach),
        Reply::Freed {
            entered,
            chain,
            back,
        } => write_gone(text, set, b"freed ", *entered, chain, back),
        Reply::Left => write_word(text, b"left"),
        Reply::Ticked => write_word(text, b"ticked"),
        Reply::AlreadyReady => write_word(text, b"already"),
        Reply::NotReady => write_word(text, b"absent"),
        Reply::Masked => write_word(text, b"masked"),
        Reply::Remasked { gone, came } => write_remasked(text, set, gone, came),
        Reply::AlreadyOff => write_word(text, b"already_off"),
        Reply::AlreadyOn => write_word(text, b"already_on"),
        Reply::Off { moved } => write_off(text, set, moved),
        Reply::On { parts } => {
            write_gone(text, set, b"on ", parts.entered, &parts.chain, &parts.back)
        }
    }
}

/// Appends the reply that the mask of a ready task was set.
fn write_remasked(
    text: &mut Vec<u8>,
    set: &TaskSet,
    gone: &Option<Gone>,
    came: &Came,
) -> Result<(), OutOfMemory>
    requires { IsReplyOf set.now (Remasked gone.now came.now) }
    ensures { OnOk result (text.new.items ≡ text.old.items
        ++ reply_text set.now (Remasked gone.now came.now)) }
{
    match gone {
        Some(gone) => {
            let word = b"remasked freed ";
            write_gone(text, set, word, gone.entered, &gone.chain, &gone.back)?;
            write_came(text, set, b" then ", came)
        }
        None => write_came(text, set, b"remasked left then ", came),
    }
}

/// Appends the reply that a processor is off line.
fn write_off(text: &mut Vec<u8>, set: &TaskSet, moved: &Option<Moved>) -> Result<(), OutOfMemory>
    requires { IsReplyOf set.now (Off moved.now) }
    ensures { OnOk result (text.new.items ≡ text.old.items
        ++ reply_text set.now (Off moved.now)) }
{
    match moved {
        Some(moved) => {
            write_word(text, b"off ")?;
            write_name(text, set, moved.task)?;
            write_came(text, set, b" then ", &moved.came)
        }
        None => write_word(text, b"off -"),
    }
}

/// Appends a word and the result of an arrival.
fn write_came(
    text: &mut Vec<u8>,
    set: &TaskSet,
    word: &[u8],
    came: &Came,
) -> Result<(), OutOfMemory>
    requires { AreTasksOf set.now (came_tasks came.now) }
    ensures { OnOk result (text.new.items ≡ text.old.items
        ++ (word.now ++ came_text set.now came.now)) }
{
    write_word(text, word)?;
    write_result(text, set, came)
}

/// Appends the result of an arrival.
#[tactic(auto, unfolding(crate::specs::ScheduleText::came_text))]
fn write_result(text: &mut Vec<u8>, set: &TaskSet, came: &Came) -> Result<(), OutOfMemory>
    requires { AreTasksOf set.now (came_tasks came.now) }
    ensures { OnOk result (text.new.items ≡ text.old.items ++ came_text set.now came.now) }
{
    match came {
        Came::Placed { chain } => write_placed(text, chain),
        Came::Displaced { chain, out, reach } => write_displaced(text, set, chain, *out, reach),
        Came::Waits { reach } => write_waits(text, reach),
    }
}

/// Appends the result that a task was placed along a chain.
fn write_placed(text: &mut Vec<u8>, chain: &Chain) -> Result<(), OutOfMemory>
    ensures { OnOk result (text.new.items ≡ text.old.items
        ++ (codes "placed " ++ chain_text chain.now)) }
{
    write_word(text, b"placed ")?;
    write_chain(text, chain)
}

/// Appends the result that a task was displaced at the end of a chain, with what the arriving task reaches.
fn write_displaced(
    text: &mut Vec<u8>,
    set: &TaskSet,
    chain: &Chain,
    out: u32,
    reach: &ProcSet,
) -> Result<(), OutOfMemory>
    requires { out < length set.now.tasks }
    ensures { OnOk result (text.new.items ≡ text.old.items
        ++ came_text set.now (came.Displaced chain.now out reach.now)) }
{
    write_word(text, b"displaced ")?;
    write_chain(text, chain)?;
    write_word(text, b" out ")?;
    write_name(text, set, out)?;
    write_word(text, b" reach ")?;
    write_set(text, reach)
}

/// Appends the result that a task waits, with what it reaches.
fn write_waits(text: &mut Vec<u8>, reach: &ProcSet) -> Result<(), OutOfMemory>
    ensures { OnOk result (text.new.items ≡ text.old.items
        ++ (codes "waits " ++ set_text reach.now)) }
{
    write_word(text, b"waits ")?;
    write_set(text, reach)
}

/// Appends a word and who came in at a processor that became idle: along which chain, who, and the processors from which
/// it is reached.
fn write_gone(
    text: &mut Vec<u8>,
    set: &TaskSet,
    word: &[u8],
    entered: Option<u32>,
    chain: &Chain,
    back: &ProcSet,
) -> Result<(), OutOfMemory>
    requires { IfSome entered (λ t. t < length set.now.tasks) }
    ensures { OnOk result (text.new.items ≡ text.old.items ++ (word.now
        ++ gone_text set.now (record {
          entered = entered;
          chain = chain.now;
          back = back.now;
        }))) }
{
    write_word(text, word)?;
    write_chain(text, chain)?;
    write_word(text, b" enters ")?;
    write_name_or_dash(text, set, entered)?;
    write_word(text, b" back ")?;
    write_set(text, back)
}

/// Appends the processors of a chain in their order, or '-' where it has none.
fn write_chain(text: &mut Vec<u8>, chain: &Chain) -> Result<(), OutOfMemory>
    ensures { OnOk result (text.new.items ≡ text.old.items ++ chain_text chain.now) }
{
    if chain.is_empty() {
        return write_word(text, b"-");
    }
    write_number(text, chain.at(0) as u64)?;
    for i in 1..chain.len() {
        write_labelled_number(text, b">", chain.at(i) as u64)?;
    }
    Ok(())
}

/// Appends the canonical list of a set, or '-' where it is empty.
fn write_set(text: &mut Vec<u8>, set: &ProcSet) -> Result<(), OutOfMemory>
    ensures { OnOk result (text.new.items ≡ text.old.items ++ set_text set.now) }
{
    if set.is_empty() {
        write_word(text, b"-")
    } else {
        set.write_list(text)
    }
}

/// Appends the name of a task, or '-' for nobody.
fn write_name_or_dash(text: &mut Vec<u8>, set: &TaskSet, t: Option<u32>) -> Result<(), OutOfMemory>
    requires { IfSome t (λ t. t < length set.now.tasks) }
    ensures { OnOk result (text.new.items ≡ text.old.items ++ somebody_text set.now t) }
{
    match t {
        Some(t) => write_name(text, set, t),
        None => write_word(text, b"-"),
    }
}

/// Appends the lines of contexts.
fn write_contexts(
    text: &mut Vec<u8>,
    set: &TaskSet,
    contexts: &[Context],
) -> Result<(), OutOfMemory>
    requires { All (λ c. c.task < length set.now.tasks) contexts.now }
    ensures { OnOk result (text.new.items ≡ text.old.items
        ++ flat_map (context_line set.now) contexts.now) }
{
    for context in contexts {
        write_context(text, set, context)?;
    }
    Ok(())
}

/// Appends the line of a context, whose task is of the set.
fn write_context(text: &mut Vec<u8>, set: &TaskSet, context: &Context) -> Result<(), OutOfMemory>
    requires { context.now.task < length set.now.tasks }
    ensures { OnOk result (text.new.items ≡ text.old.items ++ context_line set.now context.now) }
{
    write_name(text, set, context.task)?;
    write_labelled_number(text, b" units ", context.units)?;
    write_labelled_number(text, b" stints ", context.stints)?;
    write_labelled_number(text, b" moves ", context.moves)?;
    write_word(text, b" last ")?;
    write_number_or_dash(text, context.last)?;
    write_labelled_number(text, b" trail ", context.trail)?;
    text.push(b'\n')?;
    Ok(())
}

/// Appends a processor, or '-' where there is none.
fn write_number_or_dash(text: &mut Vec<u8>, number: Option<u8>) -> Result<(), OutOfMemory>
    ensures { OnOk result (text.new.items ≡ text.old.items ++ number_text number) }
{
    match number {
        Some(p) => write_number(text, p as u64),
        None => write_word(text, b"-"),
    }
}

/// Appends a line of a label and a number: the version, or how many lines of a kind follow.
fn write_numbered_line(text: &mut Vec<u8>, label: &[u8], number: u64) -> Result<(), OutOfMemory>
    ensures { OnOk result
        (text.new.items ≡ text.old.items ++ line (label.now ++ canonical_number number)) }
{
    write_labelled_number(text, label, number)?;
    text.push(b'\n')?;
    Ok(())
}

/// Appends a label and a number.
fn write_labelled_number(text: &mut Vec<u8>, label: &[u8], number: u64) -> Result<(), OutOfMemory>
    ensures { OnOk result (text.new.items ≡ text.old.items
        ++ (label.now ++ canonical_number number)) }
{
    write_word(text, label)?;
    write_number(text, number)
}

/// Appends some bytes.
fn write_word(text: &mut Vec<u8>, word: &[u8]) -> Result<(), OutOfMemory>
    ensures { OnOk result (text.new.items ≡ text.old.items ++ word.now) }
{
    text.extend_from_slice(word)?;
    Ok(())
}
