//! A schedule in numbers.
ghost use Rattle.std.specs.Prelude.{◌≡◌, ◌<◌, ◌≤◌, ◌+◌, ◌*◌, ◌%◌, ◌^◌, ◌++◌, codes, length, IfOk, OnOk, if◌then◌else◌};
ghost use Rattle.affinity_mask.specs.Number.{canonical_number};
ghost use Rattle.text_fields.specs.LineText.{line};
ghost use Rattle.commands.specs.Summary.{displaces, makes_wait, replies_of, sum_of_moves, trails_of, sizes_text, summary_text};

use crate::sizes::Sizes;
use affinity_mask::OutOfMemory;
use std::alloc::Global;
use strong_apa::{Entry, Reply};
use task_set::Context;

/// How many arrivals displaced a task, and how many wait.
#[derive(Clone, Copy)]
struct Replies {
    displaced: u32,
    waits: u32,
}

impl Replies {
    /// Counts a reply, where it is one of these. It does so without a jump: nobody can guess which reply comes next.
    fn note(&mut self, reply: &Reply)
        requires displaced { self.old.displaced < 20000 }
        requires waits { self.old.waits < 20000 }
        ensures displaced { self.new.displaced
            ≡ self.old.displaced + (if displaces reply.now then 1 else 0) }
        ensures waits { self.new.waits ≡ self.old.waits + (if makes_wait reply.now then 1 else 0) }
    {
        self.displaced += u32::from(matches!(reply, Reply::Displaced { .. }));
        self.waits += u32::from(matches!(reply, Reply::Waits { .. }));
    }
}

/// What all tasks have run.
#[derive(Clone, Copy)]
struct Totals {
    /// The sum of all moves, which 64 bits may not hold.
    moves: u128,

    /// The sum of all trails, modulo 2^64.
    trails: u64,
}

impl Totals {
    /// Adds what a task has run.
    fn add(&mut self, context: &Context)
        requires { self.old.moves ≤ 1024 * 2 ^ 64 }
        ensures moves { self.new.moves ≡ self.old.moves + context.now.moves }
        ensures trails { self.new.trails ≡ (self.old.trails + context.now.trail) % 2 ^ 64 }
        ensures small { context.now.moves ≤ 2 ^ 64 }
    {
        self.moves += u128::from(context.moves);
        self.trails = self.trails.wrapping_add(context.trail);
    }
}

/// The summary of a schedule of the input of these numbers, six lines. Refused only where memory is out.
pub fn write_summary(
    alloc: Global,
    sizes: Sizes,
    history: &[Entry],
    contexts: &[Context],
) -> Result<Vec<u8>, OutOfMemory>
    requires few { length history.now ≤ 20000 }
    requires each { length contexts.now ≤ 1024 }
    ensures { IfOk result (λ text. text.items ≡ summary_text sizes history.now contexts.now) }
{
    let replies = replies_in(history);
    let totals = totals_of(contexts);
    let mut text = sizes_line(alloc, sizes)?;
    write_line(alloc, &mut text, "entries ", history.len() as u128)?;
    write_line(
        alloc,
        &mut text,
        "displaced ",
        u128::from(replies.displaced),
    )?;
    write_line(alloc, &mut text, "waits ", u128::from(replies.waits))?;
    write_line(alloc, &mut text, "moves ", totals.moves)?;
    write_line(alloc, &mut text, "trails ", u128::from(totals.trails))?;
    Ok(text)
}

/// The line with the numbers of the input.
fn sizes_line(alloc: Global, sizes: Sizes) -> Result<Vec<u8>, OutOfMemory>
    ensures { IfOk result (λ text. text.items ≡ line (codes "large " ++ sizes_text sizes)) }
{
    let Sizes {
        number,
        processors,
        tasks,
        events,
    } = sizes;
    let text = format!(in alloc; "large {number} {processors} {tasks} {events}\n")?;
    Ok(text.into_bytes())
}

/// Appends a line of a label and a number.
fn write_line(
    alloc: Global,
    text: &mut Vec<u8>,
    label: &str,
    number: u128,
) -> Result<(), OutOfMemory>
    ensures { OnOk result (text.new.items
        ≡ text.old.items ++ line (label.now ++ canonical_number number)) }
{
    let line = format!(in alloc; "{label}{number}\n")?;
    text.extend_from_slice(line.as_bytes())?;
    Ok(())
}

/// Counts the replies of a history that are reported.
fn replies_in(history: &[Entry]) -> Replies
    requires { length history.now ≤ 20000 }
    ensures displaced { result.displaced ≡ replies_of displaces history.now }
    ensures waits { result.waits ≡ replies_of makes_wait history.now }
{
    let mut replies = Replies {
        displaced: 0,
        waits: 0,
    };
    for entry in history {
        replies.note(&entry.reply);
    }
    replies
}

/// Adds up what all tasks have run.
fn totals_of(contexts: &[Context]) -> Totals
    requires { length contexts.now ≤ 1024 }
    ensures moves { result.moves ≡ sum_of_moves contexts.now }
    ensures trails { result.trails ≡ trails_of contexts.now }
{
    let mut totals = Totals {
        moves: 0,
        trails: 0,
    };
    for context in contexts {
        totals.add(context);
    }
    totals
}
