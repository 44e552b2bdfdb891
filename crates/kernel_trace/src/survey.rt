//! A first look over a whole text of a trace.
ghost use Rattle.std.specs.Prelude.{◌≡◌, true, false, not, position, is_some, IfOk, OnOk};
ghost use Rattle.std.specs.List.{list_any};
ghost use Rattle.std.specs.Option.{option_map};
ghost use Rattle.kernel_trace.specs.StampView.{time_of};
ghost use Rattle.kernel_trace.specs.Survey.{is_slash, before_slash, behind_slash, differ_at_slash, is_plain_wakeup, has_wakeup, hears_waking, tells_of_overwriting, begins_overwritten, sighted_line, whole_from, survey_of, survey_with};
ghost use Rattle.kernel_trace.specs.SurveyView.{look_of, sightings_of};
ghost use Rattle.text_fields.specs.Lines.{lines_of, fields_of};

use crate::event::{bare_word, event_of, is_of_scheduler};
use crate::fields::{first_field, first_line};
use crate::key::is_text;
use crate::processor::read_processor;
use crate::stamp::Stamp;
use affinity_mask::OutOfMemory;
use indexmap::IndexSet;
use std::alloc::Global;

/// Which word is that of a wakeup, and from when on the lines of all processors are there, where the recorder overwrote some.
#[derive(Clone, Copy)]
pub struct Survey<'a> {
    pub waking: bool,
    pub whole: Option<Stamp<'a>>,
}

/// The processors that were named so far, and the time of the last line that named a new one.
#[derive(Drop)]
struct Sightings<'a> {
    processors: IndexSet<u32>,
    time: Option<Stamp<'a>>,
}

/// What is said of a whole text. A text with a `sched_wakeup` is looked at up to it; and one of which nothing was overwritten up to
/// its first line of the scheduler.
pub fn look_over<'a>(alloc: Global, bytes: &'a [u8]) -> Result<Survey<'a>, OutOfMemory>
    ensures { IfOk result (λ survey. look_of survey ≡ survey_of (lines_of bytes.now)) }
{
    let waking = !has_wakeup(bytes);
    look_with(alloc, waking, bytes)
}

/// What is said of a whole text, where the word of a wakeup is known.
fn look_with<'a>(alloc: Global, waking: bool, bytes: &'a [u8]) -> Result<Survey<'a>, OutOfMemory>
    ensures { IfOk result (λ survey. look_of survey ≡ survey_with waking (lines_of bytes.now)) }
{
    let whole = if begins_overwritten(waking, bytes) {
        whole_from(alloc, waking, bytes)?
    } else {
        None
    };
    Ok(Survey { waking, whole })
}

/// Whether some line has a `sched_wakeup`.
fn has_wakeup(bytes: &[u8]) -> bool
    ensures { result ≡ list_any has_wakeup (lines_of bytes.now) }
{
    let mut rest = bytes;
    while !rest.is_empty() {
        let (line, after) = first_line(rest);
        if line_has_wakeup(line) {
            return true;
        }
        rest = after;
    }
    false
}

/// Whether a line has a `sched_wakeup`.
fn line_has_wakeup(line: &[u8]) -> bool
    ensures { result ≡ has_wakeup line.now }
{
    let mut rest = line;
    while let Some((field, after)) = first_field(rest) {
        if is_plain_wakeup(field) {
            return true;
        }
        rest = after;
    }
    false
}

#[tactic(auto, unfolding(crate::specs::Survey::is_plain_wakeup))]
/// Whether a field is `sched_wakeup:`.
fn is_plain_wakeup(field: &[u8]) -> bool
    ensures { result ≡ is_plain_wakeup field.now }
{
    is_text(bare_word(field), "sched_wakeup:")
}

/// Whether some line before the first one of the scheduler says that lines were overwritten.
fn begins_overwritten(waking: bool, bytes: &[u8]) -> bool
    ensures { result ≡ begins_overwritten waking (lines_of bytes.now) }
{
    let mut rest = bytes;
    while !rest.is_empty() {
        let (line, after) = first_line(rest);
        if is_of_overwriting(line) {
            return true;
        }
        if is_of_scheduler(waking, line) {
            return false;
        }
        rest = after;
    }
    false
}

/// Whether a line is of the head of ftrace, and says that more lines were written than are left.
pub fn is_of_overwriting(line: &[u8]) -> bool
    ensures { result ≡ tells_of_overwriting (fields_of line.now) }
{
    let Some((mark, rest)) = first_field(line) else {
        return false;
    };
    let Some((word, rest)) = first_field(rest) else {
        return false;
    };
    let Some((counts, _)) = first_field(rest) else {
        return false;
    };
    is_text(mark, "#")
        && is_text(word, "entries-in-buffer/entries-written:")
        && differ_at_slash(counts)
}

/// Whether what stands before the first slash of a field is not what stands behind it.
fn differ_at_slash(field: &[u8]) -> bool
    ensures { result ≡ differ_at_slash field.now }
{
    let (before, behind) = cut_at_slash(field);
    before != behind
}

/// What stands before the first slash of a field, and what stands behind it.
fn cut_at_slash(text: &[u8]) -> (&[u8], &[u8])
    ensures before { result.0.now ≡ before_slash text.now }
    ensures behind { result.1.now ≡ behind_slash text.now }
{
    match find_slash(text) {
        Some(slash) => (&text[..slash], &text[slash + 1..]),
        None => (text, &[]),
    }
}

/// Where the first slash of a field stands.
fn find_slash(text: &[u8]) -> Option<usize>
    ensures { result ≡ position is_slash text.now }
{
    text.iter().position(|byte| *byte == b'/')
}

/// From when on each processor that some line of the scheduler names has had one.
fn whole_from<'a>(
    alloc: Global,
    waking: bool,
    bytes: &'a [u8],
) -> Result<Option<Stamp<'a>>, OutOfMemory>
    ensures { IfOk result (λ whole. option_map time_of whole ≡ whole_from waking (lines_of bytes.now)) }
{
    let mut sightings = Sightings {
        processors: IndexSet::new(alloc),
        time: None,
    };
    let mut rest = bytes;
    while !rest.is_empty() {
        let (line, after) = first_line(rest);
        sightings.see(waking, line)?;
        rest = after;
    }
    Ok(sightings.time)
}

impl<'a> Sightings<'a> {
    /// Goes on by a line.
    fn see(&mut self, waking: bool, line: &'a [u8]) -> Result<(), OutOfMemory>
        ensures { OnOk result (sightings_of self.new ≡ sighted_line waking (sightings_of self.old) line.now) }
    {
        let Some(event) = event_of(waking, line) else {
            return Ok(());
        };
        let Some(processor) = read_processor(waking, line) else {
            return Ok(());
        };
        let is_new = self.processors.insert(processor)?;
        if is_new {
            self.time = Some(event.stamp);
        }
        Ok(())
    }
}
