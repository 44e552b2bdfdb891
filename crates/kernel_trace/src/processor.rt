//! The processor of a line of the scheduler.
ghost use Rattle.std.specs.Prelude.{◌≡◌};
ghost use Rattle.kernel_trace.specs.Processor.{processor_of, processor_after, small_number};
ghost use Rattle.text_fields.specs.Lines.{fields_of};

use crate::event::event_here;
use crate::fields::first_field;
use crate::key::{is_keyed, number_of};

/// The least number that 32 bits do not hold.
const MANY_PROCESSORS: u64 = 4_294_967_296;

/// The processor that a line of the scheduler names before its stamp.
pub fn read_processor(waking: bool, line: &[u8]) -> Option<u32>
    ensures { result ≡ processor_of waking (fields_of line.now) }
{
    let Some((first, rest)) = first_field(line) else {
        return None;
    };
    let mut named = None;
    let mut field = first;
    let mut rest = rest;
    while let Some((next, after)) = first_field(rest) {
        if event_here(waking, field, next, after).is_some() {
            return named;
        }
        named = processor_after(named, field);
        field = next;
        rest = after;
    }
    None
}

#[tactic(auto, unfolding(crate::specs::Processor::is_processor, crate::specs::Processor::processor_named))]
/// What is named after one field more.
fn processor_after(named: Option<u32>, field: &[u8]) -> Option<u32>
    ensures { result ≡ processor_after named field.now }
{
    let Some((bracket, text)) = field.split_last() else {
        return named;
    };
    if *bracket != b']' {
        return named;
    }
    if !is_keyed(text, "[") {
        return named;
    }
    small_number(number_of(text, "[", MANY_PROCESSORS))
}

/// A number, where 32 bits hold it.
fn small_number(number: u64) -> Option<u32>
    ensures { result ≡ small_number number }
{
    if number < MANY_PROCESSORS {
        Some(number as u32)
    } else {
        None
    }
}
