//! The fields of a line: what stands between its spaces. Sixteen bytes are compared at once.
ghost use Rattle.std.specs.Prelude.{◌≡◌, ◌≢◌, ℕ, ◌+◌, ◌<◌, ◌≤◌, length, min, IfOk};
ghost use Rattle.text_fields.specs.Fields.{texts};
ghost use Rattle.schedule_text.specs.Fields.{spaced_fields_of};
ghost use Rattle.schedule_text.specs.Spacing.{AreSpaces};

use affinity_mask::OutOfMemory;
use std::simd::prelude::*;

/// How many bytes are compared at once.
const BLOCK: usize = 16;

/// The fields of a line, in this room. It is laid into its callers, since each line of a text asks it once.
#[inline(always)]
pub fn spaced_fields<'a, 'r>(
    text: &'a [u8],
    room: &'r mut Vec<&'a [u8]>,
) -> Result<&'r [&'a [u8]], OutOfMemory>
    ensures { IfOk result (λ fields. texts fields.now ≡ spaced_fields_of text.now) }
{
    if text.len() < BLOCK {
        return short_fields(text, room);
    }
    room.clear();
    let mut from = 0;
    let mut block = 0;
    while block < text.len() {
        let mut spaces = spaces_of(text, block);
        let mut at = block;
        while spaces != 0 {
            let k = spaces.trailing_zeros() as usize;
            room.push(&text[from..at + k])?;
            from = at + k + 1;
            at = from;
            spaces >>= k + 1;
        }
        block += BLOCK;
    }
    room.push(&text[from..])?;
    Ok(room.as_slice())
}

/// The fields of a line that is shorter than a block.
fn short_fields<'a, 'r>(
    text: &'a [u8],
    room: &'r mut Vec<&'a [u8]>,
) -> Result<&'r [&'a [u8]], OutOfMemory>
    ensures { IfOk result (λ fields. texts fields.now ≡ spaced_fields_of text.now) }
{
    room.clear();
    for field in text.split(|byte| *byte == b' ') {
        room.push(field)?;
    }
    Ok(room.as_slice())
}

/// Which bytes of the block at `i`, or of the part of it that there is, are spaces: bit k stands for byte i + k.
fn spaces_of(text: &[u8], i: usize) -> u64
    requires long { 16 ≤ length text.now }
    requires within { i < length text.now }
    ensures { AreSpaces text.now i (min (i + 16) (length text.now)) result }
{
    let start = i.min(text.len() - BLOCK);
    spaces_from(text, start) >> (i - start)
}

/// Which of the sixteen bytes from a place on are spaces.
fn spaces_from(text: &[u8], start: usize) -> u64
    requires { start + 16 ≤ length text.now }
    ensures { AreSpaces text.now start (start + 16) result }
{
    u8x16::from_slice(&text[start..])
        .simd_eq(u8x16::splat(b' '))
        .to_bitmask()
}
