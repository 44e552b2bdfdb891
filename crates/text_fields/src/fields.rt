//! Lines, and the fields of a line.
ghost use Rattle.std.specs.Prelude.{◌≡◌, ◌↔◌, IsTrue, All, IfOk};
ghost use Rattle.text_fields.specs.Cut.{IsFirstLine};
ghost use Rattle.text_fields.specs.Fields.{texts};
ghost use Rattle.text_fields.specs.Lines.{fields_of, is_blank, is_skipped_line, IsPlain, MayStand};

use crate::feed::line_end;
use affinity_mask::OutOfMemory;

/// The first line of some bytes, and what stands after it.
pub fn first_line(bytes: &[u8]) -> (&[u8], &[u8])
    ensures { IsFirstLine bytes.now result.0.now result.1.now }
{
    match line_end(bytes) {
        Some(end) => (&bytes[..end], &bytes[end + 1..]),
        None => (bytes, &[]),
    }
}

/// Whether each byte of a line is plain. Where that is known, no byte is read.
pub fn is_plain(line: &[u8], known: bool) -> bool
    requires { IsTrue known → All IsPlain line.now }
    ensures { IsTrue result ↔ All IsPlain line.now }
{
    known || line.iter().all(|byte| is_plain_byte(*byte))
}

/// Whether a text has plain bytes and line feeds alone, so that each of its lines is plain. No byte ends the loop, so it
/// can take many bytes at a time, which costs much less than a test of each line.
pub fn has_plain_lines(text: &[u8]) -> bool
    ensures { IsTrue result → All MayStand text.now }
{
    let mut plain = true;
    for byte in text {
        plain &= *byte == b'\n' || is_plain_byte(*byte);
    }
    plain
}

/// Whether a byte may stand in a line.
fn is_plain_byte(byte: u8) -> bool
    ensures { IsTrue result ↔ IsPlain byte }
{
    matches!(byte, b'\t' | b' '..=b'~')
}

/// The fields of a line, in this room.
pub fn fields<'a, 'r>(
    line: &'a [u8],
    room: &'r mut Vec<&'a [u8]>,
) -> Result<&'r [&'a [u8]], OutOfMemory>
    ensures { IfOk result (λ fields. texts fields.now ≡ fields_of line.now) }
{
    room.clear();
    for field in line.split(|byte| is_space_or_tab(*byte)) {
        if !field.is_empty() {
            room.push(field)?;
        }
    }
    Ok(room.as_slice())
}

/// Whether a byte is a blank.
fn is_space_or_tab(byte: u8) -> bool
    ensures { result ≡ is_blank byte }
{
    byte == b' ' || byte == b'\t'
}

/// Whether the fields are those of a line that is skipped, where `#` begins a comment, or does not.
pub fn is_skipped(fields: &[&[u8]], has_comments: bool) -> bool
    ensures { result ≡ is_skipped_line has_comments (texts fields.now) }
{
    match fields {
        [] => true,
        [first, ..] => has_comments && first.first() == Some(&b'#'),
    }
}
