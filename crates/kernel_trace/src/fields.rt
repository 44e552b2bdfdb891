//! Lines, and their fields one after another. Nothing is kept of a line, however long it is.
ghost use Rattle.std.specs.Prelude.{◌≡◌, ◌≤◌, ◌↔◌, true, IsTrue, [], length, position, All, IfOk, MatchOption};
ghost use Rattle.std.specs.List.{position_or_len};
ghost use Rattle.text_fields.specs.Cut.{IsFirstLine};
ghost use Rattle.text_fields.specs.Fields.{texts};
ghost use Rattle.text_fields.specs.Lines.{fields_of, is_blank, is_skipped_line, IsPlain};
ghost use Rattle.kernel_trace.specs.Reading.{is_visible, IsFirstField};

use affinity_mask::OutOfMemory;
use text_fields::line_end;

/// The first line of some bytes, and what stands after it.
pub fn first_line(bytes: &[u8]) -> (&[u8], &[u8])
    ensures { IsFirstLine bytes.now result.0.now result.1.now }
{
    match line_end(bytes) {
        Some(end) => (&bytes[..end], &bytes[end + 1..]),
        None => (bytes, &[]),
    }
}

/// The first field of some bytes, and what stands after it.
pub fn first_field(bytes: &[u8]) -> Option<(&[u8], &[u8])>
    ensures { MatchOption result (fields_of bytes.now ≡ [])
        (λ cut. IsFirstField bytes.now cut.0.now cut.1.now) }
{
    let (_, from) = bytes.split_at(blanks(bytes));
    if from.is_empty() {
        return None;
    }
    let (field, rest) = from.split_at(before_blank(from));
    Some((field, rest))
}

/// How many blanks some bytes begin with.
fn blanks(bytes: &[u8]) -> usize
    ensures value { result ≡ position_or_len is_visible bytes.now }
    ensures bound { result ≤ length bytes.now }
{
    match find_visible(bytes) {
        Some(place) => place,
        None => bytes.len(),
    }
}

/// How many bytes stand before the first blank.
fn before_blank(bytes: &[u8]) -> usize
    ensures value { result ≡ position_or_len is_blank bytes.now }
    ensures bound { result ≤ length bytes.now }
{
    match find_blank(bytes) {
        Some(place) => place,
        None => bytes.len(),
    }
}

/// Where the first byte that is no blank stands.
fn find_visible(bytes: &[u8]) -> Option<usize>
    ensures { result ≡ position is_visible bytes.now }
{
    bytes.iter().position(|byte| !is_space_or_tab(*byte))
}

/// Where the first blank stands.
fn find_blank(bytes: &[u8]) -> Option<usize>
    ensures { result ≡ position is_blank bytes.now }
{
    bytes.iter().position(|byte| is_space_or_tab(*byte))
}

/// Whether a byte is a blank.
fn is_space_or_tab(byte: u8) -> bool
    ensures { result ≡ is_blank byte }
{
    byte == b' ' || byte == b'\t'
}

/// Whether each byte of a line is plain.
pub fn is_plain(line: &[u8]) -> bool
    ensures { IsTrue result ↔ All IsPlain line.now }
{
    line.iter().all(|byte| is_plain_byte(*byte))
}

/// Whether a byte may stand in a line of the head.
fn is_plain_byte(byte: u8) -> bool
    ensures { IsTrue result ↔ IsPlain byte }
{
    matches!(byte, b'\t' | b' '..=b'~')
}

/// The fields of a line, in this room.
pub fn fields<'a, 'r>(
    line: &'a [u8],
    room: &'r mut Vec<&'a [u8]>,
) -> Result<&'r [&'a [u8]], OutOfMemory>
    ensures { IfOk result (λ fields. texts fields.now ≡ fields_of line.now) }
{
    room.clear();
    for field in line.split(|byte| is_space_or_tab(*byte)) {
        if !field.is_empty() {
            room.push(field)?;
        }
    }
    Ok(room.as_slice())
}

/// Whether the fields are those of a line that is skipped.
pub fn is_skipped(fields: &[&[u8]]) -> bool
    ensures { result ≡ is_skipped_line true (texts fields.now) }
{
    match fields {
        [] => true,
        [first, ..] => first.first() == Some(&b'#'),
    }
}
