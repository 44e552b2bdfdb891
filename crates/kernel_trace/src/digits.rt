//! Digits of stamps and of fields.
ghost use Rattle.std.specs.Prelude.{◌≡◌, ◌-◌, ◌<◌, ◌≤◌, min, true, false, length, position, slice_index, MatchOption};
ghost use Rattle.std.specs.Char.{is_ascii_digit};
ghost use Rattle.std.specs.List.{list_all};
ghost use Rattle.affinity_mask.specs.Number.{number_value};
ghost use Rattle.kernel_trace.specs.Stamp.{is_number, is_point, seconds_text, fraction_text, is_fraction, to_nine, fraction_value};
ghost use Rattle.kernel_trace.specs.Reading.{in_places};

/// Whether a text has digits alone, and one at least.
pub fn is_number_text(text: &[u8]) -> bool
    ensures { result ≡ is_number text.now }
{
    has_digits_alone(text) && !text.is_empty()
}

/// Whether each byte of a text is a digit.
fn has_digits_alone(text: &[u8]) -> bool
    ensures { result ≡ list_all is_ascii_digit text.now }
{
    text.iter().all(|byte| byte.is_ascii_digit())
}

/// What stands before the first point of a text, and what stands after it.
pub fn cut_at_point(text: &[u8]) -> (&[u8], &[u8])
    ensures seconds { result.0.now ≡ seconds_text text.now }
    ensures fraction { result.1.now ≡ fraction_text text.now }
{
    match find_point(text) {
        Some(point) => (&text[..point], &text[point + 1..]),
        None => (text, &[]),
    }
}

/// Where the first point of a text stands.
fn find_point(text: &[u8]) -> Option<usize>
    ensures { result ≡ position is_point text.now }
{
    text.iter().position(|byte| *byte == b'.')
}

/// The nanoseconds of the digits after the point, of which there are one to nine.
pub fn read_fraction(digits: &[u8]) -> Option<u32>
    ensures { MatchOption result (is_fraction digits.now ≡ false)
        (λ nanos. (is_fraction digits.now ≡ true) × (nanos ≡ fraction_value digits.now)
        × (nanos < 1000000000)) }
{
    if digits.len() > 9 {
        return None;
    }
    if !is_number_text(digits) {
        return None;
    }
    Some(nanos_of(digits))
}

/// The nanoseconds of one to nine digits.
fn nanos_of(digits: &[u8]) -> u32
    requires digits { is_number digits.now ≡ true }
    requires few { length digits.now ≤ 9 }
    ensures value { result ≡ fraction_value digits.now }
    ensures bound { result < 1000000000 }
{
    let mut nanos = 0;
    for place in 0..9 {
        nanos = nanos * 10 + digit_or_zero(digits, place);
    }
    nanos
}

/// The digit at a place of some digits that have zeros after them.
fn digit_or_zero(digits: &[u8], place: usize) -> u32
    requires digits { is_number digits.now ≡ true }
    requires few { length digits.now ≤ 9 }
    requires place { place < 9 }
    ensures { result ≡ slice_index (to_nine digits.now) place - 48 }
{
    if place < digits.len() {
        (digits[place] - b'0') as u32
    } else {
        0
    }
}

/// How many seconds one number is above another one, or `most` where they are more; None where it is less. The digits are
/// taken from the left, as if the shorter number began with zeros.
pub fn seconds_between(earlier: &[u8], later: &[u8], most: u64) -> Option<u64>
    requires earlier { is_number earlier.now ≡ true }
    requires later { is_number later.now ≡ true }
    requires most { (1 ≤ most) × (most ≤ 1000000000000000000) }
    ensures { MatchOption result (number_value later.now < number_value earlier.now)
        (λ seconds. (number_value earlier.now ≤ number_value later.now)
        × (seconds ≡ min (number_value later.now - number_value earlier.now) most)) }
{
    let places = earlier.len().max(later.len());
    let mut ahead: u64 = 0;
    for place in 0..places {
        let digit = digit_at(later, places, place);
        let other = digit_at(earlier, places, place);
        let to = ahead * 10 + digit;
        if to < other {
            return None;
        }
        ahead = (to - other).min(most);
    }
    Some(ahead)
}

/// The digit at a place of a number that has zeros before it, so many that it has this many places.
fn digit_at(number: &[u8], places: usize, place: usize) -> u64
    requires digits { is_number number.now ≡ true }
    requires places { length number.now ≤ places }
    requires place { place < places }
    ensures { result ≡ slice_index (in_places places number.now) place - 48 }
{
    let zeros = places - number.len();
    if place < zeros {
        0
    } else {
        (number[place - zeros] - b'0') as u64
    }
}
