//! Fields with a key, as `pid=101`.
ghost use Rattle.std.specs.Prelude.{◌≡◌, ◌≤◌, min, true, false, length, MatchOption};
ghost use Rattle.std.specs.Str.{bytes_eq};
ghost use Rattle.affinity_mask.specs.Number.{number_value};
ghost use Rattle.kernel_trace.specs.TraceLine.{begins, after_key, unsigned, is_keyed, is_priority, is_real_time, id_after};

use crate::digits::is_number_text;

/// What stands for a number that is greater than each thread id.
const NO_ID: u64 = 4_194_305;

/// The least priority that is not one of real time.
const FAIR: u64 = 100;

/// Whether a field is this text.
pub fn is_text(field: &[u8], text: &str) -> bool
    ensures { result ≡ bytes_eq field.now text.now }
{
    field == text.as_bytes()
}

/// Whether a field begins with a key.
pub fn begins_with(field: &[u8], key: &str) -> bool
    ensures { result ≡ begins key.now field.now }
{
    field.starts_with(key.as_bytes())
}

/// What stands after a key, or as many bytes.
pub fn behind<'a>(field: &'a [u8], key: &str) -> &'a [u8]
    ensures { result.now ≡ after_key key.now field.now }
{
    match field.get(key.len()..) {
        Some(rest) => rest,
        None => &[],
    }
}

#[tactic(auto, unfolding(crate::specs::TraceLine::is_keyed))]
/// Whether a field is a key and digits.
pub fn is_keyed(field: &[u8], key: &str) -> bool
    ensures { result ≡ is_keyed key.now field.now }
{
    begins_with(field, key) && is_number_text(behind(field, key))
}

#[tactic(auto, unfolding(crate::specs::TraceLine::is_priority))]
/// Whether a field is a key and a priority, of which that of SCHED_DEADLINE is below zero.
pub fn is_priority(field: &[u8], key: &str) -> bool
    ensures { result ≡ is_priority key.now field.now }
{
    begins_with(field, key) && is_number_text(unsigned(behind(field, key)))
}

#[tactic(auto, unfolding(crate::specs::TraceLine::is_real_time))]
/// Whether the priority of a field with a key is one of real time: below 100, or below zero, as that of SCHED_DEADLINE.
pub fn is_real_time(field: &[u8], key: &str) -> bool
    requires { is_priority key.now field.now ≡ true }
    ensures { result ≡ is_real_time key.now field.now }
{
    begins_with(behind(field, key), "-") || number_of(field, key, FAIR) < FAIR
}

/// What stands after a minus, where there is one.
fn unsigned(text: &[u8]) -> &[u8]
    ensures { result.now ≡ unsigned text.now }
{
    if begins_with(text, "-") {
        behind(text, "-")
    } else {
        text
    }
}

#[tactic(auto, unfolding(crate::specs::TraceLine::id_after))]
/// The thread id of a field with a key.
pub fn id_of(field: &[u8], key: &str) -> u32
    requires { is_keyed key.now field.now ≡ true }
    ensures { result ≡ id_after key.now field.now }
{
    number_of(field, key, NO_ID) as u32
}

/// The number of a field with a key, or `most` where it is greater.
pub fn number_of(field: &[u8], key: &str, most: u64) -> u64
    requires keyed { is_keyed key.now field.now ≡ true }
    requires most { most ≤ 1000000000000000000 }
    ensures { result ≡ min (number_value (after_key key.now field.now)) most }
{
    let digits = behind(field, key);
    let mut number: u64 = 0;
    for digit in digits {
        number = (number * 10 + (*digit - b'0') as u64).min(most);
    }
    number
}
