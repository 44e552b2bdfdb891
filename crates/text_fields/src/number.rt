//! Numbers of the formats.
ghost use Rattle.std.specs.Prelude.{◌≡◌, ℕ, ◌++◌, OnOk, MatchOption};
ghost use Rattle.affinity_mask.specs.Number.{canonical_number};
ghost use Rattle.text_fields.specs.Number.{IsNumberWithin};

use affinity_mask::OutOfMemory;
use itoa::Buffer;

/// The value of a number, digits of any count with leading zeros, where it is from `least` to `most`.
pub fn read_number(field: &[u8], least: u64, most: u64) -> Option<u64>
    ensures { MatchOption result ((n : ℕ) → IsNumberWithin least most field.now n → ⊥)
        (IsNumberWithin least most field.now) }
{
    if field.is_empty() {
        return None;
    }
    let mut value: u64 = 0;
    for byte in field {
        if !byte.is_ascii_digit() {
            return None;
        }
        if value > most / 10 {
            return None;
        }
        let digit = (*byte - b'0') as u64;
        if digit > most - value * 10 {
            return None;
        }
        value = value * 10 + digit;
    }
    (least <= value).then_some(value)
}

/// Appends a number in its canonical form, without leading zeros. Refused only when out of memory.
pub fn write_number(text: &mut Vec<u8>, number: u64) -> Result<(), OutOfMemory>
    ensures { OnOk result (text.new.items ≡ text.old.items ++ canonical_number number) }
{
    if number < 10 {
        text.push(b'0' + number as u8)?;
        return Ok(());
    }
    let mut buffer = Buffer::new();
    text.extend_from_slice(buffer.format(number).as_bytes())?;
    Ok(())
}
