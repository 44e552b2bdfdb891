//! Times of the clock of a trace, as they are written.
ghost use Rattle.std.specs.Prelude.{◌≡◌, ◌++◌, None, OnOk};
ghost use Rattle.kernel_trace.specs.StampText.{last_digit, six_digits, time_text, stamp_text, clock_after};

use affinity_mask::OutOfMemory;
use text_fields::write_number;

/// How many microseconds a second has.
const SECOND: u64 = 1_000_000;

/// Appends the microseconds of a clock as seconds, a point and six digits, or `-` where there are none. Refused only when
/// out of memory.
pub fn write_stamp(text: &mut Vec<u8>, clock: Option<u64>) -> Result<(), OutOfMemory>
    ensures { OnOk result (text.new.items ≡ text.old.items ++ stamp_text clock) }
{
    match clock {
        Some(micros) => write_time(text, micros / SECOND, micros % SECOND),
        None => write_no_time(text),
    }
}

/// Appends a clock so many microseconds later.
pub fn write_stamp_after(
    text: &mut Vec<u8>,
    clock: Option<u64>,
    moment: u64,
) -> Result<(), OutOfMemory>
    ensures { OnOk result (text.new.items
        ≡ text.old.items ++ stamp_text (clock_after clock moment)) }
{
    let Some(micros) = clock else {
        return write_no_time(text);
    };
    let left = micros % SECOND + moment % SECOND;
    let seconds = micros / SECOND + moment / SECOND + left / SECOND;
    write_time(text, seconds, left % SECOND)
}

/// Appends what stands for no time.
fn write_no_time(text: &mut Vec<u8>) -> Result<(), OutOfMemory>
    ensures { OnOk result (text.new.items ≡ text.old.items ++ stamp_text None) }
{
    text.push(b'-')?;
    Ok(())
}

#[tactic(auto, unfolding(crate::specs::StampText::time_text))]
/// Appends whole seconds, and the microseconds that are left.
fn write_time(text: &mut Vec<u8>, seconds: u64, left: u64) -> Result<(), OutOfMemory>
    ensures { OnOk result (text.new.items ≡ text.old.items ++ time_text seconds left) }
{
    write_number(text, seconds)?;
    text.push(b'.')?;
    text.extend_from_slice(&six_digits(left))?;
    Ok(())
}

#[tactic(auto, unfolding(crate::specs::StampText::six_digits))]
/// The last six digits of a number.
fn six_digits(number: u64) -> [u8; 6]
    ensures { result ≡ six_digits number }
{
    [
        last_digit(number / 100_000),
        last_digit(number / 10_000),
        last_digit(number / 1_000),
        last_digit(number / 100),
        last_digit(number / 10),
        last_digit(number),
    ]
}

/// The last digit of a number.
fn last_digit(number: u64) -> u8
    ensures { result ≡ last_digit number }
{
    b'0' + (number % 10) as u8
}
