//! Stamps of trace lines: when something happened.
ghost use Rattle.std.specs.Prelude.{◌≡◌, ◌-◌, ◌<◌, ◌≤◌, ◌↔◌, min, true, false, IsTrue, MatchOption};
ghost use Rattle.kernel_trace.specs.Stamp.{is_number, is_stamp, nanoseconds, microsecond, clock_at};

use crate::digits::{cut_at_point, is_number_text, read_fraction, seconds_between};

/// The least number of microseconds that is too many for a clock.
const LATE_CLOCK: u64 = 9_223_372_036_854_775_808;

/// When something happened: seconds, as digits of any count, and nanoseconds. It keeps the digits, so that no stamp is too
/// long.
#[derive(Clone, Copy)]
pub struct Stamp<'a> {
    seconds: &'a [u8],
    nanos: u32,
    ghost digits: { is_number seconds.now ≡ true },
    ghost within: { nanos < 1000000000 },
}

impl<'a> Stamp<'a> {
    ghost use Rattle.kernel_trace.specs.StampView.{time_of};

    #[tactic(auto, unfolding(crate::specs::Stamp::is_stamp, crate::specs::Stamp::nanoseconds))]
    /// The stamp that a text is, if it is one.
    pub fn read(text: &'a [u8]) -> Option<Stamp<'a>>
        ensures { MatchOption result (is_stamp text.now ≡ false)
            (λ stamp. (is_stamp text.now ≡ true) × (time_of stamp ≡ nanoseconds text.now)) }
    {
        let (seconds, digits) = cut_at_point(text);
        if !is_number_text(seconds) {
            return None;
        }
        let Some(nanos) = read_fraction(digits) else {
            return None;
        };
        Some(Stamp { seconds, nanos })
    }

    /// Whether this is less than another stamp.
    pub fn is_before(&self, other: &Stamp) -> bool
        ensures { IsTrue result ↔ (time_of self.now < time_of other.now) }
    {
        match seconds_between(other.seconds, self.seconds, 1) {
            None => true,
            Some(0) => self.nanos < other.nanos,
            Some(_) => false,
        }
    }

    /// How many microseconds passed since an earlier stamp, or `most` where they are more.
    pub fn microseconds_since(&self, earlier: &Stamp, most: u64) -> u64
        requires { most ≤ 9223372036854775808 }
        ensures { result ≡ min (microsecond (time_of self.now) - microsecond (time_of earlier.now))
            most }
    {
        match seconds_between(earlier.seconds, self.seconds, most / 1_000_000 + 2) {
            None => 0,
            Some(seconds) => {
                let to = seconds * 1_000_000 + (self.nanos / 1000) as u64;
                let from = (earlier.nanos / 1000) as u64;
                to.saturating_sub(from).min(most)
            }
        }
    }

    /// The whole microseconds, where they are less than 2^63.
    pub fn clock(&self) -> Option<u64>
        ensures { result ≡ clock_at (time_of self.now) }
    {
        let zero = Stamp {
            seconds: b"0",
            nanos: 0,
        };
        let clock = self.microseconds_since(&zero, LATE_CLOCK);
        if clock < LATE_CLOCK {
            Some(clock)
        } else {
            None
        }
    }
}
