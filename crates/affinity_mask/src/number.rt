//! Numbers as text, of any length.

ghost use Rattle.std.specs.Prelude.{◌≡◌, ℕ, ◌<◌, ◌≤◌, IsTrue, ◌↔◌, MatchOption};
ghost use Rattle.affinity_mask.specs.Number.{IsNumber, number_value};
ghost use Rattle.affinity_mask.specs.ListSteps.{IsSignificant};

/// Whether a text is a number.
pub(crate) fn is_number(text: &[u8]) -> bool
    ensures { IsTrue result ↔ IsNumber text.now }
{
    !text.is_empty() && text.iter().all(|byte| byte.is_ascii_digit())
}

/// Whether a number is above another.
pub(crate) fn is_above(number: &[u8], other: &[u8]) -> bool
    requires first { IsNumber number.now }
    requires second { IsNumber other.now }
    ensures { IsTrue result ↔ (number_value other.now < number_value number.now) }
{
    let (number, other) = (significant(number), significant(other));
    number.len() > other.len() || (number.len() == other.len() && number > other)
}

/// The digits of a number from the first that is not zero on. Zero has none.
fn significant(number: &[u8]) -> &[u8]
    requires { IsNumber number.now }
    ensures { IsSignificant number.now result.now }
{
    match number.iter().position(|digit| *digit != b'0') {
        Some(at) => &number[at..],
        None => &[],
    }
}

/// The processor of this number, where there is one.
pub(crate) fn processor_of(number: &[u8]) -> Option<u8>
    requires { IsNumber number.now }
    ensures { MatchOption result (63 < number_value number.now) (λ p. (p ≡ number_value number.now) × (p ≤ 63)) }
{
    let mut value: u16 = 0;
    for digit in number {
        value = value * 10 + (*digit - b'0') as u16;
        if value > 63 {
            return None;
        }
    }
    Some(value as u8)
}
