//! `parse_number`, which reads a decimal number of a trace.
ghost use Rattle.std.specs.Prelude.{◌≡◌, ◌≤◌, length};
ghost use Rattle.bp_trace.specs.Numbers.{digits_in, number_in};

const MAX_DIGITS: usize = 19;

const MAX_NUMBER: u64 = 1 << 62;

/// Returns the value of decimal digits, or None where a byte is no digit. The value of no digits is 0.
fn parse_digits(text: &[u8]) -> Option<u64>
    requires { length text.now ≤ MAX_DIGITS }
    ensures { result ≡ digits_in text.now }
{
    let mut value = 0;
    for byte in text {
        if !byte.is_ascii_digit() {
            return None;
        }
        value = value * 10 + u64::from(*byte - b'0');
    }
    Some(value)
}

/// Returns the number that a text says: 1 to 19 ASCII digits with a value of at most 2^62. Leading zeros are allowed,
/// signs and spaces are not.
#[tactic(auto, unfolding(crate::specs::Numbers::number_in))]
pub fn parse_number(text: &[u8]) -> Option<u64>
    ensures { result ≡ number_in text.now }
{
    if text.is_empty() || text.len() > MAX_DIGITS {
        return None;
    }
    parse_digits(text).filter(|value| *value <= MAX_NUMBER)
}
