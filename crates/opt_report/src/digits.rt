//! Numbers of any length as their digits say them.
ghost use Rattle.std.specs.Prelude.{◌≡◌, ◌≤◌, ◌%◌, ◌^◌, IsTrue, MatchOption};
ghost use Rattle.std.specs.Char.{is_ascii_digit};
ghost use Rattle.std.specs.List.{list_all};
ghost use Rattle.std.specs.Str.Parse.{digits_value};
ghost use Rattle.opt_model.specs.declared.limits.TheConstants.{RATION_LIMIT};
ghost use Rattle.opt_tables.specs.Records.{is_number};

/// Whether a text is one or more digits.
pub fn is_number(text: &str) -> bool
    ensures { result ≡ is_number text.now }
{
    !text.is_empty() && are_digits(text.as_bytes())
}

/// Whether each byte is a digit.
fn are_digits(bytes: &[u8]) -> bool
    ensures { result ≡ list_all is_ascii_digit bytes.now }
{
    bytes.iter().all(|byte| byte.is_ascii_digit())
}

/// The number that digits stand for, where it has at most 64 bits.
pub fn digits(text: &str) -> Option<u64>
    requires { IsTrue (is_number text.now) }
    ensures { MatchOption result
        (2 ^ 64 ≤ digits_value 10 text.now) (λ number. number ≡ digits_value 10 text.now) }
{
    text.parse::<u64>().ok()
}

/// What is left of the number that digits stand for, divided by one from 1 to the greatest step.
pub fn remainder(text: &str, divisor: u32) -> u32
    requires number { IsTrue (is_number text.now) }
    requires divisor { (1 ≤ divisor) × (divisor ≤ RATION_LIMIT) }
    ensures { result ≡ digits_value 10 text.now % divisor }
{
    let mut rest = 0u32;
    for digit in text.as_bytes() {
        rest = (rest * 10 + u32::from(*digit - b'0')) % divisor;
    }
    rest
}
