ghost use Rattle.std.specs.Prelude.{◌≡◌, ◌<◌, ◌-◌, ◌^◌, nat_le, min, pos, unsigned_abs, Some, None, if◌then◌else◌};
ghost use Rattle.std.specs.Option.{option_and_then, option_map};
ghost use Rattle.std.specs.Str.{all_ascii_digits};
ghost use Rattle.std.specs.Str.Parse.{digits_value};
ghost use Rattle.opt_cert.specs.Numbers.{below_zero, numeral, plain_numeral, signed_numeral};
ghost use Rattle.opt_cert.specs.Ranges.{objective_in_range, multiplier_in_range, weight_in_range, value_in_range, cut_value_in_range};
ghost use Rattle.opt_cert.specs.Judging.{ranged};

use crate::limits::{NUMBER_LIMIT, OBJECTIVE_LIMIT, VALUE_LIMIT};
use crate::line_fault::LineFault;
use opt_bound::MULTIPLIER_LIMIT;

/// The value of these digits, if all are digits; u128::MAX stands for every greater value.
fn value_of(digits: &[u8]) -> Option<u128>
    ensures { result ≡ (if all_ascii_digits digits.now then Some (min (digits_value 10 digits.now) (2 ^ 128 - 1)) else None) }
{
    let mut value: u128 = 0;
    for digit in digits {
        if !digit.is_ascii_digit() {
            return None;
        }
        value = value
            .saturating_mul(10)
            .saturating_add(u128::from(digit - b'0'));
    }
    Some(value)
}

/// The number that a word spells, if it spells one; u128::MAX stands for every greater number.
pub(crate) fn numeral(word: &[u8]) -> Option<u128>
    ensures { result ≡ option_map (λ n. min n (2 ^ 128 - 1)) (numeral word.now) }
{
    match word {
        [] | [b'0', _, ..] => None,
        digits => value_of(digits),
    }
}

/// The number that a word spells, which is at most the limit.
fn at_most(word: &[u8], limit: u128) -> Result<u128, LineFault>
    requires { limit < 2 ^ 128 - 1 }
    ensures { result ≡ ranged (λ n. nat_le n limit) (numeral word.now) }
{
    match numeral(word) {
        None => Err(LineFault::BadLine),
        Some(number) if number <= limit => Ok(number),
        Some(_) => Err(LineFault::Range),
    }
}

/// The number of a row or a quantity.
pub(crate) fn number(word: &[u8]) -> Result<u32, LineFault>
    ensures { result ≡ ranged (λ n. nat_le n NUMBER_LIMIT) (numeral word.now) }
{
    Ok(at_most(word, u128::from(NUMBER_LIMIT))? as u32)
}

/// An objective, a best or a bound.
pub(crate) fn objective(word: &[u8]) -> Result<i128, LineFault>
    ensures { result ≡ ranged objective_in_range (plain_numeral word.now) }
{
    Ok(at_most(word, OBJECTIVE_LIMIT)? as i128)
}

/// The multiplier of the objective.
pub(crate) fn multiplier(word: &[u8]) -> Result<i64, LineFault>
    ensures { result ≡ ranged multiplier_in_range (plain_numeral word.now) }
{
    Ok(at_most(word, u128::from(MULTIPLIER_LIMIT))? as i64)
}

/// The cut of a split.
pub(crate) fn cut_value(word: &[u8]) -> Result<i64, LineFault>
    ensures { result ≡ ranged cut_value_in_range (plain_numeral word.now) }
{
    Ok(at_most(word, u128::from(VALUE_LIMIT))? as i64)
}

/// The value of a quantity, which is not 0.
pub(crate) fn value(word: &[u8]) -> Result<i64, LineFault>
    ensures { result ≡ ranged value_in_range (plain_numeral word.now) }
{
    match at_most(word, u128::from(VALUE_LIMIT))? {
        0 => Err(LineFault::Range),
        value => Ok(value as i64),
    }
}

/// The multiplier of a row, which is not 0.
pub(crate) fn weight(word: &[u8]) -> Result<i64, LineFault>
    ensures { result ≡ ranged weight_in_range (signed_numeral word.now) }
{
    match word {
        [b'-', digits @ ..] => weight_below(digits),
        digits => weight_above(digits),
    }
}

/// The multiplier above 0 of this size.
fn weight_above(digits: &[u8]) -> Result<i64, LineFault>
    ensures { result ≡ ranged weight_in_range (option_map pos (numeral digits.now)) }
{
    match at_most(digits, u128::from(MULTIPLIER_LIMIT))? {
        0 => Err(LineFault::Range),
        size => Ok(size as i64),
    }
}

/// The multiplier below 0 of this size; 0 is not spelled with a sign.
fn weight_below(digits: &[u8]) -> Result<i64, LineFault>
    ensures { result ≡ ranged weight_in_range (option_and_then below_zero (numeral digits.now)) }
{
    match at_most(digits, u128::from(MULTIPLIER_LIMIT))? {
        0 => Err(LineFault::BadLine),
        size => Ok(-(size as i64)),
    }
}
