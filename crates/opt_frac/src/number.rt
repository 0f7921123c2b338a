ghost use Rattle.std.specs.Prelude.{◌^◌, ◌≤◌, ◌*ℤ◌, ◌+ℤ◌, unsigned_abs};
ghost use Rattle.std.specs.Bool.{OnTrue};
ghost use Rattle.std.specs.Option.{SomeIff};
ghost use Rattle.opt_frac.specs.Divisors.{Fits};

/// The product of two numbers, or none where it lies outside -(2^127 - 1) to 2^127 - 1. Most factors are 1.
#[inline(always)]
pub fn product(a: i128, b: i128) -> Option<i128>
    ensures { SomeIff result (Fits (a *ℤ b)) (a *ℤ b) }
{
    if a == 1 {
        return narrow(b);
    }
    if is_short(a) && is_short(b) {
        return Some(a * b);
    }
    narrow(a.checked_mul(b)?)
}

/// The sum of two numbers, or none where it lies outside -(2^127 - 1) to 2^127 - 1.
#[inline(always)]
pub fn sum(a: i128, b: i128) -> Option<i128>
    ensures { SomeIff result (Fits (a +ℤ b)) (a +ℤ b) }
{
    narrow(a.checked_add(b)?)
}

/// The number, or none where it is -2^127.
#[inline(always)]
fn narrow(number: i128) -> Option<i128>
    ensures { SomeIff result (Fits number) number }
{
    if number == i128::MIN {
        None
    } else {
        Some(number)
    }
}

/// Whether the number has at most 64 bits with its sign.
#[inline(always)]
fn is_short(number: i128) -> bool
    ensures { OnTrue result (unsigned_abs number ≤ 2 ^ 63) }
{
    number >= i128::from(i64::MIN) && number <= i128::from(i64::MAX)
}
