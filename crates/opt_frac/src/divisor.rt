ghost use Rattle.std.specs.Prelude.{◌≡◌, ◌*◌, ◌<◌, ◌≤◌, ◌^◌};
ghost use Rattle.opt_frac.specs.Divisors.{gcd as gcd_of, gcd_with};

/// The greatest common divisor of two numbers; with 0 it is the other number.
pub fn gcd(a: u128, b: u128) -> u128
    ensures { result ≡ gcd_of a b }
{
    let mut x = a;
    let mut y = b;
    while y > u128::from(u64::MAX) {
        let rest = x % y;
        x = y;
        y = rest;
    }
    if x <= u128::from(u64::MAX) {
        return u128::from(short_gcd(x as u64, y as u64));
    }
    if y == 0 {
        return x;
    }
    u128::from(short_gcd(y as u64, (x % y) as u64))
}

/// The greatest common divisor of two numbers of 64 bits.
fn short_gcd(a: u64, b: u64) -> u64
    ensures { result ≡ gcd_of a b }
{
    let mut x = a;
    let mut y = b;
    while y > 0 {
        let rest = x % y;
        x = y;
        y = rest;
    }
    x
}

/// The greatest common divisor of the number and the sizes of all coefficients.
pub fn common_divisor(number: u128, terms: &[(u32, i128)]) -> u128
    ensures { result ≡ gcd_with number terms.now }
{
    let mut divisor = number;
    for term in terms {
        if divisor == 1 {
            return 1;
        }
        divisor = gcd(divisor, term.1.unsigned_abs());
    }
    divisor
}
