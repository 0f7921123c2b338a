ghost use Rattle.std.specs.Prelude.{◌≡◌, ◌*◌, ◌<◌, ◌≤◌, pos, ◌≤ℤ◌};
ghost use Rattle.std.specs.Ordering.{nat_cmp};
ghost use Rattle.opt_frac.specs.Equations.{comparison};

use std::cmp::Ordering;

/// How `a/b` stands to `c/d`, where `b` and `d` are at least 1. It is exact for all such numbers.
pub fn compare(a: i128, b: i128, c: i128, d: i128) -> Ordering
    requires first { pos 1 ≤ℤ b }
    requires second { pos 1 ≤ℤ d }
    ensures { result ≡ comparison a b c d }
{
    match (a < 0, c < 0) {
        (false, false) => compare_products(
            a.unsigned_abs(),
            d.unsigned_abs(),
            c.unsigned_abs(),
            b.unsigned_abs(),
        ),
        (true, true) => compare_products(
            c.unsigned_abs(),
            b.unsigned_abs(),
            a.unsigned_abs(),
            d.unsigned_abs(),
        ),
        (true, false) => Ordering::Less,
        (false, true) => Ordering::Greater,
    }
}

/// How the product `a * b` stands to the product `c * d`.
fn compare_products(a: u128, b: u128, c: u128, d: u128) -> Ordering
    ensures { result ≡ nat_cmp (a * b) (c * d) }
{
    let (low, high) = a.carrying_mul(b, 0);
    let (other_low, other_high) = c.carrying_mul(d, 0);
    if high == other_high {
        low.cmp(&other_low)
    } else {
        high.cmp(&other_high)
    }
}
