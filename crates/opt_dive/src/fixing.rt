ghost use Rattle.std.specs.Prelude.{◌≡◌, ◌<◌, ◌≤◌, ◌≤ℤ◌, length};
ghost use Rattle.opt_sums.specs.Sums.{at};
ghost use Rattle.opt_system.specs.Ranges.{IsOrdered, LiesIn};
ghost use Rattle.opt_dive.specs.Rounding.{bring_within as bring_within_of, fix as fix_of, fix_up as fix_up_of, fix_first as fix_first_of};

use opt_simplex::Fracs;
use opt_system::Range;

/// The number, or the end of the range from `low` to `high` that it is past.
fn bring_within(low: i64, high: i64, value: i128) -> i64
    requires { low ≤ℤ high }
    ensures value { result ≡ bring_within_of low high value }
    ensures from_low { low ≤ℤ result }
    ensures to_high { result ≤ℤ high }
{
    if value <= i128::from(low) {
        low
    } else if i128::from(high) <= value {
        high
    } else {
        value as i64
    }
}

/// Leaves this value, which lies in its range, alone for quantity `j`.
fn fix(range: &mut Range, j: u32, value: i64)
    requires ordered { IsOrdered range.old }
    requires quantity { j < length range.old.low }
    requires from_low { at range.old.low j ≤ℤ value }
    requires to_high { value ≤ℤ at range.old.high j }
    ensures value { range.new ≡ fix_of range.old j value }
    ensures ordered { IsOrdered range.new }
    ensures within { LiesIn range.old range.new }
{
    range.set_low(j, value);
    range.set_high(j, value);
}

/// Fixes quantity `j` at its fraction rounded up, within its range.
pub(crate) fn fix_up(range: &mut Range, point: &Fracs, j: u32)
    requires quantity { j < length range.old.low }
    requires fraction { j < length point.now }
    ensures value { range.new ≡ fix_up_of point.now range.old j }
    ensures ordered { IsOrdered range.new }
    ensures within { LiesIn range.old range.new }
{
    let low = range.low()[j as usize];
    let high = range.high()[j as usize];
    let value = bring_within(low, high, point.ceiling(j as usize));
    fix(range, j, value);
}

/// Fixes each of the first `count` quantities at its fraction rounded up, within its range.
pub(crate) fn fix_first(range: &mut Range, point: &Fracs, count: u32)
    requires ordered { IsOrdered range.old }
    requires quantities { count ≤ length range.old.low }
    requires fractions { count ≤ length point.now }
    ensures value { range.new ≡ fix_first_of count point.now range.old }
    ensures ordered { IsOrdered range.new }
    ensures within { LiesIn range.old range.new }
{
    for j in 0..count {
        fix_up(range, point, j);
    }
}
