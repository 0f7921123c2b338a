ghost use Rattle.std.specs.Prelude.{◌≡◌, pos, ◌≤ℤ◌, ◌<ℤ◌, unsigned_abs};
ghost use Rattle.std.specs.Int.{div_ceil};
ghost use Rattle.opt_bound.specs.Verdict.{leaf_of, IsLeastReached};

/// What multipliers show of a box.
#[derive(Clone, Copy, Debug, PartialEq, Eq)]
pub enum Leaf {
    /// No point of the box meets the rows.
    Empty,
    /// Each point of the box that meets the rows has at least this value.
    AtLeast(i128),
}

/// What a bound `b` on `q` times the value says, with `q` of at least 0.
///
/// It is Empty where `q` is 0 and `b` above 0, and otherwise the least whole number from 0 on that `q` times is at least `b`.
pub fn verdict_of(b: i128, q: i64) -> Leaf
    requires { pos 0 ≤ℤ q }
    ensures value { result ≡ leaf_of b q }
    ensures least { IsLeastReached b q result }
{
    if b <= 0 {
        Leaf::AtLeast(0)
    } else if q == 0 {
        Leaf::Empty
    } else {
        Leaf::AtLeast(quotient_up(b, q))
    }
}

/// `b / q` rounded up.
fn quotient_up(b: i128, q: i64) -> i128
    requires bound { pos 0 <ℤ b }
    requires divisor { pos 0 <ℤ q }
    ensures { result ≡ pos (div_ceil (unsigned_abs b) (unsigned_abs q)) }
{
    b.unsigned_abs().div_ceil(u128::from(q.unsigned_abs())) as i128
}
