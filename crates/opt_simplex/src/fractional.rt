ghost use Rattle.std.specs.Prelude.{◌≡◌, ◌^◌, ◌<◌, ◌≤◌, All, IfSome, length, unsigned_abs};
ghost use Rattle.opt_base.specs.declared.limits.TheConstants.{QUANTITY_LIMIT};
ghost use Rattle.opt_simplex.specs.Kept.{IsFraction};
ghost use Rattle.opt_simplex.specs.Guide.{is_fractional as is_fractional_of, floor_of, ceiling_of, first_fractional as first_fractional_of, first_cut as first_cut_of};

/// Whether the fraction is not a whole number.
fn is_fractional(fraction: &(i128, i128)) -> bool
    requires { IsFraction fraction.now }
    ensures { result ≡ is_fractional_of fraction.now }
{
    fraction.0.rem_euclid(fraction.1) != 0
}

/// The greatest whole number that is at most the fraction.
pub(crate) fn floor(fraction: &(i128, i128)) -> i128
    requires { IsFraction fraction.now }
    ensures { result ≡ floor_of fraction.now }
{
    fraction.0.div_euclid(fraction.1)
}

/// The least whole number that is at least the fraction.
pub(crate) fn ceiling(fraction: &(i128, i128)) -> i128
    requires { IsFraction fraction.now }
    ensures { result ≡ ceiling_of fraction.now }
{
    if is_fractional(fraction) {
        floor(fraction) + 1
    } else {
        floor(fraction)
    }
}

/// The place of the first fraction that is not a whole number.
pub(crate) fn first_fractional(fractions: &[(i128, i128)]) -> Option<usize>
    requires { All IsFraction fractions.now }
    ensures value { result ≡ first_fractional_of fractions.now }
    ensures inside { IfSome result (λ j. j < length fractions.now) }
{
    for j in 0..fractions.len() {
        if is_fractional(&fractions[j]) {
            return Some(j);
        }
    }
    None
}

/// The floor of a fraction whose floor is below 2^51 in size.
fn short_floor(fraction: &(i128, i128)) -> i64
    requires proper { IsFraction fraction.now }
    requires small { unsigned_abs (floor_of fraction.now) < 2 ^ 51 }
    ensures { result ≡ floor_of fraction.now }
{
    floor(fraction) as i64
}

/// The place of the first fraction that is not a whole number, with its floor; where there is none, (0, 0).
pub(crate) fn first_cut(fractions: &[(i128, i128)]) -> (u32, i64)
    requires proper { All IsFraction fractions.now }
    requires few { length fractions.now ≤ QUANTITY_LIMIT }
    requires small { All (λ f. unsigned_abs (floor_of f) < 2 ^ 51) fractions.now }
    ensures { result ≡ first_cut_of fractions.now }
{
    match first_fractional(fractions) {
        Some(j) => (j as u32, short_floor(&fractions[j])),
        None => (0, 0),
    }
}
