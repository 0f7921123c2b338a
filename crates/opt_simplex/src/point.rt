ghost use Rattle.std.specs.Prelude.{◌≡◌, ℕ, ◌<◌, ◌≤◌, All, length, map, pos, slice_set, ◌≤ℤ◌, IfOk};
ghost use Rattle.std.specs.List.{range_with_len};
ghost use Rattle.opt_frac.specs.Divisors.{Fits};
ghost use Rattle.opt_simplex.specs.Variables.{resting};
ghost use Rattle.opt_sums.specs.Sums.{at};
ghost use Rattle.opt_simplex.specs.Kept.{IsFraction};
ghost use Rattle.opt_simplex.specs.Shape.{IsAmong};
ghost use Rattle.opt_simplex.specs.Choice.{fraction as fraction_of, point_of};

use crate::fracs::Fracs;
use crate::variables::Variables;
use opt_base::OutOfMemory;
use opt_frac::{Equation, gcd, quotient};
use std::alloc::{AllocError, Global};

/// Numerator over denominator, in lowest terms.
fn fraction(numerator: i128, denominator: i128) -> (i128, i128)
    requires positive { pos 1 ≤ℤ denominator }
    requires fits { Fits denominator }
    ensures { result ≡ fraction_of numerator denominator }
{
    let divisor = gcd(numerator.unsigned_abs(), denominator.unsigned_abs());
    (quotient(numerator, divisor), quotient(denominator, divisor))
}

/// The values at which the quantities rest.
fn resting_values(
    alloc: Global,
    variables: &Variables,
    at_high: &[bool],
) -> Result<Vec<(i128, i128)>, AllocError>
    requires { length at_high.now ≡ length variables.now.low }
    ensures fit { (j : ℕ) → j < variables.now.quantities → Fits (resting variables.now at_high.now j) }
    ensures value { IfOk result (λ point. point.items
        ≡ map (λ j. (resting variables.now at_high.now j, pos 1)) (range_with_len 0 variables.now.quantities)) }
{
    let mut point = Vec::new(alloc);
    for j in 0..variables.quantities() {
        point.push((variables.resting(at_high, j), 1))?;
    }
    Ok(point)
}

/// Puts the value of the equation's variable, the one at `i` over the lead, where that is a quantity.
fn put(point: &mut Vec<(i128, i128)>, equation: &Equation, values: &[i128], i: usize)
    requires { i < length values.now }
    ensures { point.new.items ≡ slice_set point.old.items equation.now.basic (fraction_of (at values.now i) equation.now.lead) }
{
    let j = equation.basic() as usize;
    if j < point.len() {
        point[j] = fraction(values[i], equation.lead());
    }
}

/// The value of each quantity: over the lead where it is basic, and else the one at which it rests.
pub(crate) fn point(
    alloc: Global,
    variables: &Variables,
    at_high: &[bool],
    equations: &[Equation],
    values: &[i128],
) -> Result<Fracs, OutOfMemory>
    requires flags { length at_high.now ≡ length variables.now.low }
    requires among { All (IsAmong (length variables.now.low)) equations.now }
    requires each { length values.now ≡ length equations.now }
    requires fit { All Fits values.now }
    ensures { IfOk result (λ point. point ≡ point_of variables.now.quantities (resting variables.now at_high.now) equations.now values.now) }
{
    let mut point = resting_values(alloc, variables, at_high)?;
    let mut i = equations.len();
    while i > 0 {
        i -= 1;
        let equation = &equations[i];
        put(&mut point, equation, values, i);
    }
    Ok(Fracs::new(point))
}
