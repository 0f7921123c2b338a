ghost use Rattle.std.specs.Prelude.{◌≡◌, ◌≢◌, ◌≤◌, ◌≤ℤ◌, pos, unsigned_abs, int_div};
ghost use Rattle.opt_sums.specs.Entries.{IsRising, coef};
ghost use Rattle.opt_frac.specs.Divisors.{Fits, quotients, gcd as gcd_of, gcd_with};

use crate::divisor::{common_divisor, gcd};

/// The coefficient at the variable, or 0 where there is no term.
pub fn coefficient(terms: &[(u32, i128)], variable: u32) -> i128
    requires { IsRising terms.now }
    ensures { result ≡ coef terms.now variable }
{
    for term in terms {
        if term.0 == variable {
            return term.1;
        }
    }
    0
}

/// How often an equation is taken, and the one that replaces a variable in it, so that the variable falls out.
#[derive(Clone, Copy)]
pub struct Factors {
    pub own: i128,
    pub other: i128,
}

/// The lead of the replacing equation and the coefficient of the variable to be replaced, by their greatest common divisor.
pub fn least_factors(lead: i128, coefficient: i128) -> Factors
    requires positive { pos 1 ≤ℤ lead }
    requires fitting { Fits lead }
    ensures own { result.own ≡ int_div lead (pos (gcd_of (unsigned_abs lead) (unsigned_abs coefficient))) }
    ensures other { result.other ≡ int_div coefficient (pos (gcd_of (unsigned_abs lead) (unsigned_abs coefficient))) }
    ensures positive { pos 1 ≤ℤ result.own }
{
    let divisor = gcd(lead.unsigned_abs(), coefficient.unsigned_abs());
    Factors {
        own: quotient(lead, divisor),
        other: quotient(coefficient, divisor),
    }
}

/// The number divided by a divisor, toward zero.
pub fn quotient(number: i128, divisor: u128) -> i128
    requires positive { 1 ≤ divisor }
    requires fitting { Fits (pos divisor) }
    ensures { result ≡ int_div number (pos divisor) }
{
    number / divisor as i128
}

/// Divides the lead and all coefficients by their greatest common divisor, and gives the lead.
pub fn reduce(lead: i128, terms: &mut Vec<(u32, i128)>) -> i128
    requires positive { pos 1 ≤ℤ lead }
    requires fitting { Fits lead }
    ensures lead { result ≡ int_div lead (pos (gcd_with (unsigned_abs lead) terms.old.items)) }
    ensures terms { terms.new.items ≡ quotients (gcd_with (unsigned_abs lead) terms.old.items) terms.old.items }
{
    let divisor = common_divisor(lead.unsigned_abs(), terms);
    if divisor > 1 {
        divide(terms, divisor);
    }
    quotient(lead, divisor)
}

/// Divides each coefficient.
fn divide(terms: &mut [(u32, i128)], divisor: u128)
    requires positive { 1 ≤ divisor }
    requires fitting { Fits (pos divisor) }
    ensures { terms.new ≡ quotients divisor terms.old }
{
    for i in 0..terms.len() {
        let term = terms[i];
        terms[i] = (term.0, quotient(term.1, divisor));
    }
}
