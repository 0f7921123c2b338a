ghost use Rattle.std.specs.Prelude.{◌≡◌, ◌≢◌, ◌++◌, ◌≤◌, ℤ, All, length, insert, neg_ℤ, if◌then◌else◌, OnOk};
ghost use Rattle.opt_sums.specs.Entries.{IsRising};
ghost use Rattle.opt_frac.specs.Divisors.{Fits};
ghost use Rattle.opt_frac.specs.Elimination.{more, negated_if, without};

use std::alloc::AllocError;

/// How many terms stand before the variable, at which there is none.
pub fn place_of(terms: &[(u32, i128)], variable: u32) -> usize
    requires rising { IsRising terms.now }
    requires apart { All (λ term. term.0 ≢ variable) terms.now }
    ensures within { result ≤ length terms.now }
    ensures place { (z : ℤ) → more (variable, z) terms.now ≡ insert terms.now result (variable, z) }
{
    for i in 0..terms.len() {
        if variable < terms[i].0 {
            return i;
        }
    }
    terms.len()
}

/// The number, with its sign changed where that is wanted.
pub fn negate_if(number: i128, negative: bool) -> i128
    requires { Fits number }
    ensures { result ≡ (if negative then neg_ℤ number else number) }
{
    if negative { -number } else { number }
}

/// Pushes the terms but for those at `col`, with their signs changed where that is wanted.
pub fn push_signed(
    pushed: &mut Vec<(u32, i128)>,
    terms: &[(u32, i128)],
    col: u32,
    negative: bool,
) -> Result<(), AllocError>
    requires { All (λ term. Fits term.1) terms.now }
    ensures { OnOk result (pushed.new.items ≡ pushed.old.items ++ negated_if negative (without col terms.now)) }
{
    for term in terms {
        if term.0 != col {
            pushed.push((term.0, negate_if(term.1, negative)))?;
        }
    }
    Ok(())
}
