ghost use Rattle.std.specs.Prelude.{◌≡◌, ◌<◌, All, IfOk};
ghost use Rattle.opt_sums.specs.Entries.{AllBelow};
ghost use Rattle.opt_frac.specs.Divisors.{Fits};
ghost use Rattle.opt_frac.specs.Elimination.{negated_if};
ghost use Rattle.opt_simplex.specs.Tableau.{at_rows, empty_multipliers as empty_multipliers_of};

use crate::raw::Raw;
use opt_base::OutOfMemory;
use opt_frac::{Equation, negate_if};
use std::alloc::{AllocError, Global};

/// The coefficients at the rows' sums, by the row's number, with all signs changed where that is wanted.
fn row_entries(
    alloc: Global,
    quantities: u32,
    terms: &[(u32, i128)],
    negative: bool,
) -> Result<Vec<(u32, i128)>, AllocError>
    requires { All (λ e. Fits e.1) terms.now }
    ensures { IfOk result (λ entries. entries.items ≡ at_rows quantities (negated_if negative terms.now)) }
{
    let mut entries = Vec::new(alloc);
    for term in terms {
        if term.0 >= quantities {
            entries.push((term.0 - quantities, negate_if(term.1, negative)))?;
        }
    }
    Ok(entries)
}

/// The multipliers of the cost equation: its lead, and its coefficients at the rows' sums.
pub(crate) fn cost_multipliers(
    alloc: Global,
    quantities: u32,
    cost: &Equation,
) -> Result<Raw, OutOfMemory>
    ensures { IfOk result (λ raw. raw ≡ record { q = cost.now.lead; entries = at_rows quantities cost.now.terms }) }
{
    let entries = row_entries(alloc, quantities, cost.terms(), false)?;
    Ok(Raw::new(cost.lead(), entries))
}

/// The multipliers of an equation whose variable cannot come into its range: its coefficients at the rows' sums, its own
/// variable among them, with signs changed where the value is below its low.
pub(crate) fn empty_multipliers(
    alloc: Global,
    quantities: u32,
    below: bool,
    equation: &Equation,
) -> Result<Raw, OutOfMemory>
    ensures { IfOk result (λ raw. raw ≡ empty_multipliers_of quantities below equation.now) }
{
    let whole = equation.whole_terms(alloc)?;
    let entries = row_entries(alloc, quantities, &whole, below)?;
    Ok(Raw::new(0, entries))
}
