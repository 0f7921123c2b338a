ghost use Rattle.std.specs.Prelude.{◌≡◌, ◌+◌, ◌<◌, ◌≤◌, false, length, pos, replicate, IfOk};
ghost use Rattle.std.specs.List.{enumerate_from};
ghost use Rattle.opt_base.specs.declared.limits.TheConstants.{QUANTITY_LIMIT};
ghost use Rattle.opt_sums.specs.Sums.{at};
ghost use Rattle.opt_system.specs.Systems.{row_at};
ghost use Rattle.opt_simplex.specs.Tableau.{not_zeros, row_equations as row_equations_of};

use opt_base::OutOfMemory;
use opt_frac::Equation;
use opt_system::System;
use std::alloc::{AllocError, Global};

/// The terms with coefficients of 128 bits.
fn widen(alloc: Global, terms: &[(u32, i64)]) -> Result<Vec<(u32, i128)>, AllocError>
    ensures { IfOk result (λ wide. wide.items ≡ terms.now) }
{
    let mut wide = Vec::with_capacity(alloc, terms.len())?;
    for term in terms {
        wide.push((term.0, i128::from(term.1)))?;
    }
    Ok(wide)
}

/// The equation of the sum of row `i`, whose variable comes behind the quantities.
fn row_equation(alloc: Global, system: &System, i: u32) -> Result<Equation, OutOfMemory>
    requires { i < length system.now.rows }
    ensures { IfOk result (λ equation. equation
        ≡ record { basic = length system.now.cost + i; lead = pos 1; terms = (row_at system.now.rows i).terms }) }
{
    let terms = widen(alloc, system.terms(i))?;
    Equation::new(alloc, system.quantities() + i, 1, &terms)
}

/// The equations of the rows' sums.
pub(crate) fn row_equations(alloc: Global, system: &System) -> Result<Vec<Equation>, OutOfMemory>
    ensures { IfOk result (λ equations. equations.items ≡ row_equations_of (length system.now.cost) system.now.rows) }
{
    let mut equations = Vec::new(alloc);
    for i in 0..system.rows() {
        equations.push(row_equation(alloc, system, i)?)?;
    }
    Ok(equations)
}

/// The term of quantity `j`'s cost.
fn cost_term(costs: &[i64], j: usize) -> (u32, i128)
    requires inside { j < length costs.now }
    requires few { length costs.now ≤ QUANTITY_LIMIT }
    ensures { result ≡ (j, at costs.now j) }
{
    (j as u32, i128::from(costs[j]))
}

/// The costs that are not 0, by quantity.
fn cost_terms(alloc: Global, costs: &[i64]) -> Result<Vec<(u32, i128)>, AllocError>
    requires { length costs.now ≤ QUANTITY_LIMIT }
    ensures { IfOk result (λ terms. terms.items ≡ not_zeros (enumerate_from 0 costs.now)) }
{
    let mut terms = Vec::new(alloc);
    for j in 0..costs.len() {
        if costs[j] != 0 {
            terms.push(cost_term(costs, j))?;
        }
    }
    Ok(terms)
}

/// The equation of the objective, whose variable is the last.
pub(crate) fn cost_equation(alloc: Global, system: &System) -> Result<Equation, OutOfMemory>
    ensures { IfOk result (λ equation. equation
        ≡ record { basic = length system.now.cost + length system.now.rows; lead = pos 1; terms = not_zeros (enumerate_from 0 system.now.cost) }) }
{
    let terms = cost_terms(alloc, system.costs())?;
    Equation::new(alloc, system.quantities() + system.rows(), 1, &terms)
}

/// As many flags, none of them set.
pub(crate) fn no_flags(alloc: Global, count: u32) -> Result<Vec<bool>, AllocError>
    ensures { IfOk result (λ flags. flags.items ≡ replicate count false) }
{
    let mut flags = Vec::with_capacity(alloc, count as usize)?;
    for _ in 0..count {
        flags.push(false)?;
    }
    Ok(flags)
}
