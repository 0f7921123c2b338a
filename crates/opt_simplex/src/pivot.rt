ghost use Rattle.std.specs.Prelude.{◌≡◌, ◌≢◌, ◌<◌, ◌≤◌, ℕ, ◌+◌, ◌-◌, length, sum_by, slice_set, IfOk, OnErr, OnOk};
ghost use Rattle.opt_frac.specs.Equations.{HasTerm, IsReduced};
ghost use Rattle.opt_simplex.specs.Tableau.{equation_at};
ghost use Rattle.opt_simplex.specs.Columns.{AreColumns, positions_from};
ghost use Rattle.opt_simplex.specs.Pivot.{sweep_from, treatment, within_fill};
ghost use Rattle.opt_simplex.specs.Outcomes.{Makes};
ghost use Rattle.opt_simplex.specs.Shape.{IsOpenTo};
ghost use Rattle.opt_simplex.specs.declared.pivot.PivotFault.TheVariants.{OutOfMemory as MemoryFault, Stops};
ghost use Rattle.opt_simplex.specs.declared.end.Why.TheVariants.{Wide as WideStop};

use crate::columns::Columns;
use crate::end::Why;
use crate::limits::{COUNT_LIMIT, FILL_LIMIT};
use opt_base::OutOfMemory;
use opt_frac::{ElimFault, Equation};
use std::alloc::{AllocError, Global};

/// Why a pivot was not made.
#[derive(Clone, Copy, Debug)]
pub(crate) enum PivotFault {
    /// The simplex stops there.
    Stops(Why),
    /// There was no memory for the work.
    OutOfMemory,
}

impl From<ElimFault> for PivotFault {
    ghost use Rattle.opt_frac.specs.declared.elim_fault.ElimFault.{ElimFault};
    ghost use Rattle.opt_simplex.specs.Outcomes.{pivot_fault};

    ghost from_gives = { λ fault given. given ≡ pivot_fault fault };

    fn from(fault: ElimFault) -> PivotFault {
        match fault {
            ElimFault::Wide => PivotFault::Stops(Why::Wide),
            ElimFault::OutOfMemory => PivotFault::OutOfMemory,
        }
    }
}

impl From<AllocError> for PivotFault {
    ghost from_gives = { λ _ given. given ≡ MemoryFault };

    fn from(_refused: AllocError) -> PivotFault {
        PivotFault::OutOfMemory
    }
}

impl From<OutOfMemory> for PivotFault {
    ghost from_gives = { λ _ given. given ≡ MemoryFault };

    fn from(_refused: OutOfMemory) -> PivotFault {
        PivotFault::OutOfMemory
    }
}

/// How many coefficients are stored once an equation with so many terms has taken the place of one with so many, or
/// Fill where they are too many.
fn count_within_fill(stored: usize, new: usize, old: usize) -> Result<usize, PivotFault>
    requires { stored ≤ COUNT_LIMIT }
    ensures few { IfOk result (λ count. count ≤ FILL_LIMIT) }
    ensures count { (e : Equation) → Makes (λ count. record { equation = e; count = count })
        result (within_fill e ((stored + new) - old)) }
{
    let count = (stored as u128 + new as u128).saturating_sub(old as u128);
    if count > FILL_LIMIT as u128 {
        return Err(PivotFault::Stops(Why::Fill));
    }
    Ok(count as usize)
}

/// Eliminates the turned equation's variable from this one, and gives how many coefficients are stored then. The buffer
/// has the old terms.
fn treat(
    equation: &mut Equation,
    turned: &Equation,
    stored: usize,
    buffer: &mut Vec<(u32, i128)>,
) -> Result<usize, PivotFault>
    requires few { stored ≤ COUNT_LIMIT }
    requires ready { IsOpenTo turned.now equation.old }
    requires term { HasTerm equation.old turned.now.basic }
    ensures treated { Makes (λ count. record { equation = equation.new; count = count })
        result (treatment turned.now stored equation.old) }
    ensures lent { OnOk result (buffer.new.items ≡ equation.old.terms) }
    ensures reduced { IsReduced equation.old }
    ensures few { IfOk result (λ count. count ≤ COUNT_LIMIT) }
{
    let old = equation.terms().len();
    equation.eliminate_in_place(turned, buffer)?;
    count_within_fill(stored, equation.terms().len(), old)
}

/// Eliminates the turned equation's variable from the cost equation, and gives how many coefficients are stored then.
/// A fault leaves it as it was.
pub(crate) fn treat_cost(
    alloc: Global,
    cost: &mut Equation,
    turned: &Equation,
    stored: usize,
) -> Result<usize, PivotFault>
    requires few { stored ≤ COUNT_LIMIT }
    requires ready { IsOpenTo turned.now cost.old }
    ensures treated { Makes (λ count. record { equation = cost.new; count = count })
        result (treatment turned.now stored cost.old) }
    ensures unchanged { OnErr result (cost.new ≡ cost.old) }
{
    if cost.coefficient(turned.basic()) == 0 {
        return Ok(stored);
    }
    let new = cost.eliminate(alloc, turned)?;
    let count = count_within_fill(stored, new.terms().len(), cost.terms().len())?;
    *cost = new;
    Ok(count)
}

/// Eliminates the turned equation's variable from the equations at the listed positions but this one, by rising
/// position. Those are just the equations with a term at that variable. With so many coefficients stored at first, it
/// gives how many are stored then. The columns follow.
pub(crate) fn sweep(
    equations: &mut Vec<Equation>,
    columns: &mut Columns,
    position: usize,
    turned: &Equation,
    listed: &[usize],
    first: usize,
    buffer: &mut Vec<(u32, i128)>,
) -> Result<usize, PivotFault>
    requires few { first ≤ COUNT_LIMIT }
    requires ready { (i : ℕ) → i < length equations.old.items → i ≢ position
        → IsOpenTo turned.now (equation_at equations.old.items i) }
    requires listed { listed.now ≡ positions_from turned.now.basic 0 equations.old.items }
    requires columns { AreColumns (length columns.old) equations.old.items columns.old }
    requires counted { sum_by (λ e. length e.terms) equations.old.items ≤ first }
    ensures swept { Makes
        (λ count. record { equations = slice_set equations.new.items position turned.now; count = count }) result
        (sweep_from turned.now position 0 first equations.old.items) }
    ensures few { IfOk result (λ count. count ≤ COUNT_LIMIT) }
    ensures same_length { length equations.new.items ≡ length equations.old.items }
    ensures columns { OnOk result (AreColumns (length columns.old) equations.new.items columns.new) }
    ensures at_hand { equation_at equations.new.items position ≡ equation_at equations.old.items position }
    ensures counted { IfOk result (λ count. count + sum_by (λ e. length e.terms) equations.old.items
        ≡ first + sum_by (λ e. length e.terms) equations.new.items) }
{
    let mut stored = first;
    for place in listed {
        let i = *place;
        if i != position {
            stored = treat(&mut equations[i], turned, stored, buffer)?;
            columns.change(i, buffer, equations[i].terms())?;
        }
    }
    Ok(stored)
}
