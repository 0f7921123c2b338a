ghost use Rattle.std.specs.Prelude.{◌≡◌, ◌<◌, ◌≤◌, false, All, None, length, IfOk, IfNone};
ghost use Rattle.opt_system.specs.Ranges.{LiesIn};
ghost use Rattle.opt_frac.specs.Divisors.{Fits};
ghost use Rattle.opt_simplex.specs.Choice.{entering_from};
ghost use Rattle.opt_simplex.specs.Outcomes.{Turns, leaving_at, look_at, pivot_of, turn_of};
ghost use Rattle.opt_simplex.specs.Pivot.{next_tableau};
ghost use Rattle.opt_simplex.specs.Rule.{Ends, end_of, entering as entering_of, leaving as leaving_of, look_of, stop as stop_of, turns};
ghost use Rattle.opt_simplex.specs.Shape.{IsShaped, MayGoOn, MayPivot, MayTurn, StaysShaped};
ghost use Rattle.opt_simplex.specs.Soundness.{IsSound};
ghost use Rattle.opt_simplex.specs.Tableau.{stored as stored_of};
ghost use Rattle.opt_simplex.specs.Values.{AreNoted};
ghost use Rattle.opt_simplex.specs.Columns.{AreColumns};

use crate::choice::{Leaving, choose_entering, choose_leaving};
use crate::columns::Columns;
use crate::end::{LpEnd, Why};
use crate::limits::{COUNT_LIMIT, VARIABLE_LIMIT};
use crate::multipliers::{cost_multipliers, empty_multipliers};
use crate::pivot::PivotFault;
use crate::point::point;
use crate::tableau::Tableau;
use crate::values::Values;
use crate::variables::Variables;
use opt_base::OutOfMemory;
use opt_system::{Range, System};
use std::alloc::Global;

/// What a tableau asks for: the end, or a pivot.
#[derive(Debug, Drop)]
pub(crate) enum Look {
    /// The end is here.
    Ends(LpEnd),
    /// The variable of this column enters the basis for the leaving one.
    Enters(Leaving, u32),
}

/// What is kept from turn to turn beside the tableau.
#[derive(Debug, Drop)]
pub(crate) struct Work {
    pub values: Values,
    pub columns: Columns,
    pub stored: usize,
    pub buffer: Vec<(u32, i128)>,
}

impl Work {
    /// What is kept beside this tableau.
    fn new(alloc: Global, variables: &Variables, tableau: &Tableau) -> Result<Work, OutOfMemory>
        requires shaped { IsShaped (length variables.now.low) tableau.now }
        requires few { length variables.now.low ≤ VARIABLE_LIMIT }
        ensures noted { IfOk result (λ work. AreNoted variables.now tableau.now work.values) }
        ensures stored { IfOk result (λ work. work.stored ≡ stored_of tableau.now) }
        ensures few { IfOk result (λ work. work.stored ≤ COUNT_LIMIT) }
        ensures columns { IfOk result
            (λ work. AreColumns (length variables.now.low) tableau.now.equations work.columns) }
    {
        Ok(Work {
            values: Values::new(alloc, variables, tableau)?,
            columns: Columns::new(alloc, tableau.at_high().len(), tableau.equations())?,
            stored: tableau.stored(),
            buffer: Vec::new(alloc),
        })
    }
}

/// The simplex stops here, with the multipliers of the cost equation.
fn stop(
    alloc: Global,
    variables: &Variables,
    tableau: &Tableau,
    why: Why,
    done: u32,
) -> Result<LpEnd, OutOfMemory>
    ensures { IfOk result (λ end. end ≡ stop_of variables.now why done tableau.now) }
{
    let raw = cost_multipliers(alloc, variables.quantities(), tableau.cost())?;
    Ok(LpEnd::Stopped { why, done, raw })
}

/// No variable leaves the basis: the point is optimal.
fn optimal(
    alloc: Global,
    variables: &Variables,
    tableau: &Tableau,
    values: &[i128],
    done: u32,
) -> Result<LpEnd, OutOfMemory>
    requires shaped { IsShaped (length variables.now.low) tableau.now }
    requires each { length values.now ≡ length tableau.now.equations }
    requires fit { All Fits values.now }
    ensures { IfOk result (λ end. Ends end ≡ leaving_of variables.now done tableau.now values.now None) }
{
    let point = point(
        alloc,
        variables,
        tableau.at_high(),
        tableau.equations(),
        values,
    )?;
    let raw = cost_multipliers(alloc, variables.quantities(), tableau.cost())?;
    Ok(LpEnd::Optimal { point, raw, done })
}

/// The variable that enters the basis for the leaving one, or the box is empty.
fn enter(
    alloc: Global,
    variables: &Variables,
    tableau: &Tableau,
    leaving: Leaving,
    done: u32,
) -> Result<Look, OutOfMemory>
    requires shaped { IsShaped (length variables.now.low) tableau.now }
    requires inside { leaving.position < length tableau.now.equations }
    ensures { let l = leaving_at tableau.now.equations leaving in
        let chosen = entering_from variables.now tableau.now.at_high l.below tableau.now.cost None l.equation.terms in
        IfOk result (λ look. look_at tableau.now.equations look ≡ entering_of variables.now done l chosen) }
{
    let equation = &tableau.equations()[leaving.position];
    match choose_entering(
        variables,
        tableau.at_high(),
        leaving.below,
        tableau.cost(),
        equation,
    ) {
        Some(term) => Ok(Look::Enters(leaving, term.0)),
        None => {
            let raw = empty_multipliers(alloc, variables.quantities(), leaving.below, equation)?;
            Ok(Look::Ends(LpEnd::Empty { raw, done }))
        }
    }
}

/// What the tableau with these values asks for after so many pivots.
fn choose(
    alloc: Global,
    variables: &Variables,
    tableau: &Tableau,
    values: &Values,
    done: u32,
) -> Result<Look, OutOfMemory>
    requires shaped { IsShaped (length variables.now.low) tableau.now }
    requires noted { AreNoted variables.now tableau.now values.now }
    requires fit { values.now.wide ≡ false }
    ensures { IfOk result (λ look. look_at tableau.now.equations look ≡ look_of variables.now done tableau.now) }
{
    match choose_leaving(tableau.equations(), values.sides()) {
        Some(leaving) => enter(alloc, variables, tableau, leaving, done),
        None => Ok(Look::Ends(optimal(alloc, variables, tableau, values.numbers(), done)?)),
    }
}

/// What the tableau asks for after so many pivots.
fn ask(
    alloc: Global,
    variables: &Variables,
    tableau: &Tableau,
    values: &Values,
    done: u32,
) -> Result<Look, OutOfMemory>
    requires shaped { IsShaped (length variables.now.low) tableau.now }
    requires noted { AreNoted variables.now tableau.now values.now }
    ensures { IfOk result (λ look. look_at tableau.now.equations look ≡ look_of variables.now done tableau.now) }
{
    if values.is_wide() {
        return Ok(Look::Ends(stop(alloc, variables, tableau, Why::Wide, done)?));
    }
    choose(alloc, variables, tableau, values, done)
}

/// Makes the pivot, after so many, and notes the values that it changes; or gives the end where it stops there.
fn pivot(
    alloc: Global,
    variables: &Variables,
    tableau: &mut Tableau,
    work: &mut Work,
    leaving: Leaving,
    col: u32,
    done: u32,
) -> Result<Option<LpEnd>, OutOfMemory>
    requires shaped { IsShaped (length variables.now.low) tableau.old }
    requires stored { work.old.stored ≡ stored_of tableau.old }
    requires few { work.old.stored ≤ COUNT_LIMIT }
    requires may { MayPivot tableau.old leaving.position col }
    requires stays { StaysShaped (length variables.now.low) tableau.old (leaving_at tableau.old.equations leaving) col }
    requires noted { AreNoted variables.now tableau.old work.old.values }
    requires fit { work.old.values.wide ≡ false }
    requires columns { AreColumns (length variables.now.low) tableau.old.equations work.old.columns }
    ensures pivoted { IfOk result (λ end. Turns end tableau.new
        (pivot_of variables.now done tableau.old
        (next_tableau tableau.old (leaving_at tableau.old.equations leaving) col))) }
    ensures same_length { length tableau.new.equations ≡ length tableau.old.equations }
    ensures noted { IfOk result (λ end. IfNone end (AreNoted variables.now tableau.new work.new.values)) }
    ensures stored { IfOk result (λ end. IfNone end (work.new.stored ≡ stored_of tableau.new)) }
    ensures few { IfOk result (λ end. IfNone end (work.new.stored ≤ COUNT_LIMIT)) }
    ensures columns { IfOk result
        (λ end. IfNone end (AreColumns (length variables.now.low) tableau.new.equations work.new.columns)) }
{
    match tableau.pivot(
        alloc,
        leaving,
        col,
        work.stored,
        &mut work.columns,
        &mut work.buffer,
    ) {
        Ok(change) => {
            work.stored = change.stored;
            work.values.refresh(variables, tableau, &change.positions);
            Ok(None)
        }
        Err(PivotFault::Stops(why)) => Ok(Some(stop(alloc, variables, tableau, why, done)?)),
        Err(PivotFault::OutOfMemory) => Err(OutOfMemory),
    }
}

/// One turn after so many pivots: the end where it is reached, and otherwise a pivot was made.
fn turn(
    alloc: Global,
    variables: &Variables,
    tableau: &mut Tableau,
    work: &mut Work,
    done: u32,
) -> Result<Option<LpEnd>, OutOfMemory>
    requires shaped { IsShaped (length variables.now.low) tableau.old }
    requires stored { work.old.stored ≡ stored_of tableau.old }
    requires few { work.old.stored ≤ COUNT_LIMIT }
    requires may { MayTurn variables.now done tableau.old }
    requires goes_on { MayGoOn variables.now done tableau.old }
    requires noted { AreNoted variables.now tableau.old work.old.values }
    requires columns { AreColumns (length variables.now.low) tableau.old.equations work.old.columns }
    ensures turned { IfOk result (λ end. Turns end tableau.new
        (turn_of variables.now done tableau.old (look_of variables.now done tableau.old))) }
    ensures same_length { length tableau.new.equations ≡ length tableau.old.equations }
    ensures noted { IfOk result (λ end. IfNone end (AreNoted variables.now tableau.new work.new.values)) }
    ensures stored { IfOk result (λ end. IfNone end (work.new.stored ≡ stored_of tableau.new)) }
    ensures few { IfOk result (λ end. IfNone end (work.new.stored ≤ COUNT_LIMIT)) }
    ensures columns { IfOk result
        (λ end. IfNone end (AreColumns (length variables.now.low) tableau.new.equations work.new.columns)) }
{
    match ask(alloc, variables, tableau, &work.values, done)? {
        Look::Ends(end) => Ok(Some(end)),
        Look::Enters(leaving, col) => pivot(alloc, variables, tableau, work, leaving, col, done),
    }
}

/// The end at the limit of pivots.
fn last(
    alloc: Global,
    variables: &Variables,
    tableau: &Tableau,
    values: &Values,
    done: u32,
) -> Result<LpEnd, OutOfMemory>
    requires shaped { IsShaped (length variables.now.low) tableau.now }
    requires noted { AreNoted variables.now tableau.now values.now }
    ensures { IfOk result (λ end. end ≡ turns variables.now 0 done tableau.now) }
{
    match ask(alloc, variables, tableau, values, done)? {
        Look::Ends(end) => Ok(end),
        Look::Enters(_, _) => stop(alloc, variables, tableau, Why::Pivots, done),
    }
}

/// The end that the written simplex reaches on the box from the basis of the rows' sums, with at most this many pivots.
///
/// The box lies within the system's root. The rule is that of the bounded dual simplex with exact fractions: the least
/// variable that is out of its range leaves the basis, and of the variables that can help it the one of the least ratio
/// enters, the first of equal ones.
pub fn solve(
    alloc: Global,
    system: &System,
    range: &Range,
    pivots: u32,
) -> Result<LpEnd, OutOfMemory>
    requires { LiesIn system.now.root range.now }
    ensures end { IfOk result (λ end. end ≡ end_of system.now range.now pivots) }
    ensures sound { IfOk result (IsSound system.now range.now) }
{
    let variables = Variables::new(alloc, system, range)?;
    let mut tableau = Tableau::start(alloc, system)?;
    let mut work = Work::new(alloc, &variables, &tableau)?;
    for done in 0..pivots {
        match turn(alloc, &variables, &mut tableau, &mut work, done)? {
            Some(end) => return Ok(end),
            None => {}
        }
    }
    last(alloc, &variables, &tableau, &work.values, pivots)
}
