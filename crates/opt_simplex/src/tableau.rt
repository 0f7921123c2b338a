ghost use Rattle.std.specs.Prelude.{◌≡◌, ◌≤◌, ◌*◌, All, length, sum_by, IfOk, OnErr, OnOk};
ghost use Rattle.opt_simplex.specs.Tableau.{start as start_of, stored as stored_of};
ghost use Rattle.opt_simplex.specs.Columns.{AreColumns, positions_from};
ghost use Rattle.opt_simplex.specs.Pivot.{next_tableau};
ghost use Rattle.opt_simplex.specs.Outcomes.{Makes, leaving_at};
ghost use Rattle.opt_simplex.specs.Shape.{IsAmong, IsShaped, MayPivot};

use crate::choice::Leaving;
use crate::columns::Columns;
use crate::limits::{COUNT_LIMIT, VARIABLE_LIMIT};
use crate::pivot::{PivotFault, sweep, treat_cost};
use crate::start::{cost_equation, no_flags, row_equations};
use opt_base::OutOfMemory;
use opt_frac::Equation;
use opt_system::System;
use std::alloc::Global;
use std::marker::Model;

/// The equations of the basic variables by position, the equation of the objective, and for each variable whether it
/// rests at its high while it is outside the basis.
#[derive(Debug, Drop)]
pub(crate) struct Tableau {
    equations: Vec<Equation>,
    cost: Equation,
    at_high: Vec<bool>,
}

/// What a pivot changed: the positions of equations, and how many coefficients are stored then.
#[derive(Debug, Drop)]
pub(crate) struct Change {
    pub positions: Vec<usize>,
    pub stored: usize,
}

impl Model for Tableau {
    ghost use Rattle.opt_simplex.specs.Tableau.{Tableau};

    ghost Value = { Tableau };

    ghost view = { λ t. record { equations = t.equations.items; cost = t.cost; at_high = t.at_high.items } };
}

impl Tableau {
    /// The basis of the rows' sums: each is its row's terms, the objective is the costs, and all quantities rest at
    /// their lows.
    pub(crate) fn start(alloc: Global, system: &System) -> Result<Tableau, OutOfMemory>
        ensures { IfOk result (λ tableau. tableau ≡ start_of system.now) }
    {
        Ok(Tableau {
            equations: row_equations(alloc, system)?,
            cost: cost_equation(alloc, system)?,
            at_high: no_flags(alloc, system.quantities() + system.rows())?,
        })
    }

    /// The equations of the basic variables, by position.
    pub(crate) fn equations(&self) -> &[Equation]
        ensures { result.now ≡ self.now.equations }
    {
        &self.equations
    }

    /// The equation of the objective.
    pub(crate) fn cost(&self) -> &Equation
        ensures { result.now ≡ self.now.cost }
    {
        &self.cost
    }

    /// For each variable, whether it rests at its high while it is outside the basis.
    pub(crate) fn at_high(&self) -> &[bool]
        ensures { result.now ≡ self.now.at_high }
    {
        &self.at_high
    }

    /// How many coefficients are stored.
    pub(crate) fn stored(&self) -> usize
        requires shaped { IsShaped (length self.now.at_high) self.now }
        requires few { length self.now.at_high ≤ VARIABLE_LIMIT }
        ensures count { result ≡ stored_of self.now }
        ensures few { result ≤ COUNT_LIMIT }
    {
        count_terms(&self.equations) + self.cost.terms().len()
    }

    /// One pivot, with so many coefficients stored before: the entering variable takes the leaving one's place in the
    /// basis, and the columns follow. A fault leaves the cost equation as it was.
    pub(crate) fn pivot(
        &mut self,
        alloc: Global,
        leaving: Leaving,
        col: u32,
        stored: usize,
        columns: &mut Columns,
        buffer: &mut Vec<(u32, i128)>,
    ) -> Result<Change, PivotFault>
        requires may { MayPivot self.old leaving.position col }
        requires shaped { IsShaped (length self.old.at_high) self.old }
        requires stored { stored ≡ stored_of self.old }
        requires few { stored ≤ COUNT_LIMIT }
        requires columns { AreColumns (length self.old.at_high) self.old.equations columns.old }
        ensures pivoted { Makes (λ change. self.new) result
            (next_tableau self.old (leaving_at self.old.equations leaving) col) }
        ensures listed { IfOk result (λ change. change.positions.items ≡ positions_from col 0 self.old.equations) }
        ensures stored { IfOk result (λ change. change.stored ≡ stored_of self.new) }
        ensures few { IfOk result (λ change. change.stored ≤ COUNT_LIMIT) }
        ensures columns { OnOk result (AreColumns (length self.old.at_high) self.new.equations columns.new) }
        ensures cost { OnErr result (self.new.cost ≡ self.old.cost) }
        ensures same_length { length self.new.equations ≡ length self.old.equations }
    {
        let listed = columns.positions(alloc, col)?;
        let equation = &self.equations[leaving.position];
        let basic = equation.basic();
        let turned = equation.turn(alloc, col)?;
        let stored = sweep(
            &mut self.equations,
            columns,
            leaving.position,
            &turned,
            &listed,
            stored,
            buffer,
        )?;
        let old = &self.equations[leaving.position];
        columns.change(leaving.position, old.terms(), turned.terms())?;
        let count = treat_cost(alloc, &mut self.cost, &turned, stored)?;
        self.equations[leaving.position] = turned;
        self.at_high[basic as usize] = !leaving.below;
        Ok(Change {
            positions: listed,
            stored: count,
        })
    }
}

/// How many terms the equations have.
fn count_terms(equations: &[Equation]) -> usize
    requires few { length equations.now ≤ VARIABLE_LIMIT }
    requires among { All (IsAmong VARIABLE_LIMIT) equations.now }
    ensures count { result ≡ sum_by (λ e. length e.terms) equations.now }
    ensures few { result ≤ VARIABLE_LIMIT * VARIABLE_LIMIT }
{
    let mut count = 0;
    for equation in equations {
        count += equation.terms().len();
    }
    count
}
