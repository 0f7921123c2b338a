ghost use Rattle.std.specs.Prelude.{◌≡◌, ◌++◌, ◌<◌, ◌≤◌, ℕ, List, [], ℤ, pos, drop, take, insert, length, replicate, IfOk, OnOk};
ghost use Rattle.std.specs.List.{slice_set};
ghost use Rattle.opt_sums.specs.Entries.{HasNoZero, IsRising, coef};
ghost use Rattle.opt_frac.specs.Merging.{term_at};
ghost use Rattle.opt_simplex.specs.Columns.{AreColumns, Follow, column_at, with_position, without_position};

use opt_base::OutOfMemory;
use opt_frac::Equation;
use std::alloc::{AllocError, Global};
use std::marker::Model;

/// Positions of equations, rising.
#[derive(Debug, Drop)]
pub(crate) struct Column {
    positions: Vec<usize>,
}

impl Model for Column {
    ghost use Rattle.std.specs.Prelude.{List, ℕ};

    ghost Value = { List ℕ };

    ghost view = { λ c. c.positions.items };
}

impl Column {
    /// No position.
    fn new(alloc: Global) -> Column
        ensures { result ≡ [] }
    {
        Column {
            positions: Vec::new(alloc),
        }
    }

    /// The positions in a list of their own.
    fn copy(&self, alloc: Global) -> Result<Vec<usize>, AllocError>
        ensures { IfOk result (λ positions. positions.items ≡ self.now) }
    {
        Vec::from_slice(alloc, &self.positions)
    }

    /// Puts the position in its place.
    fn add(&mut self, position: usize) -> Result<(), AllocError>
        ensures { OnOk result (self.new ≡ with_position position self.old) }
    {
        let place = place_of(&self.positions, position);
        self.positions.insert(place, position)?;
        Ok(())
    }

    /// Drops the position.
    fn remove(&mut self, position: usize)
        ensures { self.new ≡ without_position position self.old }
    {
        self.positions.retain(|p| *p != position);
    }
}

/// For each variable, the positions of the equations with a term at it.
#[derive(Debug, Drop)]
pub(crate) struct Columns {
    columns: Vec<Column>,
}

impl Model for Columns {
    ghost use Rattle.std.specs.Prelude.{List, ℕ};

    ghost Value = { List (List ℕ) };

    ghost view = { λ c. c.columns.items };
}

impl Columns {
    /// The columns of the equations, for so many variables.
    pub(crate) fn new(
        alloc: Global,
        count: usize,
        equations: &[Equation],
    ) -> Result<Columns, OutOfMemory>
        ensures { IfOk result (AreColumns count equations.now) }
    {
        let mut columns = Columns {
            columns: no_positions(alloc, count)?,
        };
        for i in 0..equations.len() {
            let equation = &equations[i];
            columns.add_rest(i, equation.terms(), 0)?;
        }
        Ok(columns)
    }

    /// The positions of the equations with a term at the variable, in a list of their own.
    pub(crate) fn positions(&self, alloc: Global, variable: u32) -> Result<Vec<usize>, AllocError>
        requires { variable < length self.now }
        ensures { IfOk result (λ positions. positions.items ≡ column_at self.now variable) }
    {
        self.columns[variable as usize].copy(alloc)
    }

    /// Puts the position into the variable's column, where it has one.
    fn add(&mut self, variable: u32, position: usize) -> Result<(), AllocError>
        ensures { let column = with_position position (column_at self.old variable) in
            OnOk result (self.new ≡ slice_set self.old variable column) }
    {
        if (variable as usize) < self.columns.len() {
            self.columns[variable as usize].add(position)?;
        }
        Ok(())
    }

    /// Drops the position from the variable's column, where it has one.
    fn remove(&mut self, variable: u32, position: usize)
        ensures { let column = without_position position (column_at self.old variable) in
            self.new ≡ slice_set self.old variable column }
    {
        if (variable as usize) < self.columns.len() {
            self.columns[variable as usize].remove(position);
        }
    }

    /// The equation at the position loses its terms from this one on, whose variables stand in none that it keeps.
    fn remove_rest(&mut self, position: usize, terms: &[(u32, i128)], from: usize)
        requires { IsRising terms.now }
        ensures { (kept : List (ℕ × ℤ))
            → ((j : ℕ) → from ≤ j → j < length terms.now → coef kept (term_at terms.now j).0 ≡ pos 0)
            → Follow position (kept ++ drop from terms.now) kept self.old self.new }
    {
        for i in from..terms.len() {
            self.remove(terms[i].0, position);
        }
    }

    /// The equation at the position, which has the terms before this one, gets the others.
    fn add_rest(
        &mut self,
        position: usize,
        terms: &[(u32, i128)],
        from: usize,
    ) -> Result<(), AllocError>
        requires rising { IsRising terms.now }
        requires no_zero { HasNoZero terms.now }
        ensures { OnOk result (Follow position (take from terms.now) terms.now self.old self.new) }
    {
        for i in from..terms.len() {
            self.add(terms[i].0, position)?;
        }
        Ok(())
    }

    /// The equation at the position has new terms in place of the old ones.
    pub(crate) fn change(
        &mut self,
        position: usize,
        olds: &[(u32, i128)],
        news: &[(u32, i128)],
    ) -> Result<(), AllocError>
        requires olds_rising { IsRising olds.now }
        requires olds_no_zero { HasNoZero olds.now }
        requires news_rising { IsRising news.now }
        requires news_no_zero { HasNoZero news.now }
        ensures { OnOk result (Follow position olds.now news.now self.old self.new) }
    {
        let mut x = 0;
        let mut y = 0;
        while x < olds.len() && y < news.len() {
            let old = olds[x].0;
            let new = news[y].0;
            if old < new {
                self.remove(old, position);
                x += 1;
            } else if new < old {
                self.add(new, position)?;
                y += 1;
            } else {
                x += 1;
                y += 1;
            }
        }
        self.remove_rest(position, olds, x);
        self.add_rest(position, news, y)
    }
}

/// As many columns, each without a position.
fn no_positions(alloc: Global, count: usize) -> Result<Vec<Column>, AllocError>
    ensures { IfOk result (λ columns. columns.items ≡ replicate count []) }
{
    let mut columns = Vec::with_capacity(alloc, count)?;
    for _ in 0..count {
        columns.push(Column::new(alloc))?;
    }
    Ok(columns)
}

/// How many of the positions stand before the one that is to be put among them.
fn place_of(positions: &[usize], position: usize) -> usize
    ensures within { result ≤ length positions.now }
    ensures place { with_position position positions.now ≡ insert positions.now result position }
{
    for i in 0..positions.len() {
        if position < positions[i] {
            return i;
        }
    }
    positions.len()
}
