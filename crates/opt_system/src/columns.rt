ghost use Rattle.std.specs.Prelude.{◌≡◌, [], ◌+◌, ◌<◌, ◌≤◌, length, All, IfOk, OnOk, slice_range, slice_index};
ghost use Rattle.opt_sums.specs.Entries.{AllBelow};
ghost use Rattle.opt_system.specs.Columns.{AddsRow, AreColumns, AreJoined, HoldColumns, IsBetween, column_between};

use crate::rows::Row;
use crate::terms::Terms;
use opt_base::ROW_LIMIT;
use std::alloc::{AllocError, Global};

/// The terms of rows by column: rows with their coefficients in one list, column after column, and where each column
/// starts.
///
/// The last start is the list's length.
#[derive(Debug, Drop)]
pub struct Columns {
    pub terms: Vec<(u32, i64)>,
    pub starts: Vec<usize>,
}

impl Columns {
    /// The terms of these rows by column, a column for each quantity.
    pub fn of_rows(alloc: Global, rows: &[Row], quantities: usize) -> Result<Columns, AllocError>
        requires few { length rows.now ≤ ROW_LIMIT }
        requires named { All (λ row. AllBelow quantities row.terms) rows.now }
        ensures { IfOk result
            (λ columns. HoldColumns columns.terms.items columns.starts.items quantities rows.now) }
    {
        join(alloc, &lists_of(alloc, rows, quantities)?)
    }

    /// Column `j`.
    pub fn column(&self, j: usize) -> &[(u32, i64)]
        requires { IsBetween self.now.terms.items self.now.starts.items j }
        ensures { result.now ≡ column_between self.now.terms.items self.now.starts.items j }
    {
        &self.terms[self.starts[j]..self.starts[j + 1]]
    }

    /// A copy of the columns.
    pub fn copy(&self, alloc: Global) -> Result<Columns, AllocError>
        ensures terms { IfOk result (λ columns. columns.terms.items ≡ self.now.terms.items) }
        ensures starts { IfOk result (λ columns. columns.starts.items ≡ self.now.starts.items) }
    {
        let terms = Vec::from_slice(alloc, &self.terms)?;
        let starts = Vec::from_slice(alloc, &self.starts)?;
        Ok(Columns { terms, starts })
    }
}

/// These lists one after another.
fn join(alloc: Global, lists: &[Terms]) -> Result<Columns, AllocError>
    ensures { IfOk result
        (λ columns. AreJoined columns.terms.items columns.starts.items lists.now) }
{
    let mut terms = Vec::new(alloc);
    let mut starts = Vec::with_capacity(alloc, lists.len().saturating_add(1))?;
    starts.push(0)?;
    for list in lists {
        terms.extend_from_slice(list.as_slice())?;
        starts.push(terms.len())?;
    }
    Ok(Columns { terms, starts })
}

/// The terms of these rows by column, a list for each quantity.
fn lists_of(alloc: Global, rows: &[Row], quantities: usize) -> Result<Vec<Terms>, AllocError>
    requires few { length rows.now ≤ ROW_LIMIT }
    requires named { All (λ row. AllBelow quantities row.terms) rows.now }
    ensures { IfOk result (λ columns. AreColumns columns.items quantities rows.now) }
{
    let mut columns = empty_columns(alloc, quantities)?;
    for i in 0..rows.len() {
        let row = &rows[i];
        add_row(&mut columns, i as u32, row.terms.as_slice())?;
    }
    Ok(columns)
}

/// This many columns without terms.
fn empty_columns(alloc: Global, quantities: usize) -> Result<Vec<Terms>, AllocError>
    ensures { IfOk result (λ columns. AreColumns columns.items quantities []) }
{
    let mut columns = Vec::with_capacity(alloc, quantities)?;
    for _ in 0..quantities {
        columns.push(Terms::new(alloc))?;
    }
    Ok(columns)
}

/// Adds the row's terms to the columns.
fn add_row(columns: &mut Vec<Terms>, row: u32, terms: &[(u32, i64)]) -> Result<(), AllocError>
    requires { AllBelow (length columns.old.items) terms.now }
    ensures { OnOk result (AddsRow columns.old.items columns.new.items row terms.now) }
{
    for term in terms {
        columns[term.0 as usize].push(row, term.1)?;
    }
    Ok(())
}
