ghost use Rattle.std.specs.Prelude.{◌≡◌, ℕ, pos, ◌≤ℤ◌, [], ◌+◌, ◌*◌, ◌^◌, ◌<◌, ◌≤◌, ◌↔◌, ◌*ℤ◌, length, max, sum_by, All, IsTrue, MatchOption, IfOk, OnOk, unsigned_abs};
ghost use Rattle.opt_base.specs.Answers.{Gives};
ghost use Rattle.opt_sums.specs.Sums.{at, sum_to};
ghost use Rattle.opt_sums.specs.Entries.{AllBelow, IsRising, HasNoZero, dot};
ghost use Rattle.opt_system.specs.Ranges.{IsOrdered, IsWithin, LiesIn};
ghost use Rattle.opt_system.specs.Rows.{IsEven, Holds, column_of};
ghost use Rattle.opt_system.specs.Broken.{first_broken_of};
ghost use Rattle.opt_system.specs.Columns.{AddsRow, AreColumns, column_at};
ghost use Rattle.opt_system.specs.Systems.{IsLimited, IsSmall, IsSmallTerm, IsSmallColumnTerm, AreSmallCosts, IsFirstBroken, row_at, term_count as count_of_terms, problem_of, value as value_of};

use crate::columns::Columns;
use crate::limits::{small_costs, small_right_hand_sides, small_rows, term_count};
use crate::points::{sum_of_products, sum_of_terms};
use crate::range::Range;
use crate::rows::{Row, RowKind, RowList, copy_rows};
use opt_base::{
    ModelFault, OutOfMemory, QUANTITY_LIMIT, ROW_LIMIT, ROWS_COLUMN, Refusal, TERM_LIMIT,
    TERMS_COLUMN,
};
use std::alloc::Global;
use std::marker::Model;

/// Rows over whole quantities, the range of each quantity and what a unit of it costs.
///
/// The terms are kept by row and by column.
#[derive(Debug, Drop)]
pub struct System {
    rows: Vec<Row>,
    columns: Columns,
    root: Range,
    costs: Vec<i64>,
}

impl Model for System {
    ghost use Rattle.opt_system.specs.Systems.{System};
    ghost use Rattle.opt_system.specs.Stored.{IsStored};

    ghost Value = { System };

    ghost view = { λ s. record { rows = s.rows.items; root = s.root; cost = s.costs.items } };

    ghost invariant = { λ s. IsStored (record { rows = s.rows.items; root = s.root; cost = s.costs.items })
        s.columns.terms.items s.columns.starts.items };
}

impl System {
    /// Whether the numbers are within the limits by which no sum overflows.
    ///
    /// There are at most 20,000 quantities with one cost each, costs are at least 0 and terms name quantities. Each
    /// coefficient's size and each cost times the greatest value of its quantity (or 1) is below 2^51, and so is each
    /// greatest value. The sizes of the right-hand sides are at most 2^64 together.
    pub fn are_small(rows: &RowList, root: &Range, costs: &[i64]) -> bool
        ensures { IsTrue result ↔ IsSmall rows.now root.now costs.now }
    {
        if root.high().len() > QUANTITY_LIMIT {
            return false;
        }
        if costs.len() != root.low().len() {
            return false;
        }
        if !small_costs(costs, root.high()) {
            return false;
        }
        if !small_rows(rows.as_slice(), root.high()) {
            return false;
        }
        small_right_hand_sides(rows.as_slice())
    }

    /// The system of these rows over the quantities of `root`, whose units cost `costs`.
    ///
    /// It is refused with TooMany of its rows past 20,000 rows, and then with TooMany of its terms past 262,144 terms.
    pub fn from_rows(
        alloc: Global,
        rows: &RowList,
        root: &Range,
        costs: &[i64],
    ) -> Result<System, ModelFault>
        requires { IsSmall rows.now root.now costs.now }
        ensures { Gives (λ system. system) result (problem_of rows.now root.now costs.now) }
    {
        let rows = rows.as_slice();
        if rows.len() > ROW_LIMIT {
            return Err(Refusal::too_many(ROWS_COLUMN, rows.len() as u64).into());
        }
        let terms = term_count(rows);
        if terms > TERM_LIMIT {
            return Err(Refusal::too_many(TERMS_COLUMN, terms as u64).into());
        }
        let root = root.copy(alloc)?;
        let columns = Columns::of_rows(alloc, rows, costs.len())?;
        let rows = copy_rows(alloc, rows)?;
        let costs = Vec::from_slice(alloc, costs)?;
        Ok(System {
            rows,
            columns,
            root,
            costs,
        })
    }

    /// The same rows and costs with this root, which lies within the root at hand.
    pub fn narrowed(&self, alloc: Global, root: &Range) -> Result<System, OutOfMemory>
        requires { LiesIn self.now.root root.now }
        ensures { IfOk result (λ system. system ≡ record self.now { root = root.now }) }
    {
        self.with_root(alloc, root.copy(alloc)?)
    }

    /// A copy of the system.
    pub fn copy(&self, alloc: Global) -> Result<System, OutOfMemory>
        ensures { IfOk result (λ system. system ≡ self.now) }
    {
        self.with_root(alloc, self.root.copy(alloc)?)
    }

    /// A copy of the rows and costs, with this root.
    fn with_root(&self, alloc: Global, root: Range) -> Result<System, OutOfMemory>
        requires ordered { IsOrdered root }
        requires within { LiesIn self.now.root root }
        ensures { IfOk result (λ system. system ≡ record self.now { root = root }) }
    {
        let rows = copy_rows(alloc, &self.rows)?;
        let columns = self.columns.copy(alloc)?;
        let costs = Vec::from_slice(alloc, &self.costs)?;
        Ok(System {
            rows,
            columns,
            root,
            costs,
        })
    }

    /// How many quantities there are.
    pub fn quantities(&self) -> u32
        ensures count { result ≡ length self.now.cost }
        ensures limited { IsLimited self.now }
    {
        self.costs.len() as u32
    }

    /// How many rows there are.
    pub fn rows(&self) -> u32
        ensures count { result ≡ length self.now.rows }
        ensures limited { IsLimited self.now }
    {
        self.rows.len() as u32
    }

    /// The range of each quantity.
    pub fn root(&self) -> &Range
        ensures { result.now ≡ self.now.root }
    {
        &self.root
    }

    /// The kind of row `i`.
    pub fn kind(&self, i: u32) -> RowKind
        requires { i < length self.now.rows }
        ensures { result ≡ (row_at self.now.rows i).kind }
    {
        self.rows[i as usize].kind
    }

    /// The right-hand side of row `i`.
    pub fn right_hand_side(&self, i: u32) -> i64
        requires { i < length self.now.rows }
        ensures { result ≡ (row_at self.now.rows i).right_hand_side }
    {
        self.rows[i as usize].right_hand_side
    }

    /// What a unit of quantity `j` costs.
    pub fn cost(&self, j: u32) -> i64
        requires { j < length self.now.cost }
        ensures { result ≡ at self.now.cost j }
    {
        self.costs[j as usize]
    }

    /// What a unit of each quantity costs.
    pub fn costs(&self) -> &[i64]
        ensures value { result.now ≡ self.now.cost }
        ensures limited { IsLimited self.now }
    {
        &self.costs
    }

    /// The terms of row `i`: quantities with their coefficients, by rising quantity.
    pub fn terms(&self, i: u32) -> &[(u32, i64)]
        requires { i < length self.now.rows }
        ensures value { result.now ≡ (row_at self.now.rows i).terms }
        ensures rising { IsRising result.now }
        ensures no_zero { HasNoZero result.now }
        ensures small { All (IsSmallTerm self.now.root.high) result.now }
        ensures limited { IsLimited self.now }
    {
        let row = &self.rows[i as usize];
        row.terms.as_slice()
    }

    /// The terms of quantity `j`: rows with their coefficients, by rising row.
    pub fn column(&self, j: u32) -> &[(u32, i64)]
        requires { j < length self.now.cost }
        ensures value { result.now ≡ column_of self.now.rows j }
        ensures rising { IsRising result.now }
        ensures no_zero { HasNoZero result.now }
        ensures small { All (IsSmallColumnTerm self.now j) result.now }
        ensures limited { IsLimited self.now }
    {
        self.columns.column(j as usize)
    }

    /// The sum of row `i`'s terms at the point.
    pub fn row_sum(&self, i: u32, x: &[i64]) -> i128
        requires row { i < length self.now.rows }
        requires in_range { IsWithin self.now.root x.now }
        ensures { result ≡ dot (row_at self.now.rows i).terms x.now }
    {
        let row = &self.rows[i as usize];
        sum_of_terms(row.terms.as_slice(), x)
    }

    /// What the point costs.
    pub fn objective(&self, x: &[i64]) -> i128
        requires { IsWithin self.now.root x.now }
        ensures value { result ≡ value_of self.now x.now }
        ensures from_zero { pos 0 ≤ℤ result }
        ensures small { result ≤ℤ pos (2 ^ 126) }
    {
        sum_of_products(&self.costs, x)
    }

    /// The number of the first row that the point does not meet, or none where it meets each.
    pub fn first_broken(&self, x: &[i64]) -> Option<u32>
        requires { IsWithin self.now.root x.now }
        ensures value { result ≡ first_broken_of self.now.rows x.now }
        ensures first { MatchOption result (All (λ row. Holds row x.now) self.now.rows)
            (IsFirstBroken self.now.rows x.now) }
    {
        for i in 0..self.rows() {
            if !self.holds(i, x) {
                return Some(i);
            }
        }
        None
    }

    /// Whether the point meets row `i`.
    pub fn holds(&self, i: u32, x: &[i64]) -> bool
        requires row { i < length self.now.rows }
        requires in_range { IsWithin self.now.root x.now }
        ensures { IsTrue result ↔ Holds (row_at self.now.rows i) x.now }
    {
        let sum = self.row_sum(i, x);
        let right = i128::from(self.right_hand_side(i));
        match self.kind(i) {
            RowKind::Ge => sum >= right,
            RowKind::Eq => sum == right,
        }
    }
}

impl PartialEq for System {
    ghost use Rattle.opt_system.specs.Equal.{system_eq, system_eq_laws};

    ghost eq = { system_eq };

    ghost laws = { system_eq_laws };

    fn eq(&self, other: &System) -> bool
        ensures value { result ≡ system_eq self.now other.now }
        ensures same { IsTrue result ↔ (self.now ≡ other.now) }
    {
        self.rows == other.rows && self.root == other.root && self.costs == other.costs
    }
}
