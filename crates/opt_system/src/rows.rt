ghost use Rattle.std.specs.Prelude.{◌≡◌, [], ◌∷◌, ◌++◌, All, IfOk, OnOk, OnErr};
ghost use Rattle.opt_sums.specs.Entries.{IsRising, HasNoZero};

use crate::terms::Terms;
use opt_base::OutOfMemory;
use std::alloc::{AllocError, Global};
use std::marker::Model;

/// How the sum of a row's terms stands to its right-hand side.
#[derive(Clone, Copy, Debug, PartialEq, Eq)]
pub enum RowKind {
    /// The sum is at least the right-hand side.
    Ge,
    /// The sum is the right-hand side.
    Eq,
}

/// A row: the sum of its terms stands to its right-hand side as its kind says.
#[derive(Debug, Drop)]
pub struct Row {
    pub kind: RowKind,
    pub right_hand_side: i64,
    pub terms: Terms,
}

impl Row {
    /// A copy of the row.
    pub fn copy(&self, alloc: Global) -> Result<Row, AllocError>
        ensures { IfOk result (λ row. row ≡ self.now) }
    {
        let terms = Terms::from_slice(alloc, self.terms.as_slice())?;
        Ok(Row {
            kind: self.kind,
            right_hand_side: self.right_hand_side,
            terms,
        })
    }
}

impl PartialEq for Row {
    ghost use Rattle.opt_system.specs.Equal.{row_eq, row_eq_laws};

    ghost eq = { row_eq };

    ghost laws = { row_eq_laws };

    fn eq(&self, other: &Row) -> bool {
        self.kind == other.kind
            && self.right_hand_side == other.right_hand_side
            && self.terms == other.terms
    }
}

/// Copies of these rows.
pub fn copy_rows(alloc: Global, rows: &[Row]) -> Result<Vec<Row>, AllocError>
    ensures { IfOk result (λ copies. copies.items ≡ rows.now) }
{
    let mut copies = Vec::with_capacity(alloc, rows.len())?;
    for row in rows {
        copies.push(row.copy(alloc)?)?;
    }
    Ok(copies)
}

/// Rows, in the order in which they were pushed.
#[derive(Debug, Drop)]
pub struct RowList {
    alloc: Global,
    rows: Vec<Row>,
}

impl Model for RowList {
    ghost use Rattle.std.specs.Prelude.{List, All};
    ghost use Rattle.opt_system.specs.declared.rows.Row.{Row};
    ghost use Rattle.opt_system.specs.Rows.{IsEven};

    ghost Value = { List Row };

    ghost view = { λ l. l.rows.items };

    ghost invariant = { λ l. All IsEven l.rows.items };
}

impl RowList {
    ghost use Rattle.opt_system.specs.Rows.{IsEven};

    /// No row.
    pub fn new(alloc: Global) -> RowList
        ensures { result ≡ [] }
    {
        RowList {
            alloc,
            rows: Vec::new(alloc),
        }
    }

    /// Adds a row with these terms, which go by rising quantity and have no coefficient 0.
    pub fn push(
        &mut self,
        kind: RowKind,
        right: i64,
        terms: &[(u32, i64)],
    ) -> Result<(), OutOfMemory>
        requires rising { IsRising terms.now }
        requires no_zero { HasNoZero terms.now }
        ensures ok { OnOk result (self.new
            ≡ self.old ++ record { kind = kind; right_hand_side = right; terms = terms.now } ∷ []) }
        ensures err { OnErr result (self.new ≡ self.old) }
    {
        let terms = Terms::from_slice(self.alloc, terms)?;
        self.rows.push(Row {
            kind,
            right_hand_side: right,
            terms,
        })?;
        Ok(())
    }

    /// The rows.
    pub(crate) fn as_slice(&self) -> &[Row]
        ensures value { result.now ≡ self.now }
        ensures even { All IsEven self.now }
    {
        &self.rows
    }
}
