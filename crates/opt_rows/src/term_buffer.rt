//! The terms of a row while it is made, and the row that they make.
ghost use Rattle.std.specs.Prelude.{◌≡◌, [], ◌∷◌, ◌++◌, pos, neg_ℤ, ◌≤ℤ◌, OnOk};
ghost use Rattle.opt_model.specs.Rows.{at_least, equal};
ghost use Rattle.opt_rows.specs.Gathering.{entries_of, HasShortSums, AddsRow, AddsLimit};

use crate::sums::{gather, negate};
use opt_base::OutOfMemory;
use opt_model::Quantity;
use opt_network::Layout;
use opt_system::{RowKind, RowList};
use std::alloc::{AllocError, Global};
use std::marker::Model;

/// Terms by the numbers of their quantities, in the order in which they were added.
#[derive(Debug, Drop)]
pub struct TermBuffer {
    alloc: Global,
    entries: Vec<(u32, i64)>,
}

impl Model for TermBuffer {
    ghost use Rattle.std.specs.Prelude.{ℕ, ℤ, List};

    ghost Value = { List (ℕ × ℤ) };

    ghost view = { λ b. b.entries.items };
}

impl TermBuffer {
    /// No term.
    pub fn new(alloc: Global) -> TermBuffer
        ensures { result ≡ [] }
    {
        TermBuffer {
            alloc,
            entries: Vec::new(alloc),
        }
    }

    /// Adds a term; one of a quantity that does not exist is passed over.
    pub fn add(&mut self, layout: &Layout, term: (Quantity, i64)) -> Result<(), AllocError>
        ensures { OnOk result (self.new
            ≡ self.old ++ entries_of layout.now.quantities (term ∷ [])) }
    {
        match layout.index(&term.0) {
            Some(number) => {
                self.entries.push((number, term.1))?;
                Ok(())
            }
            None => Ok(()),
        }
    }
}

/// Adds the row that the sum of these terms is at least the right side.
pub fn push_at_least(
    rows: &mut RowList,
    layout: &Layout,
    terms: &TermBuffer,
    right: &i64,
) -> Result<(), OutOfMemory>
    requires sums { HasShortSums terms.now }
    ensures { OnOk result
        (AddsRow layout.now.quantities terms.now at_least right.now rows.old rows.new) }
{
    let _len = layout.len();
    let gathered = gather(terms.alloc, &terms.entries)?;
    rows.push(RowKind::Ge, *right, &gathered)?;
    Ok(())
}

/// Adds the row that the sum of these terms is the right side.
pub fn push_equal(
    rows: &mut RowList,
    layout: &Layout,
    terms: &TermBuffer,
    right: &i64,
) -> Result<(), OutOfMemory>
    requires sums { HasShortSums terms.now }
    ensures { OnOk result
        (AddsRow layout.now.quantities terms.now equal right.now rows.old rows.new) }
{
    let _len = layout.len();
    let gathered = gather(terms.alloc, &terms.entries)?;
    rows.push(RowKind::Eq, *right, &gathered)?;
    Ok(())
}

/// The limit with the other sign.
fn negative(limit: &i64) -> i64
    requires { pos 0 ≤ℤ limit.now }
    ensures { result ≡ neg_ℤ limit.now }
{
    -*limit
}

/// Adds the row that the sum of these terms is at most a limit, which is from 0 on.
pub fn push_at_most(
    rows: &mut RowList,
    layout: &Layout,
    terms: &TermBuffer,
    limit: &i64,
) -> Result<(), OutOfMemory>
    requires limit { pos 0 ≤ℤ limit.now }
    requires sums { HasShortSums terms.now }
    ensures { OnOk result
        (AddsLimit layout.now.quantities terms.now limit.now rows.old rows.new) }
{
    let _len = layout.len();
    let gathered = gather(terms.alloc, &terms.entries)?;
    let negated = negate(terms.alloc, &gathered)?;
    rows.push(RowKind::Ge, negative(limit), &negated)?;
    Ok(())
}
