mod boxes;
mod guides;
mod least;

use opt_base::{ModelFault, OutOfMemory};
use opt_sums::{has_no_zero, is_rising};
use opt_system::{Range, RowKind, RowList, System};
use std::alloc::Global;
use std::process::Abort;

/// Adds the row, or ends the test where its terms do not go by rising quantity without a 0.
pub fn push(
    rt: &impl Abort,
    rows: &mut RowList,
    kind: RowKind,
    right: i64,
    terms: &[(u32, i64)],
) -> Result<(), OutOfMemory> {
    let rising = is_rising(terms);
    assert!(rt; rising);
    let no_zero = has_no_zero(terms);
    assert!(rt; no_zero);
    rows.push(kind, right, terms)
}

/// The system of these rows, or ends the test where its numbers are too great.
pub fn system(
    rt: &impl Abort,
    alloc: Global,
    rows: &RowList,
    low: &[i64],
    high: &[i64],
    costs: &[i64],
) -> Result<System, ModelFault> {
    let ordered = Range::is_ordered(low, high);
    assert!(rt; ordered);
    let root = Range::new(alloc, low, high)?;
    let small = System::are_small(rows, &root, costs);
    assert!(rt; small);
    System::from_rows(alloc, rows, &root, costs)
}

/// Rice from 0 to 30 g in steps of 10 g, of which 100 g have 360 units, for a need of `required` units without shortfall.
pub fn basket(rt: &impl Abort, alloc: Global, required: i64) -> Result<System, ModelFault> {
    let mut rows = RowList::new(alloc);
    push(rt, &mut rows, RowKind::Ge, required, &[(0, 3600), (1, 100)])?;
    system(rt, alloc, &rows, &[0, 0], &[3, 0], &[0, 1])
}
