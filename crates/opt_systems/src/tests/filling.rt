use opt_base::{ModelFault, OutOfMemory};
use opt_simplex::{LpEnd, PIVOT_LIMIT, Why, solve};
use opt_sums::{has_no_zero, is_rising};
use opt_system::{Range, RowKind, RowList, System};
use std::alloc::Global;
use std::process::Abort;
use std::test::Fail;

/// How many quantities stand beside the first in the long row.
const BESIDE: u32 = 19_900;

/// How many short rows have the first quantity alone.
const SHORT: u32 = 850;

/// Adds a row whose left side is to be at least so much.
fn push(
    rt: &impl Abort,
    rows: &mut RowList,
    right: i64,
    terms: &[(u32, i64)],
) -> Result<(), OutOfMemory> {
    let rising = is_rising(terms);
    assert!(rt; rising);
    let no_zero = has_no_zero(terms);
    assert!(rt; no_zero);
    rows.push(RowKind::Ge, right, terms)
}

/// The terms of the long row: the first quantity, less each other.
fn long_terms(alloc: Global) -> Result<Vec<(u32, i64)>, OutOfMemory> {
    let mut terms = Vec::new(alloc);
    terms.push((0u32, 1i64))?;
    for i in 0..BESIDE {
        terms.push((i + 1, -1i64))?;
    }
    Ok(terms)
}

/// The long row, then the short ones.
fn rows(rt: &impl Abort, alloc: Global) -> Result<RowList, OutOfMemory> {
    let mut rows = RowList::new(alloc);
    push(rt, &mut rows, 1, long_terms(alloc)?.as_slice())?;
    for _ in 0..SHORT {
        push(rt, &mut rows, 0, &[(0, 1i64)])?;
    }
    Ok(rows)
}

/// A system of these rows, whose quantities are from 0 to 1,000,000 and cost 1 each, but for the first, which costs
/// nothing.
fn system(rt: &impl Abort, alloc: Global) -> Result<System, ModelFault> {
    let rows = rows(rt, alloc)?;
    let count = BESIDE as usize + 1;
    let low = vec![in alloc; 0i64; count]?;
    let high = vec![in alloc; 1_000_000i64; count]?;
    let mut costs = vec![in alloc; 1i64; count]?;
    costs[0] = 0;
    let ordered = Range::is_ordered(&low, &high);
    assert!(rt; ordered);
    let root = Range::new(alloc, &low, &high)?;
    let small = System::are_small(&rows, &root, &costs);
    assert!(rt; small);
    System::from_rows(alloc, &rows, &root, &costs)
}

/// Whether the pivot was given up for the coefficients that it would have stored.
fn is_filled(end: &LpEnd) -> bool {
    match end {
        LpEnd::Stopped { why, done, .. } => *why == Why::Fill && *done == 0,
        _ => false,
    }
}

/// The first pivot puts the 19,901 coefficients of the long row into each of the 850 short ones: more than 2^24.
#[test]
fn a_pivot_stores_too_many_coefficients(rt: HostRuntime) -> Result<(), Fail> {
    let alloc = rt.alloc();
    let system = system(&rt, alloc)?;
    let range = system.root().copy(alloc)?;
    let within = range.lies_in(system.root());
    assert!(rt; within);
    let end = solve(alloc, &system, &range, PIVOT_LIMIT)?;
    assert!(rt; is_filled(&end));
    Ok(())
}
