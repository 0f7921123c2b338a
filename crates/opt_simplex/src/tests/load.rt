use crate::tests::reading::{push, system_of};
use crate::{LpEnd, Raw, Why, solve};
use opt_base::ModelFault;
use opt_system::{RowKind, RowList, System};
use std::alloc::Global;
use std::process::Abort;
use std::test::Fail;

/// How many quantities the load has, each with a row of its own.
const LOAD: u32 = 5_000;

/// A system in which each quantity, from 0 to 10 at a cost of 1, has to be at least 1.
fn load(rt: &impl Abort, alloc: Global) -> Result<System, ModelFault> {
    let mut rows = RowList::new(alloc);
    let mut low = Vec::new(alloc);
    let mut high = Vec::new(alloc);
    let mut costs = Vec::new(alloc);
    for i in 0..LOAD {
        push(rt, &mut rows, RowKind::Ge, 1, &[(i, 1i64)])?;
        low.push(0i64)?;
        high.push(10i64)?;
        costs.push(1i64)?;
    }
    system_of(rt, alloc, &rows, &low, &high, &costs)
}

/// The end of the load with this limit of pivots.
fn end_of_load(rt: &impl Abort, alloc: Global, pivots: u32) -> Result<LpEnd, ModelFault> {
    let system = load(rt, alloc)?;
    let range = system.root().copy(alloc)?;
    let within = range.lies_in(system.root());
    assert!(rt; within);
    Ok(solve(alloc, &system, &range, pivots)?)
}

/// Whether each quantity has the value 1.
fn are_one(fractions: &[(i128, i128)]) -> bool {
    fractions.len() == LOAD as usize && fractions.iter().all(|fraction| *fraction == (1, 1))
}

/// Whether the objective and each row are taken once.
fn are_taken_once(raw: &Raw) -> bool {
    raw.q() == 1
        && raw.entries().len() == LOAD as usize
        && raw.entries().iter().all(|entry| entry.1 == 1)
}

/// Whether the least point was reached with a pivot for each row.
fn is_solved(end: &LpEnd) -> bool {
    match end {
        LpEnd::Optimal { point, raw, done } => {
            *done == LOAD && are_one(point.as_slice()) && are_taken_once(raw)
        }
        _ => false,
    }
}

/// Whether the limit was reached one pivot before the end.
fn is_stopped(end: &LpEnd) -> bool {
    match end {
        LpEnd::Stopped { why, done, .. } => *why == Why::Pivots && *done == LOAD - 1,
        _ => false,
    }
}

#[test]
fn a_load_takes_a_pivot_for_each_row(rt: HostRuntime) -> Result<(), Fail> {
    let end = end_of_load(&rt, rt.alloc(), LOAD)?;
    assert!(rt; is_solved(&end));
    let end = end_of_load(&rt, rt.alloc(), LOAD - 1)?;
    assert!(rt; is_stopped(&end));
    Ok(())
}
