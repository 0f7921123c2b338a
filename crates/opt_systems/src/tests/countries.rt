use super::folders::{EVEN, FOUR, ONE, SHARED, THREE, TWO};
use super::{Held, system_of, tables_of, term_count};
use opt_base::OutOfMemory;
use opt_bound::{Leaf, leaf_at};
use opt_guide::Guide;
use opt_simplex::{LpEnd, PIVOT_LIMIT, SimplexGuide, solve};
use opt_system::System;
use std::alloc::Global;
use std::process::Abort;
use std::test::Fail;

/// The system of a country.
fn country(alloc: Global, own: &[Held<'_>]) -> Result<System, Fail> {
    let tables = tables_of(alloc, &SHARED, own)?;
    Ok(system_of(alloc, &tables)?)
}

/// How many quantities, rows and terms a system has.
fn counts(system: &System) -> (u32, u32, u64) {
    (system.quantities(), system.rows(), term_count(system))
}

/// After how many pivots the simplex ends at an optimum of the root.
fn pivots_to_optimum(
    rt: &impl Abort,
    alloc: Global,
    system: &System,
) -> Result<Option<u32>, OutOfMemory> {
    let range = system.root().copy(alloc)?;
    assert!(rt; range.lies_in(system.root()));
    match solve(alloc, system, &range, PIVOT_LIMIT)? {
        LpEnd::Optimal { done, .. } => Ok(Some(done)),
        _ => Ok(None),
    }
}

/// The lower bound that the simplex' multipliers show of the root.
fn root_bound(rt: &impl Abort, alloc: Global, system: &System) -> Result<Leaf, OutOfMemory> {
    let range = system.root().copy(alloc)?;
    assert!(rt; range.lies_in(system.root()));
    let mult = SimplexGuide::new(alloc).multipliers(alloc, system, &range)?;
    assert!(rt; mult.admissible(system));
    Ok(leaf_at(system, &range, &mult))
}

/// The root ends after so many pivots, and its bound is so many mills, the least cost of a plan.
fn assert_root(
    rt: &impl Abort,
    alloc: Global,
    system: &System,
    pivots: u32,
    least: i128,
) -> Result<(), OutOfMemory> {
    assert_eq!(rt; pivots_to_optimum(rt, alloc, system)?, Some(pivots));
    assert_eq!(rt; root_bound(rt, alloc, system)?, Leaf::AtLeast(least));
    Ok(())
}

#[test]
fn four_hubs_and_eight_points(rt: HostRuntime) -> Result<(), Fail> {
    let system = country(rt.alloc(), &ONE)?;
    assert_eq!(rt; counts(&system), (962, 1072, 3268));
    assert_root(&rt, rt.alloc(), &system, 737, 3_451_324_500)?;
    Ok(())
}

#[test]
fn eight_hubs_and_sixteen_points(rt: HostRuntime) -> Result<(), Fail> {
    let system = country(rt.alloc(), &TWO)?;
    assert_eq!(rt; counts(&system), (1642, 1928, 5688));
    assert_root(&rt, rt.alloc(), &system, 1277, 6_358_571_250)?;
    Ok(())
}

#[test]
fn twelve_hubs_and_twenty_four_points(rt: HostRuntime) -> Result<(), Fail> {
    let system = country(rt.alloc(), &THREE)?;
    assert_eq!(rt; counts(&system), (2322, 2784, 8108));
    assert_root(&rt, rt.alloc(), &system, 1817, 9_421_296_000)?;
    Ok(())
}

#[test]
fn sixteen_hubs_and_thirty_two_points(rt: HostRuntime) -> Result<(), Fail> {
    let system = country(rt.alloc(), &FOUR)?;
    assert_eq!(rt; counts(&system), (3002, 3640, 10_528));
    assert_root(&rt, rt.alloc(), &system, 2357, 12_554_478_000)?;
    Ok(())
}

/// By hand the least cost of this one is 3,527,700,000 mills.
#[test]
fn each_point_has_as_many_persons(rt: HostRuntime) -> Result<(), Fail> {
    let system = country(rt.alloc(), &EVEN)?;
    assert_eq!(rt; counts(&system), (962, 1072, 3268));
    assert_root(&rt, rt.alloc(), &system, 727, 3_527_700_000)?;
    Ok(())
}
