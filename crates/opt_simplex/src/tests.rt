mod by_hand;
mod country;
mod guides;
mod load;
mod outside;
mod reading;

use crate::tests::reading::{Ending, Outcome, expected_end, small, system};
use crate::{LpEnd, Raw, SimplexGuide, Why, solve};
use opt_base::{ModelFault, OutOfMemory};
use opt_bound::{Leaf, leaf_at};
use opt_guide::Guide;
use opt_system::System;
use std::alloc::Global;
use std::process::Abort;
use std::test::Fail;

/// The end on the system's root.
fn end_of(
    rt: &impl Abort,
    alloc: Global,
    system: &System,
    pivots: u32,
) -> Result<LpEnd, OutOfMemory> {
    let range = system.root().copy(alloc)?;
    let within = range.lies_in(system.root());
    assert!(rt; within);
    solve(alloc, system, &range, pivots)
}

fn outcome(end: &LpEnd) -> Outcome {
    match end {
        LpEnd::Optimal { .. } => Outcome::Optimal,
        LpEnd::Empty { .. } => Outcome::Empty,
        LpEnd::Stopped { why, .. } => match why {
            Why::Wide => Outcome::Wide,
            Why::Pivots => Outcome::Pivots,
            Why::Fill => Outcome::Fill,
        },
    }
}

fn done(end: &LpEnd) -> u32 {
    match end {
        LpEnd::Optimal { done, .. } => *done,
        LpEnd::Empty { done, .. } => *done,
        LpEnd::Stopped { done, .. } => *done,
    }
}

fn raw(end: &LpEnd) -> &Raw {
    match end {
        LpEnd::Optimal { raw, .. } => raw,
        LpEnd::Empty { raw, .. } => raw,
        LpEnd::Stopped { raw, .. } => raw,
    }
}

fn point(end: &LpEnd) -> &[(i128, i128)] {
    match end {
        LpEnd::Optimal { point, .. } => point.as_slice(),
        _ => &[],
    }
}

fn assert_end(rt: &impl Abort, end: &LpEnd, expected: &Ending) {
    assert_eq!(rt; outcome(end), expected.outcome);
    assert_eq!(rt; done(end), expected.done);
    assert_eq!(rt; raw(end).q(), expected.q);
    assert_eq!(rt; raw(end).entries(), expected.entries.as_slice());
    assert_eq!(rt; point(end), expected.point.as_slice());
}

/// Solves a case: a limit of pivots, a system, and the end that is expected.
fn assert_case(rt: &impl Abort, alloc: Global, text: &str) -> Result<(), ModelFault> {
    let mut words = text.split_whitespace();
    let pivots = small(rt, &mut words);
    let system = system(rt, alloc, &mut words)?;
    let end = end_of(rt, alloc, &system, pivots)?;
    assert_end(rt, &end, &expected_end(rt, alloc, &mut words)?);
    Ok(())
}

fn assert_cases(rt: &impl Abort, alloc: Global, cases: &[&str]) -> Result<(), ModelFault> {
    for text in cases {
        assert_case(rt, alloc, text)?;
    }
    Ok(())
}

#[test]
fn systems_end_as_by_hand(rt: HostRuntime) -> Result<(), Fail> {
    assert_cases(&rt, rt.alloc(), &by_hand::CASES)?;
    Ok(())
}

#[test]
fn few_quantities_have_an_optimum(rt: HostRuntime) -> Result<(), Fail> {
    assert_cases(&rt, rt.alloc(), &outside::OPTIMAL_OF_FEW)?;
    Ok(())
}

#[test]
fn many_quantities_have_an_optimum(rt: HostRuntime) -> Result<(), Fail> {
    assert_cases(&rt, rt.alloc(), &outside::OPTIMAL_OF_MANY)?;
    Ok(())
}

#[test]
fn boxes_are_empty(rt: HostRuntime) -> Result<(), Fail> {
    assert_cases(&rt, rt.alloc(), &outside::EMPTY)?;
    Ok(())
}

#[test]
fn the_limit_stops(rt: HostRuntime) -> Result<(), Fail> {
    assert_cases(&rt, rt.alloc(), &outside::STOPPED_BY_PIVOTS)?;
    Ok(())
}

#[test]
fn wide_numbers_stop(rt: HostRuntime) -> Result<(), Fail> {
    assert_cases(&rt, rt.alloc(), &outside::STOPPED_BY_WIDE)?;
    Ok(())
}

/// The lower bound that the guide's multipliers show of the system's root.
fn root_bound(rt: &impl Abort, alloc: Global, system: &System) -> Result<Leaf, OutOfMemory> {
    let range = system.root().copy(alloc)?;
    let within = range.lies_in(system.root());
    assert!(rt; within);
    let mult = SimplexGuide::new(alloc).multipliers(alloc, system, &range)?;
    let admissible = mult.admissible(system);
    assert!(rt; admissible);
    Ok(leaf_at(system, &range, &mult))
}

/// The root of a country ends after so many pivots, and its bound is the least cost of a plan.
#[test]
fn a_country_has_its_least_cost(rt: HostRuntime) -> Result<(), Fail> {
    let alloc = rt.alloc();
    let system = system(&rt, alloc, &mut country::ROOT.split_whitespace())?;
    let end = end_of(&rt, alloc, &system, 20_000)?;
    assert_eq!(rt; outcome(&end), Outcome::Optimal);
    assert_eq!(rt; done(&end), 737);
    assert_eq!(rt;
        root_bound(&rt, alloc, &system)?,
        Leaf::AtLeast(3_451_324_500)
    );
    Ok(())
}
