use crate::{Guide, LieGuide, ScriptGuide, ZeroGuide};
use opt_base::{ModelFault, OutOfMemory, Point};
use opt_bound::Mult;
use opt_sums::{has_no_zero, is_rising};
use opt_system::{Range, RowKind, RowList, System};
use std::alloc::Global;
use std::process::Abort;
use std::test::Fail;

/// One row over two quantities of 0 to 7 and 0 to 9.
fn system(rt: &impl Abort, alloc: Global) -> Result<System, ModelFault> {
    let terms = [(0u32, 3i64), (1, -2)];
    let rising = is_rising(&terms);
    assert!(rt; rising);
    let no_zero = has_no_zero(&terms);
    assert!(rt; no_zero);
    let mut rows = RowList::new(alloc);
    rows.push(RowKind::Ge, 4, &terms)?;
    let root = root(rt, alloc)?;
    let costs = [1, 0];
    let small = System::are_small(&rows, &root, &costs);
    assert!(rt; small);
    System::from_rows(alloc, &rows, &root, &costs)
}

fn root(rt: &impl Abort, alloc: Global) -> Result<Range, OutOfMemory> {
    let ordered = Range::is_ordered(&[0, 0], &[7, 9]);
    assert!(rt; ordered);
    Range::new(alloc, &[0, 0], &[7, 9])
}

#[test]
fn zero_says_the_same_each_time(rt: HostRuntime) -> Result<(), Fail> {
    let alloc = rt.alloc();
    let system = system(&rt, alloc)?;
    let root = root(&rt, alloc)?;
    let within = root.lies_in(system.root());
    assert!(rt; within);
    let mut guide = ZeroGuide;
    let mult = guide.multipliers(alloc, &system, &root)?;
    assert_eq!(rt; mult.q(), 1);
    assert!(rt; mult.entries().is_empty());
    assert!(rt; guide.candidate(alloc, &system, &root)?.is_none());
    assert_eq!(rt; guide.cut(alloc, &system, &root)?, (0, 0));
    assert_eq!(rt; guide.pick(3), 0);
    Ok(())
}

#[test]
fn a_script_ends_in_zero(rt: HostRuntime) -> Result<(), Fail> {
    let alloc = rt.alloc();
    let system = system(&rt, alloc)?;
    let root = root(&rt, alloc)?;
    let within = root.lies_in(system.root());
    assert!(rt; within);
    let proper = Mult::are_proper(5, &[(0, 2)]);
    assert!(rt; proper);
    let mut guide = ScriptGuide::new(alloc);
    guide.add_mult(Mult::new(alloc, 5, &[(0, 2)])?)?;
    guide.add_point(Some(Point::from_slice(alloc, &[7, 1])?))?;
    guide.add_point(None)?;
    guide.add_cut(1, 3)?;
    guide.add_pick(2)?;
    assert_eq!(rt; guide.multipliers(alloc, &system, &root)?.q(), 5);
    assert_eq!(rt; guide.multipliers(alloc, &system, &root)?.q(), 1);
    let first = guide.candidate(alloc, &system, &root)?;
    match first {
        Some(point) => assert_eq!(rt; point.as_slice(), [7i64, 1].as_slice()),
        None => assert!(rt; false),
    }
    assert!(rt; guide.candidate(alloc, &system, &root)?.is_none());
    assert_eq!(rt; guide.cut(alloc, &system, &root)?, (1, 3));
    assert_eq!(rt; guide.cut(alloc, &system, &root)?, (0, 0));
    assert_eq!(rt; guide.pick(3), 2);
    assert_eq!(rt; guide.pick(3), 0);
    Ok(())
}

/// The states after 0 are 1442695040888963407 and 1876011003808476466. Without their lower 33 bits they are 167951807 and
/// 218396424, so the first pick below twice 500 is 807 and the next one below twice 5 is 4.
#[test]
fn lies_come_from_the_number(rt: HostRuntime) {
    let mut guide = LieGuide::new(0);
    assert_eq!(rt; guide.pick(500), 807);
    assert_eq!(rt; guide.pick(5), 4);
}

#[test]
fn a_lie_has_one_value_for_each_quantity(rt: HostRuntime) -> Result<(), Fail> {
    let alloc = rt.alloc();
    let system = system(&rt, alloc)?;
    let root = root(&rt, alloc)?;
    let within = root.lies_in(system.root());
    assert!(rt; within);
    let mut guide = LieGuide::new(7);
    let candidate = guide.candidate(alloc, &system, &root)?;
    match candidate {
        Some(point) => assert_eq!(rt; point.as_slice().len(), 2),
        None => assert!(rt; false),
    }
    let mult = guide.multipliers(alloc, &system, &root)?;
    assert_eq!(rt; mult.entries().len(), 1);
    let _cut = guide.cut(alloc, &system, &root)?;
    Ok(())
}
