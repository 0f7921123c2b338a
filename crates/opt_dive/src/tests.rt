mod guides;
mod systems;

use crate::dive;
use crate::tests::systems::{part, values};
use opt_base::{ModelFault, OutOfMemory, Point};
use opt_simplex::{Fracs, LpEnd, PIVOT_LIMIT, solve};
use opt_system::{Range, RowKind, System};
use std::alloc::Global;
use std::process::Abort;
use std::test::Fail;

/// The dive on a range within the root from these fractions, one for each quantity.
fn dive_from(
    rt: &impl Abort,
    alloc: Global,
    system: &System,
    range: &Range,
    point: &Fracs,
    rations: u32,
) -> Result<Option<Point>, OutOfMemory> {
    let within = range.lies_in(system.root());
    assert!(rt; within);
    let each = point.as_slice().len() == range.low().len();
    assert!(rt; each);
    dive(alloc, system, range, point, rations)
}

/// The dive on a range of the first quantity, from the optimum of the root.
fn dive_from_root(
    rt: &impl Abort,
    alloc: Global,
    system: &System,
    first: (i64, i64),
    rations: u32,
) -> Result<Option<Point>, OutOfMemory> {
    let root = system.root().copy(alloc)?;
    let within = root.lies_in(system.root());
    assert!(rt; within);
    match solve(alloc, system, &root, PIVOT_LIMIT)? {
        LpEnd::Optimal { point, .. } => {
            let range = part(rt, alloc, system, first)?;
            dive_from(rt, alloc, system, &range, &point, rations)
        }
        _ => panic!(rt; "no optimum"),
    }
}

/// 175/3 rations become 59, which are 17,700 kg; so does the first quantity that is not whole.
#[test]
fn rations_are_rounded_up(rt: HostRuntime) -> Result<(), Fail> {
    let alloc = rt.alloc();
    let supply = systems::supply(&rt, alloc)?;
    let wanted: &[i64] = &[59, 0, 17_700, 17_700, 17_700];
    let found = dive_from_root(&rt, alloc, &supply, (0, 60), 1)?;
    assert_eq!(rt; values(&found), Some(wanted));
    let found = dive_from_root(&rt, alloc, &supply, (0, 60), 0)?;
    assert_eq!(rt; values(&found), Some(wanted));
    Ok(())
}

/// Of 60 to 60 rations, 175/3 rounded up is 60, and of 0 to 50 it is 50, which do not meet the need.
#[test]
fn rations_stay_within_their_range(rt: HostRuntime) -> Result<(), Fail> {
    let alloc = rt.alloc();
    let supply = systems::supply(&rt, alloc)?;
    let wanted: &[i64] = &[60, 0, 18_000, 18_000, 18_000];
    let found = dive_from_root(&rt, alloc, &supply, (60, 60), 1)?;
    assert_eq!(rt; values(&found), Some(wanted));
    let found = dive_from_root(&rt, alloc, &supply, (0, 50), 1)?;
    assert_eq!(rt; values(&found), None);
    Ok(())
}

/// 17,500 kg are fixed beside 59 rations, which need 17,700.
#[test]
fn kilograms_among_the_rations_find_no_point(rt: HostRuntime) -> Result<(), Fail> {
    let alloc = rt.alloc();
    let supply = systems::supply(&rt, alloc)?;
    let found = dive_from_root(&rt, alloc, &supply, (0, 60), 3)?;
    assert_eq!(rt; values(&found), None);
    let found = dive_from_root(&rt, alloc, &supply, (0, 60), 9)?;
    assert_eq!(rt; values(&found), None);
    Ok(())
}

/// The values 3/2 and 7/3 are rounded up one after the other; where twice a quantity is 3, there is no whole value.
#[test]
fn quantities_are_rounded_one_after_the_other(rt: HostRuntime) -> Result<(), Fail> {
    let alloc = rt.alloc();
    let parts = systems::thirds(&rt, alloc, RowKind::Ge)?;
    let wanted: &[i64] = &[2, 2, 3];
    let found = dive_from_root(&rt, alloc, &parts, (0, 7), 0)?;
    assert_eq!(rt; values(&found), Some(wanted));
    let found = dive_from_root(&rt, alloc, &parts, (0, 7), 2)?;
    assert_eq!(rt; values(&found), Some(wanted));
    let parts = systems::thirds(&rt, alloc, RowKind::Eq)?;
    let found = dive_from_root(&rt, alloc, &parts, (0, 7), 0)?;
    assert_eq!(rt; values(&found), None);
    Ok(())
}
