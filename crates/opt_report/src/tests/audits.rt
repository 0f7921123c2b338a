ghost use Rattle.std.specs.Prelude.{◌≡◌, IfOk, None};
ghost use Rattle.opt_rows.specs.Systems.{system_of};

use super::tables_of;
use crate::{Broken, audit_text, broken_rows, is_within};
use opt_base::{ModelFault, OutOfMemory, Point};
use opt_network::Layout;
use opt_rows::build;
use opt_system::System;
use opt_tables::Tables;
use std::alloc::Global;
use std::process::Abort;
use std::test::Fail;

/// The system of a model. That of the line has these rows, by the numbers of its quantities, since 1000 persons get
/// 300 kg of rice for each step of 10 g in 30 days:
///
/// 0. 3600 q0 + 100 q1 >= 210000
/// 1. 1000 q4 - 300000 q0 >= 0
/// 2. 300000 q0 - 1000 q4 >= -999
/// 3. q2 - q3 = 0
/// 4. q3 - q4 = 0
/// 5. -q3 >= -20000
fn system_of(alloc: Global, tables: &Tables) -> Result<System, ModelFault>
    ensures { IfOk result (λ system. system
        ≡ system_of tables.now tables.now.settings.goal None) }
{
    let layout = Layout::new(alloc, tables)?;
    build(alloc, tables, &layout)
}

/// The rows that a point breaks, which lies within the ranges.
fn broken_at(
    rt: &impl Abort,
    alloc: Global,
    system: &System,
    values: &[i64],
) -> Result<Broken, OutOfMemory> {
    let point = Point::from_slice(alloc, values)?;
    assert!(rt; system.root().contains(point.as_slice()));
    broken_rows(alloc, system, &point)
}

/// The audit of a point of the line prints this text.
fn assert_audit(rt: &impl Abort, alloc: Global, values: &[i64], text: &str) -> Result<(), Fail> {
    let tables = tables_of(alloc, &[], &[])?;
    let system = system_of(alloc, &tables)?;
    let point = Point::from_slice(alloc, values)?;
    assert!(rt; system.root().contains(point.as_slice()));
    let broken = broken_rows(alloc, &system, &point)?;
    let audit = audit_text(alloc, &tables, &broken)?;
    assert_eq!(rt; audit.as_str(), text);
    Ok(())
}

#[test]
fn tells_broken_rows_with_their_distances(rt: HostRuntime) -> Result<(), Fail> {
    let alloc = rt.alloc();
    let tables = tables_of(alloc, &[], &[])?;
    let system = system_of(alloc, &tables)?;
    let broken = broken_at(&rt, alloc, &system, &[59, 0, 17_700, 17_700, 17_699])?;
    assert_eq!(rt; broken.as_slice(), [(1, 1_000), (4, 1)].as_slice());
    Ok(())
}

#[test]
fn prints_broken_rows_by_name(rt: HostRuntime) -> Result<(), Fail> {
    let text =
        "broken handout-low P rice month 1 by 1000\nbroken balance P rice month 1 by 1\naudit 2 broken\n";
    assert_audit(&rt, rt.alloc(), &[59, 0, 17_700, 17_700, 17_699], text)
}

#[test]
fn tells_each_kind_of_breach(rt: HostRuntime) -> Result<(), Fail> {
    // A nutrient lacks 210000 - 3600, a handout is 600 kg above 300, a balance falls short by 5.
    let alloc = rt.alloc();
    let tables = tables_of(alloc, &[], &[])?;
    let system = system_of(alloc, &tables)?;
    let broken = broken_at(&rt, alloc, &system, &[1, 0, 895, 900, 900])?;
    assert_eq!(rt;
        broken.as_slice(),
        [(0, 206_400), (2, 599_001), (3, 5)].as_slice()
    );
    assert!(rt; !broken.is_empty());
    Ok(())
}

#[test]
fn a_plan_that_meets_each_row_breaks_none(rt: HostRuntime) -> Result<(), Fail> {
    let alloc = rt.alloc();
    let tables = tables_of(alloc, &[], &[])?;
    let system = system_of(alloc, &tables)?;
    let broken = broken_at(&rt, alloc, &system, &[59, 0, 17_700, 17_700, 17_700])?;
    assert!(rt; broken.is_empty());
    Ok(())
}

#[test]
fn prints_that_no_row_is_broken(rt: HostRuntime) -> Result<(), Fail> {
    let values = [59, 0, 17_700, 17_700, 17_700];
    assert_audit(&rt, rt.alloc(), &values, "audit 0 broken\n")
}

/// Values for the quantities of the line, and whether they lie within the ranges.
struct Case<'a>(&'a [i64], bool);

const POINTS: [Case<'static>; 6] = [
    Case(&[60, 50, 20_000, 20_000, 18_000], true),
    Case(&[0; 5], true),
    Case(&[61, 0, 0, 0, 0], false),
    Case(&[0, 0, 0, -1, 0], false),
    Case(&[0, 0, 0, 0], false),
    Case(&[0; 6], false),
];

#[test]
fn a_point_lies_within_the_ranges(rt: HostRuntime) -> Result<(), Fail> {
    let alloc = rt.alloc();
    let tables = tables_of(alloc, &[], &[])?;
    let layout = Layout::new(alloc, &tables)?;
    for case in &POINTS {
        let point = Point::from_slice(alloc, case.0)?;
        assert_eq!(rt; is_within(&layout, &point), case.1);
    }
    Ok(())
}
