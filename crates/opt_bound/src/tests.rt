ghost use Rattle.std.specs.Prelude.{◌≤ℤ◌, pos};

use crate::{EntryFault, Leaf, Mult, bound, clip, leaf_at, verdict_of};
use opt_base::{ModelFault, OutOfMemory};
use opt_sums::{has_no_zero, is_rising};
use opt_system::{Range, RowKind, RowList, System};
use std::alloc::{AllocError, Global};
use std::process::Abort;
use std::test::Fail;

/// Adds the row, or ends the test where its terms do not go by rising quantity without a 0.
fn push(
    rt: &impl Abort,
    rows: &mut RowList,
    kind: RowKind,
    right: i64,
    terms: &[(u32, i64)],
) -> Result<(), OutOfMemory> {
    let rising = is_rising(terms);
    assert!(rt; rising);
    let no_zero = has_no_zero(terms);
    assert!(rt; no_zero);
    rows.push(kind, right, terms)
}

/// The range, or ends the test where it is none.
fn range(rt: &impl Abort, alloc: Global, low: &[i64], high: &[i64]) -> Result<Range, OutOfMemory> {
    let ordered = Range::is_ordered(low, high);
    assert!(rt; ordered);
    Range::new(alloc, low, high)
}

/// The system of these rows, or ends the test where their numbers are too great.
fn system(
    rt: &impl Abort,
    alloc: Global,
    rows: &RowList,
    root: &Range,
    costs: &[i64],
) -> Result<System, ModelFault> {
    let small = System::are_small(rows, root, costs);
    assert!(rt; small);
    System::from_rows(alloc, rows, root, costs)
}

/// The multipliers, or ends the test where they are none.
fn mult(
    rt: &impl Abort,
    alloc: Global,
    q: i64,
    entries: &[(u32, i64)],
) -> Result<Mult, OutOfMemory> {
    let proper = Mult::are_proper(q, entries);
    assert!(rt; proper);
    Mult::new(alloc, q, entries)
}

/// The bound of admissible multipliers on a range within the root, with the leaf that it stands for.
fn judge(rt: &impl Abort, system: &System, range: &Range, mult: &Mult) -> (i128, Leaf) {
    let admissible = mult.admissible(system);
    assert!(rt; admissible);
    let within = range.lies_in(system.root());
    assert!(rt; within);
    (bound(system, range, mult), leaf_at(system, range, mult))
}

/// A month of rice for 1,000 persons: a ration in steps of 10 g, energy short of the need, and kilograms bought, shipped and
/// handed out.
fn rice(rt: &impl Abort, alloc: Global) -> Result<System, ModelFault> {
    let mut rows = RowList::new(alloc);
    push(rt, &mut rows, RowKind::Ge, 210_000, &[(0, 3600), (1, 100)])?;
    push(rt, &mut rows, RowKind::Ge, 0, &[(0, -300_000), (4, 1000)])?;
    push(
        rt,
        &mut rows,
        RowKind::Ge,
        -999,
        &[(0, 300_000), (4, -1000)],
    )?;
    push(rt, &mut rows, RowKind::Eq, 0, &[(2, 1), (3, -1)])?;
    push(rt, &mut rows, RowKind::Eq, 0, &[(3, 1), (4, -1)])?;
    push(rt, &mut rows, RowKind::Ge, -20_000, &[(3, -1)])?;
    let root = range(
        rt,
        alloc,
        &[0, 0, 0, 0, 0],
        &[60, 0, 20_000, 20_000, 18_000],
    )?;
    system(rt, alloc, &rows, &root, &[0, 0, 450, 50, 0])
}

#[test]
fn a_bound_of_a_month_of_rice(rt: HostRuntime) -> Result<(), Fail> {
    let alloc = rt.alloc();
    let rice = rice(&rt, alloc)?;
    let whole = mult(&rt, alloc, 6, &[(0, 250), (1, 3), (3, 2700), (4, 3000)])?;
    assert_eq!(rt;
        judge(&rt, &rice, rice.root(), &whole),
        (52_500_000, Leaf::AtLeast(8_750_000))
    );
    Ok(())
}

#[test]
fn less_than_the_rations_is_empty(rt: HostRuntime) -> Result<(), Fail> {
    let alloc = rt.alloc();
    let rice = rice(&rt, alloc)?;
    let left = range(
        &rt,
        alloc,
        &[0, 0, 0, 0, 0],
        &[58, 0, 20_000, 20_000, 18_000],
    )?;
    let hungry = mult(&rt, alloc, 0, &[(0, 1)])?;
    assert_eq!(rt; judge(&rt, &rice, &left, &hungry), (1200, Leaf::Empty));
    Ok(())
}

#[test]
fn the_rations_have_a_greater_bound(rt: HostRuntime) -> Result<(), Fail> {
    let alloc = rt.alloc();
    let rice = rice(&rt, alloc)?;
    let right = range(
        &rt,
        alloc,
        &[59, 0, 0, 0, 0],
        &[60, 0, 20_000, 20_000, 18_000],
    )?;
    let fed = mult(&rt, alloc, 2, &[(1, 1), (3, 900), (4, 1000)])?;
    assert_eq!(rt;
        judge(&rt, &rice, &right, &fed),
        (17_700_000, Leaf::AtLeast(8_850_000))
    );
    let trivial = Mult::trivial(alloc);
    assert_eq!(rt; judge(&rt, &rice, &right, &trivial), (0, Leaf::AtLeast(0)));
    Ok(())
}

#[test]
fn rows_and_signs_are_looked_at(rt: HostRuntime) -> Result<(), Fail> {
    let alloc = rt.alloc();
    let rice = rice(&rt, alloc)?;
    assert!(rt; !mult(&rt, alloc, 0, &[(0, -1)])?.admissible(&rice));
    assert!(rt; mult(&rt, alloc, 0, &[(3, -1)])?.admissible(&rice));
    assert!(rt; !mult(&rt, alloc, 0, &[(6, 1)])?.admissible(&rice));
    assert!(rt; !mult(&rt, alloc, 0, &[(4_294_967_295, 1)])?.admissible(&rice));
    Ok(())
}

#[test]
fn the_first_wrong_entry_is_named(rt: HostRuntime) -> Result<(), Fail> {
    let alloc = rt.alloc();
    let rice = rice(&rt, alloc)?;
    let below = mult(&rt, alloc, 1, &[(0, 1), (2, -1), (6, 1)])?;
    assert_eq!(rt; below.first_fault(&rice), Some(EntryFault::Sign(2)));
    let missing = mult(&rt, alloc, 1, &[(3, -1), (6, -1)])?;
    assert_eq!(rt; missing.first_fault(&rice), Some(EntryFault::RowNumber(6)));
    let right = mult(&rt, alloc, 1, &[(0, 1), (3, -1)])?.copy(alloc)?;
    assert_eq!(rt; right.entries(), [(0u32, 1i64), (3, -1)].as_slice());
    assert_eq!(rt; right.first_fault(&rice), None);
    Ok(())
}

/// Ten rows on one quantity from 0 to 10, of cost 1: it is at least 0, at least 1, and so on to 9.
fn stairs(rt: &impl Abort, alloc: Global) -> Result<System, ModelFault> {
    let mut rows = RowList::new(alloc);
    for step in 0..10 {
        push(rt, &mut rows, RowKind::Ge, step, &[(0, 1)])?;
    }
    let root = range(rt, alloc, &[0], &[10])?;
    system(rt, alloc, &rows, &root, &[1])
}

/// A list by row would take ten places for the one entry, so that it is looked for.
#[test]
fn one_entry_at_a_late_row(rt: HostRuntime) -> Result<(), Fail> {
    let alloc = rt.alloc();
    let stairs = stairs(&rt, alloc)?;
    let last = mult(&rt, alloc, 1, &[(9, 1)])?;
    assert_eq!(rt;
        judge(&rt, &stairs, stairs.root(), &last),
        (9, Leaf::AtLeast(9))
    );
    let low = range(&rt, alloc, &[0], &[8])?;
    let alone = mult(&rt, alloc, 0, &[(9, 1)])?;
    assert_eq!(rt; judge(&rt, &stairs, &low, &alone), (1, Leaf::Empty));
    Ok(())
}

#[test]
fn bounds_are_rounded_up(rt: HostRuntime) {
    assert_eq!(rt; verdict_of(-1, 0), Leaf::AtLeast(0));
    assert_eq!(rt; verdict_of(0, 0), Leaf::AtLeast(0));
    assert_eq!(rt; verdict_of(1, 0), Leaf::Empty);
    assert_eq!(rt; verdict_of(7, 2), Leaf::AtLeast(4));
    assert_eq!(rt; verdict_of(8, 2), Leaf::AtLeast(4));
    assert_eq!(rt; verdict_of(1, 72_057_594_037_927_936), Leaf::AtLeast(1));
    assert_eq!(rt; verdict_of(-7, 2), Leaf::AtLeast(0));
    assert_eq!(rt; verdict_of(i128::MIN, 3), Leaf::AtLeast(0));
    assert_eq!(rt; verdict_of(i128::MAX, 1), Leaf::AtLeast(i128::MAX));
}

/// The clip of `q` and of multipliers of rows 0 and 2.
fn two_rows(alloc: Global, q: i128, first: i128, third: i128) -> Result<Mult, OutOfMemory>
    requires { pos 0 ≤ℤ q }
{
    clip(alloc, q, &[(0, first), (2, third)])
}

#[test]
fn numbers_are_halved_together(rt: HostRuntime) -> Result<(), Fail> {
    let alloc = rt.alloc();
    let whole = 288_230_376_151_711_744;
    let three = 216_172_782_113_783_808;
    let kept = two_rows(alloc, whole, three, -5)?;
    assert_eq!(rt; kept.q(), 72_057_594_037_927_936);
    assert_eq!(rt;
        kept.entries(),
        [(0u32, 54_043_195_528_445_952i64), (2, -1)].as_slice()
    );
    let dropped = two_rows(alloc, whole, three, -3)?;
    assert_eq!(rt; dropped.q(), 72_057_594_037_927_936);
    assert_eq!(rt;
        dropped.entries(),
        [(0u32, 54_043_195_528_445_952i64)].as_slice()
    );
    let small = two_rows(alloc, 0, 7, -7)?;
    assert_eq!(rt; small.q(), 0);
    assert_eq!(rt; small.entries(), [(0u32, 7i64), (2, -7)].as_slice());
    let lost = clip(alloc, 1, &[(0, 144_115_188_075_855_872)])?;
    assert_eq!(rt; lost.q(), 1);
    assert!(rt; lost.entries().is_empty());
    Ok(())
}

#[test]
fn many_quantities_and_no_row(rt: HostRuntime) -> Result<(), Fail> {
    let alloc = rt.alloc();
    let rows = RowList::new(alloc);
    let low = vec![in alloc; 1i64; 20_000]?;
    let high = vec![in alloc; 2i64; 20_000]?;
    let costs = vec![in alloc; 3i64; 20_000]?;
    let root = range(&rt, alloc, &low, &high)?;
    let system = system(&rt, alloc, &rows, &root, &costs)?;
    let twice = mult(&rt, alloc, 2, &[])?;
    assert_eq!(rt;
        judge(&rt, &system, &root, &twice),
        (120_000, Leaf::AtLeast(60_000))
    );
    Ok(())
}

#[test]
fn the_largest_numbers_do_not_overflow(rt: HostRuntime) -> Result<(), Fail> {
    let alloc = rt.alloc();
    let most = 2_251_799_813_685_247;
    let often = 72_057_594_037_927_936;
    let mut rows = RowList::new(alloc);
    push(&rt, &mut rows, RowKind::Ge, i64::MAX, &[(0, -most), (1, 1)])?;
    push(&rt, &mut rows, RowKind::Eq, i64::MIN, &[(0, most), (1, -1)])?;
    let root = range(&rt, alloc, &[1, 0], &[1, most])?;
    let system = system(&rt, alloc, &rows, &root, &[most, 1])?;
    let all = mult(&rt, alloc, often, &[(0, often), (1, -often)])?;
    // The right-hand sides give 2^56 * (2^64 - 1), and the quantities 3 * 2^56 * (2^51 - 1) and -2^56 * (2^51 - 1).
    let (sum, _) = judge(&rt, &system, &root, &all);
    assert_eq!(rt;
        sum,
        72_057_594_037_927_936 * 18_446_744_073_709_551_615
            + 144_115_188_075_855_872 * 2_251_799_813_685_247
    );
    Ok(())
}

/// The terms of a row: thirteen quantities 1,500 apart, and for the first 2,144 rows one more.
fn spread(alloc: Global, row: u32) -> Result<Vec<(u32, i64)>, AllocError> {
    let coefficient = 1 + i64::from(row % 7);
    let mut terms = Vec::new(alloc);
    for t in 0..13 {
        terms.push((row % 1500 + 1500 * t, coefficient))?;
    }
    if row < 2144 {
        terms.push((19_500 + row % 500, coefficient))?;
    }
    Ok(terms)
}

/// The benchmark: 20 bounds on a system of 20,000 quantities, 20,000 rows and 262,144 terms, with a multiplier for each row.
#[test]
fn many_bounds_of_a_full_system(rt: HostRuntime) -> Result<(), Fail> {
    let alloc = rt.alloc();
    let mut rows = RowList::new(alloc);
    let mut entries = Vec::new(alloc);
    for row in 0..20_000 {
        push(
            &rt,
            &mut rows,
            RowKind::Ge,
            i64::from(row % 100),
            &spread(alloc, row)?,
        )?;
        entries.push((row, 1 + i64::from(row % 5)))?;
    }
    let low = vec![in alloc; 0i64; 20_000]?;
    let high = vec![in alloc; 1000i64; 20_000]?;
    let costs = vec![in alloc; 100i64; 20_000]?;
    let root = range(&rt, alloc, &low, &high)?;
    let system = system(&rt, alloc, &rows, &root, &costs)?;
    let mult = mult(&rt, alloc, 1, &entries)?;
    let admissible = mult.admissible(&system);
    assert!(rt; admissible);
    let within = root.lies_in(system.root());
    assert!(rt; within);
    let first = bound(&system, &root, &mult);
    for _ in 1..20 {
        assert_eq!(rt; bound(&system, &root, &mult), first);
    }
    println!(rt; "quantities 20000 rows 20000 terms 262144 bounds 20")?;
    Ok(())
}
