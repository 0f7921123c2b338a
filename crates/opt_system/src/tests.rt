use crate::{Range, RowKind, RowList, System};
use opt_base::{File, Kind, ModelFault, OutOfMemory, Refusal};
use opt_sums::{has_no_zero, is_rising};
use std::alloc::{AllocError, Global};
use std::process::Abort;
use std::test::Fail;

/// Adds the row, or ends the test where its terms do not go by rising quantity without a 0.
fn push(
    rt: &impl Abort,
    rows: &mut RowList,
    kind: RowKind,
    right: i64,
    terms: &[(u32, i64)],
) -> Result<(), OutOfMemory> {
    let rising = is_rising(terms);
    assert!(rt; rising);
    let no_zero = has_no_zero(terms);
    assert!(rt; no_zero);
    rows.push(kind, right, terms)
}

/// The range, or ends the test where it is none.
fn range(rt: &impl Abort, alloc: Global, low: &[i64], high: &[i64]) -> Result<Range, OutOfMemory> {
    let ordered = Range::is_ordered(low, high);
    assert!(rt; ordered);
    Range::new(alloc, low, high)
}

/// The system of these rows, or ends the test where their numbers are too great.
fn system(
    rt: &impl Abort,
    alloc: Global,
    rows: &RowList,
    root: &Range,
    costs: &[i64],
) -> Result<System, ModelFault> {
    let small = System::are_small(rows, root, costs);
    assert!(rt; small);
    System::from_rows(alloc, rows, root, costs)
}

/// A month of rice for 1,000 persons: a ration in steps of 10 g, energy short of the need, and kilograms bought, shipped and
/// handed out.
fn rice(rt: &impl Abort, alloc: Global) -> Result<System, ModelFault> {
    let mut rows = RowList::new(alloc);
    push(rt, &mut rows, RowKind::Ge, 210_000, &[(0, 3600), (1, 100)])?;
    push(rt, &mut rows, RowKind::Ge, 0, &[(0, -300_000), (4, 1000)])?;
    push(
        rt,
        &mut rows,
        RowKind::Ge,
        -999,
        &[(0, 300_000), (4, -1000)],
    )?;
    push(rt, &mut rows, RowKind::Eq, 0, &[(2, 1), (3, -1)])?;
    push(rt, &mut rows, RowKind::Eq, 0, &[(3, 1), (4, -1)])?;
    push(rt, &mut rows, RowKind::Ge, -20_000, &[(3, -1)])?;
    let root = range(
        rt,
        alloc,
        &[0, 0, 0, 0, 0],
        &[60, 0, 20_000, 20_000, 18_000],
    )?;
    system(rt, alloc, &rows, &root, &[0, 0, 450, 50, 0])
}

/// A refusal of this many rows, at column 2, or terms, at column 3.
fn too_many(column: u8, count: u64) -> ModelFault {
    ModelFault::Refused(Refusal {
        file: File::Model,
        number: 0,
        column,
        kind: Kind::TooMany(count),
    })
}

#[test]
fn a_kilogram_too_little_breaks_two_rows(rt: HostRuntime) -> Result<(), Fail> {
    let rice = rice(&rt, rt.alloc())?;
    let x = [59, 0, 17_700, 17_700, 17_699];
    assert!(rt; rice.rows() == 6);
    assert!(rt; rice.root().contains(&x));
    assert_eq!(rt; rice.row_sum(0, &x), 212_400);
    assert_eq!(rt; rice.row_sum(1, &x), -1000);
    assert_eq!(rt; rice.row_sum(2, &x), 1000);
    assert_eq!(rt; rice.row_sum(3, &x), 0);
    assert_eq!(rt; rice.row_sum(4, &x), 1);
    assert_eq!(rt; rice.row_sum(5, &x), -17_700);
    assert!(rt; rice.holds(0, &x));
    assert!(rt; !rice.holds(4, &x));
    assert_eq!(rt; rice.first_broken(&x), Some(1));
    assert_eq!(rt; rice.objective(&x), 8_850_000);
    Ok(())
}

#[test]
fn all_that_is_shipped_is_handed_out(rt: HostRuntime) -> Result<(), Fail> {
    let rice = rice(&rt, rt.alloc())?;
    let x = [59, 0, 17_700, 17_700, 17_700];
    assert!(rt; rice.root().contains(&x));
    assert_eq!(rt; rice.first_broken(&x), None);
    assert_eq!(rt; rice.objective(&x), 8_850_000);
    Ok(())
}

#[test]
fn rows_and_columns_are_read(rt: HostRuntime) -> Result<(), Fail> {
    let rice = rice(&rt, rt.alloc())?;
    assert!(rt; rice.rows() == 6);
    assert!(rt; rice.quantities() == 5);
    assert_eq!(rt; rice.kind(2), RowKind::Ge);
    assert_eq!(rt; rice.kind(3), RowKind::Eq);
    assert_eq!(rt; rice.right_hand_side(2), -999);
    assert_eq!(rt; rice.cost(3), 50);
    assert_eq!(rt; rice.terms(1), [(0u32, -300_000i64), (4, 1000)].as_slice());
    assert_eq!(rt;
        rice.column(0),
        [(0u32, 3600i64), (1, -300_000), (2, 300_000)].as_slice()
    );
    assert_eq!(rt; rice.root().low(), [0i64; 5].as_slice());
    assert_eq!(rt;
        rice.root().high(),
        [60i64, 0, 20_000, 20_000, 18_000].as_slice()
    );
    Ok(())
}

#[test]
fn a_narrowed_system_keeps_rows_and_costs(rt: HostRuntime) -> Result<(), Fail> {
    let alloc = rt.alloc();
    let rice = rice(&rt, alloc)?;
    let root = range(
        &rt,
        alloc,
        &[59, 0, 0, 0, 0],
        &[60, 0, 20_000, 20_000, 18_000],
    )?;
    assert!(rt; root.lies_in(rice.root()));
    let narrow = rice.narrowed(alloc, &root)?;
    let x = [59, 0, 17_700, 17_700, 17_700];
    assert!(rt; narrow.root().contains(&x));
    assert_eq!(rt; narrow.root().low(), [59i64, 0, 0, 0, 0].as_slice());
    assert_eq!(rt; narrow.first_broken(&x), None);
    assert_eq!(rt; narrow.objective(&x), 8_850_000);
    Ok(())
}

/// Puts another least value, or ends the test where it is none.
fn set_low(rt: &impl Abort, range: &mut Range, j: u32, value: i64) {
    let inside = (j as usize) < range.low().len() && (j as usize) < range.high().len();
    assert!(rt; inside);
    let fits = value >= 0 && value <= range.high()[j as usize];
    assert!(rt; fits);
    range.set_low(j, value);
}

/// Puts another greatest value, or ends the test where it is none.
fn set_high(rt: &impl Abort, range: &mut Range, j: u32, value: i64) {
    let inside = (j as usize) < range.low().len();
    assert!(rt; inside);
    let fits = value >= range.low()[j as usize];
    assert!(rt; fits);
    range.set_high(j, value);
}

#[test]
fn ends_are_changed_one_at_a_time(rt: HostRuntime) -> Result<(), Fail> {
    let alloc = rt.alloc();
    let low = vec![in alloc; 0i64; 2]?;
    let high = vec![in alloc; 9i64; 2]?;
    let ordered = Range::is_ordered(&low, &high);
    assert!(rt; ordered);
    let whole = Range::from_vecs(low, high);
    let mut part = whole.copy(alloc)?;
    assert!(rt; part == whole);
    set_high(&rt, &mut part, 1, 4);
    set_low(&rt, &mut part, 0, 3);
    assert_eq!(rt; part.low(), [3i64, 0].as_slice());
    assert_eq!(rt; part.high(), [9i64, 4].as_slice());
    assert!(rt; part != whole);
    Ok(())
}

#[test]
fn a_copy_is_the_same_system(rt: HostRuntime) -> Result<(), Fail> {
    let alloc = rt.alloc();
    let rice = rice(&rt, alloc)?;
    let again = rice.copy(alloc)?;
    assert!(rt; again == rice);
    assert_eq!(rt; again.costs(), [0i64, 0, 450, 50, 0].as_slice());
    assert!(rt; again.quantities() == 5);
    assert_eq!(rt;
        again.column(3),
        [(3u32, -1i64), (4, 1), (5, -1)].as_slice()
    );
    let root = range(
        &rt,
        alloc,
        &[59, 0, 0, 0, 0],
        &[60, 0, 20_000, 20_000, 18_000],
    )?;
    assert!(rt; root.lies_in(rice.root()));
    assert!(rt; rice.narrowed(alloc, &root)? != rice);
    Ok(())
}

/// This many rows without a term over no quantity.
fn without_terms(rt: &impl Abort, alloc: Global, count: u32) -> Result<System, ModelFault> {
    let mut rows = RowList::new(alloc);
    for _ in 0..count {
        push(rt, &mut rows, RowKind::Ge, 0, &[])?;
    }
    let root = range(rt, alloc, &[], &[])?;
    system(rt, alloc, &rows, &root, &[])
}

#[test]
fn rows_are_counted(rt: HostRuntime) -> Result<(), Fail> {
    let alloc = rt.alloc();
    assert_eq!(rt; without_terms(&rt, alloc, 20_000)?.rows(), 20_000);
    match without_terms(&rt, alloc, 20_001) {
        Ok(_) => assert!(rt; false),
        Err(fault) => assert_eq!(rt; fault, too_many(2, 20_001)),
    }
    Ok(())
}

/// Terms with coefficient 1 at each of the first quantities.
fn ones(alloc: Global, count: u32) -> Result<Vec<(u32, i64)>, AllocError> {
    let mut terms = Vec::new(alloc);
    for j in 0..count {
        terms.push((j, 1))?;
    }
    Ok(terms)
}

/// Thirteen rows with a term at each of 20,000 quantities, and a row with this many.
fn full(rt: &impl Abort, alloc: Global, rest: u32) -> Result<System, ModelFault> {
    let mut rows = RowList::new(alloc);
    let terms = ones(alloc, 20_000)?;
    for _ in 0..13 {
        push(rt, &mut rows, RowKind::Ge, 0, &terms)?;
    }
    push(rt, &mut rows, RowKind::Ge, 0, &ones(alloc, rest)?)?;
    let low = vec![in alloc; 0i64; 20_000]?;
    let high = vec![in alloc; 1i64; 20_000]?;
    let root = range(rt, alloc, &low, &high)?;
    system(rt, alloc, &rows, &root, &low)
}

#[test]
fn terms_are_counted(rt: HostRuntime) -> Result<(), Fail> {
    let alloc = rt.alloc();
    assert_eq!(rt; full(&rt, alloc, 2144)?.quantities(), 20_000);
    match full(&rt, alloc, 2145) {
        Ok(_) => assert!(rt; false),
        Err(fault) => assert_eq!(rt; fault, too_many(3, 262_145)),
    }
    Ok(())
}

#[test]
fn the_largest_numbers_do_not_overflow(rt: HostRuntime) -> Result<(), Fail> {
    let alloc = rt.alloc();
    let most = 2_251_799_813_685_247;
    let mut rows = RowList::new(alloc);
    push(&rt, &mut rows, RowKind::Ge, i64::MIN, &[(0, -most), (1, 1)])?;
    push(&rt, &mut rows, RowKind::Ge, i64::MAX, &[(0, most), (1, 1)])?;
    let root = range(&rt, alloc, &[0, 0], &[1, most])?;
    let system = system(&rt, alloc, &rows, &root, &[most, 1])?;
    let x = [1, most];
    assert!(rt; system.rows() == 2);
    assert!(rt; system.root().contains(&x));
    assert_eq!(rt; system.row_sum(0, &x), 0);
    assert_eq!(rt; system.row_sum(1, &x), 4_503_599_627_370_494);
    assert_eq!(rt; system.first_broken(&x), Some(1));
    assert_eq!(rt; system.objective(&x), 4_503_599_627_370_494);
    Ok(())
}
