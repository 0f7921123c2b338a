use opt_base::{ModelFault, OutOfMemory, Point};
use opt_sums::{has_no_zero, is_rising};
use opt_system::{Range, RowKind, RowList, System};
use std::alloc::Global;
use std::process::Abort;

/// A row: its kind, its right-hand side and its terms.
type Row = (RowKind, i64, &'static [(u32, i64)]);

/// One supplier, one arc and one point with the least cost at 175/3 rations: rations, a shortfall, and kilograms bought,
/// shipped and handed out.
pub fn supply(rt: &impl Abort, alloc: Global) -> Result<System, ModelFault> {
    let rows: [Row; 6] = [
        (RowKind::Ge, 210_000, &[(0, 3_600), (1, 100)]),
        (RowKind::Ge, 0, &[(0, -300_000), (4, 1_000)]),
        (RowKind::Ge, -999, &[(0, 300_000), (4, -1_000)]),
        (RowKind::Eq, 0, &[(2, 1), (3, -1)]),
        (RowKind::Eq, 0, &[(3, 1), (4, -1)]),
        (RowKind::Ge, -20_000, &[(3, -1)]),
    ];
    let high = [60, 0, 20_000, 20_000, 18_000];
    system(rt, alloc, &rows, &high, &[0, 0, 450, 50, 0])
}

/// Three quantities from 0 to 7 that cost 1: the first at least 2, twice the second at least 3 or just 3, thrice the third
/// at least 7.
pub fn thirds(rt: &impl Abort, alloc: Global, second: RowKind) -> Result<System, ModelFault> {
    let rows: [Row; 3] = [
        (RowKind::Ge, 2, &[(0, 1)]),
        (second, 3, &[(1, 2)]),
        (RowKind::Ge, 7, &[(2, 3)]),
    ];
    system(rt, alloc, &rows, &[7, 7, 7], &[1, 1, 1])
}

/// The system of these rows, with all quantities from 0 to these highs.
fn system(
    rt: &impl Abort,
    alloc: Global,
    rows: &[Row],
    high: &[i64],
    costs: &[i64],
) -> Result<System, ModelFault> {
    let mut list = RowList::new(alloc);
    for row in rows {
        let rising = is_rising(row.2);
        assert!(rt; rising);
        let no_zero = has_no_zero(row.2);
        assert!(rt; no_zero);
        list.push(row.0, row.1, row.2)?;
    }
    let mut low = Vec::new(alloc);
    for _ in high {
        low.push(0i64)?;
    }
    let root = range(rt, alloc, &low, high)?;
    let small = System::are_small(&list, &root, costs);
    assert!(rt; small);
    System::from_rows(alloc, &list, &root, costs)
}

fn range(rt: &impl Abort, alloc: Global, low: &[i64], high: &[i64]) -> Result<Range, OutOfMemory> {
    let ordered = Range::is_ordered(low, high);
    assert!(rt; ordered);
    Range::new(alloc, low, high)
}

/// The system's root with another range of the first quantity.
pub fn part(
    rt: &impl Abort,
    alloc: Global,
    system: &System,
    first: (i64, i64),
) -> Result<Range, OutOfMemory> {
    let mut low = Vec::from_slice(alloc, system.root().low())?;
    let mut high = Vec::from_slice(alloc, system.root().high())?;
    assert!(rt; !low.is_empty());
    assert!(rt; !high.is_empty());
    low[0] = first.0;
    high[0] = first.1;
    range(rt, alloc, &low, &high)
}

/// The numbers of the point, where there is one.
pub fn values(point: &Option<Point>) -> Option<&[i64]> {
    match point {
        Some(point) => Some(point.as_slice()),
        None => None,
    }
}
