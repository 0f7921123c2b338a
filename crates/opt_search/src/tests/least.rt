use super::{push, system};
use crate::search;
use opt_base::{ModelFault, Verdict};
use opt_guide::ZeroGuide;
use opt_system::{RowKind, RowList, System};
use std::alloc::{AllocError, Global};
use std::process::Abort;
use std::test::Fail;

/// A system of three quantities, and the least value of its points by an outside program that tries them all.
struct Case {
    low: [i64; 3],
    high: [i64; 3],
    costs: [i64; 3],
    rows: &'static [(RowKind, i64, [i64; 3])],
    least: Option<i128>,
}

/// The coefficients that are not 0, by quantity.
fn terms_of(alloc: Global, coefficients: &[i64]) -> Result<Vec<(u32, i64)>, AllocError> {
    let mut terms = Vec::new(alloc);
    let mut quantity = 0u32;
    for coefficient in coefficients {
        if *coefficient != 0 {
            terms.push((quantity, *coefficient))?;
        }
        quantity = quantity.saturating_add(1);
    }
    Ok(terms)
}

fn system_of(rt: &impl Abort, alloc: Global, case: &Case) -> Result<System, ModelFault> {
    let mut rows = RowList::new(alloc);
    for (kind, right, coefficients) in case.rows {
        let terms = terms_of(alloc, coefficients)?;
        push(rt, &mut rows, *kind, *right, &terms)?;
    }
    system(rt, alloc, &rows, &case.low, &case.high, &case.costs)
}

/// With a million nodes every box is split to its points, so the verdict is the least value of all.
#[test]
fn the_least_of_all_points(rt: HostRuntime) -> Result<(), Fail> {
    let alloc = rt.alloc();
    for case in &CASES {
        let system = system_of(&rt, alloc, case)?;
        let outcome = search(alloc, &system, 0, 1_000_000, &mut ZeroGuide)?;
        let verdict = match case.least {
            Some(least) => Verdict::Plan {
                objective: least,
                bound: least,
            },
            None => Verdict::NoPlan,
        };
        assert_eq!(rt; outcome.verdict, verdict);
    }
    Ok(())
}

static CASES: [Case; 24] = [
    Case {
        low: [0, 0, 0],
        high: [1, 1, 1],
        costs: [0, 0, 1],
        rows: &[],
        least: Some(0),
    },
    Case {
        low: [1, 0, 1],
        high: [2, 4, 1],
        costs: [2, 1, 4],
        rows: &[(RowKind::Eq, 4, [5, 2, 5]), (RowKind::Eq, 7, [3, 4, -2])],
        least: None,
    },
    Case {
        low: [2, 1, 0],
        high: [4, 3, 1],
        costs: [3, 0, 3],
        rows: &[(RowKind::Ge, -1, [2, -1, 1]), (RowKind::Eq, 6, [-1, 5, 3])],
        least: Some(9),
    },
    Case {
        low: [2, 2, 1],
        high: [3, 3, 5],
        costs: [1, 5, 2],
        rows: &[(RowKind::Eq, 14, [3, 3, 0]), (RowKind::Ge, -3, [-1, 5, 1])],
        least: None,
    },
    Case {
        low: [0, 1, 0],
        high: [4, 1, 4],
        costs: [5, 5, 4],
        rows: &[(RowKind::Ge, 6, [5, 0, 2])],
        least: Some(14),
    },
    Case {
        low: [2, 1, 2],
        high: [2, 4, 3],
        costs: [2, 4, 4],
        rows: &[(RowKind::Ge, -1, [0, 4, 0])],
        least: Some(16),
    },
    Case {
        low: [0, 2, 0],
        high: [0, 5, 0],
        costs: [5, 1, 3],
        rows: &[(RowKind::Eq, 6, [-2, -2, 2]), (RowKind::Eq, 0, [4, 4, 2])],
        least: None,
    },
    Case {
        low: [2, 0, 0],
        high: [2, 0, 2],
        costs: [0, 4, 3],
        rows: &[(RowKind::Eq, 10, [-3, 4, 5])],
        least: None,
    },
    Case {
        low: [2, 2, 1],
        high: [2, 5, 2],
        costs: [3, 1, 1],
        rows: &[(RowKind::Ge, 0, [2, 0, 5])],
        least: Some(9),
    },
    Case {
        low: [1, 1, 0],
        high: [2, 3, 0],
        costs: [2, 0, 4],
        rows: &[(RowKind::Ge, 4, [1, 2, 3])],
        least: Some(2),
    },
    Case {
        low: [2, 1, 1],
        high: [2, 1, 2],
        costs: [5, 3, 0],
        rows: &[(RowKind::Ge, 12, [5, 2, 1])],
        least: Some(13),
    },
    Case {
        low: [1, 2, 1],
        high: [4, 5, 5],
        costs: [4, 4, 3],
        rows: &[(RowKind::Ge, -1, [3, -1, -2])],
        least: Some(15),
    },
    Case {
        low: [2, 0, 1],
        high: [5, 2, 5],
        costs: [0, 4, 1],
        rows: &[(RowKind::Eq, 19, [3, 4, 2]), (RowKind::Ge, 0, [3, 0, 2])],
        least: Some(2),
    },
    Case {
        low: [0, 0, 0],
        high: [4, 4, 2],
        costs: [3, 4, 3],
        rows: &[(RowKind::Ge, 13, [4, 5, 5])],
        least: Some(9),
    },
    Case {
        low: [1, 0, 1],
        high: [5, 2, 3],
        costs: [2, 5, 0],
        rows: &[],
        least: Some(2),
    },
    Case {
        low: [1, 2, 0],
        high: [2, 2, 1],
        costs: [3, 5, 1],
        rows: &[],
        least: Some(13),
    },
    Case {
        low: [0, 1, 1],
        high: [1, 4, 1],
        costs: [1, 4, 4],
        rows: &[
            (RowKind::Ge, -3, [1, -1, 4]),
            (RowKind::Ge, 2, [-2, -2, -3]),
        ],
        least: None,
    },
    Case {
        low: [1, 0, 0],
        high: [3, 4, 1],
        costs: [2, 4, 4],
        rows: &[(RowKind::Ge, 4, [5, 3, -3]), (RowKind::Ge, 15, [-1, -1, 2])],
        least: None,
    },
    Case {
        low: [0, 2, 0],
        high: [4, 4, 1],
        costs: [5, 0, 1],
        rows: &[],
        least: Some(0),
    },
    Case {
        low: [2, 0, 2],
        high: [6, 3, 4],
        costs: [2, 0, 3],
        rows: &[(RowKind::Ge, 15, [3, 2, 5]), (RowKind::Eq, 15, [3, 4, 4])],
        least: None,
    },
    Case {
        low: [2, 2, 0],
        high: [5, 5, 3],
        costs: [3, 5, 2],
        rows: &[],
        least: Some(16),
    },
    Case {
        low: [2, 0, 1],
        high: [3, 4, 3],
        costs: [1, 5, 2],
        rows: &[(RowKind::Eq, 6, [-1, 5, 5]), (RowKind::Ge, 1, [3, -2, 3])],
        least: None,
    },
    Case {
        low: [2, 1, 2],
        high: [3, 2, 6],
        costs: [5, 1, 2],
        rows: &[],
        least: Some(15),
    },
    Case {
        low: [0, 2, 2],
        high: [4, 2, 6],
        costs: [5, 3, 1],
        rows: &[],
        least: Some(8),
    },
];
