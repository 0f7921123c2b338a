use crate::tests::reading::system;
use crate::{LpEnd, SimplexGuide};
use opt_base::{ModelFault, OutOfMemory};
use opt_guide::Guide;
use opt_system::{Range, System};
use std::alloc::Global;
use std::process::Abort;
use std::test::Fail;

/// One supplier, one arc and one point with the least cost at 175/3 rations, as `reading` reads it.
const SUPPLY: &str = "5 0 0 0 0 0 60 0 20000 20000 18000 0 0 450 50 0 6 ge 210000 2 0 3600 1 100
     ge 0 2 0 -300000 4 1000 ge -999 2 0 300000 4 -1000 eq 0 2 2 1 3 -1 eq 0 2 3 1 4 -1 ge -20000 1 3 -1";

/// Three quantities from 0 to 7 that cost 1, with twice the first at least 4, twice the second 3, thrice the third 7.
const PARTS: &str = "3 0 0 0 7 7 7 1 1 1 3 ge 4 1 0 2 ge 3 1 1 2 ge 7 1 2 3";

/// The same with the first at least 5, twice the second 4, thrice the third 6.
const WHOLE: &str = "3 0 0 0 7 7 7 1 1 1 3 ge 5 1 0 1 ge 4 1 1 2 ge 6 1 2 3";

/// A range of the first quantity, and what the guide answers there: `q`, the other multipliers, and the cut.
type Answer = (i64, i64, i64, &'static [(u32, i64)], (u32, i64));

/// At most 58 rations do not meet the need, and 59 are 17,700 kg.
const SUPPLY_ANSWERS: [Answer; 4] = [
    (0, 60, 6, &[(0, 250), (1, 3), (3, 2700), (4, 3000)], (0, 58)),
    (0, 58, 0, &[(0, 1)], (0, 0)),
    (59, 60, 2, &[(1, 1), (3, 900), (4, 1000)], (0, 0)),
    (0, 60, 6, &[(0, 250), (1, 3), (3, 2700), (4, 3000)], (0, 58)),
];

/// The values are 2, 3/2 and 7/3.
const PARTS_ANSWER: Answer = (0, 7, 6, &[(0, 3), (1, 3), (2, 2)], (1, 1));

/// The values are 5, 2 and 2.
const WHOLE_ANSWER: Answer = (0, 7, 6, &[(0, 6), (1, 3), (2, 2)], (0, 0));

fn read(rt: &impl Abort, alloc: Global, text: &str) -> Result<System, ModelFault> {
    system(rt, alloc, &mut text.split_whitespace())
}

/// The system's root with another range of the first quantity.
fn part(
    rt: &impl Abort,
    alloc: Global,
    system: &System,
    low: i64,
    high: i64,
) -> Result<Range, OutOfMemory> {
    let mut lows = Vec::from_slice(alloc, system.root().low())?;
    let mut highs = Vec::from_slice(alloc, system.root().high())?;
    assert!(rt; !lows.is_empty());
    assert!(rt; !highs.is_empty());
    lows[0] = low;
    highs[0] = high;
    let ordered = Range::is_ordered(&lows, &highs);
    assert!(rt; ordered);
    Range::new(alloc, &lows, &highs)
}

/// Asks for the multipliers and the cut on a part of the root, and compares them.
fn ask(
    rt: &impl Abort,
    alloc: Global,
    guide: &mut SimplexGuide,
    system: &System,
    answer: &Answer,
) -> Result<(), OutOfMemory> {
    let range = part(rt, alloc, system, answer.0, answer.1)?;
    let within = range.lies_in(system.root());
    assert!(rt; within);
    let mult = guide.multipliers(alloc, system, &range)?;
    assert_eq!(rt; mult.q(), answer.2);
    assert_eq!(rt; mult.entries(), answer.3);
    assert_eq!(rt; guide.cut(alloc, system, &range)?, answer.4);
    Ok(())
}

#[test]
fn boxes_of_one_system_are_asked_in_turn(rt: HostRuntime) -> Result<(), Fail> {
    let system = read(&rt, rt.alloc(), SUPPLY)?;
    let mut guide = SimplexGuide::new(rt.alloc());
    for answer in &SUPPLY_ANSWERS {
        ask(&rt, rt.alloc(), &mut guide, &system, answer)?;
    }
    Ok(())
}

#[test]
fn systems_with_one_root_are_asked_in_turn(rt: HostRuntime) -> Result<(), Fail> {
    let parts = read(&rt, rt.alloc(), PARTS)?;
    let whole = read(&rt, rt.alloc(), WHOLE)?;
    let mut guide = SimplexGuide::new(rt.alloc());
    ask(&rt, rt.alloc(), &mut guide, &parts, &PARTS_ANSWER)?;
    ask(&rt, rt.alloc(), &mut guide, &whole, &WHOLE_ANSWER)?;
    ask(&rt, rt.alloc(), &mut guide, &parts, &PARTS_ANSWER)?;
    Ok(())
}

/// The floor and the ceiling of the first quantity that is not whole at the end on a part of the root, where there is one.
fn parted(
    rt: &impl Abort,
    alloc: Global,
    guide: &mut SimplexGuide,
    system: &System,
    high: i64,
) -> Result<Option<(i128, i128)>, OutOfMemory> {
    let range = part(rt, alloc, system, 0, high)?;
    let within = range.lies_in(system.root());
    assert!(rt; within);
    guide.solve(system, &range)?;
    match guide.last_end() {
        Some(LpEnd::Optimal { point, .. }) => {
            Ok(
                point
                    .first_fractional()
                    .map(|j| (point.floor(j), point.ceiling(j))),
            )
        }
        _ => Ok(None),
    }
}

/// 175/3 rations, then no plan with at most 58; then 3/2, 7/3 behind it, and whole numbers.
#[test]
fn ends_are_lent(rt: HostRuntime) -> Result<(), Fail> {
    let supply = read(&rt, rt.alloc(), SUPPLY)?;
    let parts = read(&rt, rt.alloc(), PARTS)?;
    let whole = read(&rt, rt.alloc(), WHOLE)?;
    let mut guide = SimplexGuide::new(rt.alloc());
    assert_eq!(rt;
        parted(&rt, rt.alloc(), &mut guide, &supply, 60)?,
        Some((58, 59))
    );
    assert_eq!(rt; parted(&rt, rt.alloc(), &mut guide, &supply, 58)?, None);
    assert_eq!(rt;
        parted(&rt, rt.alloc(), &mut guide, &parts, 7)?,
        Some((1, 2))
    );
    assert_eq!(rt; parted(&rt, rt.alloc(), &mut guide, &whole, 7)?, None);
    Ok(())
}

#[test]
fn no_candidate_and_the_first_leaf(rt: HostRuntime) -> Result<(), Fail> {
    let system = read(&rt, rt.alloc(), WHOLE)?;
    let root = part(&rt, rt.alloc(), &system, 0, 7)?;
    let within = root.lies_in(system.root());
    assert!(rt; within);
    let mut guide = SimplexGuide::new(rt.alloc());
    let candidate = guide.candidate(rt.alloc(), &system, &root)?;
    assert!(rt; candidate.is_none());
    assert_eq!(rt; guide.pick(3), 0);
    Ok(())
}
