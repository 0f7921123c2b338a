use crate::DiveGuide;
use crate::tests::systems::{part, supply, thirds, values};
use opt_base::OutOfMemory;
use opt_guide::Guide;
use opt_system::{RowKind, System};
use std::alloc::Global;
use std::process::Abort;
use std::test::Fail;

/// A range of the first quantity, and what the guide answers there: `q`, the other multipliers, the candidate and the cut.
#[derive(Drop)]
struct Answer {
    first: (i64, i64),
    q: i64,
    entries: &'static [(u32, i64)],
    candidate: Option<&'static [i64]>,
    cut: (u32, i64),
}

/// Asks for all three on a part of the root, and compares them.
fn ask(
    rt: &impl Abort,
    alloc: Global,
    guide: &mut DiveGuide,
    system: &System,
    answer: &Answer,
) -> Result<(), OutOfMemory> {
    let range = part(rt, alloc, system, answer.first)?;
    let within = range.lies_in(system.root());
    assert!(rt; within);
    let mult = guide.multipliers(alloc, system, &range)?;
    assert_eq!(rt; mult.q(), answer.q);
    assert_eq!(rt; mult.entries(), answer.entries);
    let candidate = guide.candidate(alloc, system, &range)?;
    assert_eq!(rt; values(&candidate), answer.candidate);
    assert_eq!(rt; guide.cut(alloc, system, &range)?, answer.cut);
    Ok(())
}

/// On the root, then with at most 58 rations, which do not meet the need, then with at least 59.
#[test]
fn boxes_are_asked_in_turn(rt: HostRuntime) -> Result<(), Fail> {
    let alloc = rt.alloc();
    let system = supply(&rt, alloc)?;
    let mut guide = DiveGuide::new(alloc, 1);
    let root = Answer {
        first: (0, 60),
        q: 6,
        entries: &[(0, 250), (1, 3), (3, 2_700), (4, 3_000)],
        candidate: Some(&[59, 0, 17_700, 17_700, 17_700]),
        cut: (0, 58),
    };
    let left = Answer {
        first: (0, 58),
        q: 0,
        entries: &[(0, 1)],
        candidate: None,
        cut: (0, 0),
    };
    let right = Answer {
        first: (59, 60),
        q: 2,
        entries: &[(1, 1), (3, 900), (4, 1_000)],
        candidate: Some(&[59, 0, 17_700, 17_700, 17_700]),
        cut: (0, 0),
    };
    ask(&rt, alloc, &mut guide, &system, &root)?;
    ask(&rt, alloc, &mut guide, &system, &left)?;
    ask(&rt, alloc, &mut guide, &system, &right)?;
    assert_eq!(rt; guide.pick(3), 0);
    Ok(())
}
