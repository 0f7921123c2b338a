use super::{basket, push, system};
use crate::search;
use opt_base::{ModelFault, Verdict};
use opt_guide::{ScriptGuide, ZeroGuide};
use opt_system::{RowKind, RowList, System};
use opt_tree::{Node, Outcome};
use std::alloc::Global;
use std::process::Abort;
use std::test::Fail;

#[test]
fn a_need_that_is_met(rt: HostRuntime) -> Result<(), Fail> {
    let alloc = rt.alloc();
    let system = basket(&rt, alloc, 10_000)?;
    let outcome = search(alloc, &system, 0, 7, &mut ZeroGuide)?;
    let verdict = Verdict::Plan {
        objective: 0,
        bound: 0,
    };
    assert_eq!(rt; outcome.verdict, verdict);
    assert!(rt; outcome.best.is_some());
    Ok(())
}

#[test]
fn a_need_past_the_greatest_ration(rt: HostRuntime) -> Result<(), Fail> {
    let alloc = rt.alloc();
    let system = basket(&rt, alloc, 20_000)?;
    let whole = search(alloc, &system, 0, 7, &mut ZeroGuide)?;
    assert_eq!(rt; whole.verdict, Verdict::NoPlan);
    assert_eq!(rt; whole.tree.nodes(), 7);
    let short = search(alloc, &system, 0, 6, &mut ZeroGuide)?;
    let unfinished = Verdict::Unfinished {
        bound: 0,
        best: None,
    };
    assert_eq!(rt; short.verdict, unfinished);
    assert_eq!(rt; short.tree.nodes(), 5);
    Ok(())
}

/// One quantity from 0 to 7 of cost 1 that should be at least 8.
fn past_the_end(rt: &impl Abort, alloc: Global) -> Result<System, ModelFault> {
    let mut rows = RowList::new(alloc);
    push(rt, &mut rows, RowKind::Ge, 8, &[(0, 1)])?;
    system(rt, alloc, &rows, &[0], &[7], &[1])
}

/// The search of seven nodes with three cuts of its one quantity, the third one wrong by then, and these picks.
fn picked(rt: &impl Abort, alloc: Global, picks: &[u32]) -> Result<Outcome, Fail> {
    let system = past_the_end(rt, alloc)?;
    let mut guide = ScriptGuide::new(alloc);
    guide.add_cut(0, 3)?;
    guide.add_cut(0, 1)?;
    guide.add_cut(0, 2)?;
    for pick in picks {
        guide.add_pick(*pick)?;
    }
    Ok(search(alloc, &system, 0, 7, &mut guide)?)
}

/// Where the node is cut, or none where there is no such split.
fn cut_of(outcome: &Outcome, node: u32) -> Option<i64> {
    if node >= outcome.tree.nodes() {
        return None;
    }
    match outcome.tree.node(node) {
        Node::Split { at, .. } => Some(at),
        Node::Leaf => None,
    }
}

/// Node 0 is cut at 3 and node 1 at 1. Then nodes 3, 4 and 2 are open, with the bounds 0, 2 and 4.
#[test]
fn the_picked_leaf_is_split(rt: HostRuntime) -> Result<(), Fail> {
    let alloc = rt.alloc();
    let first = picked(&rt, alloc, &[])?;
    assert_eq!(rt; cut_of(&first, 0), Some(3));
    assert_eq!(rt; cut_of(&first, 1), Some(1));
    assert_eq!(rt; cut_of(&first, 3), Some(0));
    assert_eq!(rt;
        first.verdict,
        Verdict::Unfinished {
            bound: 2,
            best: None
        }
    );
    let second = picked(&rt, alloc, &[0, 0, 1])?;
    assert_eq!(rt; cut_of(&second, 4), Some(2));
    assert_eq!(rt;
        second.verdict,
        Verdict::Unfinished {
            bound: 0,
            best: None
        }
    );
    let third = picked(&rt, alloc, &[0, 0, 2])?;
    assert_eq!(rt; cut_of(&third, 2), Some(5));
    assert_eq!(rt;
        third.verdict,
        Verdict::Unfinished {
            bound: 0,
            best: None
        }
    );
    Ok(())
}

/// 10,000 quantities of two values each and no row: each split closes nothing, since there is no best point.
#[test]
fn many_quantities_and_nodes(rt: HostRuntime) -> Result<(), Fail> {
    let alloc = rt.alloc();
    let rows = RowList::new(alloc);
    let low = vec![in alloc; 0i64; 10_000]?;
    let high = vec![in alloc; 1i64; 10_000]?;
    let system = system(&rt, alloc, &rows, &low, &high, &low)?;
    let outcome = search(alloc, &system, 0, 20_001, &mut ZeroGuide)?;
    assert_eq!(rt;
        outcome.verdict,
        Verdict::Unfinished {
            bound: 0,
            best: None
        }
    );
    assert_eq!(rt; outcome.tree.nodes(), 20_001);
    Ok(())
}

/// One quantity from 0 to 99,999 that should be at least 100,000, cut off value by value: a tree as deep as it has leaves.
#[test]
fn a_deep_tree(rt: HostRuntime) -> Result<(), Fail> {
    let alloc = rt.alloc();
    let mut rows = RowList::new(alloc);
    push(&rt, &mut rows, RowKind::Ge, 100_000, &[(0, 1)])?;
    let system = system(&rt, alloc, &rows, &[0], &[99_999], &[0])?;
    let mut guide = ScriptGuide::new(alloc);
    for value in 0..99_999 {
        guide.add_cut(0, value)?;
    }
    let outcome = search(alloc, &system, 0, 1_000_000, &mut guide)?;
    assert_eq!(rt; outcome.verdict, Verdict::NoPlan);
    assert_eq!(rt; outcome.tree.nodes(), 199_999);
    Ok(())
}
