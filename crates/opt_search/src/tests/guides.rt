use super::basket;
use crate::search;
use opt_base::{Point, Verdict};
use opt_bound::Mult;
use opt_guide::{LieGuide, ScriptGuide};
use std::alloc::Global;
use std::process::Abort;
use std::test::Fail;

const MET: Verdict = Verdict::Plan {
    objective: 0,
    bound: 0,
};

#[test]
fn a_hundred_lying_guides(rt: HostRuntime) -> Result<(), Fail> {
    let alloc = rt.alloc();
    let system = basket(&rt, alloc, 10_000)?;
    for number in 0..100 {
        let outcome = search(alloc, &system, 0, 7, &mut LieGuide::new(number))?;
        assert_eq!(rt; outcome.verdict, MET);
    }
    Ok(())
}

/// Multipliers below 0 on the one row, or of a row that there is not.
fn wrong_mult(rt: &impl Abort, alloc: Global, row: u32) -> Result<Mult, Fail> {
    let proper = Mult::are_proper(3, &[(row, -5)]);
    assert!(rt; proper);
    Ok(Mult::new(alloc, 3, &[(row, -5)])?)
}

/// A guide all of whose lists are wrong: multipliers that are not admissible; points of a wrong length, out of range,
/// that break the row; cuts of a quantity that there is not, below the range, at its end; picks that are too large.
fn liar(rt: &impl Abort, alloc: Global) -> Result<ScriptGuide, Fail> {
    let mut guide = ScriptGuide::new(alloc);
    for row in 0..3 {
        guide.add_mult(wrong_mult(rt, alloc, row)?)?;
    }
    guide.add_point(Some(Point::from_slice(alloc, &[3])?))?;
    guide.add_point(Some(Point::from_slice(alloc, &[4, 0])?))?;
    guide.add_point(Some(Point::from_slice(alloc, &[2, 0])?))?;
    guide.add_cut(2, 0)?;
    guide.add_cut(0, -1)?;
    guide.add_cut(0, 3)?;
    guide.add_pick(7)?;
    guide.add_pick(4_294_967_295)?;
    Ok(guide)
}

#[test]
fn a_script_that_lies_in_every_list(rt: HostRuntime) -> Result<(), Fail> {
    let alloc = rt.alloc();
    let system = basket(&rt, alloc, 10_000)?;
    let outcome = search(alloc, &system, 0, 7, &mut liar(&rt, alloc)?)?;
    assert_eq!(rt; outcome.verdict, MET);
    Ok(())
}
