mod month;

use crate::Problem;
use opt_base::{ModelFault, OutOfMemory, SureShelf, Verdict};
use opt_guide::Guide;
use opt_tables::{Files, fetch};
use opt_tree::Outcome;
use std::alloc::Global;
use std::process::Abort;
use std::test::Fail;

/// The path of a model file and what it holds.
#[derive(Clone, Copy)]
struct Held<'a>(&'a str, &'a [u8]);

fn hold(shelf: &mut SureShelf, held: &[Held<'_>]) -> Result<(), OutOfMemory> {
    for one in held {
        shelf.load(one.0, one.1)?;
    }
    Ok(())
}

/// The files of a folder, of which those in `changes` replace those in `held`.
fn files_of(alloc: Global, held: &[Held<'_>], changes: &[Held<'_>]) -> Result<Files, Fail> {
    let mut shelf = SureShelf::new(alloc);
    hold(&mut shelf, held)?;
    hold(&mut shelf, changes)?;
    Ok(fetch(alloc, &mut shelf, "d")?)
}

fn problem_of(alloc: Global, held: &[Held<'_>], changes: &[Held<'_>]) -> Result<Problem, Fail> {
    let files = files_of(alloc, held, changes)?;
    Ok(Problem::read(alloc, &files)?)
}

/// Why the files are no model; none where they are one.
fn fault_of(
    alloc: Global,
    held: &[Held<'_>],
    changes: &[Held<'_>],
) -> Result<Option<ModelFault>, Fail> {
    let files = files_of(alloc, held, changes)?;
    Ok(Problem::read(alloc, &files).err())
}

/// What the search makes of a model with a guide.
fn outcome_of<G: Guide>(
    alloc: Global,
    held: &[Held<'_>],
    changes: &[Held<'_>],
    guide: &mut G,
) -> Result<Outcome, Fail> {
    let problem = problem_of(alloc, held, changes)?;
    Ok(problem.plan(alloc, guide)?)
}

/// The outcome has this verdict and so many nodes.
fn assert_ended(rt: &impl Abort, outcome: &Outcome, verdict: Verdict, nodes: u32) {
    assert_eq!(rt; outcome.verdict, verdict);
    assert_eq!(rt; outcome.tree.nodes(), nodes);
}
