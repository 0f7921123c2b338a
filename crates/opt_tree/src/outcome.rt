use crate::tree::Tree;
use opt_base::{Point, Verdict};
use opt_bound::Mult;

/// What a search found: its verdict, the tree of boxes that it grew, the multipliers of the root line, which bound the
/// whole system, and the best point, where one is known.
#[derive(Debug, Drop)]
pub struct Outcome {
    pub verdict: Verdict,
    pub tree: Tree,
    pub root: Mult,
    pub best: Option<Point>,
}
