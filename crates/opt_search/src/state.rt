ghost use Rattle.std.specs.Prelude.{◌^◌, ◌≤◌, ◌≤ℤ◌, pos, unsigned_abs};

use crate::open_leaves::OpenLeaves;
use opt_base::Point;
use opt_bound::{Leaf, Mult};
use opt_system::System;
use opt_tree::Tree;

/// What is searched: a system, and by how much the value of a point may lie above the bound, at least 0.
#[derive(Clone, Copy)]
pub struct Task<'a> {
    pub system: &'a System,
    pub gap: i64,
}

/// The best point that is known: it meets the system and has this value.
#[derive(Debug, Drop)]
pub struct Best {
    pub point: Point,
    pub value: i128,
    ghost from_zero: { pos 0 ≤ℤ value },
    ghost small: { unsigned_abs value ≤ 2 ^ 126 },
}

/// A search between two of its steps.
#[derive(Debug, Drop)]
pub struct State {
    pub tree: Tree,
    /// What the multipliers of each settled node show of its box, by the node's number.
    pub shown: Vec<Leaf>,
    /// The multipliers of the root line.
    pub root: Mult,
    /// The lower bound that the root line shows of the whole system.
    pub root_bound: i128,
    pub best: Option<Best>,
    pub open_leaves: OpenLeaves,
}
