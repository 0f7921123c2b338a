ghost use Rattle.std.specs.Prelude.{◌≡◌, ◌≤◌, ◌^◌, ◌≤ℤ◌, ◌<ℤ◌, pos, unsigned_abs, OnOk, IsTrue, ◌↔◌, Some};
ghost use Rattle.opt_bound.specs.declared.leaf.Leaf.TheVariants.{AtLeast};
ghost use Rattle.opt_tree.specs.Nodes.{IsLeaf};
ghost use Rattle.opt_tree.specs.Shown.{is_closed};
ghost use Rattle.opt_search.specs.Guided.{WasWeighed};
ghost use Rattle.opt_search.specs.State.{IsSound, best_value, known_in, IsBeaten, Falls, KeepsTree, KeepsUnreached, Settles};

use crate::open_leaves::OpenLeaves;
use crate::state::{Best, State, Task};
use opt_base::{OutOfMemory, Point};
use opt_bound::{Leaf, Mult};
use std::alloc::Global;

impl State {
    /// Whether no point of at least this bound needs to be looked for: a best point is known, and the gap reaches it.
    pub fn is_reached(&self, task: &Task<'_>, bound: i128) -> bool
        requires { pos 0 ≤ℤ task.now.gap }
        ensures { result ≡ is_closed (known_in task.now.gap self.now) (AtLeast bound) }
    {
        match &self.best {
            Some(best) => self.root_bound.max(bound) >= best.value - i128::from(task.gap),
            None => false,
        }
    }

    /// Whether a leaf that shows this of its box needs no further split.
    pub fn is_closed(&self, task: &Task<'_>, leaf: &Leaf) -> bool
        requires { pos 0 ≤ℤ task.now.gap }
        ensures { result ≡ is_closed (known_in task.now.gap self.now) leaf.now }
    {
        match leaf {
            Leaf::AtLeast(bound) => self.is_reached(task, *bound),
            Leaf::Empty => true,
        }
    }

    /// Keeps the candidate as the best point where it meets the system and its value is lower than the best one. The
    /// leaves that are closed by that are open no longer.
    pub fn weigh(&mut self, alloc: Global, task: &Task<'_>, candidate: Option<Point>)
        requires gap_from_zero { pos 0 ≤ℤ task.now.gap }
        requires sound { IsSound task.now.system.now task.now.gap self.old }
        ensures sound { IsSound task.now.system.now task.now.gap self.new }
        ensures weighed { WasWeighed task.now.system.now (best_value self.new.best) candidate }
        ensures falls { Falls (best_value self.old.best) (best_value self.new.best) }
        ensures same { KeepsTree self.old self.new }
    {
        let Some(point) = candidate else {
            return;
        };
        let system = task.system;
        if !system.root().contains(point.as_slice()) {
            return;
        }
        if system.first_broken(point.as_slice()).is_some() {
            return;
        }
        let value = system.objective(point.as_slice());
        if self.is_beaten_by(value) {
            self.best = Some(Best { point, value });
            self.close_reached(alloc, task, value);
        }
    }

    /// Whether no best point is known, or this value is lower than its.
    fn is_beaten_by(&self, value: i128) -> bool
        ensures { IsTrue result ↔ IsBeaten (best_value self.now.best) value }
    {
        match &self.best {
            Some(best) => value < best.value,
            None => true,
        }
    }

    /// Drops the open leaves that a best point of this value closes.
    fn close_reached(&mut self, alloc: Global, task: &Task<'_>, value: i128)
        requires gap_from_zero { pos 0 ≤ℤ task.now.gap }
        requires from_zero { pos 0 ≤ℤ value }
        ensures kept { KeepsUnreached task.now.gap self.old.root_bound value self.old.open_leaves
            self.new.open_leaves }
        ensures same { self.new ≡ record self.old { open_leaves = self.new.open_leaves } }
    {
        let reached = value - i128::from(task.gap);
        if self.root_bound >= reached {
            self.open_leaves = OpenLeaves::new(alloc);
        } else {
            self.open_leaves.keep_below(reached);
        }
    }

    /// Settles the next node as a leaf with these multipliers, which show this of its box.
    pub fn settle(
        &mut self,
        task: &Task<'_>,
        node: u32,
        mult: Mult,
        leaf: Leaf,
    ) -> Result<(), OutOfMemory>
        requires gap_from_zero { pos 0 ≤ℤ task.now.gap }
        requires leaf { IsLeaf self.old.tree node }
        ensures { OnOk result (Settles task.now.gap self.old self.new node mult leaf) }
    {
        self.tree.set_mult(node, mult);
        self.shown.push(leaf)?;
        if let Leaf::AtLeast(bound) = leaf {
            if !self.is_reached(task, bound) {
                self.open_leaves.add(bound, node)?;
            }
        }
        Ok(())
    }
}
