ghost use Rattle.std.specs.Prelude.{◌≡◌, ◌≢◌, ◌↔◌, ◌∷◌, [], drop, not, slice_get, IfOk, OnOk, OnErr, IsTrue};
ghost use Rattle.opt_system.specs.Ranges.{IsOrdered};
ghost use Rattle.opt_check.specs.Way.{IsWay, IsWayTo, CanSplit, EndsLeft, waiting, waiting_after, after_split};

use crate::way::{Cut, Turn, Way};
use opt_base::OutOfMemory;
use opt_system::Range;
use std::alloc::Global;
use std::marker::Model;

/// A walk through the boxes of a tree, each split before its left half and that before its right half. It keeps the box at
/// hand and the way to it alone; contracts see the boxes that wait for a node, that at hand first.
#[derive(Debug, Drop)]
pub struct Walk {
    range: Range,
    way: Way,
    over: bool,
}

impl Model for Walk {
    ghost use Rattle.std.specs.Prelude.{List};
    ghost use Rattle.opt_system.specs.Ranges.{Range};
    ghost use Rattle.opt_check.specs.Way.{waiting, IsWayTo};

    ghost Value = { List Range };

    ghost view = { λ w. waiting w.over w.range w.way };

    ghost invariant = { λ w. IsWayTo w.over w.range w.way };
}

impl Walk {
    /// The walk that begins at the root's box.
    pub fn new(alloc: Global, root: &Range) -> Result<Walk, OutOfMemory>
        ensures { IfOk result (λ walk. walk ≡ root.now ∷ []) }
    {
        Ok(Walk {
            range: root.copy(alloc)?,
            way: Way::new(alloc),
            over: false,
        })
    }

    /// Whether no box waits.
    pub fn is_over(&self) -> bool
        ensures { IsTrue result ↔ (self.now ≡ []) }
    {
        self.over
    }

    /// The box at hand.
    pub fn range(&self) -> &Range
        requires { self.now ≢ [] }
        ensures { self.now ≡ result.now ∷ drop 1 self.now }
    {
        &self.range
    }

    /// Goes from the box at hand, which is split at this cut, to its left half; its right half waits.
    pub fn enter(&mut self, cut: Cut) -> Result<(), OutOfMemory>
        requires { CanSplit self.old cut.quantity cut.at }
        ensures split { OnOk result (self.new ≡ after_split cut.quantity cut.at self.old) }
        ensures err { OnErr result (self.new ≡ self.old) }
    {
        let high = self.range.high()[cut.quantity as usize];
        self.way.push(Turn::Left { cut, high })?;
        self.range.set_high(cut.quantity, cut.at);
        Ok(())
    }

    /// Goes from the box at hand, which is a leaf, to the next one that waits.
    pub fn leave(&mut self)
        requires { self.old ≢ [] }
        ensures { self.new ≡ drop 1 self.old }
    {
        climb(&mut self.range, &mut self.way);
        self.over = !turn_right(&mut self.range, &mut self.way);
    }
}

/// Goes up out of each right half, to a left half or to the root's box.
fn climb(range: &mut Range, way: &mut Way)
    requires { IsWay range.old way.old }
    ensures leads { IsWay range.new way.new }
    ensures left { EndsLeft way.new }
    ensures waiting { waiting_after range.new way.new ≡ waiting_after range.old way.old }
{
    while let Some(Turn::Right { quantity, low }) = way.last() {
        way.pop();
        range.set_low(quantity, low);
    }
}

/// Goes over to the right half of the box whose left half is at hand. None is left where the root's box is at hand.
fn turn_right(range: &mut Range, way: &mut Way) -> bool
    requires leads { IsWay range.old way.old }
    requires left { EndsLeft way.old }
    ensures leads { IsWayTo (not result) range.new way.new }
    ensures waiting { waiting (not result) range.new way.new ≡ waiting_after range.old way.old }
{
    let Some(Turn::Left { cut, high }) = way.last() else {
        return false;
    };
    let quantity = cut.quantity;
    let low = range.low()[quantity as usize];
    range.set_high(quantity, high);
    range.set_low(quantity, cut.at + 1);
    way.replace_last(Turn::Right { quantity, low });
    true
}
