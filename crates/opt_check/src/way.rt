ghost use Rattle.std.specs.Prelude.{◌≡◌, ◌≢◌, ◌∷◌, [], drop, slice_get, OnOk, OnErr};

use std::alloc::{AllocError, Global};
use std::marker::Model;

/// Where a box is split: its left half has the values of `quantity` up to `at`, its right half those from `at + 1` on.
#[derive(Clone, Copy, Debug)]
pub struct Cut {
    pub quantity: u32,
    pub at: i64,
}

/// To which half of a box that is split the way goes, with what leads back to the whole box.
#[derive(Clone, Copy, Debug)]
pub enum Turn {
    /// To the left half of the cut: `high` is the greatest value of its quantity in the box.
    Left { cut: Cut, high: i64 },
    /// To the right half: `low` is the least value of `quantity` in the box.
    Right { quantity: u32, low: i64 },
}

/// The turns from the root's box down to the box at hand. Contracts see them with the last turn first.
#[derive(Debug, Drop)]
pub struct Way {
    turns: Vec<Turn>,
}

impl Model for Way {
    ghost use Rattle.std.specs.Prelude.{List, reverse};
    ghost use Rattle.opt_check.specs.declared.way.Turn.{Turn};

    ghost Value = { List Turn };

    ghost view = { λ w. reverse w.turns.items };
}

impl Way {
    /// No turn.
    pub fn new(alloc: Global) -> Way
        ensures { result ≡ [] }
    {
        Way {
            turns: Vec::new(alloc),
        }
    }

    /// The last turn.
    pub fn last(&self) -> Option<Turn>
        ensures { result ≡ slice_get self.now 0 }
    {
        self.turns.last().copied()
    }

    /// One turn more.
    pub fn push(&mut self, turn: Turn) -> Result<(), AllocError>
        ensures ok { OnOk result (self.new ≡ turn ∷ self.old) }
        ensures err { OnErr result (self.new ≡ self.old) }
    {
        self.turns.push(turn)?;
        Ok(())
    }

    /// Takes the last turn back.
    pub fn pop(&mut self)
        ensures { self.new ≡ drop 1 self.old }
    {
        let _ = self.turns.pop();
    }

    /// Another turn in place of the last one.
    pub fn replace_last(&mut self, turn: Turn)
        requires { self.old ≢ [] }
        ensures { self.new ≡ turn ∷ drop 1 self.old }
    {
        let last = self.turns.len() - 1;
        self.turns[last] = turn;
    }
}
