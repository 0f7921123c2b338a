ghost use Rattle.std.specs.Prelude.{◌≡◌, IsTrue};
ghost use Rattle.opt_tree.specs.Shown.{is_closed, is_reached, shown_bound};

use opt_bound::Leaf;
use std::marker::Model;

/// What is known when the nodes of a certificate are looked through.
#[derive(Debug, Drop)]
pub struct Known {
    /// Whether each leaf has to be closed.
    pub must_close: bool,
    /// The lower bound that the root line shows.
    pub root_bound: i128,
    /// The value of the listed point, from 0 on.
    pub best: Option<i128>,
    /// By how much the value may lie above the bound, from 0 on.
    pub gap: i64,
}

impl Model for Known {
    ghost use Rattle.std.specs.Prelude.{pos, ◌≤ℤ◌, IfSome};
    ghost use Rattle.opt_tree.specs.Shown.{Known};

    ghost Value = { Known };

    ghost view = { λ k. record { must_close = k.must_close; root_bound = k.root_bound; best = k.best; gap = k.gap } };

    ghost invariant = { λ k. (pos 0 ≤ℤ k.gap) × IfSome k.best (λ best. pos 0 ≤ℤ best) };
}

impl Known {
    /// Whether a leaf that shows this of its box needs no further split.
    pub fn is_closed(&self, leaf: Leaf) -> bool
        ensures { result ≡ is_closed self.now leaf }
    {
        match leaf {
            Leaf::Empty => true,
            Leaf::AtLeast(bound) => self.is_reached(self.root_bound.max(bound)),
        }
    }

    /// Whether no point of at least this bound needs to be looked for: a best point is known, and the gap reaches it.
    fn is_reached(&self, bound: i128) -> bool
        ensures { result ≡ is_reached self.now.best self.now.gap bound }
    {
        match self.best {
            Some(best) => best - i128::from(self.gap) <= bound,
            None => false,
        }
    }

    /// The lower bound that is shown of a leaf.
    pub fn shown_bound(&self, leaf: Leaf) -> i128
        ensures { result ≡ shown_bound self.now leaf }
    {
        match leaf {
            Leaf::Empty => self.root_bound,
            Leaf::AtLeast(bound) => self.root_bound.max(bound),
        }
    }
}
