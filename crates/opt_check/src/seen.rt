ghost use Rattle.std.specs.Prelude.{◌≡◌, ◌+◌, ◌<◌, ◌≤◌, OnOk};
ghost use Rattle.opt_base.specs.Answers.{Reads};
ghost use Rattle.opt_tree.specs.Shown.{nothing_seen, with_split, with_leaf, judge_leaf, least_with};

use crate::known::Known;
use opt_bound::Leaf;
use opt_tree::CheckFault;
use std::marker::Model;

/// What was seen of the nodes so far.
#[derive(Debug, Drop)]
pub struct Seen {
    /// How many they are.
    pub nodes: u32,
    /// The least lower bound of the leaves that are not empty.
    pub least: Option<i128>,
    /// Whether a leaf is open.
    pub any_open: bool,
}

impl Model for Seen {
    ghost use Rattle.opt_tree.specs.Shown.{Seen};

    ghost Value = { Seen };

    ghost view = { λ s. record { nodes = s.nodes; least = s.least; any_open = s.any_open } };
}

impl Seen {
    /// Nothing yet.
    pub fn nothing() -> Seen
        ensures { result ≡ nothing_seen }
    {
        Seen {
            nodes: 0,
            least: None,
            any_open: false,
        }
    }

    /// One split more.
    pub fn add_split(&mut self)
        requires { self.old.nodes < u32.MAX }
        ensures { self.new ≡ with_split self.old }
    {
        self.nodes += 1;
    }

    /// One leaf more, which is LeafOpen where each leaf has to be closed and it is not.
    pub fn judge_leaf(&mut self, known: &Known, leaf: Leaf) -> Result<(), CheckFault>
        requires { self.old.nodes < u32.MAX }
        ensures judged { Reads (λ _. self.new) result (judge_leaf known.now self.old leaf) }
        ensures counted { OnOk result (self.new.nodes ≤ self.old.nodes + 1) }
    {
        if known.must_close && !known.is_closed(leaf) {
            return Err(CheckFault::LeafOpen {
                node: self.nodes,
                bound: known.shown_bound(leaf),
            });
        }
        self.add_leaf(known, leaf);
        Ok(())
    }

    /// One leaf more.
    fn add_leaf(&mut self, known: &Known, leaf: Leaf)
        requires { self.old.nodes < u32.MAX }
        ensures leaf { self.new ≡ with_leaf known.now self.old leaf }
        ensures counted { self.new.nodes ≡ self.old.nodes + 1 }
    {
        self.nodes += 1;
        if let Leaf::AtLeast(bound) = leaf {
            self.least = Some(lower(self.least, bound));
            self.any_open = self.any_open || !known.is_closed(leaf);
        }
    }
}

/// The least lower bound with one more.
fn lower(least: Option<i128>, bound: i128) -> i128
    ensures { result ≡ least_with least bound }
{
    match least {
        Some(least) => least.min(bound),
        None => bound,
    }
}
