ghost use Rattle.std.specs.Prelude.{◌≡◌, ◌<◌, [], length, ◌↔◌, IsTrue, Some, Contains, OnOk, slice_get};
ghost use Rattle.opt_search.specs.Open.{Adds, Removes, KeepsBelow};

use std::alloc::{AllocError, Global};
use std::collections::BTreeSet;
use std::marker::Model;

/// The leaves that are not closed, each with the lower bound that is shown of it, by rising bound and then by number.
#[derive(Debug, Drop)]
pub struct OpenLeaves {
    leaves: BTreeSet<(i128, u32)>,
}

impl Model for OpenLeaves {
    ghost use Rattle.std.specs.Prelude.{List, ℕ, ℤ};

    ghost Value = { List (ℤ × ℕ) };

    ghost view = { λ o. o.leaves.keys };
}

impl OpenLeaves {
    /// No leaf.
    pub fn new(alloc: Global) -> OpenLeaves
        ensures { result ≡ [] }
    {
        OpenLeaves {
            leaves: BTreeSet::new(alloc),
        }
    }

    /// How many leaves there are.
    pub fn len(&self) -> usize
        ensures { result ≡ length self.now }
    {
        self.leaves.len()
    }

    /// Whether there is no leaf.
    pub fn is_empty(&self) -> bool
        ensures { IsTrue result ↔ (self.now ≡ []) }
    {
        self.leaves.is_empty()
    }

    /// The leaf of this rank, counted from 0: its bound and its number.
    pub fn ranked(&self, rank: usize) -> (i128, u32)
        requires { rank < length self.now }
        ensures value { slice_get self.now rank ≡ Some result }
        ensures member { Contains self.now (result.0, result.1) }
    {
        match self.leaves.iter().nth(rank) {
            Some(leaf) => *leaf,
            None => unreachable!(),
        }
    }

    /// Adds a leaf.
    pub fn add(&mut self, bound: i128, leaf: u32) -> Result<(), AllocError>
        ensures { OnOk result (Adds bound leaf self.old self.new) }
    {
        self.leaves.insert((bound, leaf))?;
        Ok(())
    }

    /// Takes a leaf away.
    pub fn remove(&mut self, bound: i128, leaf: u32)
        ensures { Removes bound leaf self.old self.new }
    {
        self.leaves.remove(&(bound, leaf));
    }

    /// Drops the leaves whose bound is at least this one.
    pub fn keep_below(&mut self, bound: i128)
        ensures { KeepsBelow bound self.old self.new }
    {
        self.leaves.retain(|leaf| leaf.0 < bound);
    }
}
