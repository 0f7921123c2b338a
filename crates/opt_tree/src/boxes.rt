//! The boxes of nodes, found on the way from a node up to the root.

ghost use Rattle.std.specs.Prelude.{◌≡◌, ◌↔◌, ◌<◌, Some, pos, ◌≤ℤ◌, ◌<ℤ◌, length, IsTrue, IfOk, IfSome, OnOk, SomeIff};
ghost use Rattle.opt_sums.specs.Sums.{at};
ghost use Rattle.opt_system.specs.Cuts.{IsCut};
ghost use Rattle.opt_tree.specs.Nodes.{IsTree, IsInward, IsAtHand, tree_from, node_at, box_of, changed, link_left, link_right};
ghost use Rattle.opt_tree.specs.Narrowed.{side, narrowed, LeavesSome};

use crate::node::{End, Link, TreeNode};
use opt_base::OutOfMemory;
use opt_system::Range;
use std::alloc::Global;

/// The box of node `i`.
pub fn range_at(
    alloc: Global,
    root: &Range,
    nodes: &[TreeNode],
    i: u32,
) -> Result<Range, OutOfMemory>
    requires tree { IsTree (tree_from root.now nodes.now) }
    requires node { i < length nodes.now }
    ensures { IfOk result (λ range.
        range ≡ box_of (tree_from root.now nodes.now) i) }
{
    let mut range = root.copy(alloc)?;
    narrow(&mut range, nodes, i);
    Ok(range)
}

/// Narrows the root's box to that of node `i`.
fn narrow(range: &mut Range, nodes: &[TreeNode], i: u32)
    requires tree { IsTree (tree_from range.old nodes.now) }
    requires node { i < length nodes.now }
    ensures { range.new ≡ box_of (tree_from range.old nodes.now) i }
{
    let mut at = i;
    while let Some(link) = link_at(nodes, at) {
        tighten(range, link);
        at = link.parent;
    }
}

/// The link of node `i` to its parent, where it has one.
fn link_at(nodes: &[TreeNode], i: u32) -> Option<Link>
    requires { i < length nodes.now }
    ensures { result ≡ (node_at nodes.now i).link }
{
    let node = &nodes[i as usize];
    node.link
}

/// Takes the end that the link says, where it is narrower.
fn tighten(range: &mut Range, link: Link)
    requires quantity { link.quantity < length range.old.low }
    requires from_zero { pos 0 ≤ℤ link.value }
    requires leaves_some { LeavesSome link.end range.old link.quantity link.value }
    ensures { range.new ≡ narrowed range.old link }
{
    let j = link.quantity as usize;
    match link.end {
        End::Low => {
            let low = range.low()[j].max(link.value);
            range.set_low(link.quantity, low);
        }
        End::High => {
            let high = range.high()[j].min(link.value);
            range.set_high(link.quantity, high);
        }
    }
}

/// Takes the end that the link says.
fn change(range: &mut Range, link: Link)
    requires from_zero { pos 0 ≤ℤ link.value }
    requires inward { IsInward range.old link }
    ensures { range.new ≡ changed range.old link }
{
    match link.end {
        End::Low => range.set_low(link.quantity, link.value),
        End::High => range.set_high(link.quantity, link.value),
    }
}

/// Whether the link changes this end of this quantity's range.
fn changes(link: Link, quantity: u32, end: End) -> bool
    ensures { IsTrue result ↔ ((link.quantity ≡ quantity) × (link.end ≡ end)) }
{
    link.quantity == quantity && link.end == end
}

/// The least or the greatest value of a quantity in a box.
fn end_in(range: &Range, quantity: u32, end: End) -> i64
    requires { quantity < length range.now.low }
    ensures { result ≡ at (side end range.now) quantity }
{
    match end {
        End::Low => range.low()[quantity as usize],
        End::High => range.high()[quantity as usize],
    }
}

/// Whether a cut at this value leaves one on both sides.
fn leaves_both(low: i64, at: i64, high: i64) -> bool
    ensures { IsTrue result ↔ ((low ≤ℤ at) × (at <ℤ high)) }
{
    low <= at && at < high
}

/// A node and its box.
///
/// A tree keeps that of the node that was split last, or of the root: the boxes of its children are found from it by one
/// change each, without the way up to the root.
#[derive(Debug, Drop)]
pub struct BoxAtHand {
    pub node: u32,
    pub range: Range,
}

impl BoxAtHand {
    /// The link of node `i`, where it is a child of the node at hand.
    fn link_below(&self, nodes: &[TreeNode], i: u32) -> Option<Link>
        requires { i < length nodes.now }
        ensures link { IfSome result (λ link. (node_at nodes.now i).link ≡ Some link) }
        ensures child { IfSome result (λ link. link.parent ≡ self.now.node) }
    {
        link_at(nodes, i).filter(|link| link.parent == self.node)
    }

    /// Takes node `i` in hand.
    pub fn take(
        &mut self,
        alloc: Global,
        root: &Range,
        nodes: &[TreeNode],
        i: u32,
    ) -> Result<(), OutOfMemory>
        requires tree { IsTree (tree_from root.now nodes.now) }
        requires at_hand { IsAtHand (tree_from root.now nodes.now) self.old }
        requires node { i < length nodes.now }
        ensures at_hand { IsAtHand (tree_from root.now nodes.now) self.new }
        ensures node { OnOk result (self.new.node ≡ i) }
    {
        if let Some(link) = self.link_below(nodes, i) {
            change(&mut self.range, link);
            self.node = i;
            return Ok(());
        }
        self.range = range_at(alloc, root, nodes, i)?;
        self.node = i;
        Ok(())
    }

    /// The box of node `i`.
    pub fn range_of(
        &self,
        alloc: Global,
        root: &Range,
        nodes: &[TreeNode],
        i: u32,
    ) -> Result<Range, OutOfMemory>
        requires tree { IsTree (tree_from root.now nodes.now) }
        requires at_hand { IsAtHand (tree_from root.now nodes.now) self.now }
        requires node { i < length nodes.now }
        ensures { IfOk result (λ range. range ≡ box_of (tree_from root.now nodes.now) i) }
    {
        let Some(link) = self.link_below(nodes, i) else {
            return range_at(alloc, root, nodes, i);
        };
        let mut range = self.range.copy(alloc)?;
        change(&mut range, link);
        Ok(range)
    }

    /// The least or the greatest value of a quantity in the box of node `i`: the last end that changed on the way from the
    /// box at hand, or else from the root, to it, or the end that it has there.
    fn end_at(&self, root: &Range, nodes: &[TreeNode], i: u32, quantity: u32, end: End) -> i64
        requires tree { IsTree (tree_from root.now nodes.now) }
        requires at_hand { IsAtHand (tree_from root.now nodes.now) self.now }
        requires node { i < length nodes.now }
        requires quantity { quantity < length root.now.low }
        ensures { result ≡ at (side end (box_of (tree_from root.now nodes.now) i)) quantity }
    {
        let mut at = i;
        while let Some(link) = link_at(nodes, at) {
            if at == self.node {
                return end_in(&self.range, quantity, end);
            }
            if changes(link, quantity, end) {
                return link.value;
            }
            at = link.parent;
        }
        end_in(root, quantity, end)
    }

    /// The links of the two halves of the box of node `i`, where both have a value: the left half has the values of
    /// `quantity` up to `at`, the right half those from `at + 1` on.
    pub fn halves(
        &self,
        root: &Range,
        nodes: &[TreeNode],
        i: u32,
        quantity: u32,
        at: i64,
    ) -> Option<(Link, Link)>
        requires tree { IsTree (tree_from root.now nodes.now) }
        requires at_hand { IsAtHand (tree_from root.now nodes.now) self.now }
        requires node { i < length nodes.now }
        ensures { let box = box_of (tree_from root.now nodes.now) i in
            SomeIff result (IsCut box quantity at) (link_left i quantity at, link_right i quantity at) }
    {
        if quantity as usize >= root.low().len() {
            return None;
        }
        let low = self.end_at(root, nodes, i, quantity, End::Low);
        let high = self.end_at(root, nodes, i, quantity, End::High);
        if !leaves_both(low, at, high) {
            return None;
        }
        let left = Link {
            parent: i,
            quantity,
            end: End::High,
            value: at,
        };
        let right = Link {
            end: End::Low,
            value: at + 1,
            ..left
        };
        Some((left, right))
    }
}
