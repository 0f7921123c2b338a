ghost use Rattle.std.specs.Prelude.{◌≡◌, ◌≢◌, ◌↔◌, ◌+◌, ◌<◌, ◌≤◌, ◌∷◌, ◌++◌, [], Some, slice_set, length, IsTrue, IfOk, OnOk, OnErr};
ghost use Rattle.opt_tree.specs.declared.node.Node.TheVariants.{Leaf, Split};
ghost use Rattle.opt_bound.specs.Bound.{trivial_multipliers};
ghost use Rattle.opt_tree.specs.Nodes.{child_of, node_at, parted};

use crate::boxes::BoxAtHand;
use crate::limits::NODE_LIMIT;
use crate::node::{Link, Node, TreeNode};
use crate::split_fault::SplitFault;
use opt_base::OutOfMemory;
use opt_bound::Mult;
use opt_system::Range;
use std::alloc::Global;
use std::marker::Model;

/// A tree of boxes, which grows by splits: node 0 has the root's box, and each split parts a leaf's box into two.
///
/// A node keeps its parent and the one end that its split changed, so memory is linear in the nodes. The box of the node
/// that was split last is at hand, so a tree that is grown depth first costs no way up to the root. Contracts see the
/// root's box and the list of nodes; `box_of` is the box of a node.
#[derive(Debug, Drop)]
pub struct Tree {
    root: Range,
    nodes: Vec<TreeNode>,
    at_hand: BoxAtHand,
}

impl Model for Tree {
    ghost use Rattle.opt_tree.specs.Nodes.{Tree, IsTree, IsAtHand, tree_from};

    ghost Value = { Tree };

    ghost view = { λ t. tree_from t.root t.nodes.items };

    ghost invariant = { λ t. IsTree (tree_from t.root t.nodes.items)
        × IsAtHand (tree_from t.root t.nodes.items) t.at_hand };
}

impl Tree {
    ghost use Rattle.opt_system.specs.Ranges.{IsOrdered, LiesIn};
    ghost use Rattle.opt_system.specs.Cuts.{IsCut};
    ghost use Rattle.opt_tree.specs.declared.split_fault.SplitFault.TheVariants.{NotLeaf, BadCut};
    ghost use Rattle.opt_tree.specs.Nodes.{IsTree, IsLeaf, box_of, one_leaf, split_at, with_mult};

    /// A tree of one leaf with this box and trivial multipliers.
    pub fn root(alloc: Global, range: &Range) -> Result<Tree, OutOfMemory>
        ensures { IfOk result (λ tree. tree ≡ one_leaf range.now) }
    {
        let root = range.copy(alloc)?;
        let mut nodes = Vec::new(alloc);
        nodes.push(TreeNode {
            node: Node::Leaf,
            mult: Mult::trivial(alloc),
            link: None,
        })?;
        let at_hand = BoxAtHand {
            node: 0,
            range: root.copy(alloc)?,
        };
        Ok(Tree {
            root,
            nodes,
            at_hand,
        })
    }

    /// Splits a leaf: the left half has the values of `quantity` up to `at`, the right half those from `at + 1` on.
    /// The halves get the next two node numbers, left first, and the leaf's multipliers.
    ///
    /// It needs a node of the tree and room for two more nodes within NODE_LIMIT. NotLeaf comes exactly where the
    /// node is split already; else BadCut exactly where there is no such quantity, or one half would have no value.
    pub fn split(
        &mut self,
        alloc: Global,
        leaf: u32,
        quantity: u32,
        at: i64,
    ) -> Result<(u32, u32), SplitFault>
        requires node { leaf < length self.old.nodes }
        requires room { length self.old.nodes + 2 ≤ NODE_LIMIT }
        ensures leaf { OnOk result (IsLeaf self.old leaf) }
        ensures cut { OnOk result (IsCut (box_of self.old leaf) quantity at) }
        ensures numbers { IfOk result (λ made.
            made ≡ (length self.old.nodes, length self.old.nodes + 1)) }
        ensures ok { OnOk result (self.new ≡ split_at self.old leaf quantity at) }
        ensures err { OnErr result (self.new ≡ self.old) }
        ensures not_leaf { (result ≡ Err NotLeaf) ↔ ((node_at self.old.nodes leaf).node ≢ Leaf) }
        ensures bad_cut { (result ≡ Err BadCut)
            ↔ (IsLeaf self.old leaf × ¬ IsCut (box_of self.old leaf) quantity at) }
    {
        if !self.is_leaf(leaf) {
            return Err(SplitFault::NotLeaf);
        }
        let halves = self
            .at_hand
            .halves(&self.root, &self.nodes, leaf, quantity, at);
        let Some((left, right)) = halves else {
            return Err(SplitFault::BadCut);
        };
        self.at_hand.take(alloc, &self.root, &self.nodes, leaf)?;
        let next = self.nodes();
        part(&mut self.nodes, alloc, leaf, left, right)?;
        Ok((next, next + 1))
    }

    /// How many nodes there are, at most NODE_LIMIT.
    pub fn nodes(&self) -> u32
        ensures count { result ≡ length self.now.nodes }
        ensures whole { IsTree self.now }
    {
        self.nodes.len() as u32
    }

    /// Whether `i` is a node of the tree and is not split.
    pub fn is_leaf(&self, i: u32) -> bool
        ensures { IsTrue result ↔ IsLeaf self.now i }
    {
        match self.nodes.get(i as usize) {
            Some(node) => matches!(node.node, Node::Leaf),
            None => false,
        }
    }

    /// What node `i` is.
    pub fn node(&self, i: u32) -> Node
        requires { i < length self.now.nodes }
        ensures { result ≡ (node_at self.now.nodes i).node }
    {
        self.nodes[i as usize].node
    }

    /// The multipliers of a leaf.
    pub fn mult(&self, leaf: u32) -> &Mult
        requires { IsLeaf self.now leaf }
        ensures { result.now ≡ (node_at self.now.nodes leaf).mult }
    {
        let node = &self.nodes[leaf as usize];
        &node.mult
    }

    /// Gives a leaf other multipliers, and changes nothing else.
    pub fn set_mult(&mut self, leaf: u32, mult: Mult)
        requires { IsLeaf self.old leaf }
        ensures { self.new ≡ with_mult self.old leaf mult }
    {
        let node = &mut self.nodes[leaf as usize];
        node.mult = mult;
    }

    /// The box of a leaf, which lies in the root's box.
    pub fn range_of(&self, alloc: Global, leaf: u32) -> Result<Range, OutOfMemory>
        requires { IsLeaf self.now leaf }
        ensures value { IfOk result (λ range. range ≡ box_of self.now leaf) }
        ensures within { OnOk result (LiesIn self.now.root (box_of self.now leaf)) }
    {
        self.at_hand.range_of(alloc, &self.root, &self.nodes, leaf)
    }
}

/// A leaf with the multipliers of its parent.
fn child(alloc: Global, parent: &TreeNode, link: Link) -> Result<TreeNode, OutOfMemory>
    ensures { IfOk result (λ child. child ≡ child_of parent.now link) }
{
    let mult = parent.mult.copy(alloc)?;
    Ok(TreeNode {
        node: Node::Leaf,
        mult,
        link: Some(link),
    })
}

/// Splits node `i` into halves with these links, or changes nothing.
fn part(
    nodes: &mut Vec<TreeNode>,
    alloc: Global,
    i: u32,
    left: Link,
    right: Link,
) -> Result<(), OutOfMemory>
    requires node { i < length nodes.old.items }
    requires room { length nodes.old.items + 2 ≤ NODE_LIMIT }
    ensures ok { OnOk result (nodes.new.items ≡ parted nodes.old.items i left right) }
    ensures err { OnErr result (nodes.new.items ≡ nodes.old.items) }
{
    let next = nodes.len() as u32;
    add_children(nodes, alloc, i, left, right)?;
    mark_split(nodes, alloc, i, left, next);
    Ok(())
}

/// Adds two leaves at the end with the multipliers of node `i`.
fn add_children(
    nodes: &mut Vec<TreeNode>,
    alloc: Global,
    i: u32,
    left: Link,
    right: Link,
) -> Result<(), OutOfMemory>
    requires { i < length nodes.old.items }
    ensures ok { let parent = node_at nodes.old.items i in
        OnOk result (nodes.new.items
        ≡ nodes.old.items ++ child_of parent left ∷ child_of parent right ∷ []) }
    ensures err { OnErr result (nodes.new.items ≡ nodes.old.items) }
{
    let left = child(alloc, &nodes[i as usize], left)?;
    let right = child(alloc, &nodes[i as usize], right)?;
    push_two(nodes, left, right)
}

/// Adds two nodes at the end, or none.
fn push_two(nodes: &mut Vec<TreeNode>, first: TreeNode, second: TreeNode) -> Result<(), OutOfMemory>
    ensures ok { OnOk result (nodes.new.items ≡ nodes.old.items ++ first ∷ second ∷ []) }
    ensures err { OnErr result (nodes.new.items ≡ nodes.old.items) }
{
    nodes.push(first)?;
    if let Err(refused) = nodes.push(second) {
        let _ = nodes.pop();
        return Err(OutOfMemory::from(refused));
    }
    Ok(())
}

/// Makes node `i` a split, whose left half has this link and the number `next`, and whose right half has the number
/// after it.
fn mark_split(nodes: &mut Vec<TreeNode>, alloc: Global, i: u32, left: Link, next: u32)
    requires node { i < length nodes.old.items }
    requires room { next < NODE_LIMIT }
    ensures { nodes.new.items ≡ slice_set nodes.old.items i (record {
      node = Split left.quantity left.value next (next + 1);
      mult = trivial_multipliers;
      link = (node_at nodes.old.items i).link;
    }) }
{
    let node = &mut nodes[i as usize];
    node.node = Node::Split {
        quantity: left.quantity,
        at: left.value,
        left: next,
        right: next + 1,
    };
    node.mult = Mult::trivial(alloc);
}
