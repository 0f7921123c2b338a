use opt_bound::Mult;

/// A node of a tree of boxes.
#[derive(Clone, Copy, Debug, PartialEq, Eq)]
pub enum Node {
    /// The box is not split.
    Leaf,
    /// The box is split: node `left` has the values of `quantity` up to `at`, node `right` those from `at + 1` on.
    Split {
        quantity: u32,
        at: i64,
        left: u32,
        right: u32,
    },
}

/// Which end of a quantity's range is another.
#[derive(Clone, Copy, Debug, PartialEq, Eq)]
pub enum End {
    Low,
    High,
}

/// How a node's box comes from that of its parent: one end of one quantity's range is another.
#[derive(Clone, Copy, Debug, PartialEq, Eq)]
pub struct Link {
    pub parent: u32,
    pub quantity: u32,
    pub end: End,
    pub value: i64,
}

/// A node as it is kept: with its multipliers, where it is a leaf, and its link to its parent, where it has one.
#[derive(Debug, Drop)]
pub struct TreeNode {
    pub node: Node,
    pub mult: Mult,
    pub link: Option<Link>,
}
