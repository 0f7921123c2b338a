use crate::{NODE_LIMIT, Node, SplitFault, Tree};
use opt_base::OutOfMemory;
use opt_bound::Mult;
use opt_system::Range;
use std::alloc::Global;
use std::process::Abort;
use std::test::Fail;

/// The range, or ends the test where it is none.
fn range(rt: &impl Abort, alloc: Global, low: &[i64], high: &[i64]) -> Result<Range, OutOfMemory> {
    let ordered = Range::is_ordered(low, high);
    assert!(rt; ordered);
    Range::new(alloc, low, high)
}

/// The box of a month of rice for 1,000 persons: a ration of 0 to 60 steps of 10 g, no shortfall, and kilograms bought,
/// shipped and handed out.
fn rice(rt: &impl Abort, alloc: Global) -> Result<Tree, OutOfMemory> {
    let root = range(
        rt,
        alloc,
        &[0, 0, 0, 0, 0],
        &[60, 0, 20_000, 20_000, 18_000],
    )?;
    Tree::root(alloc, &root)
}

/// Splits the node, or ends the test where it is none of the tree or there is no room.
fn split(
    rt: &impl Abort,
    alloc: Global,
    tree: &mut Tree,
    node: u32,
    quantity: u32,
    at: i64,
) -> Result<(u32, u32), SplitFault> {
    let nodes = tree.nodes();
    assert!(rt; node < nodes);
    assert!(rt; nodes <= NODE_LIMIT - 2);
    tree.split(alloc, node, quantity, at)
}

/// Ends the test where the leaf's range is another.
fn assert_range(
    rt: &impl Abort,
    alloc: Global,
    tree: &Tree,
    leaf: u32,
    low: &[i64],
    high: &[i64],
) -> Result<(), OutOfMemory> {
    let is_leaf = tree.is_leaf(leaf);
    assert!(rt; is_leaf);
    let range = tree.range_of(alloc, leaf)?;
    assert_eq!(rt; range.low(), low);
    assert_eq!(rt; range.high(), high);
    Ok(())
}

/// These multipliers, or ends the test where their numbers are too great.
fn mult(
    rt: &impl Abort,
    alloc: Global,
    q: i64,
    entries: &[(u32, i64)],
) -> Result<Mult, OutOfMemory> {
    let proper = Mult::are_proper(q, entries);
    assert!(rt; proper);
    Mult::new(alloc, q, entries)
}

/// Gives the leaf these multipliers, or ends the test where it is none.
fn set_mult(rt: &impl Abort, tree: &mut Tree, leaf: u32, mult: Mult) {
    let is_leaf = tree.is_leaf(leaf);
    assert!(rt; is_leaf);
    tree.set_mult(leaf, mult);
}

/// Ends the test where the leaf has other multipliers.
fn assert_mult(rt: &impl Abort, tree: &Tree, leaf: u32, q: i64, entries: &[(u32, i64)]) {
    let is_leaf = tree.is_leaf(leaf);
    assert!(rt; is_leaf);
    let mult = tree.mult(leaf);
    assert_eq!(rt; mult.q(), q);
    assert_eq!(rt; mult.entries(), entries);
}

#[test]
fn a_root_is_one_leaf(rt: HostRuntime) -> Result<(), Fail> {
    let alloc = rt.alloc();
    let tree = rice(&rt, alloc)?;
    assert_eq!(rt; tree.nodes(), 1);
    assert_eq!(rt; tree.node(0), Node::Leaf);
    assert!(rt; !tree.is_leaf(1));
    assert_mult(&rt, &tree, 0, 1, &[]);
    assert_range(
        &rt,
        alloc,
        &tree,
        0,
        &[0, 0, 0, 0, 0],
        &[60, 0, 20_000, 20_000, 18_000],
    )?;
    Ok(())
}

#[test]
fn a_split_and_what_is_none(rt: HostRuntime) -> Result<(), Fail> {
    let alloc = rt.alloc();
    let mut tree = rice(&rt, alloc)?;
    assert_eq!(rt; split(&rt, alloc, &mut tree, 0, 0, 58), Ok((1, 2)));
    assert_eq!(rt;
        split(&rt, alloc, &mut tree, 0, 0, 10),
        Err(SplitFault::NotLeaf)
    );
    assert_eq!(rt;
        split(&rt, alloc, &mut tree, 1, 0, 58),
        Err(SplitFault::BadCut)
    );
    assert_eq!(rt;
        split(&rt, alloc, &mut tree, 1, 5, 0),
        Err(SplitFault::BadCut)
    );
    assert_eq!(rt;
        split(&rt, alloc, &mut tree, 2, 0, 58),
        Err(SplitFault::BadCut)
    );
    assert_eq!(rt; tree.nodes(), 3);
    assert!(rt; !tree.is_leaf(0));
    assert_eq!(rt;
        tree.node(0),
        Node::Split {
            quantity: 0,
            at: 58,
            left: 1,
            right: 2
        }
    );
    assert_range(
        &rt,
        alloc,
        &tree,
        1,
        &[0, 0, 0, 0, 0],
        &[58, 0, 20_000, 20_000, 18_000],
    )?;
    assert_range(
        &rt,
        alloc,
        &tree,
        2,
        &[59, 0, 0, 0, 0],
        &[60, 0, 20_000, 20_000, 18_000],
    )?;
    Ok(())
}

#[test]
fn a_box_keeps_the_ends_of_all_its_splits(rt: HostRuntime) -> Result<(), Fail> {
    let alloc = rt.alloc();
    let root = range(&rt, alloc, &[0, 3], &[9, 7])?;
    let mut tree = Tree::root(alloc, &root)?;
    assert_eq!(rt; split(&rt, alloc, &mut tree, 0, 0, 6), Ok((1, 2)));
    assert_eq!(rt; split(&rt, alloc, &mut tree, 1, 1, 4), Ok((3, 4)));
    assert_eq!(rt; split(&rt, alloc, &mut tree, 4, 0, 2), Ok((5, 6)));
    assert_eq!(rt; split(&rt, alloc, &mut tree, 6, 0, 4), Ok((7, 8)));
    assert_range(&rt, alloc, &tree, 2, &[7, 3], &[9, 7])?;
    assert_range(&rt, alloc, &tree, 3, &[0, 3], &[6, 4])?;
    assert_range(&rt, alloc, &tree, 5, &[0, 5], &[2, 7])?;
    assert_range(&rt, alloc, &tree, 7, &[3, 5], &[4, 7])?;
    assert_range(&rt, alloc, &tree, 8, &[5, 5], &[6, 7])?;
    Ok(())
}

#[test]
fn children_take_the_multipliers_and_leaves_keep_theirs(rt: HostRuntime) -> Result<(), Fail> {
    let alloc = rt.alloc();
    let mut tree = rice(&rt, alloc)?;
    let weights = mult(&rt, alloc, 6, &[(0, 250), (1, 3), (3, 2700), (4, 3000)])?;
    set_mult(&rt, &mut tree, 0, weights);
    assert_eq!(rt; split(&rt, alloc, &mut tree, 0, 0, 58), Ok((1, 2)));
    assert_mult(&rt, &tree, 1, 6, &[(0, 250), (1, 3), (3, 2700), (4, 3000)]);
    let one = mult(&rt, alloc, 0, &[(0, 1)])?;
    set_mult(&rt, &mut tree, 1, one);
    assert_mult(&rt, &tree, 1, 0, &[(0, 1)]);
    assert_mult(&rt, &tree, 2, 6, &[(0, 250), (1, 3), (3, 2700), (4, 3000)]);
    Ok(())
}

/// A tree of one quantity from 0 to `last`, split to the end: each split leaves its lowest value on the left.
fn chain(rt: &impl Abort, alloc: Global, last: u32) -> Result<Tree, SplitFault> {
    let root = range(rt, alloc, &[0], &[i64::from(last)])?;
    let mut tree = Tree::root(alloc, &root)?;
    let mut leaf = 0;
    for at in 0..last {
        leaf = split(rt, alloc, &mut tree, leaf, 0, i64::from(at))?.1;
    }
    Ok(tree)
}

#[test]
fn a_long_chain_of_splits(rt: HostRuntime) -> Result<(), Fail> {
    let alloc = rt.alloc();
    match chain(&rt, alloc, 2000) {
        Ok(tree) => {
            assert_eq!(rt; tree.nodes(), 4001);
            assert_range(&rt, alloc, &tree, 1, &[0], &[0])?;
            assert_range(&rt, alloc, &tree, 3999, &[1999], &[1999])?;
            assert_range(&rt, alloc, &tree, 4000, &[2000], &[2000])?;
        }
        Err(_) => assert!(rt; false),
    }
    Ok(())
}
