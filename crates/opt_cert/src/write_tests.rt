use crate::{Verdict, read, write};
use opt_base::{OutOfMemory, Point};
use opt_bound::Mult;
use opt_system::Range;
use opt_tree::{NODE_LIMIT, Outcome, SplitFault, Tree};
use std::alloc::{AllocError, Global};
use std::process::Abort;
use std::test::Fail;

/// How often the objective is taken, and rows are.
type Weights<'a> = (i64, &'a [(u32, i64)]);

/// What a search may have found of six quantities from 0 to 2^63 - 1, and the text of its certificate.
struct Case<'a> {
    verdict: Verdict,
    root: Weights<'a>,
    best: Option<&'a [i64]>,
    /// The nodes that are split, with the quantity and the cut, one after the other.
    splits: &'a [(u32, u32, i64)],
    leaves: &'a [(u32, Weights<'a>)],
    text: &'a str,
}

/// The first two are certificates made by hand for small models: a basket of one food, and a month of rice.
const CASES: [Case<'static>; 6] = [
    Case {
        verdict: Verdict::Plan {
            objective: 300,
            bound: 0,
        },
        root: (1, &[]),
        best: Some(&[50, 300]),
        splits: &[],
        leaves: &[],
        text: "optimus-certificate 1\nplan 300 0\nroot 1 0\npoint 2 0:50 1:300\nleaf 1 0\nend\n",
    },
    Case {
        verdict: Verdict::Plan {
            objective: 8_850_000,
            bound: 8_850_000,
        },
        root: (6, &[(0, 250), (1, 3), (3, 2700), (4, 3000)]),
        best: Some(&[59, 0, 17_700, 17_700, 17_700]),
        splits: &[(0, 0, 58)],
        leaves: &[
            (1, (0, &[(0, 1)])),
            (2, (2, &[(1, 1), (3, 900), (4, 1000)])),
        ],
        text: "optimus-certificate 1\nplan 8850000 8850000\nroot 6 4 0:250 1:3 3:2700 4:3000\n\
               point 4 0:59 2:17700 3:17700 4:17700\nsplit 0 58\nleaf 0 1 0:1\nleaf 2 3 1:1 3:900 4:1000\nend\n",
    },
    Case {
        verdict: Verdict::NoPlan,
        root: (0, &[(0, 1)]),
        best: None,
        splits: &[(0, 1, 18), (2, 0, 0), (1, 5, 7)],
        leaves: &[
            (3, (3, &[])),
            (4, (4, &[(2, -4)])),
            (5, (5, &[(0, 1), (2, 1)])),
            (6, (6, &[])),
        ],
        text: "optimus-certificate 1\nno-plan\nroot 0 1 0:1\npoint none\nsplit 1 18\nsplit 5 7\nleaf 5 2 0:1 2:1\n\
               leaf 6 0\nsplit 0 0\nleaf 3 0\nleaf 4 1 2:-4\nend\n",
    },
    Case {
        verdict: Verdict::Unfinished {
            bound: 7,
            best: None,
        },
        root: (1, &[]),
        best: None,
        splits: &[],
        leaves: &[],
        text: "optimus-certificate 1\nunfinished 7 none\nroot 1 0\npoint none\nleaf 1 0\nend\n",
    },
    Case {
        verdict: Verdict::Unfinished {
            bound: 0,
            best: Some(0),
        },
        root: (1, &[]),
        best: Some(&[0, 0, 0]),
        splits: &[],
        leaves: &[],
        text: "optimus-certificate 1\nunfinished 0 0\nroot 1 0\npoint 0\nleaf 1 0\nend\n",
    },
    Case {
        verdict: Verdict::Unfinished {
            bound: 85_070_591_730_234_615_865_843_651_857_942_052_864,
            best: Some(85_070_591_730_234_615_865_843_651_857_942_052_864),
        },
        root: (
            72_057_594_037_927_936,
            &[(4_294_967_295, 72_057_594_037_927_936)],
        ),
        best: Some(&[0, 9_223_372_036_854_775_807]),
        splits: &[(0, 5, 9_223_372_036_854_775_806)],
        leaves: &[(1, (0, &[(0, -72_057_594_037_927_936)]))],
        text: "optimus-certificate 1\nunfinished 85070591730234615865843651857942052864 \
               85070591730234615865843651857942052864\n\
               root 72057594037927936 1 4294967295:72057594037927936\npoint 1 1:9223372036854775807\n\
               split 5 9223372036854775806\nleaf 0 1 0:-72057594037927936\nleaf 1 0\nend\n",
    },
];

/// These multipliers, or ends the test where their numbers are too great.
fn mult(rt: &impl Abort, alloc: Global, weights: Weights<'_>) -> Result<Mult, OutOfMemory> {
    let proper = Mult::are_proper(weights.0, weights.1);
    assert!(rt; proper);
    Mult::new(alloc, weights.0, weights.1)
}

/// A tree of one leaf over six quantities.
fn tree(rt: &impl Abort, alloc: Global) -> Result<Tree, OutOfMemory> {
    let ordered = Range::is_ordered(&[0; 6], &[i64::MAX; 6]);
    assert!(rt; ordered);
    let root = Range::new(alloc, &[0; 6], &[i64::MAX; 6])?;
    Tree::root(alloc, &root)
}

/// Splits the node, or ends the test where it is none of the tree or there is no room.
fn split(
    rt: &impl Abort,
    alloc: Global,
    tree: &mut Tree,
    node: u32,
    quantity: u32,
    at: i64,
) -> Result<(u32, u32), SplitFault> {
    let nodes = tree.nodes();
    assert!(rt; node < nodes);
    assert!(rt; nodes <= NODE_LIMIT - 2);
    tree.split(alloc, node, quantity, at)
}

/// Gives the leaf these multipliers, or ends the test where it is none.
fn set_mult(rt: &impl Abort, tree: &mut Tree, leaf: u32, mult: Mult) {
    let is_leaf = tree.is_leaf(leaf);
    assert!(rt; is_leaf);
    tree.set_mult(leaf, mult);
}

/// The tree of a case.
fn tree_of_case(rt: &impl Abort, alloc: Global, case: &Case<'_>) -> Result<Tree, Fail> {
    let mut tree = tree(rt, alloc)?;
    for (node, quantity, at) in case.splits {
        split(rt, alloc, &mut tree, *node, *quantity, *at)?;
    }
    for (leaf, weights) in case.leaves {
        set_mult(rt, &mut tree, *leaf, mult(rt, alloc, *weights)?);
    }
    Ok(tree)
}

/// The best point of a case.
fn best_of_case(alloc: Global, case: &Case<'_>) -> Result<Option<Point>, OutOfMemory> {
    match case.best {
        Some(values) => Ok(Some(Point::from_slice(alloc, values)?)),
        None => Ok(None),
    }
}

#[test]
fn certificates_made_by_hand(rt: HostRuntime) -> Result<(), Fail> {
    let alloc = rt.alloc();
    for case in &CASES {
        let outcome = Outcome {
            verdict: case.verdict,
            tree: tree_of_case(&rt, alloc, case)?,
            root: mult(&rt, alloc, case.root)?,
            best: best_of_case(alloc, case)?,
        };
        let text = write(alloc, &outcome)?;
        assert_eq!(rt; text.as_slice(), case.text.as_bytes());
        assert!(rt; text.as_slice().len() < 10_000);
        assert!(rt; read(alloc, text.as_slice()).is_ok());
    }
    Ok(())
}

/// How many nodes are split in a tree that is as deep as it has leaves.
const DEPTH: u32 = 400;

/// A tree that is split in its last leaf again and again, at the left end or at the right end. The leaf that is left
/// behind by the split before it has the number of that split as its multiplier.
fn deep_tree(rt: &impl Abort, alloc: Global, to_left: bool) -> Result<Tree, Fail> {
    let mut tree = tree(rt, alloc)?;
    let mut last = 0;
    for k in 0..DEPTH {
        let at = i64::from(if to_left { DEPTH - k } else { k });
        let (left, right) = split(rt, alloc, &mut tree, last, 3, at)?;
        let behind = if to_left { right } else { left };
        set_mult(rt, &mut tree, behind, mult(rt, alloc, (i64::from(k), &[]))?);
        last = if to_left { left } else { right };
    }
    Ok(tree)
}

/// The lines of the nodes of that tree at the right end.
fn lines_to_right(alloc: Global) -> Result<String, AllocError> {
    let mut text = String::new(alloc);
    for k in 0..DEPTH {
        let lines = format!(in alloc; "split 3 {k}\nleaf {k} 0\n")?;
        text.push_str(lines.as_str())?;
    }
    Ok(text)
}

/// The lines of its splits at the left end.
fn splits_to_left(alloc: Global) -> Result<String, AllocError> {
    let mut text = String::new(alloc);
    for k in 0..DEPTH {
        let line = format!(in alloc; "split 3 {}\n", DEPTH - k)?;
        text.push_str(line.as_str())?;
    }
    Ok(text)
}

/// The lines of the leaves that are left behind at the left end.
fn leaves_to_left(alloc: Global) -> Result<String, AllocError> {
    let mut text = String::new(alloc);
    for k in 0..DEPTH {
        let line = format!(in alloc; "leaf {} 0\n", DEPTH - 1 - k)?;
        text.push_str(line.as_str())?;
    }
    Ok(text)
}

/// What is written of this tree where no plan was found.
fn text_of(alloc: Global, tree: Tree) -> Result<String, Fail> {
    let outcome = Outcome {
        verdict: Verdict::NoPlan,
        tree,
        root: Mult::trivial(alloc),
        best: None,
    };
    let text = write(alloc, &outcome)?;
    Ok(str::from_utf8(text.as_slice())?.to_string(alloc)?)
}

#[test]
fn a_deep_tree_to_either_end(rt: HostRuntime) -> Result<(), Fail> {
    let alloc = rt.alloc();
    let head = "optimus-certificate 1\nno-plan\nroot 1 0\npoint none\n";
    let to_right = text_of(alloc, deep_tree(&rt, alloc, false)?)?;
    // The last leaf has the multipliers of the root, which its parents had.
    let lines = format!(in alloc; "{head}{}leaf 1 0\nend\n", lines_to_right(alloc)?.as_str())?;
    assert_eq!(rt; to_right.as_str(), lines.as_str());
    let to_left = text_of(alloc, deep_tree(&rt, alloc, true)?)?;
    let splits = splits_to_left(alloc)?;
    let leaves = leaves_to_left(alloc)?;
    let lines = format!(in alloc;
        "{head}{}leaf 1 0\n{}end\n",
        splits.as_str(),
        leaves.as_str()
    )?;
    assert_eq!(rt; to_left.as_str(), lines.as_str());
    Ok(())
}
