//! The text of a certificate, written line by line from what a search found.

ghost use Rattle.std.specs.Prelude.{◌≡◌, ◌∷◌, ◌++◌, [], ◌<◌, All, Some, IfOk, OnOk, length};
ghost use Rattle.opt_tree.specs.Certificates.{entries_of};
ghost use Rattle.std.specs.Option.{option_map};
ghost use Rattle.opt_tree.specs.Nodes.{IsTree, tree_of};
ghost use Rattle.opt_tree.specs.Outcomes.{outcome_certificate};
ghost use Rattle.opt_tree.specs.Trees.{preorder};
ghost use Rattle.opt_cert.specs.declared.cert_line.CertLine.TheVariants as line;
ghost use Rattle.opt_cert.specs.Texts.{certificate_text, text_of_lines};
ghost use Rattle.opt_cert.specs.Writing.{Adds, node_lines, nodes_left};

use crate::verdict_text::text as verdict_text;
use crate::words::{add_multipliers, add_number, add_point, add_signed, add_word};
use opt_base::{Blob, OutOfMemory, Point, Verdict};
use opt_bound::Mult;
use opt_tree::{Node, Outcome, Tree};
use std::alloc::{AllocError, Global};

/// The certificate of what a search found, as the text that `read` takes.
///
/// Beside the text it takes memory for the nodes on the way to one leaf.
pub fn write(alloc: Global, outcome: &Outcome) -> Result<Blob, OutOfMemory>
    ensures { IfOk result (λ text. text ≡ certificate_text (outcome_certificate outcome.now)) }
{
    let mut text = Vec::new(alloc);
    add_word(&mut text, "optimus-certificate 1\n")?;
    verdict_line(alloc, &mut text, &outcome.verdict)?;
    root_line(&mut text, &outcome.root)?;
    point_line(&mut text, &outcome.best)?;
    tree_lines(alloc, &mut text, &outcome.tree)?;
    add_word(&mut text, "end\n")?;
    Blob::from_slice(alloc, &text)
}

/// Adds the verdict's line.
fn verdict_line(alloc: Global, text: &mut Vec<u8>, verdict: &Verdict) -> Result<(), AllocError>
    ensures { Adds result text.old.items (text_of_lines (line.Verdict verdict.now ∷ []))
        text.new.items }
{
    let line = verdict_text(alloc, verdict)?;
    add_word(text, line.as_str())?;
    add_word(text, "\n")
}

/// Adds the root line.
fn root_line(text: &mut Vec<u8>, root: &Mult) -> Result<(), AllocError>
    ensures { Adds result text.old.items (text_of_lines (line.Root root.now ∷ [])) text.new.items }
{
    add_word(text, "root")?;
    add_multipliers(text, root)?;
    add_word(text, "\n")
}

/// Adds the line of the best point, or that there is none.
fn point_line(text: &mut Vec<u8>, best: &Option<Point>) -> Result<(), AllocError>
    ensures { Adds result text.old.items
        (text_of_lines (line.Point (option_map entries_of best.now) ∷ [])) text.new.items }
{
    match best {
        Some(point) => values_line(text, point.as_slice()),
        None => add_word(text, "point none\n"),
    }
}

/// Adds the line of a point of these values, which lists those that are not 0.
fn values_line(text: &mut Vec<u8>, values: &[i64]) -> Result<(), AllocError>
    ensures { Adds result text.old.items
        (text_of_lines (line.Point (Some (entries_of values.now)) ∷ [])) text.new.items }
{
    add_word(text, "point")?;
    add_point(text, values)?;
    add_word(text, "\n")
}

/// Adds the lines of a tree's nodes: each split before its left tree, and that before its right tree.
fn tree_lines(alloc: Global, text: &mut Vec<u8>, tree: &Tree) -> Result<(), AllocError>
    ensures { Adds result text.old.items (node_lines (preorder (tree_of tree.now))) text.new.items }
{
    let mut waiting = Vec::new(alloc);
    let _nodes = tree.nodes();
    waiting.push(0)?;
    while let Some(i) = waiting.pop() {
        node_line(text, tree, i, &mut waiting)?;
    }
    Ok(())
}

/// Adds the line of node `i`; where it is split its trees wait from then on, the left one before the right one.
fn node_line(
    text: &mut Vec<u8>,
    tree: &Tree,
    i: u32,
    waiting: &mut Vec<u32>,
) -> Result<(), AllocError>
    requires tree { IsTree tree.now }
    requires node { i < length tree.now.nodes }
    requires nodes { All (λ k. k < length tree.now.nodes) waiting.old.items }
    ensures whole { OnOk result (
        text.new.items ++ node_lines (nodes_left tree.now waiting.new.items)
        ≡ text.old.items ++ node_lines (nodes_left tree.now (waiting.old.items ++ i ∷ []))) }
    ensures fewer { OnOk result (length (nodes_left tree.now waiting.new.items)
        < length (nodes_left tree.now (waiting.old.items ++ i ∷ []))) }
    ensures nodes { OnOk result (All (λ k. k < length tree.now.nodes) waiting.new.items) }
{
    let node = tree.node(i);
    match &node {
        Node::Leaf => leaf_line(text, tree.mult(i)),
        Node::Split {
            quantity,
            at,
            left,
            right,
        } => {
            split_line(text, *quantity, at)?;
            waiting.push(*right)?;
            waiting.push(*left)?;
            Ok(())
        }
    }
}

/// Adds the line of a leaf.
fn leaf_line(text: &mut Vec<u8>, mult: &Mult) -> Result<(), AllocError>
    ensures { Adds result text.old.items (text_of_lines (line.Leaf mult.now ∷ [])) text.new.items }
{
    add_word(text, "leaf")?;
    add_multipliers(text, mult)?;
    add_word(text, "\n")
}

/// Adds the line of a split.
fn split_line(text: &mut Vec<u8>, quantity: u32, at: &i64) -> Result<(), AllocError>
    ensures { Adds result text.old.items (text_of_lines (line.Split quantity at.now ∷ []))
        text.new.items }
{
    add_word(text, "split")?;
    add_number(text, quantity as usize)?;
    add_signed(text, at)?;
    add_word(text, "\n")
}
