ghost use Rattle.std.specs.Prelude.{◌≡◌, ◌≢◌, ◌↔◌, ◌+◌, ◌<◌, ◌≤◌, [], All, IsTrue, OnOk};
ghost use Rattle.opt_base.specs.Answers.{Reads};
ghost use Rattle.opt_system.specs.Ranges.{IsOrdered, LiesIn, Range as RangeValue};
ghost use Rattle.opt_system.specs.Cuts.{IsCut};
ghost use Rattle.opt_system.specs.Systems.{System as SystemValue};
ghost use Rattle.opt_tree.specs.declared.cert_node.CertNode.TheVariants.{Leaf, Split};
ghost use Rattle.opt_tree.specs.Shown.{Known as KnownValue, look_leaf, look_cut, fault_at};
ghost use Rattle.opt_tree.specs.Reading.{take_node};
ghost use Rattle.opt_check.specs.Answers.{Shows};

use crate::known::Known;
use crate::seen::Seen;
use crate::walk::Walk;
use crate::way::Cut;
use opt_bound::{EntryFault, Mult, leaf_at};
use opt_system::{Range, System};
use opt_tree::{CertNode, CheckFault};

/// What nodes are looked through for: the system, and what is known of the certificate.
#[derive(Clone, Copy)]
pub struct Task<'a> {
    pub system: &'a System,
    pub known: &'a Known,
}

/// Takes one node more, which stands on the box at hand; where no box waits nothing is done.
pub fn take_node(
    task: &Task<'_>,
    walk: &mut Walk,
    seen: &mut Seen,
    node: &CertNode,
) -> Result<(), CheckFault>
    requires within { All (LiesIn task.now.system.now.root) walk.old }
    requires room { seen.old.nodes < u32.MAX }
    ensures taken { Shows (λ _. record { seen = seen.new; waiting = walk.new }) result
        (take_node task.now.system.now task.now.known.now node.now seen.old walk.old) }
    ensures within { OnOk result (All (LiesIn task.now.system.now.root) walk.new) }
    ensures counted { OnOk result (seen.new.nodes ≤ seen.old.nodes + 1) }
{
    if walk.is_over() {
        return Ok(());
    }
    match node {
        CertNode::Leaf(mult) => take_leaf(task, walk, seen, mult),
        CertNode::Split { quantity, at } => {
            let cut = Cut {
                quantity: *quantity,
                at: *at,
            };
            take_split(walk, seen, cut)
        }
    }
}

/// Takes a leaf, which stands on the box at hand.
fn take_leaf(
    task: &Task<'_>,
    walk: &mut Walk,
    seen: &mut Seen,
    mult: &Mult,
) -> Result<(), CheckFault>
    requires some { walk.old ≢ [] }
    requires within { All (LiesIn task.now.system.now.root) walk.old }
    requires room { seen.old.nodes < u32.MAX }
    ensures taken { Reads (λ _. record { seen = seen.new; waiting = walk.new }) result
        (take_node task.now.system.now task.now.known.now (Leaf mult.now) seen.old walk.old) }
    ensures within { OnOk result (All (LiesIn task.now.system.now.root) walk.new) }
    ensures counted { OnOk result (seen.new.nodes ≤ seen.old.nodes + 1) }
{
    look_leaf(task, walk.range(), seen, mult)?;
    walk.leave();
    Ok(())
}

/// Takes a split, which stands on the box at hand.
fn take_split(walk: &mut Walk, seen: &mut Seen, cut: Cut) -> Result<(), CheckFault>
    requires some { walk.old ≢ [] }
    requires room { seen.old.nodes < u32.MAX }
    ensures taken { (s : SystemValue) (k : KnownValue) → Shows (λ _. record { seen = seen.new; waiting = walk.new }) result
        (take_node s k (Split cut.quantity cut.at) seen.old walk.old) }
    ensures within { (root : RangeValue) → All (LiesIn root) walk.old
        → OnOk result (All (LiesIn root) walk.new) }
    ensures counted { OnOk result (seen.new.nodes ≤ seen.old.nodes + 1) }
{
    look_cut(walk.range(), seen, cut)?;
    walk.enter(cut)?;
    Ok(())
}

/// Judges a leaf's multipliers on its box.
fn look_leaf(task: &Task<'_>, range: &Range, seen: &mut Seen, mult: &Mult) -> Result<(), CheckFault>
    requires within { LiesIn task.now.system.now.root range.now }
    requires room { seen.old.nodes < u32.MAX }
    ensures counted { OnOk result (seen.new.nodes ≤ seen.old.nodes + 1) }
    ensures looked { Reads (λ _. seen.new) result
        (look_leaf task.now.system.now task.now.known.now seen.old range.now mult.now) }
{
    if let Some(fault) = mult.first_fault(task.system) {
        return Err(fault_at(seen.nodes, fault));
    }
    let leaf = leaf_at(task.system, range, mult);
    seen.judge_leaf(task.known, leaf)
}

/// The fault of a wrong entry in this leaf.
fn fault_at(node: u32, fault: EntryFault) -> CheckFault
    ensures { result ≡ fault_at node fault }
{
    match fault {
        EntryFault::RowNumber(row) => CheckFault::RowNumber { node, row },
        EntryFault::Sign(row) => CheckFault::Sign { node, row },
    }
}

/// Judges the cut of a split on its box.
fn look_cut(range: &Range, seen: &mut Seen, cut: Cut) -> Result<(), CheckFault>
    requires { seen.old.nodes < u32.MAX }
    ensures looked { Reads (λ _. seen.new) result (look_cut seen.old range.now cut.quantity cut.at) }
    ensures cut { OnOk result (IsCut range.now cut.quantity cut.at) }
    ensures ordered { OnOk result (IsOrdered range.now) }
{
    if !range.has_cut(cut.quantity, cut.at) {
        return Err(CheckFault::CutRange { node: seen.nodes });
    }
    seen.add_split();
    Ok(())
}
