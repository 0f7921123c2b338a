ghost use Rattle.std.specs.Prelude.{◌≡◌};
ghost use Rattle.opt_base.specs.Answers.{Reads};
ghost use Rattle.opt_tree.specs.Shown.{look_root, root_bound_of};

use opt_bound::{Leaf, Mult, leaf_at};
use opt_system::System;
use opt_tree::{CheckFault, Verdict};

/// The lower bound that the root line shows of the whole system: 0 where it shows that no point meets the rows, which only
/// NoPlan says. RootLine comes where its multipliers are not admissible, or show this though the verdict is another.
pub fn look_root(system: &System, verdict: Verdict, root: &Mult) -> Result<i128, CheckFault>
    ensures { result ≡ look_root system.now verdict root.now }
{
    if root.first_fault(system).is_some() {
        return Err(CheckFault::RootLine);
    }
    root_bound(verdict, leaf_at(system, system.root(), root))
}

/// The lower bound of the root's leaf.
fn root_bound(verdict: Verdict, leaf: Leaf) -> Result<i128, CheckFault>
    ensures { result ≡ root_bound_of verdict leaf }
{
    match (leaf, verdict) {
        (Leaf::AtLeast(bound), _) => Ok(bound),
        (Leaf::Empty, Verdict::NoPlan) => Ok(0),
        (Leaf::Empty, Verdict::Plan { .. } | Verdict::Unfinished { .. }) => {
            Err(CheckFault::RootLine)
        }
    }
}
