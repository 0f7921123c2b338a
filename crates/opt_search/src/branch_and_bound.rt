ghost use Rattle.std.specs.Prelude.{◌≡◌, ℤ, List, Option, Ok, ◌+◌, ◌*◌, ◌<◌, ◌≤◌, ◌≤ℤ◌, pos, length, IfOk, OnOk};
ghost use Rattle.opt_system.specs.Ranges.{points};
ghost use Rattle.opt_bound.specs.Multipliers.{IsAdmissible};
ghost use Rattle.opt_tree.specs.declared.limits.TheConstants.{NODE_LIMIT};
ghost use Rattle.opt_tree.specs.Certificates.{IsCertificate};
ghost use Rattle.opt_tree.specs.Outcomes.{outcome_certificate};
ghost use Rattle.opt_tree.specs.Shown.{shown};
ghost use Rattle.opt_tree.specs.Verdicts.{IsTrueVerdict};
ghost use Rattle.opt_guide.specs.Relations.{AllowsSame};
ghost use Rattle.opt_search.specs.Outcomes.{best_point, Parts, IsCounted, IsUnfinishedAt, FollowsGuide};
ghost use Rattle.opt_search.specs.State.{IsSound, IsLed, IsComplete, IsFirst, bound_of_leaf};

use crate::conclusion::conclude;
use crate::growth::{grow, settle};
use crate::line::line;
use crate::open_leaves::OpenLeaves;
use crate::state::{State, Task};
use opt_base::OutOfMemory;
use opt_bound::{Leaf, Mult, leaf_at};
use opt_guide::Guide;
use opt_system::System;
use opt_tree::{Outcome, Tree};
use std::alloc::Global;

/// Searches a tree of boxes of at most `limit` nodes for a point of the system whose value lies above a proved lower
/// bound by at most `gap`: branch and bound, led by a guide that is not trusted.
///
/// The guide's multipliers give lower bounds by weak duality, its candidates are weighed, its cuts part the boxes, and
/// it picks the leaf to split next from those that are open, ranked by rising bound and then by number. What it says
/// wrongly is replaced: multipliers that are not admissible by the objective alone; a cut that is none by the halving of
/// the first quantity that has several values; a rank that there is not by 0; a candidate that does not meet the system
/// or is no better than the best point is dropped. `gap` is at least 0, and `limit` from 1 to `NODE_LIMIT`.
pub fn search<G: Guide>(
    alloc: Global,
    system: &System,
    gap: i64,
    limit: u32,
    guide: &mut G,
) -> Result<Outcome, OutOfMemory>
    requires gap_from_zero { pos 0 ≤ℤ gap }
    requires at_least_one { 1 ≤ limit }
    requires few_nodes { limit ≤ NODE_LIMIT }

    // Whatever the guide says.
    ensures true_verdict { IfOk result (λ o. IsTrueVerdict system.now gap o.verdict (best_point o)) }
    ensures shown { IfOk result (λ o. shown system.now gap limit (outcome_certificate o) ≡ Ok o.verdict) }
    ensures certificate { IfOk result (λ o. IsCertificate (outcome_certificate o)) }
    ensures parted { IfOk result (Parts system.now.root) }
    ensures counted { IfOk result (IsCounted (points system.now.root) limit) }
    ensures unfinished { IfOk result (IsUnfinishedAt system.now gap limit) }

    // What is kept of the guide's answers.
    ensures guided { IfOk result (FollowsGuide (G.may_weigh guide.old) (G.may_try guide.old)
        (G.may_cut guide.old) system.now gap) }
    ensures same { AllowsSame (G.may_weigh guide.old) (G.may_weigh guide.new) (G.may_try guide.old)
        (G.may_try guide.new) (G.may_cut guide.old) (G.may_cut guide.new) }
{
    let task = Task { system, gap };
    let mut state = begin(alloc, &task, guide)?;
    while !state.open_leaves.is_empty() && state.tree.nodes() + 2 <= limit {
        grow(alloc, &task, guide, &mut state)?;
    }
    Ok(conclude(state))
}

/// The search of one leaf, the root's box, which is settled.
fn begin<G: Guide>(alloc: Global, task: &Task<'_>, guide: &mut G) -> Result<State, OutOfMemory>
    requires gap_from_zero { pos 0 ≤ℤ task.now.gap }
    ensures sound { IfOk result (IsSound task.now.system.now task.now.gap) }
    ensures complete { IfOk result IsComplete }
    ensures one_node { IfOk result (λ state. length state.tree.nodes ≡ 1) }
    ensures led { IfOk result (λ state. (first : Option (List ℤ))
        × IsLed (G.may_weigh guide.old) (G.may_try guide.old) (G.may_cut guide.old)
        task.now.system.now task.now.gap first state) }
    ensures same { AllowsSame (G.may_weigh guide.old) (G.may_weigh guide.new) (G.may_try guide.old)
        (G.may_try guide.new) (G.may_cut guide.old) (G.may_cut guide.new) }
{
    let range = task.system.root();
    let mult = line(alloc, task.system, range, guide)?;
    let root = mult.copy(alloc)?;
    let mut state = start(alloc, task, root)?;
    settle(alloc, task, guide, &mut state, 0, range, mult)?;
    Ok(state)
}

/// The search of one leaf, the root's box, which is not settled yet, with this root line.
fn start(alloc: Global, task: &Task<'_>, root: Mult) -> Result<State, OutOfMemory>
    requires { IsAdmissible task.now.system.now root }
    ensures first { IfOk result (IsFirst task.now.system.now) }
    ensures root { IfOk result (λ state. state.root ≡ root) }
{
    let _quantities = task.system.quantities();
    let _q = root.q();
    let range = task.system.root();
    let tree = Tree::root(alloc, range)?;
    let root_bound = lower_bound(leaf_at(task.system, range, &root));
    Ok(State {
        tree,
        shown: Vec::new(alloc),
        root,
        root_bound,
        best: None,
        open_leaves: OpenLeaves::new(alloc),
    })
}

/// The lower bound that the root line gives: 0 where it shows that no point meets the rows.
fn lower_bound(leaf: Leaf) -> i128
    ensures { result ≡ bound_of_leaf leaf }
{
    match leaf {
        Leaf::AtLeast(bound) => bound,
        Leaf::Empty => 0,
    }
}
