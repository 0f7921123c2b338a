ghost use Rattle.std.specs.Prelude.{pos, ◌≤ℤ◌, ◌≤◌, IfOk};
ghost use Rattle.opt_guide.specs.Relations.{AllowsSame};
ghost use Rattle.opt_search.specs.Outcomes.{FollowsGuide};
ghost use Rattle.opt_tree.specs.declared.limits.TheConstants.{NODE_LIMIT};
ghost use Rattle.opt_plan.specs.Outcomes.{IsTrueOfAsked, DecidesAsked, IsProved};

use opt_base::OutOfMemory;
use opt_guide::Guide;
use opt_search::search;
use opt_system::System;
use opt_tree::Outcome;
use std::alloc::Global;

/// Plans a system with a guide that is not trusted, in at most `limit` nodes: a plan whose objective lies above a proved
/// lower bound by at most `gap`, that there is no plan, or how far the search came.
///
/// The system is that of a model under a goal and, maybe, a cap, over the root of the model or a narrower one; `gap` is
/// from 0 on, in units of the goal, and `limit` from 1 to `NODE_LIMIT`. What is said of plans is said of the model's own,
/// by the numbers of its quantities.
pub fn plan_system<G: Guide>(
    alloc: Global,
    system: &System,
    gap: i64,
    limit: u32,
    guide: &mut G,
) -> Result<Outcome, OutOfMemory>
    requires gap_from_zero { pos 0 ≤ℤ gap }
    requires at_least_one { 1 ≤ limit }
    requires few_nodes { limit ≤ NODE_LIMIT }

    // Whatever the guide says.
    ensures true_verdict { IfOk result (IsTrueOfAsked system.now gap) }
    ensures decided { IfOk result (DecidesAsked system.now limit) }
    ensures proved { IfOk result (IsProved system.now gap limit) }

    // What is kept of the guide's answers.
    ensures guided { IfOk result (FollowsGuide (G.may_weigh guide.old) (G.may_try guide.old)
        (G.may_cut guide.old) system.now gap) }
    ensures same { AllowsSame (G.may_weigh guide.old) (G.may_weigh guide.new) (G.may_try guide.old)
        (G.may_try guide.new) (G.may_cut guide.old) (G.may_cut guide.new) }
{
    // The call says that the system is within its limits.
    let _quantities = system.quantities();
    search(alloc, system, gap, limit, guide)
}
