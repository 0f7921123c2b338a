ghost use Rattle.std.specs.Prelude.{◌≡◌, ◌≤◌, IfOk};
ghost use Rattle.opt_base.specs.Outside.{HasCause};
ghost use Rattle.opt_plan.specs.Problems.{IsOutcomeFor};
ghost use Rattle.opt_reply.specs.Delivery.{standing, faults};
ghost use Rattle.opt_reply.specs.Runs.{Runs};
ghost use Rattle.optimus.specs.Planning.{FollowsDives, IsReadable, PlansModel, PlanAnswers};

use crate::folder::read_problem;
use crate::outcome_reply::reply_to_outcome;
use crate::reply::{CommandFault, give, reply_to_fault};
use opt_base::{OutOfMemory, Shelf, Sink};
use opt_dive::DiveGuide;
use opt_plan::Problem;
use opt_reply::Reply;
use opt_tree::Outcome;
use std::alloc::Global;

/// Plans a model with the guide that dives from the optima of its boxes.
fn outcome_of(alloc: Global, problem: &Problem) -> Result<Outcome, OutOfMemory>
    ensures proved { IfOk result (IsOutcomeFor problem.now) }
    ensures guided { IfOk result (FollowsDives problem.now) }
    ensures readable { IfOk result IsReadable }
{
    // These calls say how large the model is.
    let _rows = problem.system().rows();
    let _limit = problem.node_limit();
    let mut guide = DiveGuide::new(alloc, problem.layout().rations());
    problem.plan(alloc, &mut guide)
}

/// Plans a model, and gives its outcome.
fn plan_model(alloc: Global, folder: &str, problem: &Problem) -> Result<Reply, OutOfMemory>
    ensures plans { IfOk result (PlansModel folder.now problem.now) }
    ensures status { IfOk result (λ reply. reply.status ≤ 3) }
{
    let outcome = outcome_of(alloc, problem)?;
    reply_to_outcome(alloc, folder, problem, &outcome)
}

/// What `plan` answers with.
fn plan_reply<S: Shelf>(alloc: Global, folder: &str, shelf: &mut S) -> Result<Reply, CommandFault>
    ensures answers { IfOk result (PlanAnswers (S.files shelf.old) folder.now) }
    ensures status { IfOk result (λ reply. reply.status ≤ 3) }
    ensures same { S.files shelf.new ≡ S.files shelf.old }
    ensures cause { HasCause CommandFault.Outside (S.count shelf.old) (S.count shelf.new) result }
{
    match read_problem(alloc, folder, shelf) {
        Ok(problem) => Ok(plan_model(alloc, folder, &problem)?),
        Err(fault) => reply_to_fault(alloc, fault),
    }
}

/// Plans the model of a folder. It puts `certificate.txt`, `plan.csv` and `summary.json` into the folder, in this
/// order, and prints the verdict's line. `plan.csv` holds no byte where no plan is known. All is computed before
/// the first put.
///
/// The status is 0 where the plan's objective lies above a proved lower bound by at most the permitted gap, 1 where
/// no feasible plan exists, 2 where the limit of nodes was reached before, 3 where the model is refused, with the
/// refusal's line on `err`. It is 4 only where the outside failed and 5 where memory ran out: nothing or a first
/// part of one answer was given then.
pub fn run_plan<S: Shelf, O: Sink, E: Sink>(
    alloc: Global,
    folder: &str,
    shelf: &mut S,
    out: &mut O,
    err: &mut E,
) -> u8
    ensures runs { Runs (PlanAnswers (S.files shelf.old) folder.now) result
        (standing (S.files shelf.old) (O.stream out.old) (E.stream err.old))
        (standing (S.files shelf.new) (O.stream out.new) (E.stream err.new))
        (faults (S.count shelf.old) (O.count out.old) (E.count err.old))
        (faults (S.count shelf.new) (O.count out.new) (E.count err.new)) }
{
    let reply = plan_reply(alloc, folder, shelf);
    give(reply, shelf, out, err)
}
