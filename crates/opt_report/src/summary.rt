//! The summary of a verdict.
ghost use Rattle.std.specs.Prelude.{◌≡◌, ◌≤ℤ◌, IfOk, IfSome, string_bytes};
ghost use Rattle.std.specs.Fmt.{signed_decimal};
ghost use Rattle.serde_json.specs.View.{view};
ghost use Rattle.opt_base.specs.declared.verdict.Verdict.TheVariants.{Plan, NoPlan, Unfinished};
ghost use Rattle.opt_report.specs.Summaries.{IsShown, IsSummed, plan_object, goal_word, best_of, summary_of, summary_text};

use opt_base::{Blob, OutOfMemory, Verdict};
use opt_model::Goal;
use serde_json::{Value, json};
use std::alloc::{AllocError, Global};

/// What a goal is called.
fn goal_word(goal: Goal) -> &'static str
    ensures { result.now ≡ goal_word goal }
{
    match goal {
        Goal::Cost => "cost",
        Goal::Shortfall => "shortfall",
    }
}

/// The summary of a plan, whose numbers are given as texts of digits.
fn plan_object(
    alloc: Global,
    bound: &str,
    gap: &str,
    goal: &str,
    nodes: u32,
    objective: &str,
) -> Result<Value, AllocError>
    ensures { IfOk result (λ value. view value
        ≡ plan_object bound.now gap.now goal.now nodes objective.now) }
{
    json!(in alloc; {
        "bound": bound,
        "gap": gap,
        "goal": goal,
        "nodes": nodes,
        "objective": objective,
        "verdict": "plan"
    })
}

/// The summary of a plan of this objective and bound.
fn plan_summary(
    alloc: Global,
    goal: Goal,
    objective: &i128,
    bound: &i128,
    nodes: u32,
) -> Result<Value, AllocError>
    requires { IsSummed (Plan objective.now bound.now) }
    ensures { IfOk result (λ value. view value
        ≡ summary_of goal (Plan objective.now bound.now) nodes) }
{
    let gap = (*objective - *bound).to_string(alloc)?;
    let objective = objective.to_string(alloc)?;
    let bound = bound.to_string(alloc)?;
    plan_object(alloc, &bound, &gap, goal_word(goal), nodes, &objective)
}

/// The summary where no plan is feasible.
fn no_plan_summary(alloc: Global, goal: Goal, nodes: u32) -> Result<Value, AllocError>
    ensures { IfOk result (λ value. view value ≡ summary_of goal NoPlan nodes) }
{
    let goal = goal_word(goal);
    json!(in alloc; {"goal": goal, "nodes": nodes, "verdict": "no plan"})
}

/// The best known objective, or null.
fn best_of(alloc: Global, best: Option<i128>) -> Result<Value, AllocError>
    ensures { IfOk result (λ value. view value ≡ best_of best) }
{
    match best {
        Some(best) => {
            let best = best.to_string(alloc)?;
            Ok(Value::String(best))
        }
        None => Ok(Value::Null),
    }
}

/// The summary of a search that stopped early.
fn unfinished_summary(
    alloc: Global,
    goal: Goal,
    bound: &i128,
    best: Option<i128>,
    nodes: u32,
) -> Result<Value, AllocError>
    ensures { IfOk result (λ value. view value
        ≡ summary_of goal (Unfinished bound.now best) nodes) }
{
    let goal = goal_word(goal);
    let best = best_of(alloc, best)?;
    let bound = bound.to_string(alloc)?;
    json!(in alloc; {
        "best": best,
        "bound": bound,
        "goal": goal,
        "nodes": nodes,
        "verdict": "unfinished"
    })
}

/// The summary of a verdict.
fn summary_of(alloc: Global, goal: Goal, verdict: &Verdict, nodes: u32) -> Result<Value, AllocError>
    requires { IsSummed verdict.now }
    ensures { IfOk result (λ value. view value ≡ summary_of goal verdict.now nodes) }
{
    match verdict {
        Verdict::Plan { objective, bound } => plan_summary(alloc, goal, objective, bound, nodes),
        Verdict::NoPlan => no_plan_summary(alloc, goal, nodes),
        Verdict::Unfinished { bound, best } => {
            unfinished_summary(alloc, goal, bound, *best, nodes)
        }
    }
}

/// The summary of a verdict: one object of JSON on one line, its keys in the order of their bytes. Objective, bound, gap
/// and best are texts of digits, since they may pass 64 bits.
///
/// The verdict's numbers are from 0 to 2^126, and the bound of a plan is at most its objective.
pub fn summary_json(
    alloc: Global,
    goal: Goal,
    verdict: &Verdict,
    nodes: u32,
) -> Result<Blob, OutOfMemory>
    requires { IsSummed verdict.now }
    ensures { IfOk result (λ blob. blob ≡ summary_text goal verdict.now nodes) }
{
    let summary = summary_of(alloc, goal, verdict, nodes)?;
    let mut text = summary.to_string(alloc)?;
    text.push_str("\n")?;
    Blob::from_slice(alloc, text.as_bytes())
}
