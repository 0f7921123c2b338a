//! What is given of a verdict: its status and its line; of the outcome of a plan also three files.
ghost use Rattle.std.specs.Prelude.{◌≡◌, ◌++◌, IfOk, IfSome, OnOk};
ghost use Rattle.opt_base.specs.declared.refusal.File.TheVariants.{Certificate, Plan};
ghost use Rattle.opt_cert.specs.Texts.{certificate_text};
ghost use Rattle.opt_model.specs.Texts.{outcome_line};
ghost use Rattle.opt_plan.specs.Problems.{IsOutcomeFor};
ghost use Rattle.opt_report.specs.Summaries.{IsSummed, summary_text};
ghost use Rattle.opt_rows.specs.Systems.{root_of};
ghost use Rattle.opt_system.specs.Ranges.{IsWithin};
ghost use Rattle.opt_tables.specs.Files.{path_of};
ghost use Rattle.opt_tree.specs.Outcomes.{outcome_certificate};
ghost use Rattle.optimus.specs.Answers.{printed_answer};
ghost use Rattle.optimus.specs.Verdicts.{status_of, nodes_of, plan_file_of, summary_path, with_put, with_outcome, outcome_answer};

use crate::folder::path;
use crate::lines::line_of_verdict;
use crate::reply::printed_reply;
use opt_base::{Blob, File, OutOfMemory, Point};
use opt_cert::write;
use opt_model::Verdict;
use opt_plan::Problem;
use opt_reply::Reply;
use opt_report::{plan_text, summary_json};
use opt_tree::Outcome;
use std::alloc::Global;

/// The status of a verdict: 0 for a plan, 1 for no plan, 2 where the search is unfinished.
fn status_of_verdict(verdict: &Verdict) -> u8
    ensures { result ≡ status_of verdict.now }
{
    match verdict {
        Verdict::Plan { .. } => 0,
        Verdict::NoPlan => 1,
        Verdict::Unfinished { .. } => 2,
    }
}

/// The status and the line of a verdict with so many nodes.
pub fn verdict_reply(alloc: Global, verdict: &Verdict, nodes: u32) -> Result<Reply, OutOfMemory>
    requires { IsSummed verdict.now }
    ensures { IfOk result (λ reply. reply
        ≡ printed_answer (status_of verdict.now) (outcome_line verdict.now nodes)) }
{
    let line = line_of_verdict(alloc, verdict, nodes)?;
    printed_reply(alloc, status_of_verdict(verdict), line.as_bytes())
}

/// The plan file of the best point; it holds no byte where none is known.
fn plan_file(alloc: Global, problem: &Problem, best: &Option<Point>) -> Result<Blob, OutOfMemory>
    requires { IfSome best.now (IsWithin (root_of problem.now)) }
    ensures { IfOk result (λ file. file ≡ plan_file_of problem.now best.now) }
{
    match best {
        Some(point) => plan_text(alloc, problem.tables(), problem.layout(), point),
        None => Blob::from_slice(alloc, &[]),
    }
}

/// Puts the certificate of an outcome into a folder.
fn add_certificate(
    alloc: Global,
    reply: &mut Reply,
    folder: &str,
    outcome: &Outcome,
) -> Result<(), OutOfMemory>
    ensures { OnOk result (reply.new ≡ with_put reply.old
        (path_of folder.now Certificate) (certificate_text (outcome_certificate outcome.now))) }
{
    let path = path(alloc, folder, File::Certificate)?;
    reply.add_put(path.as_str(), write(alloc, outcome)?)
}

/// Puts the plan file of an outcome into a folder.
fn add_plan_file(
    alloc: Global,
    reply: &mut Reply,
    folder: &str,
    problem: &Problem,
    outcome: &Outcome,
) -> Result<(), OutOfMemory>
    requires { IfSome outcome.now.best (IsWithin (root_of problem.now)) }
    ensures { OnOk result (reply.new ≡ with_put reply.old
        (path_of folder.now Plan) (plan_file_of problem.now outcome.now.best)) }
{
    let path = path(alloc, folder, File::Plan)?;
    reply.add_put(path.as_str(), plan_file(alloc, problem, &outcome.best)?)
}

/// Puts the summary of an outcome into a folder.
fn add_summary(
    alloc: Global,
    reply: &mut Reply,
    folder: &str,
    problem: &Problem,
    outcome: &Outcome,
) -> Result<(), OutOfMemory>
    requires { IsSummed outcome.now.verdict }
    ensures { OnOk result (reply.new ≡ with_put reply.old (summary_path folder.now)
        (summary_text problem.now.settings.goal outcome.now.verdict (nodes_of outcome.now))) }
{
    let path = format!(in alloc; "{folder}/summary.json")?;
    let goal = problem.tables().settings().goal();
    let summary = summary_json(alloc, goal, &outcome.verdict, outcome.tree.nodes())?;
    reply.add_put(path.as_str(), summary)
}

/// Adds to a reply what is given of an outcome of the model: its certificate, its plan file and its summary, in
/// this order, for the folder, and the verdict's line.
pub fn add_outcome(
    alloc: Global,
    reply: &mut Reply,
    folder: &str,
    problem: &Problem,
    outcome: &Outcome,
) -> Result<(), OutOfMemory>
    requires { IsOutcomeFor problem.now outcome.now }
    ensures { OnOk result (reply.new ≡ with_outcome reply.old folder.now problem.now outcome.now) }
{
    add_certificate(alloc, reply, folder, outcome)?;
    add_plan_file(alloc, reply, folder, problem, outcome)?;
    add_summary(alloc, reply, folder, problem, outcome)?;
    let line = line_of_verdict(alloc, &outcome.verdict, outcome.tree.nodes())?;
    reply.print(line.as_bytes())
}

/// The answer to an outcome of the model: its files and its line.
pub fn reply_to_outcome(
    alloc: Global,
    folder: &str,
    problem: &Problem,
    outcome: &Outcome,
) -> Result<Reply, OutOfMemory>
    requires { IsOutcomeFor problem.now outcome.now }
    ensures { IfOk result (λ reply. reply ≡ outcome_answer folder.now problem.now outcome.now) }
{
    let mut reply = Reply::new(alloc, status_of_verdict(&outcome.verdict));
    add_outcome(alloc, &mut reply, folder, problem, outcome)?;
    Ok(reply)
}
