ghost use Rattle.std.specs.Prelude.{◌≡◌, ◌≤◌, [], ◌∷◌, ◌++◌, IfOk, OnOk};
ghost use Rattle.opt_base.specs.Outside.{HasCause};
ghost use Rattle.opt_model.specs.Plans.{Plan, plan_of};
ghost use Rattle.opt_model.specs.Quantities.{quantities};
ghost use Rattle.opt_model.specs.Tables.{Tables};
ghost use Rattle.opt_reply.specs.Delivery.{standing, faults};
ghost use Rattle.opt_reply.specs.Runs.{Runs};
ghost use Rattle.opt_report.specs.Reports.{AreReportsOf};
ghost use Rattle.opt_rows.specs.Systems.{root_of};
ghost use Rattle.opt_system.specs.Ranges.{IsWithin};
ghost use Rattle.optimus.specs.Auditing.{AnswersPlan};
ghost use Rattle.optimus.specs.Reporting.{sites_path, costs_path, basket_path, written_answer, ReportsPlan, ReportAnswers};

use crate::auditing::{breaches, breaches_reply, read_point};
use crate::folder::read_problem;
use crate::reply::{CommandFault, give, reply_to_fault};
use opt_base::{Blob, OutOfMemory, Point, Shelf, Sink};
use opt_plan::Problem;
use opt_reply::Reply;
use opt_report::{ReportSet, reports};
use std::alloc::Global;

/// Puts the report of the places into a folder.
fn add_sites(
    alloc: Global,
    reply: &mut Reply,
    folder: &str,
    report: Blob,
) -> Result<(), OutOfMemory>
    ensures { OnOk result (reply.new ≡ record reply.old {
      puts = reply.old.puts ++ (sites_path folder.now, report) ∷ [];
    }) }
{
    let path = format!(in alloc; "{folder}/report_sites.csv")?;
    reply.add_put(path.as_str(), report)
}

/// Puts the report of the costs into a folder.
fn add_costs(
    alloc: Global,
    reply: &mut Reply,
    folder: &str,
    report: Blob,
) -> Result<(), OutOfMemory>
    ensures { OnOk result (reply.new ≡ record reply.old {
      puts = reply.old.puts ++ (costs_path folder.now, report) ∷ [];
    }) }
{
    let path = format!(in alloc; "{folder}/report_costs.csv")?;
    reply.add_put(path.as_str(), report)
}

/// Puts the report of the rations and shortfalls into a folder.
fn add_basket(
    alloc: Global,
    reply: &mut Reply,
    folder: &str,
    report: Blob,
) -> Result<(), OutOfMemory>
    ensures { OnOk result (reply.new ≡ record reply.old {
      puts = reply.old.puts ++ (basket_path folder.now, report) ∷ [];
    }) }
{
    let path = format!(in alloc; "{folder}/report_basket.csv")?;
    reply.add_put(path.as_str(), report)
}

/// Puts the three reports into a folder, and says so.
fn written_reply(alloc: Global, folder: &str, reports: ReportSet) -> Result<Reply, OutOfMemory>
    ensures { IfOk result (λ reply. (t : Tables) (plan : Plan) → AreReportsOf t plan reports
        → reply ≡ written_answer folder.now t plan) }
{
    let mut reply = Reply::new(alloc, 0);
    add_sites(alloc, &mut reply, folder, reports.sites)?;
    add_costs(alloc, &mut reply, folder, reports.costs)?;
    add_basket(alloc, &mut reply, folder, reports.basket)?;
    reply.print(b"report written\n")?;
    Ok(reply)
}

/// The reports of a point that breaks no row.
fn reports_reply(
    alloc: Global,
    folder: &str,
    problem: &Problem,
    point: &Point,
) -> Result<Reply, OutOfMemory>
    requires { IsWithin (root_of problem.now) point.now }
    ensures { IfOk result (λ reply. reply
        ≡ written_answer folder.now problem.now (plan_of (quantities problem.now) point.now)) }
{
    let reports = reports(alloc, problem.tables(), problem.layout(), point)?;
    written_reply(alloc, folder, reports)
}

/// What is answered to the plan of a point, which is within the ranges of its quantities.
fn report_point(
    alloc: Global,
    folder: &str,
    problem: &Problem,
    point: &Point,
) -> Result<Reply, OutOfMemory>
    requires { IsWithin (root_of problem.now) point.now }
    ensures reports { IfOk result
        (ReportsPlan folder.now problem.now (plan_of (quantities problem.now) point.now)) }
    ensures status { IfOk result (λ reply. reply.status ≤ 3) }
{
    let broken = breaches(alloc, problem, point)?;
    if broken.is_empty() {
        reports_reply(alloc, folder, problem, point)
    } else {
        breaches_reply(alloc, problem, &broken)
    }
}

/// What is answered to the plan file of a folder with this model.
fn report_model<S: Shelf>(
    alloc: Global,
    folder: &str,
    shelf: &mut S,
    problem: &Problem,
) -> Result<Reply, CommandFault>
    ensures answers { IfOk result (AnswersPlan (S.files shelf.old) folder.now problem.now
        (ReportsPlan folder.now problem.now)) }
    ensures status { IfOk result (λ reply. reply.status ≤ 3) }
    ensures same { S.files shelf.new ≡ S.files shelf.old }
    ensures cause { HasCause CommandFault.Outside (S.count shelf.old) (S.count shelf.new) result }
{
    match read_point(alloc, folder, shelf, problem) {
        Ok(point) => Ok(report_point(alloc, folder, problem, &point)?),
        Err(fault) => reply_to_fault(alloc, fault),
    }
}

/// What `report` answers with.
fn report_reply<S: Shelf>(alloc: Global, folder: &str, shelf: &mut S) -> Result<Reply, CommandFault>
    ensures answers { IfOk result (ReportAnswers (S.files shelf.old) folder.now) }
    ensures status { IfOk result (λ reply. reply.status ≤ 3) }
    ensures same { S.files shelf.new ≡ S.files shelf.old }
    ensures cause { HasCause CommandFault.Outside (S.count shelf.old) (S.count shelf.new) result }
{
    match read_problem(alloc, folder, shelf) {
        Ok(problem) => report_model(alloc, folder, shelf, &problem),
        Err(fault) => reply_to_fault(alloc, fault),
    }
}

/// Reports what the plan file of a folder means, whoever wrote it. Where no row is broken it puts
/// `report_sites.csv`, `report_costs.csv` and `report_basket.csv` into the folder, in this order, and prints
/// `report written`; where one is broken it puts nothing and prints what `run_audit` prints.
///
/// The status is 0 where no row is broken, 1 where one is, 3 where the model or the plan file is refused, with the
/// line of the first refusal on `err`. It is 4 only where the outside failed and 5 where memory ran out: nothing or
/// a first part of one answer was given then.
pub fn run_report<S: Shelf, O: Sink, E: Sink>(
    alloc: Global,
    folder: &str,
    shelf: &mut S,
    out: &mut O,
    err: &mut E,
) -> u8
    ensures runs { Runs (ReportAnswers (S.files shelf.old) folder.now) result
        (standing (S.files shelf.old) (O.stream out.old) (E.stream err.old))
        (standing (S.files shelf.new) (O.stream out.new) (E.stream err.new))
        (faults (S.count shelf.old) (O.count out.old) (E.count err.old))
        (faults (S.count shelf.new) (O.count out.new) (E.count err.new)) }
{
    let reply = report_reply(alloc, folder, shelf);
    give(reply, shelf, out, err)
}
