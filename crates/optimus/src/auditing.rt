ghost use Rattle.std.specs.Prelude.{◌≡◌, ◌≢◌, ◌≤◌, ◌<◌, ◌^◌, ◌↔◌, [], All, Err, IfOk, length};
ghost use Rattle.opt_base.specs.Outside.{HasCause};
ghost use Rattle.opt_model.specs.Plans.{Feasible, plan_of};
ghost use Rattle.opt_model.specs.Quantities.{quantities};
ghost use Rattle.opt_model.specs.Rows.{rows};
ghost use Rattle.opt_reply.specs.Delivery.{standing, faults};
ghost use Rattle.opt_reply.specs.Runs.{Runs};
ghost use Rattle.opt_report.specs.Audits.{audit_text as text_of};
ghost use Rattle.opt_report.specs.Broken.{breaches_of};
ghost use Rattle.opt_report.specs.PlanFiles.{plan_values};
ghost use Rattle.opt_rows.specs.Systems.{root_of};
ghost use Rattle.opt_system.specs.Ranges.{IsWithin};
ghost use Rattle.opt_tables.specs.Fetched.{IsGot};
ghost use Rattle.optimus.specs.Answers.{printed_answer};
ghost use Rattle.optimus.specs.Folder.{Brings};
ghost use Rattle.optimus.specs.Auditing.{IsPlanIn, AnswersPlan, status_with, AuditsPlan, AuditAnswers};

use crate::folder::{fetch_fault, find, read_problem};
use crate::limits::PLAN_LIMIT;
use crate::reply::{CommandFault, give, printed_reply, reply_to_fault};
use opt_base::{Blob, File, OutOfMemory, Point, Shelf, Sink};
use opt_plan::Problem;
use opt_reply::Reply;
use opt_report::{Broken, audit_text, broken_rows, read_plan};
use opt_tables::FetchFault;
use std::alloc::Global;

/// The point that the bytes of a plan file stand for, or the first refusal.
///
/// The file has fewer than 2^32 bytes.
fn point_of(alloc: Global, problem: &Problem, bytes: &Blob) -> Result<Point, FetchFault>
    requires { length bytes.now < 2 ^ 32 }
    ensures exact { IsGot (λ point. point) result (plan_values problem.now bytes.now) }
    ensures within { IfOk result (IsWithin (root_of problem.now)) }
    ensures inside { result ≢ Err FetchFault.Outside }
{
    match read_plan(alloc, problem.tables(), problem.layout(), bytes.as_slice()) {
        Ok(point) => Ok(point),
        Err(fault) => Err(fetch_fault(fault)),
    }
}

/// The point that the plan file of a folder stands for, or the first refusal.
pub fn read_point<S: Shelf>(
    alloc: Global,
    folder: &str,
    shelf: &mut S,
    problem: &Problem,
) -> Result<Point, FetchFault>
    ensures plan { Brings (IsPlanIn (S.files shelf.old) folder.now problem.now) result }
    ensures within { IfOk result (IsWithin (root_of problem.now)) }
    ensures same { S.files shelf.new ≡ S.files shelf.old }
    ensures cause { HasCause FetchFault.Outside (S.count shelf.old) (S.count shelf.new) result }
{
    match find(alloc, folder, shelf, File::Plan, PLAN_LIMIT) {
        Ok(bytes) => point_of(alloc, problem, &bytes),
        Err(fault) => Err(fault),
    }
}

/// The rows that a point breaks, which is within the ranges of its quantities.
pub fn breaches(alloc: Global, problem: &Problem, point: &Point) -> Result<Broken, OutOfMemory>
    requires { IsWithin (root_of problem.now) point.now }
    ensures value { IfOk result (λ broken. broken
        ≡ breaches_of problem.now (plan_of (quantities problem.now) point.now)) }
    ensures few { IfOk result (All (λ row. row.0 < length (rows problem.now))) }
    ensures feasible { IfOk result (λ broken. (broken ≡ [])
        ↔ Feasible problem.now (plan_of (quantities problem.now) point.now)) }
{
    broken_rows(alloc, problem.system(), point)
}

/// The status of a plan that breaks these rows: 0 where there is none, else 1.
fn status_with(broken: &Broken) -> u8
    ensures { result ≡ status_with broken.now }
{
    if broken.is_empty() { 0 } else { 1 }
}

/// The broken rows of a plan and their count.
pub fn breaches_reply(
    alloc: Global,
    problem: &Problem,
    broken: &Broken,
) -> Result<Reply, OutOfMemory>
    requires { All (λ row. row.0 < length (rows problem.now)) broken.now }
    ensures { IfOk result (λ reply. reply
        ≡ printed_answer (status_with broken.now) (text_of problem.now broken.now)) }
{
    let lines = audit_text(alloc, problem.tables(), broken)?;
    printed_reply(alloc, status_with(broken), lines.as_bytes())
}

/// What is answered to the plan of a point, which is within the ranges of its quantities.
fn audit_point(alloc: Global, problem: &Problem, point: &Point) -> Result<Reply, OutOfMemory>
    requires { IsWithin (root_of problem.now) point.now }
    ensures audits { IfOk result
        (AuditsPlan problem.now (plan_of (quantities problem.now) point.now)) }
    ensures status { IfOk result (λ reply. reply.status ≤ 3) }
{
    let broken = breaches(alloc, problem, point)?;
    breaches_reply(alloc, problem, &broken)
}

/// What is answered to the plan file of a folder with this model.
fn audit_model<S: Shelf>(
    alloc: Global,
    folder: &str,
    shelf: &mut S,
    problem: &Problem,
) -> Result<Reply, CommandFault>
    ensures answers { IfOk result (AnswersPlan (S.files shelf.old) folder.now problem.now
        (AuditsPlan problem.now)) }
    ensures status { IfOk result (λ reply. reply.status ≤ 3) }
    ensures same { S.files shelf.new ≡ S.files shelf.old }
    ensures cause { HasCause CommandFault.Outside (S.count shelf.old) (S.count shelf.new) result }
{
    match read_point(alloc, folder, shelf, problem) {
        Ok(point) => Ok(audit_point(alloc, problem, &point)?),
        Err(fault) => reply_to_fault(alloc, fault),
    }
}

/// What `audit` answers with.
fn audit_reply<S: Shelf>(alloc: Global, folder: &str, shelf: &mut S) -> Result<Reply, CommandFault>
    ensures answers { IfOk result (AuditAnswers (S.files shelf.old) folder.now) }
    ensures status { IfOk result (λ reply. reply.status ≤ 3) }
    ensures same { S.files shelf.new ≡ S.files shelf.old }
    ensures cause { HasCause CommandFault.Outside (S.count shelf.old) (S.count shelf.new) result }
{
    match read_problem(alloc, folder, shelf) {
        Ok(problem) => audit_model(alloc, folder, shelf, &problem),
        Err(fault) => reply_to_fault(alloc, fault),
    }
}

/// Holds the plan file of a folder against each row of the folder's model, whoever wrote it. It prints a line for
/// each row that the plan does not meet, with the distance of the row's sum from its right-hand side, and a last
/// line with their count. Nothing is put.
///
/// The status is 0 where no row is broken, 1 where one is, 3 where the model or the plan file is refused, with the
/// line of the first refusal on `err`. It is 4 only where the outside failed and 5 where memory ran out: nothing or
/// a first part of one answer was given then.
pub fn run_audit<S: Shelf, O: Sink, E: Sink>(
    alloc: Global,
    folder: &str,
    shelf: &mut S,
    out: &mut O,
    err: &mut E,
) -> u8
    ensures runs { Runs (AuditAnswers (S.files shelf.old) folder.now) result
        (standing (S.files shelf.old) (O.stream out.old) (E.stream err.old))
        (standing (S.files shelf.new) (O.stream out.new) (E.stream err.new))
        (faults (S.count shelf.old) (O.count out.old) (E.count err.old))
        (faults (S.count shelf.new) (O.count out.new) (E.count err.new)) }
{
    let reply = audit_reply(alloc, folder, shelf);
    give(reply, shelf, out, err)
}
