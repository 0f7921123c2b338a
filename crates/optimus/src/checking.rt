ghost use Rattle.std.specs.Prelude.{◌≡◌, ◌≤◌, ◌<◌, ◌^◌, IfOk, length};
ghost use Rattle.opt_base.specs.Outside.{HasCause};
ghost use Rattle.opt_base.specs.declared.refusal.File.TheVariants.{Certificate};
ghost use Rattle.opt_check.specs.Lines.{cert_fault_line, check_fault_line};
ghost use Rattle.opt_reply.specs.Answer.{Answer};
ghost use Rattle.opt_reply.specs.Delivery.{standing, faults};
ghost use Rattle.opt_reply.specs.Runs.{Runs};
ghost use Rattle.opt_report.specs.Summaries.{IsSummed};
ghost use Rattle.optimus.specs.declared.limits.TheConstants.{CERTIFICATE_LIMIT as MOST};
ghost use Rattle.optimus.specs.Answers.{refused_with, AnswersFile};
ghost use Rattle.optimus.specs.Checking.{IsAnswerTo, ChecksText, CheckAnswers};

use crate::folder::{find, read_problem};
use crate::limits::CERTIFICATE_LIMIT;
use crate::outcome_reply::verdict_reply;
use crate::reply::{CommandFault, give, refusal_reply, reply_to_fault};
use opt_base::{File, OutOfMemory, Shelf, Sink};
use opt_cert::CertFault;
use opt_check::{
    BytesFault, CheckFault, Verdict, check_bytes, line_of_cert_fault, line_of_check_fault,
};
use opt_plan::Problem;
use opt_reply::Reply;
use std::alloc::Global;

/// The answer to bytes that are no certificate's text.
fn reply_to_cert_fault(alloc: Global, fault: CertFault) -> Result<Reply, OutOfMemory>
    ensures { IfOk result (λ reply. reply ≡ refused_with (cert_fault_line fault)) }
{
    let line = line_of_cert_fault(alloc, fault)?;
    refusal_reply(alloc, line.as_bytes())
}

/// The answer to a certificate that does not show its verdict.
fn reply_to_check_fault(alloc: Global, fault: CheckFault) -> Result<Reply, OutOfMemory>
    ensures { IfOk result (λ reply. reply ≡ refused_with (check_fault_line fault)) }
{
    let line = line_of_check_fault(alloc, fault)?;
    refusal_reply(alloc, line.as_bytes())
}

/// What the bytes of a certificate file, fewer than 2^32, show of a model: a verdict with the number of nodes, or
/// the first fault.
fn judge(alloc: Global, problem: &Problem, bytes: &[u8]) -> Result<(Verdict, u32), BytesFault>
    requires { length bytes.now < 2 ^ 32 }
    ensures checks { (answer : Answer) → IsAnswerTo result answer
        → ChecksText problem.now bytes.now answer }
    ensures summed { IfOk result (λ shown. IsSummed shown.0) }
{
    let system = problem.system();
    let _quantities = system.quantities();
    let gap = problem.tables().settings().gap();
    check_bytes(alloc, system, gap, problem.node_limit(), bytes)
}

/// What is answered to the bytes of a certificate file, which are fewer than 2^32.
fn check_text(alloc: Global, problem: &Problem, bytes: &[u8]) -> Result<Reply, OutOfMemory>
    requires { length bytes.now < 2 ^ 32 }
    ensures checks { IfOk result (ChecksText problem.now bytes.now) }
    ensures status { IfOk result (λ reply. reply.status ≤ 3) }
{
    match judge(alloc, problem, bytes) {
        Ok((verdict, nodes)) => verdict_reply(alloc, &verdict, nodes),
        Err(BytesFault::Cert(fault)) => reply_to_cert_fault(alloc, fault),
        Err(BytesFault::Check(fault)) => reply_to_check_fault(alloc, fault),
        Err(BytesFault::OutOfMemory) => Err(OutOfMemory),
    }
}

/// What is answered to the certificate of a folder with this model.
fn check_model<S: Shelf>(
    alloc: Global,
    folder: &str,
    shelf: &mut S,
    problem: &Problem,
) -> Result<Reply, CommandFault>
    ensures answers { IfOk result (AnswersFile (S.files shelf.old) folder.now Certificate MOST
        (ChecksText problem.now)) }
    ensures status { IfOk result (λ reply. reply.status ≤ 3) }
    ensures same { S.files shelf.new ≡ S.files shelf.old }
    ensures cause { HasCause CommandFault.Outside (S.count shelf.old) (S.count shelf.new) result }
{
    match find(alloc, folder, shelf, File::Certificate, CERTIFICATE_LIMIT) {
        Ok(bytes) => Ok(check_text(alloc, problem, bytes.as_slice())?),
        Err(fault) => reply_to_fault(alloc, fault),
    }
}

/// What `check` answers with.
fn check_reply<S: Shelf>(alloc: Global, folder: &str, shelf: &mut S) -> Result<Reply, CommandFault>
    ensures answers { IfOk result (CheckAnswers (S.files shelf.old) folder.now) }
    ensures status { IfOk result (λ reply. reply.status ≤ 3) }
    ensures same { S.files shelf.new ≡ S.files shelf.old }
    ensures cause { HasCause CommandFault.Outside (S.count shelf.old) (S.count shelf.new) result }
{
    match read_problem(alloc, folder, shelf) {
        Ok(problem) => check_model(alloc, folder, shelf, &problem),
        Err(fault) => reply_to_fault(alloc, fault),
    }
}

/// Judges the certificate of a folder against the folder's model, whoever wrote it, and prints the line of the
/// verdict that it shows. Nothing is put.
///
/// The status is 0 for a plan, 1 for no plan, 2 for an unfinished search, 3 where the model or the certificate is
/// refused, with the line of the first refusal on `err`. The verdict is true of the model with the plan that the
/// certificate lists. The status is 4 only where the outside failed and 5 where memory ran out: nothing or a first
/// part of one answer was given then.
pub fn run_check<S: Shelf, O: Sink, E: Sink>(
    alloc: Global,
    folder: &str,
    shelf: &mut S,
    out: &mut O,
    err: &mut E,
) -> u8
    ensures runs { Runs (CheckAnswers (S.files shelf.old) folder.now) result
        (standing (S.files shelf.old) (O.stream out.old) (E.stream err.old))
        (standing (S.files shelf.new) (O.stream out.new) (E.stream err.new))
        (faults (S.count shelf.old) (O.count out.old) (E.count err.old))
        (faults (S.count shelf.new) (O.count out.new) (E.count err.new)) }
{
    let reply = check_reply(alloc, folder, shelf);
    give(reply, shelf, out, err)
}
