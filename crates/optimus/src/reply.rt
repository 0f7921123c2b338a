//! What a command answers with, or why it has no answer.
ghost use Rattle.std.specs.Prelude.{◌≡◌, ◌≤◌, IfOk};
ghost use Rattle.opt_reply.specs.Delivery.{standing, faults};
ghost use Rattle.optimus.specs.Answers.{refused_with, refused_answer, printed_answer, RepliesTo, Given};

use crate::lines::line_of_refusal;
use opt_base::{OutOfMemory, Refusal, Shelf, Sink};
use opt_reply::{MEMORY, OUTSIDE, Reply, deliver};
use opt_tables::FetchFault;
use std::alloc::Global;

/// Why a command has no answer.
#[derive(Clone, Copy, Debug, PartialEq, Eq)]
pub enum CommandFault {
    /// The outside failed, and its count of faults rose.
    Outside,
    OutOfMemory,
}

impl From<OutOfMemory> for CommandFault {
    ghost use Rattle.optimus.specs.declared.reply.CommandFault.TheVariants.{OutOfMemory as MemoryFault};

    ghost from_gives = { λ _ fault. fault ≡ MemoryFault };

    fn from(_refused: OutOfMemory) -> CommandFault {
        CommandFault::OutOfMemory
    }
}

/// The answer to a refusal of the model or of a plan file: its line on `err`.
fn reply_to_refusal(alloc: Global, refusal: &Refusal) -> Result<Reply, OutOfMemory>
    ensures { IfOk result (λ reply. reply ≡ refused_answer refusal.now) }
{
    let line = line_of_refusal(alloc, refusal)?;
    refusal_reply(alloc, line.as_bytes())
}

/// A refusal with this line on `err`.
pub fn refusal_reply(alloc: Global, line: &[u8]) -> Result<Reply, OutOfMemory>
    ensures { IfOk result (λ reply. reply ≡ refused_with line.now) }
{
    let mut reply = Reply::new(alloc, 3);
    reply.refuse(line)?;
    Ok(reply)
}

/// An answer of this status with these lines on `out`.
pub fn printed_reply(alloc: Global, status: u8, lines: &[u8]) -> Result<Reply, OutOfMemory>
    ensures { IfOk result (λ reply. reply ≡ printed_answer status lines.now) }
{
    let mut reply = Reply::new(alloc, status);
    reply.print(lines)?;
    Ok(reply)
}

/// The answer to a fault of what was read: a refusal is answered with its line.
pub fn reply_to_fault(alloc: Global, fault: FetchFault) -> Result<Reply, CommandFault>
    ensures { RepliesTo fault result }
{
    match fault {
        FetchFault::Refused(refusal) => Ok(reply_to_refusal(alloc, &refusal)?),
        FetchFault::Outside => Err(CommandFault::Outside),
        FetchFault::OutOfMemory => Err(CommandFault::OutOfMemory),
    }
}

/// Gives what a command answers with, or ends with the status of what it stopped at.
pub fn give<S: Shelf, O: Sink, E: Sink>(
    reply: Result<Reply, CommandFault>,
    shelf: &mut S,
    out: &mut O,
    err: &mut E,
) -> u8
    requires { IfOk reply (λ answer. answer.status ≤ 3) }
    ensures { Given reply result
        (standing (S.files shelf.old) (O.stream out.old) (E.stream err.old))
        (standing (S.files shelf.new) (O.stream out.new) (E.stream err.new))
        (faults (S.count shelf.old) (O.count out.old) (E.count err.old))
        (faults (S.count shelf.new) (O.count out.new) (E.count err.new)) }
{
    match reply {
        Ok(reply) => deliver(&reply, shelf, out, err),
        Err(CommandFault::Outside) => OUTSIDE,
        Err(CommandFault::OutOfMemory) => MEMORY,
    }
}
