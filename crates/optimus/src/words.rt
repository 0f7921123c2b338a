//! The top call: which command the words ask for.
ghost use Rattle.std.specs.Prelude.{◌≡◌, ◌≤◌, map, string_bytes, IfOk, option_map};
ghost use Rattle.opt_reply.specs.Delivery.{standing, faults, Delivers};
ghost use Rattle.opt_reply.specs.Runs.{Runs};
ghost use Rattle.optimus.specs.Words.{is_folder, form_of, refused_words, CommandAnswers, WordsAnswers};

use crate::auditing::run_audit;
use crate::checking::run_check;
use crate::command::{Command, command_named};
use crate::planning::run_plan;
use crate::reply::refusal_reply;
use crate::reporting::run_report;
use opt_base::{OutOfMemory, Shelf, Sink};
use opt_reply::{MEMORY, Reply, deliver};
use std::alloc::Global;

/// Whether a word can name a folder: it is not empty and does not begin with a dash.
fn is_folder(word: &str) -> bool
    ensures { result ≡ is_folder word.now }
{
    match word.as_bytes().first() {
        Some(byte) => *byte != b'-',
        None => false,
    }
}

/// The command and the folder that the words name, where they are a form of the program.
fn form_of(words: &[String]) -> Option<(Command, &str)>
    ensures { option_map (λ form. (form.0, form.1.now)) result ≡ form_of (map string_bytes words.now) }
{
    let [name, folder] = words else {
        return None;
    };
    if !is_folder(folder.as_str()) {
        return None;
    }
    let command = command_named(name.as_str())?;
    Some((command, folder.as_str()))
}

/// Refuses words that are no form.
fn refuse_words<S: Shelf, O: Sink, E: Sink>(
    alloc: Global,
    shelf: &mut S,
    out: &mut O,
    err: &mut E,
) -> u8
    ensures runs { Runs (λ answer. answer ≡ refused_words) result
        (standing (S.files shelf.old) (O.stream out.old) (E.stream err.old))
        (standing (S.files shelf.new) (O.stream out.new) (E.stream err.new))
        (faults (S.count shelf.old) (O.count out.old) (E.count err.old))
        (faults (S.count shelf.new) (O.count out.new) (E.count err.new)) }
{
    match refusal_reply(alloc, b"refused words\n") {
        Ok(reply) => deliver(&reply, shelf, out, err),
        Err(OutOfMemory) => MEMORY,
    }
}

/// Runs a command on a folder.
fn run<S: Shelf, O: Sink, E: Sink>(
    alloc: Global,
    command: Command,
    folder: &str,
    shelf: &mut S,
    out: &mut O,
    err: &mut E,
) -> u8
    ensures runs { Runs (CommandAnswers (S.files shelf.old) command folder.now) result
        (standing (S.files shelf.old) (O.stream out.old) (E.stream err.old))
        (standing (S.files shelf.new) (O.stream out.new) (E.stream err.new))
        (faults (S.count shelf.old) (O.count out.old) (E.count err.old))
        (faults (S.count shelf.new) (O.count out.new) (E.count err.new)) }
{
    match command {
        Command::Plan => run_plan(alloc, folder, shelf, out, err),
        Command::Check => run_check(alloc, folder, shelf, out, err),
        Command::Audit => run_audit(alloc, folder, shelf, out, err),
        Command::Report => run_report(alloc, folder, shelf, out, err),
    }
}

/// Does what the words ask for: `plan FOLDER`, `check FOLDER`, `audit FOLDER` or `report FOLDER`, as `run_plan`,
/// `run_check`, `run_audit` and `run_report` do it. A folder's name is not empty and does not begin with a dash.
/// Other words are refused with status 3 and `refused words` on `err`.
pub fn optimus<S: Shelf, O: Sink, E: Sink>(
    alloc: Global,
    words: &[String],
    shelf: &mut S,
    out: &mut O,
    err: &mut E,
) -> u8
    ensures runs { Runs (WordsAnswers (S.files shelf.old) (map string_bytes words.now)) result
        (standing (S.files shelf.old) (O.stream out.old) (E.stream err.old))
        (standing (S.files shelf.new) (O.stream out.new) (E.stream err.new))
        (faults (S.count shelf.old) (O.count out.old) (E.count err.old))
        (faults (S.count shelf.new) (O.count out.new) (E.count err.new)) }
{
    match form_of(words) {
        Some((command, folder)) => run(alloc, command, folder, shelf, out, err),
        None => refuse_words(alloc, shelf, out, err),
    }
}
