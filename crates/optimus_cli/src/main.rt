//! The program `optimus`: the words after its name are asked of the system, and the command runs over real files and streams.
#![tactic(auto)]

mod folder_shelf;
mod std_sink;

use folder_shelf::FolderShelf;
use opt_reply::{MEMORY, OUTSIDE};
use optimus::optimus;
use std::io::ErrorKind;
use std::process::ExitCode;
use std::rt::Env;
use std::{env, io};
use std_sink::StdSink;

/// The words after the program's name.
fn words<R: Env + AllocGlobal>(rt: &R) -> io::Result<Vec<String>> {
    Ok(env::args(rt)?.skip(1).collect(rt.alloc())?)
}

fn main(rt: HostRuntime) -> ExitCode {
    let words = match words(&rt) {
        Ok(words) => words,
        Err(error) if error.kind() == ErrorKind::OutOfMemory => return ExitCode::from(MEMORY),
        Err(_) => return ExitCode::from(OUTSIDE),
    };
    let mut shelf = FolderShelf::new(&rt);
    let mut out = StdSink::new(rt.stdout());
    let mut err = StdSink::new(rt.stderr());
    let status = optimus(rt.alloc(), &words, &mut shelf, &mut out, &mut err);
    ExitCode::from(status)
}
