mod countries;
mod filling;
mod folders;
mod judging;
mod later_formats;
mod limits;
mod line;
mod plans;

use opt_base::{Kind, ModelFault, OutOfMemory, Refusal, SureShelf};
use opt_network::Layout;
use opt_rows::build;
use opt_system::System;
use opt_tables::{Tables, fetch, read_model};
use std::alloc::Global;
use std::test::Fail;

/// The path of a model file and what it holds.
#[derive(Clone, Copy)]
struct Held<'a>(&'a str, &'a [u8]);

fn hold(shelf: &mut SureShelf, held: &[Held<'_>]) -> Result<(), OutOfMemory> {
    for one in held {
        shelf.load(one.0, one.1)?;
    }
    Ok(())
}

/// The tables of the files on a shelf.
fn tables_on(alloc: Global, shelf: &mut SureShelf) -> Result<Tables, Fail> {
    let files = fetch(alloc, shelf, "d")?;
    Ok(read_model(alloc, &files)?)
}

/// The tables of these files, where a later one stands for an earlier one of the same path.
fn tables_of(alloc: Global, held: &[Held<'_>], more: &[Held<'_>]) -> Result<Tables, Fail> {
    let mut shelf = SureShelf::new(alloc);
    hold(&mut shelf, held)?;
    hold(&mut shelf, more)?;
    tables_on(alloc, &mut shelf)
}

/// The system of a model.
fn system_of(alloc: Global, tables: &Tables) -> Result<System, ModelFault> {
    let layout = Layout::new(alloc, tables)?;
    build(alloc, tables, &layout)
}

/// What comes of a model: how many quantities, rows and terms its system has, or the column of a refusal and the count
/// that it names.
#[derive(Clone, Copy, Debug, PartialEq, Eq)]
enum Outcome {
    System(u32, u32, u64),
    TooMany(u8, u64),
    Nothing,
}

/// How many terms the rows of a system have together.
fn term_count(system: &System) -> u64 {
    let mut count = 0u64;
    for i in 0..system.rows() {
        count = count.saturating_add(system.terms(i).len() as u64);
    }
    count
}

fn refused(refusal: Refusal) -> Outcome {
    match refusal.kind {
        Kind::TooMany(count) => Outcome::TooMany(refusal.column, count),
        _ => Outcome::Nothing,
    }
}

fn made_of(built: Result<System, ModelFault>) -> Outcome {
    match built {
        Ok(system) => Outcome::System(system.quantities(), system.rows(), term_count(&system)),
        Err(ModelFault::Refused(refusal)) => refused(refusal),
        Err(ModelFault::OutOfMemory) => Outcome::Nothing,
    }
}

/// What is made of the files on a shelf.
fn made_on(alloc: Global, shelf: &mut SureShelf) -> Result<Outcome, Fail> {
    let tables = tables_on(alloc, shelf)?;
    Ok(made_of(system_of(alloc, &tables)))
}
