mod baskets;
mod cases;
mod columns;
mod folders;
mod formats;
mod forms;
mod likeness;
mod lots;
mod marks;
mod models;
mod needs;
mod order;
mod records;
mod references;
mod whole_folder;

use crate::{Files, Tables, read_model};
use opt_base::{Blob, File, Kind, ModelFault, OutOfMemory, Refusal};
use std::alloc::{AllocError, Global};
use std::process::Abort;

/// A model file and what it holds.
#[derive(Clone, Copy)]
struct Held<'a>(File, &'a [u8]);

const SETTINGS: &[u8] =
    b"format = 1\nmonths = 1\ndays = [30]\ngoal = \"shortfall\"\ngap = 0\nnodes = 1\n";

const COMMODITIES: &[u8] = b"commodity,group,min_g,max_g,step_g\nrice,,0,600,10\n";

const NUTRIENTS: &[u8] = b"nutrient,required,max_short,weight\nenergy,2100,0,1\n";

const CONTENTS: &[u8] = b"commodity,nutrient,per_100g\nrice,energy,360\n";

const PLACES: &[u8] =
    b"place,kind,storage,throughput,handling,storage_cost\nS,supplier,0,,0,0\nP,point,0,,0,0\n";

const OFFERS: &[u8] = b"offer,place,commodity,price,max_kg,first,last\no1,S,rice,450,20000,1,1\n";

const ARCS: &[u8] = b"arc,from,to,cost,capacity,lead\na1,S,P,50,20000,0\n";

const PERSONS: &[u8] = b"place,month,persons\nP,1,1000\n";

/// Rice that is bought at S, moved to P and eaten there; no groups, no stock.
const NETWORK: [Held<'static>; 8] = [
    Held(File::Settings, SETTINGS),
    Held(File::Commodities, COMMODITIES),
    Held(File::Nutrients, NUTRIENTS),
    Held(File::Contents, CONTENTS),
    Held(File::Places, PLACES),
    Held(File::Offers, OFFERS),
    Held(File::Arcs, ARCS),
    Held(File::Persons, PERSONS),
];

/// A fault of the table that is read last.
const LATE_FAULT: Held<'static> = Held(File::Stock, b"place,commodity,month,kg\nP,rice,1,\n");

/// A fault that is met when all tables are read.
const LATEST_FAULT: Held<'static> = Held(
    File::Commodities,
    b"commodity,group,min_g,max_g,step_g\nrice,cereals,0,600,10\n",
);

/// The record that names a table's columns.
fn header(file: File) -> &'static str {
    match file {
        File::Commodities => "commodity,group,min_g,max_g,step_g",
        File::Groups => "group,min_g,max_g",
        File::Nutrients => "nutrient,required,max_short,weight",
        File::Contents => "commodity,nutrient,per_100g",
        File::Places => "place,kind,storage,throughput,handling,storage_cost",
        File::Offers => "offer,place,commodity,price,max_kg,first,last",
        File::Arcs => "arc,from,to,cost,capacity,lead",
        File::Persons => "place,month,persons",
        File::Stock => "place,commodity,month,kg",
        _ => "",
    }
}

/// A table of these records.
fn table(alloc: Global, file: File, records: &str) -> Result<String, AllocError> {
    let header = header(file);
    format!(in alloc; "{header}\n{records}\n")
}

fn hold(alloc: Global, files: &mut Files, held: &[Held<'_>]) -> Result<(), OutOfMemory> {
    for one in held {
        let blob = Blob::from_slice(alloc, one.1)?;
        files.hold(one.0, Some(blob));
    }
    Ok(())
}

/// The tables of some files, of which those in `changes` replace those in `held`.
fn tables_of(alloc: Global, held: &[Held<'_>], changes: &[Held<'_>]) -> Result<Tables, ModelFault> {
    let mut files = Files::new();
    hold(alloc, &mut files, held)?;
    hold(alloc, &mut files, changes)?;
    read_model(alloc, &files)
}

/// Why there is no model of these files; none where there is one.
fn fault_of(alloc: Global, held: &[Held<'_>], changes: &[Held<'_>]) -> Option<ModelFault> {
    tables_of(alloc, held, changes).err()
}

fn refusal(file: File, number: u32, column: u8, kind: Kind) -> Option<ModelFault> {
    Some(ModelFault::Refused(Refusal {
        file,
        number,
        column,
        kind,
    }))
}

/// The network is read with this table.
fn assert_read(rt: &impl Abort, alloc: Global, file: File, text: &str) {
    let held = Held(file, text.as_bytes());
    assert_eq!(rt; fault_of(alloc, &NETWORK, &[held]), None, "{text}");
}

/// The network is refused for this table, also where a later table is wrong.
fn assert_refused(
    rt: &impl Abort,
    alloc: Global,
    file: File,
    text: &str,
    expected: Option<ModelFault>,
) {
    let held = Held(file, text.as_bytes());
    let later = match file {
        File::Stock => LATEST_FAULT,
        _ => LATE_FAULT,
    };
    assert_eq!(rt; fault_of(alloc, &NETWORK, &[held]), expected, "{text}");
    assert_eq!(rt;
        fault_of(alloc, &NETWORK, &[later, held]),
        expected,
        "{text}"
    );
}

/// A record of a table whose fields are empty.
fn nothing(file: File) -> &'static str {
    match file {
        File::Groups | File::Contents | File::Persons => ",,",
        File::Nutrients | File::Stock => ",,,",
        File::Commodities => ",,,,",
        File::Places | File::Arcs => ",,,,,",
        _ => ",,,,,,",
    }
}
