mod audits;
mod plan_files;
mod refusals;
mod reports;
mod summaries;

use crate::read_plan;
use opt_base::{File, Kind, ModelFault, OutOfMemory, Point, Refusal, SureShelf};
use opt_network::Layout;
use opt_tables::{Tables, fetch, read_model};
use std::alloc::Global;
use std::process::Abort;
use std::test::Fail;

/// The path of a model file and what it holds.
#[derive(Clone, Copy)]
struct Held<'a>(&'a str, &'a [u8]);

/// Rice that is bought at S, moved to P and eaten there in one month. Its quantities are the ration, the shortfall, and
/// what is bought, shipped and handed out.
const LINE: [Held<'static>; 8] = [
    Held(
        "d/settings.toml",
        b"format = 1\nmonths = 1\ndays = [30]\ngoal = \"cost\"\ngap = 0\nnodes = 1000\n",
    ),
    Held(
        "d/commodities.csv",
        b"commodity,group,min_g,max_g,step_g\nrice,,0,600,10\n",
    ),
    Held(
        "d/nutrients.csv",
        b"nutrient,required,max_short,weight\nenergy,2100,50,1\n",
    ),
    Held(
        "d/contents.csv",
        b"commodity,nutrient,per_100g\nrice,energy,360\n",
    ),
    Held(
        "d/places.csv",
        b"place,kind,storage,throughput,handling,storage_cost\nS,supplier,0,,0,0\nP,point,0,,0,0\n",
    ),
    Held(
        "d/offers.csv",
        b"offer,place,commodity,price,max_kg,first,last\no1,S,rice,450,20000,1,1\n",
    ),
    Held(
        "d/arcs.csv",
        b"arc,from,to,cost,capacity,lead\na1,S,P,50,20000,0\n",
    ),
    Held("d/persons.csv", b"place,month,persons\nP,1,1000\n"),
];

/// What makes the line one of format 2 with two baskets, of which B has a need of energy alone.
const TWO_BASKETS: [Held<'static>; 5] = [
    Held(
        "d/settings.toml",
        b"format = 2\nmonths = 1\ndays = [30]\ngoal = \"cost\"\ngap = 0\nnodes = 1000\n",
    ),
    Held("d/nutrients.csv", b"nutrient\nenergy\nprotein\n"),
    Held(
        "d/persons.csv",
        b"place,month,persons,basket\nP,1,600,A\nP,1,400,B\n",
    ),
    Held("d/baskets.csv", b"basket\nA\nB\n"),
    Held(
        "d/needs.csv",
        b"basket,nutrient,required,max_short,weight\nA,energy,2100,50,1\nA,protein,0,0,1\nB,energy,1800,50,1\n",
    ),
];

/// What makes those one of format 3, in which the offer has a fee.
const WITH_FEE: [Held<'static>; 2] = [
    Held(
        "d/settings.toml",
        b"format = 3\nmonths = 1\ndays = [30]\ngoal = \"cost\"\ngap = 0\nnodes = 1000\n",
    ),
    Held(
        "d/offers.csv",
        b"offer,place,commodity,price,max_kg,first,last,fee,least\no1,S,rice,450,20000,1,1,1000000,0\n",
    ),
];

fn hold(shelf: &mut SureShelf, held: &[Held<'_>]) -> Result<(), OutOfMemory> {
    for one in held {
        shelf.load(one.0, one.1)?;
    }
    Ok(())
}

/// The tables of the line, some of whose files are replaced.
fn tables_of(alloc: Global, changes: &[Held<'_>], more: &[Held<'_>]) -> Result<Tables, Fail> {
    let mut shelf = SureShelf::new(alloc);
    hold(&mut shelf, &LINE)?;
    hold(&mut shelf, changes)?;
    hold(&mut shelf, more)?;
    let files = fetch(alloc, &mut shelf, "d")?;
    Ok(read_model(alloc, &files)?)
}

/// What a plan file says of a model.
fn read(
    rt: &impl Abort,
    alloc: Global,
    tables: &Tables,
    bytes: &[u8],
) -> Result<Point, ModelFault> {
    assert!(rt; bytes.len() < 4_294_967_296);
    let layout = Layout::new(alloc, tables)?;
    read_plan(alloc, tables, &layout, bytes)
}

/// The refusal of a plan file's record for what stands in a column.
fn at(number: u32, column: u8, kind: Kind) -> ModelFault {
    ModelFault::Refused(Refusal::at(File::Plan, number, column, kind))
}
