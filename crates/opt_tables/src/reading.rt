ghost use Rattle.std.specs.Prelude.{◌≡◌, ◌^◌, ◌<◌, length};
ghost use Rattle.opt_base.specs.declared.refusal.File.{File};
ghost use Rattle.opt_base.specs.Answers.{Gives};
ghost use Rattle.opt_tables.specs.Files.{bytes_of};
ghost use Rattle.opt_tables.specs.Model.{tables_from, tables_of};
ghost use Rattle.opt_tables.specs.Early.{tables_read, tables_linked};

use crate::demand::{Demand, DemandGrids, DemandNames, DemandRecords, needs_of_one};
use crate::diet::{Diet, DietGrids, DietRecords};
use crate::files::Files;
use crate::network::{Network, NetworkGrids, NetworkNames, NetworkRecords};
use crate::tables::{Records, Tables};
use opt_base::{File, ModelFault};
use opt_read::{Setup, settings};
use std::alloc::Global;

/// The model that the files stand for.
///
/// Refused are, in this order: the first file that is missing or too big; what the settings refuse; then, table by
/// table, what `grid` refuses, the first record whose columns, whose rations or whose key are wrong, and how many
/// records there are; then, again table by table, the first record that names a record which is not there, or a place
/// of the wrong kind.
pub fn read_model(alloc: Global, files: &Files) -> Result<Tables, ModelFault>
    ensures { Gives (λ tables. tables) result (tables_of files.now) }
{
    let records = read_records(alloc, files)?;
    Ok(Tables::new(alloc, records)?)
}

/// What the files say.
#[tactic(auto, unfolding(crate::specs::Model::tables_of))]
fn read_records(alloc: Global, files: &Files) -> Result<Records, ModelFault>
    ensures { Gives (λ records. records) result (tables_of files.now) }
{
    files.check()?;
    let setup = settings(alloc, files.bytes(File::Settings))?;
    read_tables(alloc, files, setup)
}

/// What the tables say, given the settings.
fn read_tables(alloc: Global, files: &Files, setup: Setup) -> Result<Records, ModelFault>
    requires { (file : File) → length (bytes_of files.now file) < 2 ^ 32 }
    ensures { Gives (λ records. records) result (tables_from files.now setup) }
{
    let diet = DietGrids::read(alloc, files, &setup)?;
    let network = NetworkGrids::read(alloc, files, &setup)?;
    let demand = DemandGrids::read(alloc, files, &setup)?;
    read_lines(alloc, files, setup, &diet, &network, &demand)
}

/// What the tables say, given the settings and the fields of those tables that are kept for long.
#[tactic(auto, unfolding(crate::specs::Early::tables_read))]
fn read_lines(
    alloc: Global,
    files: &Files,
    setup: Setup,
    diet: &DietGrids,
    network: &NetworkGrids,
    demand: &DemandGrids,
) -> Result<Records, ModelFault>
    requires { (file : File) → length (bytes_of files.now file) < 2 ^ 32 }
    ensures { Gives (λ records. records) result
        (tables_read files.now setup diet.now network.now demand.now) }
{
    let diet = Diet::read(alloc, files, &setup, diet)?;
    let (network, persons) = Network::read(alloc, files, &setup, network, diet)?;
    let demand = Demand::read(alloc, files, &setup, demand, network, persons)?;
    link(alloc, setup, demand)
}

/// The records, which name others by their numbers.
#[tactic(auto, unfolding(crate::specs::Early::tables_linked))]
fn link(alloc: Global, setup: Setup, demand: Demand<'_>) -> Result<Records, ModelFault>
    ensures { Gives (λ records. records) result (tables_linked setup demand.entry) }
{
    let Demand {
        names,
        persons,
        needs,
    } = demand;
    let DemandNames { network, baskets } = names;
    let Network {
        names,
        offers,
        arcs,
        stock,
    } = network;
    let NetworkNames { diet, places } = names;
    let only = needs_of_one(alloc, &setup, &diet.names.nutrients)?;
    let diet = DietRecords::link(alloc, &setup, diet)?;
    let network = NetworkRecords::link(alloc, &setup, places, offers, arcs, persons, stock)?;
    let demand = DemandRecords::link(alloc, &setup, baskets, needs, only)?;
    Ok(Records {
        settings: setup,
        diet,
        network,
        demand,
    })
}
