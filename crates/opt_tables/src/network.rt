ghost use Rattle.std.specs.Prelude.{◌≡◌, ℕ, ◌^◌, ◌<◌, length, IfOk};
ghost use Rattle.opt_base.specs.declared.refusal.File.{File};
ghost use Rattle.opt_base.specs.Answers.{Gives};
ghost use Rattle.opt_tables.specs.Files.{bytes_of};
ghost use Rattle.opt_tables.specs.Early.{network_grids_in, network_read, network_linked};

use crate::arcs::ArcLine;
use crate::diet::Diet;
use crate::files::Files;
use crate::grids::table;
use crate::lines::Lines;
use crate::link::{linked, read_records};
use crate::offers::OfferLine;
use crate::persons::PersonsLine;
use crate::places::PlaceLine;
use crate::record_list::RecordList;
use crate::stock::StockLine;
use opt_base::{File, ModelFault, OutOfMemory, Refusal};
use opt_model::{Arc, Offer, Persons, Place, Stock};
use opt_read::{Cells, Setup};
use std::alloc::Global;
use std::marker::Model;

/// The tables of the network that are kept for long, as they are split into fields, each with its own refusal where
/// it has one: others name places, and persons name baskets, which are judged later.
#[derive(Drop)]
pub struct NetworkGrids {
    pub places: Result<Cells, Refusal>,
    pub persons: Result<Cells, Refusal>,
}

/// The tables that records of the network name: those of the diet, and places.
#[derive(Drop)]
pub struct NetworkNames<'a> {
    pub diet: Diet<'a>,
    pub places: Lines<'a, PlaceLine>,
}

/// What the tables of the network say but for persons. What they refuse of the records that they name waits.
#[derive(Drop)]
pub struct Network<'a> {
    pub names: NetworkNames<'a>,
    pub offers: Result<RecordList<Offer>, Refusal>,
    pub arcs: Result<RecordList<Arc>, Refusal>,
    pub stock: Result<RecordList<Stock>, Refusal>,
}

/// The records of the network.
#[derive(Debug, Drop)]
pub struct NetworkRecords {
    pub places: RecordList<Place>,
    pub offers: RecordList<Offer>,
    pub arcs: RecordList<Arc>,
    pub persons: RecordList<Persons>,
    pub stock: RecordList<Stock>,
}

impl Model for NetworkRecords {
    ghost use Rattle.opt_tables.specs.Network.{NetworkTables};

    ghost Value = { NetworkTables };

    ghost view = { λ records. record {
      places = records.places;
      offers = records.offers;
      arcs = records.arcs;
      persons = records.persons;
      stock = records.stock;
    } };
}

impl NetworkGrids {
    /// Splits those tables of the network.
    pub fn read(alloc: Global, files: &Files, setup: &Setup) -> Result<NetworkGrids, OutOfMemory>
        requires { (file : File) → length (bytes_of files.now file) < 2 ^ 32 }
        ensures { IfOk result (λ grids. grids ≡ network_grids_in files.now setup.now) }
    {
        let format = setup.format();
        Ok(NetworkGrids {
            places: table(alloc, files, format, File::Places)?,
            persons: table(alloc, files, format, File::Persons)?,
        })
    }
}

impl<'a> Network<'a> {
    /// What the tables of the network say, and the lines of persons; or their first refusal.
    #[tactic(auto, unfolding(crate::specs::Early::network_read))]
    pub fn read(
        alloc: Global,
        files: &Files,
        setup: &Setup,
        grids: &'a NetworkGrids,
        diet: Diet<'a>,
    ) -> Result<(Network<'a>, Lines<'a, PersonsLine>), ModelFault>
        requires { (file : File) → length (bytes_of files.now file) < 2 ^ 32 }
        ensures { Gives (λ both. both) result
            (network_read files.now setup.now grids.now diet.entry) }
    {
        let places = Lines::read(alloc, File::Places, setup, &grids.places)?;
        let names = NetworkNames { diet, places };
        let offers = read_records::<_, _, OfferLine>(alloc, File::Offers, files, setup, &names)?;
        let arcs = read_records::<_, _, ArcLine>(alloc, File::Arcs, files, setup, &names)?;
        let persons = Lines::read(alloc, File::Persons, setup, &grids.persons)?;
        let stock = read_records::<_, _, StockLine>(alloc, File::Stock, files, setup, &names)?;
        let network = Network {
            names,
            offers,
            arcs,
            stock,
        };
        Ok((network, persons))
    }
}

impl NetworkRecords {
    /// The records of the network, with the numbers of those that they name.
    #[tactic(auto, unfolding(crate::specs::Early::network_linked))]
    pub fn link(
        alloc: Global,
        setup: &Setup,
        places: Lines<'_, PlaceLine>,
        offers: Result<RecordList<Offer>, Refusal>,
        arcs: Result<RecordList<Arc>, Refusal>,
        persons: Result<RecordList<Persons>, Refusal>,
        stock: Result<RecordList<Stock>, Refusal>,
    ) -> Result<NetworkRecords, ModelFault>
        ensures { Gives (λ records. records) result
            (network_linked places.entry offers arcs persons stock) }
    {
        Ok(NetworkRecords {
            places: linked(alloc, places, setup, &())?,
            offers: offers?,
            arcs: arcs?,
            persons: persons?,
            stock: stock?,
        })
    }
}
