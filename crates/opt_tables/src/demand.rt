ghost use Rattle.std.specs.Prelude.{◌≡◌, ℕ, ◌^◌, ◌<◌, [], ◌∷◌, length, IfOk};
ghost use Rattle.opt_base.specs.declared.refusal.File.{File};
ghost use Rattle.opt_base.specs.Answers.{Gives};
ghost use Rattle.opt_tables.specs.Files.{bytes_of};
ghost use Rattle.opt_tables.specs.Demand.{only_basket};
ghost use Rattle.opt_tables.specs.Early.{demand_grids_in, demand_read, only_needs_in, own_linked, demand_linked};

use crate::baskets::{BasketLine, basket_lines};
use crate::files::Files;
use crate::grids::table;
use crate::lines::Lines;
use crate::link::{linked, linked_early, read_records};
use crate::needs::{NeedLine, only_needs};
use crate::network::Network;
use crate::nutrients::NutrientLine;
use crate::persons::PersonsLine;
use crate::record_list::RecordList;
use opt_base::{File, ModelFault, OutOfMemory, Refusal};
use opt_model::{Basket, Name, Need, Persons, has_baskets};
use opt_read::{Cells, Setup};
use std::alloc::Global;
use std::marker::Model;

/// The table of the demand whose records others name, as it is split into fields, with its own refusal where it has
/// one.
#[derive(Drop)]
pub struct DemandGrids {
    pub baskets: Result<Cells, Refusal>,
}

/// The tables that records of the demand name: those of the network and of the diet, and baskets.
#[derive(Drop)]
pub struct DemandNames<'a> {
    pub network: Network<'a>,
    pub baskets: Lines<'a, BasketLine>,
}

/// What all tables say. What persons and needs refuse of the records that they name waits.
#[derive(Drop)]
pub struct Demand<'a> {
    pub names: DemandNames<'a>,
    pub persons: Result<RecordList<Persons>, Refusal>,
    pub needs: Result<RecordList<Need>, Refusal>,
}

/// The records of the demand.
#[derive(Debug, Drop)]
pub struct DemandRecords {
    pub baskets: RecordList<Basket>,
    pub needs: RecordList<Need>,
}

impl Model for DemandRecords {
    ghost use Rattle.opt_tables.specs.Demand.{DemandTables};

    ghost Value = { DemandTables };

    ghost view = { λ records. record { baskets = records.baskets; needs = records.needs } };
}

impl DemandGrids {
    /// Splits that table of the demand.
    pub fn read(alloc: Global, files: &Files, setup: &Setup) -> Result<DemandGrids, OutOfMemory>
        requires { (file : File) → length (bytes_of files.now file) < 2 ^ 32 }
        ensures { IfOk result (λ grids. grids ≡ demand_grids_in files.now setup.now) }
    {
        Ok(DemandGrids {
            baskets: table(alloc, files, setup.format(), File::Baskets)?,
        })
    }
}

impl<'a> Demand<'a> {
    /// What the tables of the demand say, and persons; or their first refusal.
    #[tactic(auto, unfolding(crate::specs::Early::demand_read))]
    pub fn read(
        alloc: Global,
        files: &Files,
        setup: &Setup,
        grids: &'a DemandGrids,
        network: Network<'a>,
        persons: Lines<'a, PersonsLine>,
    ) -> Result<Demand<'a>, ModelFault>
        requires { (file : File) → length (bytes_of files.now file) < 2 ^ 32 }
        ensures { Gives (λ demand. demand) result
            (demand_read files.now setup.now grids.now network.entry persons.entry) }
    {
        let baskets = basket_lines(alloc, setup, &grids.baskets)?;
        let names = DemandNames { network, baskets };
        let persons = linked_early(alloc, persons, setup, &names)?;
        let needs = read_records::<_, _, NeedLine>(alloc, File::Needs, files, setup, &names)?;
        Ok(Demand {
            names,
            persons,
            needs,
        })
    }
}

/// The basket of a format without baskets of its own.
fn one_basket(alloc: Global) -> Result<Basket, OutOfMemory>
    ensures { IfOk result (λ basket. basket ≡ only_basket) }
{
    Ok(Basket {
        basket: Name::new(alloc, "all")?,
    })
}

/// What the one basket must give, in a format without baskets of its own.
pub fn needs_of_one(
    alloc: Global,
    setup: &Setup,
    nutrients: &Lines<'_, NutrientLine>,
) -> Result<RecordList<Need>, OutOfMemory>
    ensures { IfOk result (λ needs. needs ≡ only_needs_in setup.now nutrients.now) }
{
    if has_baskets(setup.format()) {
        Ok(RecordList::new(alloc))
    } else {
        only_needs(alloc, nutrients)
    }
}

impl DemandRecords {
    /// The records of baskets.csv and needs.csv, with the numbers of those that they name.
    fn own(
        alloc: Global,
        setup: &Setup,
        baskets: Lines<'_, BasketLine>,
        needs: Result<RecordList<Need>, Refusal>,
    ) -> Result<DemandRecords, ModelFault>
        ensures { Gives (λ records. records) result (own_linked baskets.entry needs) }
    {
        Ok(DemandRecords {
            baskets: linked(alloc, baskets, setup, &())?,
            needs: needs?,
        })
    }

    /// The demand of a format without baskets of its own.
    fn only(alloc: Global, needs: RecordList<Need>) -> Result<DemandRecords, OutOfMemory>
        ensures { IfOk result (λ records. records ≡ record { baskets = only_basket ∷ []; needs = needs }) }
    {
        let mut baskets = RecordList::new(alloc);
        baskets.push(one_basket(alloc)?)?;
        Ok(DemandRecords { baskets, needs })
    }

    /// The records of the demand under the settings' format: those of its tables, or one basket with these needs.
    #[tactic(auto, unfolding(crate::specs::Early::demand_linked))]
    pub fn link(
        alloc: Global,
        setup: &Setup,
        baskets: Lines<'_, BasketLine>,
        needs: Result<RecordList<Need>, Refusal>,
        only: RecordList<Need>,
    ) -> Result<DemandRecords, ModelFault>
        ensures { Gives (λ records. records) result
            (demand_linked setup.now baskets.entry needs only) }
    {
        if has_baskets(setup.format()) {
            DemandRecords::own(alloc, setup, baskets, needs)
        } else {
            Ok(DemandRecords::only(alloc, only)?)
        }
    }
}
