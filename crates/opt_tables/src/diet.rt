ghost use Rattle.std.specs.Prelude.{◌≡◌, ℕ, ◌^◌, ◌<◌, length, IfOk};
ghost use Rattle.opt_base.specs.declared.refusal.File.{File};
ghost use Rattle.opt_base.specs.Answers.{Gives};
ghost use Rattle.opt_tables.specs.Files.{bytes_of};
ghost use Rattle.opt_tables.specs.Early.{diet_grids_in, diet_names_of, diet_read, diet_linked};

use crate::commodities::{CommodityLine, commodity_lines};
use crate::contents::ContentLine;
use crate::files::Files;
use crate::grids::table;
use crate::groups::GroupLine;
use crate::lines::Lines;
use crate::link::{linked, read_records};
use crate::nutrients::NutrientLine;
use crate::record_list::RecordList;
use opt_base::{File, ModelFault, OutOfMemory, Refusal};
use opt_model::{Commodity, Content, Group, Nutrient};
use opt_read::{Cells, Setup};
use std::alloc::Global;
use std::marker::Model;

/// The tables of the diet whose records others name, as they are split into fields, each with its own refusal where
/// it has one.
#[derive(Drop)]
pub struct DietGrids {
    pub commodities: Result<Cells, Refusal>,
    pub groups: Result<Cells, Refusal>,
    pub nutrients: Result<Cells, Refusal>,
}

/// What the tables of the diet say whose records others name, but for the records that they name themselves.
#[derive(Drop)]
pub struct DietNames<'a> {
    pub commodities: Lines<'a, CommodityLine>,
    pub groups: Lines<'a, GroupLine>,
    pub nutrients: Lines<'a, NutrientLine>,
}

/// What the tables of the diet say. What the contents refuse of the records that they name waits.
#[derive(Drop)]
pub struct Diet<'a> {
    pub names: DietNames<'a>,
    pub contents: Result<RecordList<Content>, Refusal>,
}

/// The records of the diet.
#[derive(Debug, Drop)]
pub struct DietRecords {
    pub commodities: RecordList<Commodity>,
    pub groups: RecordList<Group>,
    pub nutrients: RecordList<Nutrient>,
    pub contents: RecordList<Content>,
}

impl Model for DietRecords {
    ghost use Rattle.opt_tables.specs.Diet.{DietTables};

    ghost Value = { DietTables };

    ghost view = { λ records. record {
      commodities = records.commodities;
      groups = records.groups;
      nutrients = records.nutrients;
      contents = records.contents;
    } };
}

impl DietGrids {
    /// Splits those tables of the diet.
    pub fn read(alloc: Global, files: &Files, setup: &Setup) -> Result<DietGrids, OutOfMemory>
        requires { (file : File) → length (bytes_of files.now file) < 2 ^ 32 }
        ensures { IfOk result (λ grids. grids ≡ diet_grids_in files.now setup.now) }
    {
        let format = setup.format();
        Ok(DietGrids {
            commodities: table(alloc, files, format, File::Commodities)?,
            groups: table(alloc, files, format, File::Groups)?,
            nutrients: table(alloc, files, format, File::Nutrients)?,
        })
    }
}

impl<'a> DietNames<'a> {
    /// What those tables of the diet say, or their first refusal.
    #[tactic(auto, unfolding(crate::specs::Early::diet_names_of))]
    fn read(alloc: Global, setup: &Setup, grids: &'a DietGrids) -> Result<DietNames<'a>, ModelFault>
        ensures { Gives (λ names. names) result (diet_names_of setup.now grids.now) }
    {
        Ok(DietNames {
            commodities: commodity_lines(alloc, setup, &grids.commodities)?,
            groups: Lines::read(alloc, File::Groups, setup, &grids.groups)?,
            nutrients: Lines::read(alloc, File::Nutrients, setup, &grids.nutrients)?,
        })
    }
}

impl<'a> Diet<'a> {
    /// What the tables of the diet say, or their first refusal.
    #[tactic(auto, unfolding(crate::specs::Early::diet_read))]
    pub fn read(
        alloc: Global,
        files: &Files,
        setup: &Setup,
        grids: &'a DietGrids,
    ) -> Result<Diet<'a>, ModelFault>
        requires { (file : File) → length (bytes_of files.now file) < 2 ^ 32 }
        ensures { Gives (λ diet. diet) result (diet_read files.now setup.now grids.now) }
    {
        let names = DietNames::read(alloc, setup, grids)?;
        let contents = read_records::<_, _, ContentLine>(
            alloc,
            File::Contents,
            files,
            setup,
            &names,
        )?;
        Ok(Diet { names, contents })
    }
}

impl DietRecords {
    /// The records of the diet, with the numbers of those that they name.
    #[tactic(auto, unfolding(crate::specs::Early::diet_linked))]
    pub fn link(alloc: Global, setup: &Setup, diet: Diet<'_>) -> Result<DietRecords, ModelFault>
        ensures { Gives (λ records. records) result (diet_linked diet.entry) }
    {
        let Diet { names, contents } = diet;
        let DietNames {
            commodities,
            groups,
            nutrients,
        } = names;
        Ok(DietRecords {
            commodities: linked(alloc, commodities, setup, groups.keys())?,
            groups: linked(alloc, groups, setup, &())?,
            nutrients: linked(alloc, nutrients, setup, &())?,
            contents: contents?,
        })
    }
}
