ghost use Rattle.opt_base.specs.Answers.{Gives};
ghost use Rattle.opt_tables.specs.Diet.{commodity_lines_in};

use crate::key::Key;
use crate::keys::Keys;
use crate::lines::{Line, Lines};
use crate::link::Link;
use crate::row::Row;
use opt_base::{File, Kind, ModelFault, Refusal};
use opt_model::{Commodity, Name, RATION_LIMIT};
use opt_read::{Cells, Setup};
use std::alloc::Global;

/// What a record of commodities.csv says but for its names.
#[derive(Clone, Copy, Debug, PartialEq, Eq)]
pub struct CommodityLine {
    /// The least ration, 0 to 2000 grams per person and day.
    pub min_g: u32,
    /// The greatest ration, 0 to 2000 grams per person and day.
    pub max_g: u32,
    /// The step of the ration, 1 to 2000 grams.
    pub step_g: u32,
}

impl Line for CommodityLine {
    ghost use Rattle.opt_tables.specs.Lines.{name_key};
    ghost use Rattle.opt_tables.specs.Diet.{commodity_line_of};

    ghost line_of = { λ settings. commodity_line_of };

    ghost key_of = { λ settings. name_key };

    fn read(row: &Row<'_>, _setup: &Setup) -> Result<CommodityLine, Refusal> {
        row.name(1)?;
        row.optional_name(2)?;
        let min_g = row.number(3, 0, RATION_LIMIT)?;
        let max_g = row.number(4, 0, RATION_LIMIT)?;
        let step_g = row.number(5, 1, RATION_LIMIT)?;
        if max_g / step_g * step_g < min_g {
            return Err(row.refused(0, Kind::NoStepInRange));
        }
        Ok(CommodityLine {
            min_g,
            max_g,
            step_g,
        })
    }

    fn key<'a>(&self, row: &Row<'a>, _setup: &Setup) -> Key<'a> {
        Key::Name(row.text(1))
    }
}

impl<'a> Link<Commodity, Keys<'a>> for CommodityLine {
    ghost use Rattle.opt_tables.specs.Diet.{commodity_by};

    ghost record_of = { λ settings groups. commodity_by groups };

    fn link(
        &self,
        alloc: Global,
        row: &Row<'_>,
        _setup: &Setup,
        groups: &Keys<'a>,
    ) -> Result<Commodity, ModelFault> {
        let group = row.optional_reference(2, groups)?;
        Ok(Commodity {
            commodity: Name::new(alloc, row.text(1))?,
            group,
            min_g: i64::from(self.min_g),
            max_g: i64::from(self.max_g),
            step_g: i64::from(self.step_g),
        })
    }
}

/// The lines of commodities.csv, which must have a record.
pub fn commodity_lines<'a>(
    alloc: Global,
    setup: &Setup,
    grid: &'a Result<Cells, Refusal>,
) -> Result<Lines<'a, CommodityLine>, ModelFault>
    ensures { Gives (λ lines. lines) result (commodity_lines_in grid.now) }
{
    let lines = Lines::read(alloc, File::Commodities, setup, grid)?;
    if lines.is_empty() {
        return Err(ModelFault::Refused(Refusal::of_file(File::Commodities, Kind::EmptyTable)));
    }
    Ok(lines)
}
