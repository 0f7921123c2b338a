use crate::key::Key;
use crate::lines::Line;
use crate::link::Link;
use crate::needs::{NO_NEED, NeedLine};
use crate::row::Row;
use opt_base::{ModelFault, Refusal};
use opt_model::{Name, Nutrient, has_baskets};
use opt_read::Setup;
use std::alloc::Global;

/// What a record of nutrients.csv says but for the nutrient's name.
#[derive(Clone, Copy, Debug, PartialEq, Eq)]
pub struct NutrientLine {
    /// What the one basket must give of the nutrient. In a format with baskets of its own it is 0 here: needs.csv
    /// says it.
    pub need: NeedLine,
}

impl Line for NutrientLine {
    ghost use Rattle.opt_tables.specs.Lines.{name_key};
    ghost use Rattle.opt_tables.specs.Diet.{nutrient_line_of};

    ghost line_of = { nutrient_line_of };

    ghost key_of = { λ settings. name_key };

    fn read(row: &Row<'_>, setup: &Setup) -> Result<NutrientLine, Refusal> {
        row.name(1)?;
        if has_baskets(setup.format()) {
            return Ok(NutrientLine { need: NO_NEED });
        }
        Ok(NutrientLine {
            need: NeedLine::in_row(row, 2)?,
        })
    }

    fn key<'a>(&self, row: &Row<'a>, _setup: &Setup) -> Key<'a> {
        Key::Name(row.text(1))
    }
}

impl Link<Nutrient, ()> for NutrientLine {
    ghost use Rattle.opt_tables.specs.Diet.{nutrient_of};

    ghost record_of = { λ settings named. nutrient_of };

    fn link(
        &self,
        alloc: Global,
        row: &Row<'_>,
        _setup: &Setup,
        _named: &(),
    ) -> Result<Nutrient, ModelFault> {
        Ok(Nutrient {
            nutrient: Name::new(alloc, row.text(1))?,
        })
    }
}
