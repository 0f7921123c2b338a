use crate::diet::DietNames;
use crate::key::Key;
use crate::lines::Line;
use crate::link::Link;
use crate::row::Row;
use opt_base::{ModelFault, Refusal};
use opt_model::{CONTENT_LIMIT, Content};
use opt_read::Setup;
use std::alloc::Global;

/// What a record of contents.csv says but for its names.
#[derive(Clone, Copy, Debug, PartialEq, Eq)]
pub struct ContentLine {
    /// 0 to 10^6 units per 100 g.
    pub per_100g: u32,
}

impl Line for ContentLine {
    ghost use Rattle.opt_tables.specs.Diet.{content_line_of, content_key};

    ghost line_of = { λ settings. content_line_of };

    ghost key_of = { λ settings. content_key };

    fn read(row: &Row<'_>, _setup: &Setup) -> Result<ContentLine, Refusal> {
        row.name(1)?;
        row.name(2)?;
        Ok(ContentLine {
            per_100g: row.number(3, 0, CONTENT_LIMIT)?,
        })
    }

    fn key<'a>(&self, row: &Row<'a>, _setup: &Setup) -> Key<'a> {
        Key::Names(row.text(1), row.text(2))
    }
}

impl<'a> Link<Content, DietNames<'a>> for ContentLine {
    ghost use Rattle.opt_tables.specs.Diet.{content_by};

    ghost record_of = { λ settings diet. content_by diet.commodities.keys diet.nutrients.keys };

    fn link(
        &self,
        _alloc: Global,
        row: &Row<'_>,
        _setup: &Setup,
        diet: &DietNames<'a>,
    ) -> Result<Content, ModelFault> {
        Ok(Content {
            commodity: row.reference(1, diet.commodities.keys())?,
            nutrient: row.reference(2, diet.nutrients.keys())?,
            per_100g: i64::from(self.per_100g),
        })
    }
}
