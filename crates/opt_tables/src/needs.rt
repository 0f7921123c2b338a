ghost use Rattle.std.specs.Prelude.{◌≡◌, ◌<◌, IfOk};
ghost use Rattle.opt_tables.specs.Diet.{need_in, no_need};
ghost use Rattle.opt_tables.specs.Demand.{needs_from, need_with};

use crate::demand::DemandNames;
use crate::key::Key;
use crate::lines::{Line, Lines};
use crate::link::Link;
use crate::nutrients::NutrientLine;
use crate::record_list::RecordList;
use crate::row::Row;
use opt_base::{ModelFault, OutOfMemory, Refusal};
use opt_model::{NEED_LIMIT, Need, WEIGHT_LIMIT};
use opt_read::Setup;
use std::alloc::Global;

/// What a record of needs.csv says but for its names.
#[derive(Clone, Copy, Debug, PartialEq, Eq)]
pub struct NeedLine {
    /// 0 to 10^9 units per person and day.
    pub required: u32,
    /// The greatest shortfall, 0 to 10^9 units per person and day.
    pub max_short: u32,
    /// What a unit of shortfall weighs, 0 to 10^6.
    pub weight: u32,
}

/// Nothing must be given.
pub const NO_NEED: NeedLine = NeedLine {
    required: 0,
    max_short: 0,
    weight: 0,
};

impl NeedLine {
    /// What three columns say of a need, from this one on.
    pub fn in_row(row: &Row<'_>, column: u8) -> Result<NeedLine, Refusal>
        requires { column < 200 }
        ensures { result ≡ need_in row.now column }
    {
        Ok(NeedLine {
            required: row.number(column, 0, NEED_LIMIT)?,
            max_short: row.number(column + 1, 0, NEED_LIMIT)?,
            weight: row.number(column + 2, 0, WEIGHT_LIMIT)?,
        })
    }

    /// The need of a basket for a nutrient, both by the numbers of their records.
    fn need(self, basket: u32, nutrient: u32) -> Need
        ensures { result ≡ need_with basket nutrient self }
    {
        Need {
            basket,
            nutrient,
            required: i64::from(self.required),
            max_short: i64::from(self.max_short),
            weight: i64::from(self.weight),
        }
    }
}

impl Line for NeedLine {
    ghost use Rattle.opt_tables.specs.Demand.{need_line_of, need_key};

    ghost line_of = { λ settings. need_line_of };

    ghost key_of = { λ settings. need_key };

    fn read(row: &Row<'_>, _setup: &Setup) -> Result<NeedLine, Refusal> {
        row.name(1)?;
        row.name(2)?;
        NeedLine::in_row(row, 3)
    }

    fn key<'a>(&self, row: &Row<'a>, _setup: &Setup) -> Key<'a> {
        Key::Names(row.text(1), row.text(2))
    }
}

impl<'a> Link<Need, DemandNames<'a>> for NeedLine {
    ghost use Rattle.opt_tables.specs.Demand.{need_by};

    ghost record_of = { λ settings names. need_by names.baskets.keys names.network.names.diet.names.nutrients.keys };

    fn link(
        &self,
        _alloc: Global,
        row: &Row<'_>,
        _setup: &Setup,
        names: &DemandNames<'a>,
    ) -> Result<Need, ModelFault> {
        let nutrients = &names.network.names.diet.names.nutrients;
        let basket = row.reference(1, names.baskets.keys())?;
        let nutrient = row.reference(2, nutrients.keys())?;
        Ok(self.need(basket, nutrient))
    }
}

/// What the one basket must give of each nutrient.
pub fn only_needs(
    alloc: Global,
    lines: &Lines<'_, NutrientLine>,
) -> Result<RecordList<Need>, OutOfMemory>
    ensures { IfOk result (λ needs. needs ≡ needs_from 0 lines.now.lines) }
{
    let mut needs = RecordList::new(alloc);
    for i in 0..lines.len() {
        needs.push(lines.line(i).need.need(0, i))?;
    }
    Ok(needs)
}
