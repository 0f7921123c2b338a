use crate::key::Key;
use crate::lines::Line;
use crate::link::Link;
use crate::network::NetworkNames;
use crate::row::Row;
use opt_base::{ModelFault, Refusal};
use opt_model::{KILOGRAM_LIMIT, Stock};
use opt_read::Setup;
use std::alloc::Global;

/// What a record of stock.csv says but for its names.
#[derive(Clone, Copy, Debug, PartialEq, Eq)]
pub struct StockLine {
    /// The month, from 1.
    pub month: u32,
    /// 0 to 10^9 kilograms.
    pub kg: u32,
}

impl Line for StockLine {
    ghost use Rattle.opt_tables.specs.Network.{stock_line_of, stock_key};

    ghost line_of = { stock_line_of };

    ghost key_of = { λ settings. stock_key };

    fn read(row: &Row<'_>, setup: &Setup) -> Result<StockLine, Refusal> {
        row.name(1)?;
        row.name(2)?;
        Ok(StockLine {
            month: row.number(3, 1, setup.months())?,
            kg: row.number(4, 0, KILOGRAM_LIMIT)?,
        })
    }

    fn key<'a>(&self, row: &Row<'a>, _setup: &Setup) -> Key<'a> {
        Key::NamesInMonth(row.text(1), row.text(2), self.month)
    }
}

impl<'a> Link<Stock, NetworkNames<'a>> for StockLine {
    ghost use Rattle.opt_tables.specs.Network.{stock_by};

    ghost record_of = { λ settings names. stock_by names.places names.diet.names.commodities.keys };

    fn link(
        &self,
        _alloc: Global,
        row: &Row<'_>,
        _setup: &Setup,
        names: &NetworkNames<'a>,
    ) -> Result<Stock, ModelFault> {
        Ok(Stock {
            place: row.reference(1, names.places.keys())?,
            commodity: row.reference(2, names.diet.names.commodities.keys())?,
            month: self.month,
            kg: i64::from(self.kg),
        })
    }
}
