ghost use Rattle.std.specs.Prelude.{◌≡◌};
ghost use Rattle.opt_tables.specs.Network.{lot_in};

use crate::key::Key;
use crate::lines::Line;
use crate::link::Link;
use crate::network::NetworkNames;
use crate::row::Row;
use opt_base::{ModelFault, Refusal};
use opt_model::{KILOGRAM_LIMIT, MONTH_LIMIT, Name, Offer, PRICE_LIMIT, PlaceKind, has_lots};
use opt_read::Setup;
use std::alloc::Global;

/// What a record of offers.csv says but for its names.
#[derive(Clone, Copy, Debug, PartialEq, Eq)]
pub struct OfferLine {
    /// 0 to 10^6 mills per kilogram.
    pub price: u32,
    /// 0 to 10^9 kilograms per month.
    pub max_kg: u32,
    /// The first month, 1 to 36.
    pub first: u32,
    /// The last month, 1 to 36.
    pub last: u32,
    /// 0 and 0 in a format without fees and least lots.
    pub lot: Lot,
}

/// The greatest fee, in mills per month in which something is ordered.
pub const FEE_LIMIT: u64 = 1_000_000_000_000;

/// What an order costs in itself, and how large it must be.
#[derive(Clone, Copy, Debug, PartialEq, Eq)]
pub struct Lot {
    /// 0 to 10^12 mills per month in which something is ordered.
    pub fee: i64,
    /// 0 to 10^9 kilograms per month in which something is ordered.
    pub least: u32,
}

impl Lot {
    /// What the last two columns say; 0 and 0 in a format without them.
    fn in_row(row: &Row<'_>, setup: &Setup) -> Result<Lot, Refusal>
        ensures { result ≡ lot_in setup.now row.now }
    {
        if !has_lots(setup.format()) {
            return Ok(Lot { fee: 0, least: 0 });
        }
        let fee = row.long_number(8, 0, FEE_LIMIT)?;
        let least = row.number(9, 0, KILOGRAM_LIMIT)?;
        Ok(Lot {
            fee: fee as i64,
            least,
        })
    }
}

impl Line for OfferLine {
    ghost use Rattle.opt_tables.specs.Lines.{name_key};
    ghost use Rattle.opt_tables.specs.Network.{offer_line_of};

    ghost line_of = { offer_line_of };

    ghost key_of = { λ settings. name_key };

    fn read(row: &Row<'_>, setup: &Setup) -> Result<OfferLine, Refusal> {
        row.name(1)?;
        row.name(2)?;
        row.name(3)?;
        Ok(OfferLine {
            price: row.number(4, 0, PRICE_LIMIT)?,
            max_kg: row.number(5, 0, KILOGRAM_LIMIT)?,
            first: row.number(6, 1, MONTH_LIMIT)?,
            last: row.number(7, 1, MONTH_LIMIT)?,
            lot: Lot::in_row(row, setup)?,
        })
    }

    fn key<'a>(&self, row: &Row<'a>, _setup: &Setup) -> Key<'a> {
        Key::Name(row.text(1))
    }
}

impl<'a> Link<Offer, NetworkNames<'a>> for OfferLine {
    ghost use Rattle.opt_tables.specs.Network.{offer_by};

    ghost record_of = { λ settings names. offer_by names.places names.diet.names.commodities.keys };

    fn link(
        &self,
        alloc: Global,
        row: &Row<'_>,
        _setup: &Setup,
        names: &NetworkNames<'a>,
    ) -> Result<Offer, ModelFault> {
        let place = names.places.of_kind(row, 2, PlaceKind::Supplier)?;
        let commodity = row.reference(3, names.diet.names.commodities.keys())?;
        Ok(Offer {
            offer: Name::new(alloc, row.text(1))?,
            place,
            commodity,
            price: i64::from(self.price),
            max_kg: i64::from(self.max_kg),
            first: self.first,
            last: self.last,
            fee: self.lot.fee,
            least: i64::from(self.lot.least),
        })
    }
}
