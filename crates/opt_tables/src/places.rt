ghost use Rattle.std.specs.Prelude.{◌≡◌};
ghost use Rattle.opt_tables.specs.Network.{has_kind, place_of_kind_in, end_in};

use crate::key::Key;
use crate::lines::{Line, Lines};
use crate::link::Link;
use crate::row::Row;
use opt_base::{Kind, ModelFault, Refusal};
use opt_model::{KILOGRAM_LIMIT, Name, PRICE_LIMIT, Place, PlaceKind};
use opt_read::Setup;
use std::alloc::Global;

/// What a record of places.csv says but for its name.
#[derive(Clone, Copy, Debug, PartialEq, Eq)]
pub struct PlaceLine {
    pub kind: PlaceKind,
    /// What can be kept from month to month, 0 to 10^9 kilograms.
    pub storage: u32,
    /// What can arrive in a month, 0 to 10^9 kilograms; none: no limit.
    pub throughput: Option<u32>,
    /// The cost of what arrives, 0 to 10^6 mills per kilogram.
    pub handling: u32,
    /// The cost of what is kept at a month's end, 0 to 10^6 mills per kilogram.
    pub storage_cost: u32,
}

impl Line for PlaceLine {
    ghost use Rattle.opt_tables.specs.Lines.{name_key};
    ghost use Rattle.opt_tables.specs.Network.{place_line_of};

    ghost line_of = { λ settings. place_line_of };

    ghost key_of = { λ settings. name_key };

    fn read(row: &Row<'_>, _setup: &Setup) -> Result<PlaceLine, Refusal> {
        row.name(1)?;
        Ok(PlaceLine {
            kind: row.place_kind(2)?,
            storage: row.number(3, 0, KILOGRAM_LIMIT)?,
            throughput: row.optional_number(4, 0, KILOGRAM_LIMIT)?,
            handling: row.number(5, 0, PRICE_LIMIT)?,
            storage_cost: row.number(6, 0, PRICE_LIMIT)?,
        })
    }

    fn key<'a>(&self, row: &Row<'a>, _setup: &Setup) -> Key<'a> {
        Key::Name(row.text(1))
    }
}

impl Link<Place, ()> for PlaceLine {
    ghost use Rattle.opt_tables.specs.Network.{place_of};

    ghost record_of = { λ settings named. place_of };

    fn link(
        &self,
        alloc: Global,
        row: &Row<'_>,
        _setup: &Setup,
        _named: &(),
    ) -> Result<Place, ModelFault> {
        Ok(Place {
            place: Name::new(alloc, row.text(1))?,
            kind: self.kind,
            storage: i64::from(self.storage),
            throughput: self.throughput.map(i64::from),
            handling: i64::from(self.handling),
            storage_cost: i64::from(self.storage_cost),
        })
    }
}

impl Lines<'_, PlaceLine> {
    /// Whether the place of this number, from 0, is of this kind.
    fn has_kind(&self, place: u32, kind: PlaceKind) -> bool
        ensures { result ≡ has_kind kind self.now place }
    {
        match self.get(place) {
            Some(line) => line.kind == kind,
            None => false,
        }
    }

    /// The number of the place that a column names, which must be of this kind.
    pub fn of_kind(&self, row: &Row<'_>, column: u8, kind: PlaceKind) -> Result<u32, Refusal>
        ensures { result ≡ place_of_kind_in kind row.now column self.now }
    {
        let place = row.reference(column, self.keys())?;
        if self.has_kind(place, kind) {
            Ok(place)
        } else {
            Err(row.refused(column, Kind::WrongPlaceKind))
        }
    }

    /// The number of the place that a column names, where an arc from the place `start` ends: no supplier, and not
    /// `start`.
    pub fn end(&self, row: &Row<'_>, column: u8, start: u32) -> Result<u32, Refusal>
        ensures { result ≡ end_in row.now column self.now start }
    {
        let place = row.reference(column, self.keys())?;
        if self.has_kind(place, PlaceKind::Supplier) || place == start {
            Err(row.refused(column, Kind::WrongPlaceKind))
        } else {
            Ok(place)
        }
    }
}
