use crate::key::Key;
use crate::lines::Line;
use crate::link::Link;
use crate::network::NetworkNames;
use crate::row::Row;
use opt_base::{ModelFault, Refusal};
use opt_model::{Arc, KILOGRAM_LIMIT, LEAD_LIMIT, Name, PRICE_LIMIT};
use opt_read::Setup;
use std::alloc::Global;

/// What a record of arcs.csv says but for its names.
#[derive(Clone, Copy, Debug, PartialEq, Eq)]
pub struct ArcLine {
    /// 0 to 10^6 mills per kilogram.
    pub cost: u32,
    /// 0 to 10^9 kilograms per month.
    pub capacity: u32,
    /// The lead time, 0 to 12 months from departure to arrival.
    pub lead: u32,
}

impl Line for ArcLine {
    ghost use Rattle.opt_tables.specs.Lines.{name_key};
    ghost use Rattle.opt_tables.specs.Network.{arc_line_of};

    ghost line_of = { λ settings. arc_line_of };

    ghost key_of = { λ settings. name_key };

    fn read(row: &Row<'_>, _setup: &Setup) -> Result<ArcLine, Refusal> {
        row.name(1)?;
        row.name(2)?;
        row.name(3)?;
        Ok(ArcLine {
            cost: row.number(4, 0, PRICE_LIMIT)?,
            capacity: row.number(5, 0, KILOGRAM_LIMIT)?,
            lead: row.number(6, 0, LEAD_LIMIT)?,
        })
    }

    fn key<'a>(&self, row: &Row<'a>, _setup: &Setup) -> Key<'a> {
        Key::Name(row.text(1))
    }
}

impl<'a> Link<Arc, NetworkNames<'a>> for ArcLine {
    ghost use Rattle.opt_tables.specs.Network.{arc_by};

    ghost record_of = { λ settings names. arc_by names.places };

    fn link(
        &self,
        alloc: Global,
        row: &Row<'_>,
        _setup: &Setup,
        names: &NetworkNames<'a>,
    ) -> Result<Arc, ModelFault> {
        let places = &names.places;
        let from_place = row.reference(2, places.keys())?;
        let to_place = places.end(row, 3, from_place)?;
        Ok(Arc {
            arc: Name::new(alloc, row.text(1))?,
            from_place,
            to_place,
            cost: i64::from(self.cost),
            capacity: i64::from(self.capacity),
            lead: self.lead,
        })
    }
}
