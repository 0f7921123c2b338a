ghost use Rattle.std.specs.Prelude.{◌≡◌};
ghost use Rattle.opt_tables.specs.Network.{basket_by};

use crate::demand::DemandNames;
use crate::key::Key;
use crate::keys::Keys;
use crate::lines::Line;
use crate::link::Link;
use crate::row::Row;
use opt_base::{ModelFault, Refusal};
use opt_model::{PERSON_LIMIT, Persons, PlaceKind, has_baskets};
use opt_read::Setup;
use std::alloc::Global;

/// What a record of persons.csv says but for its names.
#[derive(Clone, Copy, Debug, PartialEq, Eq)]
pub struct PersonsLine {
    /// The month, from 1.
    pub month: u32,
    /// 0 to 10^7 persons.
    pub persons: u32,
}

impl Line for PersonsLine {
    ghost use Rattle.opt_tables.specs.Network.{persons_line_of, persons_key};

    ghost line_of = { persons_line_of };

    ghost key_of = { persons_key };

    fn read(row: &Row<'_>, setup: &Setup) -> Result<PersonsLine, Refusal> {
        row.name(1)?;
        let month = row.number(2, 1, setup.months())?;
        let persons = row.number(3, 0, PERSON_LIMIT)?;
        if has_baskets(setup.format()) {
            row.name(4)?;
        }
        Ok(PersonsLine { month, persons })
    }

    fn key<'a>(&self, row: &Row<'a>, setup: &Setup) -> Key<'a> {
        if has_baskets(setup.format()) {
            Key::NamesInMonth(row.text(1), row.text(4), self.month)
        } else {
            Key::NameInMonth(row.text(1), self.month)
        }
    }
}

impl<'a> Link<Persons, DemandNames<'a>> for PersonsLine {
    ghost use Rattle.opt_tables.specs.Network.{persons_by};

    ghost record_of = { λ settings names. persons_by settings names.network.names.places names.baskets.keys };

    fn link(
        &self,
        _alloc: Global,
        row: &Row<'_>,
        setup: &Setup,
        names: &DemandNames<'a>,
    ) -> Result<Persons, ModelFault> {
        let places = &names.network.names.places;
        let place = places.of_kind(row, 1, PlaceKind::Point)?;
        let basket = basket(row, setup, names.baskets.keys())?;
        Ok(Persons {
            place,
            month: self.month,
            persons: i64::from(self.persons),
            basket,
        })
    }
}

/// The number of the basket that the column of baskets names; that of the one basket in a format without baskets of
/// its own.
fn basket(row: &Row<'_>, setup: &Setup, baskets: &Keys<'_>) -> Result<u32, Refusal>
    ensures { result ≡ basket_by setup.now row.now baskets.now }
{
    if has_baskets(setup.format()) {
        row.reference(4, baskets)
    } else {
        Ok(0)
    }
}
