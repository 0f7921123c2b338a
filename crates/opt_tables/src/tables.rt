ghost use Rattle.std.specs.Prelude.{◌≡◌};

use crate::amounts::Amounts;
use crate::demand::DemandRecords;
use crate::diet::DietRecords;
use crate::network::NetworkRecords;
use opt_base::OutOfMemory;
use opt_model::{
    Arc, Basket, Commodity, Content, Group, Need, Nutrient, Offer, Persons, Place, Stock,
};
use opt_read::Setup;
use std::alloc::Global;
use std::marker::Model;

/// The settings and the records of all tables.
#[derive(Debug, Drop)]
pub struct Records {
    pub settings: Setup,
    pub diet: DietRecords,
    pub network: NetworkRecords,
    pub demand: DemandRecords,
}

impl Model for Records {
    ghost use Rattle.opt_model.specs.Tables.{Tables as Contents};
    ghost use Rattle.opt_tables.specs.Model.{tables_with};

    ghost Value = { Contents };

    ghost view = { λ r. tables_with r.settings r.diet r.network r.demand };
}

impl Records {
    fn persons(&self) -> &[Persons]
        ensures { result.now ≡ self.now.persons }
    {
        self.network.persons.as_slice()
    }

    fn stock(&self) -> &[Stock]
        ensures { result.now ≡ self.now.stock }
    {
        self.network.stock.as_slice()
    }
}

/// What the settings and the tables of a folder say, each table in file order.
/// A reference to another table is the number of its record, from 0.
#[derive(Debug, Drop)]
pub struct Tables {
    records: Records,
    heads: Amounts,
    kilograms: Amounts,
}

impl Model for Tables {
    ghost use Rattle.opt_model.specs.Tables.{Tables as Contents};
    ghost use Rattle.opt_tables.specs.Amounts.{HasAmounts};

    ghost Value = { Contents };

    ghost view = { λ t. t.records };

    ghost invariant = { λ t. HasAmounts t.records t.heads t.kilograms };
}

impl Tables {
    ghost use Rattle.std.specs.Prelude.{IfOk};
    ghost use Rattle.opt_model.specs.Tables.{heads_at, stock_at};
    ghost use Rattle.opt_tables.specs.Facts.{IsModel};

    /// The tables of these records.
    pub(crate) fn new(alloc: Global, records: Records) -> Result<Tables, OutOfMemory>
        requires { IsModel records }
        ensures { IfOk result (λ tables. tables ≡ records) }
    {
        let heads = Amounts::of_persons(alloc, records.persons())?;
        let kilograms = Amounts::of_stock(alloc, records.stock())?;
        Ok(Tables {
            records,
            heads,
            kilograms,
        })
    }

    /// The persons of a basket whom a point feeds in a month, 0 where no record names them. The place and the basket go
    /// by the numbers of their records, months from 1. It takes no memory, and constant time.
    pub fn heads_at(&self, place: u32, basket: u32, month: u32) -> i64
        ensures { result ≡ heads_at self.now place basket month }
    {
        match self.heads.get(place, basket, month) {
            Some(heads) => heads.amount,
            None => 0,
        }
    }

    /// The kilograms of a commodity that are at a place at a month's start and were not there before, 0 where no record
    /// names them. It takes no memory, and constant time.
    pub fn stock_at(&self, place: u32, commodity: u32, month: u32) -> i64
        ensures { result ≡ stock_at self.now place commodity month }
    {
        match self.kilograms.get(place, commodity, month) {
            Some(stock) => stock.amount,
            None => 0,
        }
    }

    /// What settings.toml says. All that holds of a model that was read stands in the second clause.
    pub fn settings(&self) -> &Setup
        ensures value { result.now ≡ self.now.settings }
        ensures model { IsModel self.now }
    {
        &self.records.settings
    }

    /// What can be eaten.
    pub fn commodities(&self) -> &[Commodity]
        ensures { result.now ≡ self.now.commodities }
    {
        self.records.diet.commodities.as_slice()
    }

    /// Commodities whose rations are limited together.
    pub fn groups(&self) -> &[Group]
        ensures { result.now ≡ self.now.groups }
    {
        self.records.diet.groups.as_slice()
    }

    /// The nutrients' names.
    pub fn nutrients(&self) -> &[Nutrient]
        ensures { result.now ≡ self.now.nutrients }
    {
        self.records.diet.nutrients.as_slice()
    }

    /// How much of the nutrients the commodities hold.
    pub fn contents(&self) -> &[Content]
        ensures { result.now ≡ self.now.contents }
    {
        self.records.diet.contents.as_slice()
    }

    /// The places of the network.
    pub fn places(&self) -> &[Place]
        ensures { result.now ≡ self.now.places }
    {
        self.records.network.places.as_slice()
    }

    /// What suppliers sell.
    pub fn offers(&self) -> &[Offer]
        ensures { result.now ≡ self.now.offers }
    {
        self.records.network.offers.as_slice()
    }

    /// The ways from place to place.
    pub fn arcs(&self) -> &[Arc]
        ensures { result.now ≡ self.now.arcs }
    {
        self.records.network.arcs.as_slice()
    }

    /// Whom the points feed.
    pub fn persons(&self) -> &[Persons]
        ensures { result.now ≡ self.now.persons }
    {
        self.records.network.persons.as_slice()
    }

    /// Food that is there from a month's start on.
    pub fn stock(&self) -> &[Stock]
        ensures { result.now ≡ self.now.stock }
    {
        self.records.network.stock.as_slice()
    }

    /// The kinds of beneficiaries.
    pub fn baskets(&self) -> &[Basket]
        ensures { result.now ≡ self.now.baskets }
    {
        self.records.demand.baskets.as_slice()
    }

    /// What each basket must give of the nutrients.
    pub fn needs(&self) -> &[Need]
        ensures { result.now ≡ self.now.needs }
    {
        self.records.demand.needs.as_slice()
    }
}
