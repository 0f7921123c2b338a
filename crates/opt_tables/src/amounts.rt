ghost use Rattle.std.specs.Prelude.{◌≡◌, [], OnOk, IfOk};
ghost use Rattle.opt_tables.specs.Amounts.{AreAmounts, amount_at, with_amount, heads_in, stock_in};

use indexmap::IndexMap;
use opt_base::OutOfMemory;
use opt_model::{Persons, Stock};
use std::alloc::Global;
use std::marker::Model;

/// A place, one of its baskets or commodities, and a month.
#[derive(Clone, Copy, Debug, PartialEq, Eq, Hash)]
pub struct Spot {
    pub place: u32,
    /// The number of a basket or of a commodity.
    pub item: u32,
    pub month: u32,
}

/// Persons or kilograms.
#[derive(Clone, Copy, Debug)]
pub struct Amount {
    pub amount: i64,
}

impl Amount {
    /// The persons of a record.
    fn of_heads(one: &Persons) -> Amount
        ensures { result.amount ≡ one.now.persons }
    {
        Amount {
            amount: one.persons,
        }
    }

    /// The kilograms of a record.
    fn of_kilograms(one: &Stock) -> Amount
        ensures { result.amount ≡ one.now.kg }
    {
        Amount { amount: one.kg }
    }
}

/// Amounts by place, basket or commodity, and month, each found in constant time.
#[derive(Debug)]
pub struct Amounts {
    amounts: IndexMap<Spot, Amount>,
}

impl Model for Amounts {
    ghost use Rattle.opt_tables.specs.Amounts.{Entries};

    ghost Value = { Entries };

    ghost view = { λ a. a.amounts.entries };
}

// By hand, so that proofs about values that hold one need not look into the map.
impl Drop for Amounts {
    fn drop(self) {
        let Amounts { amounts: _amounts } = self;
    }
}

impl Amounts {
    /// No amount is known.
    fn new(alloc: Global) -> Amounts
        ensures { result ≡ [] }
    {
        Amounts {
            amounts: IndexMap::new(alloc),
        }
    }

    /// The amount at a place, of a basket or commodity, in a month, where one is known.
    pub fn get(&self, place: u32, item: u32, month: u32) -> Option<Amount>
        ensures { result ≡ amount_at self.now place item month }
    {
        let spot = Spot { place, item, month };
        self.amounts.get(&spot).copied()
    }

    /// Adds the amount of a spot, unless one is known.
    fn add(&mut self, spot: Spot, amount: Amount) -> Result<(), OutOfMemory>
        ensures { OnOk result (self.new ≡ with_amount self.old spot amount) }
    {
        if self.amounts.contains_key(&spot) {
            return Ok(());
        }
        self.amounts.insert(spot, amount)?;
        Ok(())
    }

    /// The persons by place, basket and month.
    pub fn of_persons(alloc: Global, records: &[Persons]) -> Result<Amounts, OutOfMemory>
        ensures { IfOk result (λ amounts. AreAmounts amounts (heads_in records.now)) }
    {
        let mut heads = Amounts::new(alloc);
        for one in records {
            let spot = Spot {
                place: one.place,
                item: one.basket,
                month: one.month,
            };
            let amount = Amount::of_heads(one);
            heads.add(spot, amount)?;
        }
        Ok(heads)
    }

    /// The stock by place, commodity and month, in kilograms.
    pub fn of_stock(alloc: Global, records: &[Stock]) -> Result<Amounts, OutOfMemory>
        ensures { IfOk result (λ amounts. AreAmounts amounts (stock_in records.now)) }
    {
        let mut stock = Amounts::new(alloc);
        for one in records {
            let spot = Spot {
                place: one.place,
                item: one.commodity,
                month: one.month,
            };
            let amount = Amount::of_kilograms(one);
            stock.add(spot, amount)?;
        }
        Ok(stock)
    }
}
