ghost use Rattle.std.specs.Prelude.{◌≡◌, ◌<◌, ◌≤◌, length, position, slice_get, Some, IfOk, pos, slice_index_or};
ghost use Rattle.opt_base.specs.Answers.{Gives};
ghost use Rattle.opt_model.specs.Quantities.{same_quantity, quantities};
ghost use Rattle.opt_base.specs.declared.limits.TheConstants.{QUANTITY_LIMIT};
ghost use Rattle.opt_network.specs.Fed.{MarksFed};
ghost use Rattle.opt_tables.specs.Facts.{IsModel};
ghost use Rattle.opt_network.specs.Numbering.{IsLayoutOf, IsNumbering, limited_numbering};

use crate::counts::{quantity_count, ration_count};
use crate::fed::FedMonths;
use crate::listing::list_quantities;
use crate::numbers::number_quantities;
use crate::spans::spans_of;
use indexmap::IndexSet;
use opt_base::{ModelFault, QUANTITIES_COLUMN, QUANTITY_LIMIT, Refusal};
use opt_model::Quantity;
use opt_tables::Tables;
use std::alloc::{AllocError, Global};
use std::marker::Model;

/// The quantities of a model by their numbers, from 0: the rations first, then what is short, bought, shipped, kept,
/// handed out and ordered. Each has the range of its values.
#[derive(Debug)]
pub struct Layout {
    quantities: IndexSet<Quantity>,
    lows: Vec<i64>,
    highs: Vec<i64>,
    rations: u32,
}

impl Model for Layout {
    ghost use Rattle.opt_network.specs.Numbering.{Numbering, numbering_with, IsNumbering};

    ghost Value = { Numbering };

    ghost view = { λ l. numbering_with l.quantities.keys l.lows.items l.highs.items l.rations };

    ghost invariant = { λ l. IsNumbering (numbering_with l.quantities.keys l.lows.items l.highs.items l.rations) };
}

// By hand, so that proofs about values that hold one need not look into the set.
impl Drop for Layout {
    fn drop(self) {
        let Layout {
            quantities: _quantities,
            lows: _lows,
            highs: _highs,
            rations: _rations,
        } = self;
    }
}

impl Layout {
    /// The layout of a model. It is refused exactly where the model has more quantities than `QUANTITY_LIMIT`, with
    /// their count, which is found before any of them is made.
    pub fn new(alloc: Global, tables: &Tables) -> Result<Layout, ModelFault>
        ensures layout { IfOk result (λ layout. IsLayoutOf tables.now layout) }
        ensures answer { Gives (λ layout. layout) result (limited_numbering tables.now) }
    {
        let _settings = tables.settings();
        let fed = FedMonths::of_tables(alloc, tables)?;
        let count = quantity_count(tables, &fed);
        if count > QUANTITY_LIMIT as u64 {
            return Err(ModelFault::Refused(Refusal::too_many(QUANTITIES_COLUMN, count)));
        }
        Ok(Layout::of_tables(alloc, tables, &fed)?)
    }

    /// The layout of a model whose quantities are within their limit.
    fn of_tables(alloc: Global, tables: &Tables, fed: &FedMonths) -> Result<Layout, AllocError>
        requires model { IsModel tables.now }
        requires fed { MarksFed tables.now fed.now }
        requires few { length (quantities tables.now) ≤ QUANTITY_LIMIT }
        ensures { IfOk result (λ layout. IsLayoutOf tables.now layout) }
    {
        let list = list_quantities(alloc, tables, fed)?;
        let spans = spans_of(alloc, tables, &list)?;
        let quantities = number_quantities(alloc, &list)?;
        Ok(Layout {
            quantities,
            lows: spans.lows,
            highs: spans.highs,
            rations: ration_count(tables) as u32,
        })
    }

    /// How many quantities there are. What holds of every layout stands in the second clause.
    pub fn len(&self) -> u32
        ensures value { result ≡ length self.now.quantities }
        ensures numbering { IsNumbering self.now }
    {
        self.quantities.len() as u32
    }

    /// How many of the quantities are rations, which come first.
    pub fn rations(&self) -> u32
        ensures { result ≡ self.now.rations }
    {
        self.rations
    }

    /// The quantity of a number.
    pub fn quantity(&self, i: u32) -> Quantity
        requires { i < length self.now.quantities }
        ensures value { Some result ≡ slice_get self.now.quantities i }
        ensures inverse { position (same_quantity result) self.now.quantities ≡ Some i }
    {
        match self.quantities.get_index(i as usize) {
            Some(quantity) => *quantity,
            None => unreachable!(),
        }
    }

    /// The number of a quantity; none exactly where it does not exist. It takes constant time.
    pub fn index(&self, q: &Quantity) -> Option<u32>
        ensures { result ≡ position (same_quantity q.now) self.now.quantities }
    {
        let i = self.quantities.get_index_of(q)?;
        Some(i as u32)
    }

    /// The least and the greatest value of the quantity of a number: a ration's in steps, a shortfall's in units per
    /// person and day, whether an offer is used 0 or 1, else kilograms.
    pub fn range(&self, i: u32) -> (i64, i64)
        requires { i < length self.now.quantities }
        ensures low { result.0 ≡ slice_index_or self.now.lows i (pos 0) }
        ensures high { result.1 ≡ slice_index_or self.now.highs i (pos 0) }
    {
        (self.lows[i as usize], self.highs[i as usize])
    }
}
