//! What comes to each place and what leaves it.
ghost use Rattle.std.specs.Prelude.{◌≡◌, ◌<◌, length, IfOk};
ghost use Rattle.opt_tables.specs.Facts.{IsModel};
ghost use Rattle.opt_rows.specs.Piles.{pile_at, ArePiles};
ghost use Rattle.opt_rows.specs.Listed.{sale_of, sales_at, way_of, arrivals_at, departures_from};
ghost use Rattle.opt_rows.specs.Listed.{offers_of, begins_in_plan, arrives_in_plan, IsNetworkOf};

use crate::piles::Piles;
use opt_model::{Arc, Offer};
use opt_tables::Tables;
use std::alloc::{AllocError, Global};

/// What an offer sells. The offer and the commodity go by the numbers of their records.
#[derive(Clone, Copy, Debug, PartialEq, Eq)]
pub struct Sale {
    pub offer: u32,
    pub commodity: u32,
}

/// An arc by the number of its record, with its lead time in months.
#[derive(Clone, Copy, Debug, PartialEq, Eq)]
pub struct Way {
    pub arc: u32,
    pub lead: u32,
}

/// What comes to a place and what leaves it.
#[derive(Clone, Copy)]
pub struct Flows<'a> {
    pub place: u32,
    /// The numbers of the offers at the place, by their commodities.
    pub offers: &'a Piles<u32>,
    /// The arcs that lead to the place.
    pub arrivals: &'a [Way],
    /// The arcs that lead from the place.
    pub departures: &'a [Way],
}

/// For each place the offers that stand there and the arcs that lead to it and from it, in the order of their numbers. What
/// has no quantity in any month of the plan is left out.
#[derive(Debug, Drop)]
pub struct Network {
    sales: Piles<Sale>,
    arrivals: Piles<Way>,
    departures: Piles<Way>,
}

/// What an offer sells.
fn sale_of(number: u32, offer: &Offer) -> Sale
    ensures { result ≡ sale_of number offer.now }
{
    Sale {
        offer: number,
        commodity: offer.commodity,
    }
}

/// An arc with its number.
fn way_of(number: u32, arc: &Arc) -> Way
    ensures { result ≡ way_of number arc.now }
{
    Way {
        arc: number,
        lead: arc.lead,
    }
}

/// Whether an offer stands from a month of the plan on.
fn begins_in_plan(tables: &Tables, offer: &Offer) -> bool
    ensures { result ≡ begins_in_plan tables.now offer.now }
{
    offer.first <= tables.settings().months()
}

/// Whether what leaves on an arc can arrive in a month of the plan.
pub fn arrives_in_plan(tables: &Tables, arc: &Arc) -> bool
    ensures { result ≡ arrives_in_plan tables.now arc.now }
{
    arc.lead < tables.settings().months()
}

/// What the offers sell, by their places.
fn sales_of(alloc: Global, tables: &Tables) -> Result<Piles<Sale>, AllocError>
    requires { IsModel tables.now }
    ensures { IfOk result (ArePiles (length tables.now.places) (sales_at tables.now)) }
{
    let mut sales = Piles::new(alloc, tables.places().len())?;
    for (number, offer) in tables.offers().iter().enumerate() {
        let sale = sale_of(number as u32, offer);
        sales.add_if(begins_in_plan(tables, offer), offer.place, sale)?;
    }
    Ok(sales)
}

/// The arcs, by the places that they lead to.
fn arrivals_of(alloc: Global, tables: &Tables) -> Result<Piles<Way>, AllocError>
    requires { IsModel tables.now }
    ensures { IfOk result (ArePiles (length tables.now.places) (arrivals_at tables.now)) }
{
    let mut arrivals = Piles::new(alloc, tables.places().len())?;
    for (number, arc) in tables.arcs().iter().enumerate() {
        let way = way_of(number as u32, arc);
        arrivals.add_if(arrives_in_plan(tables, arc), arc.to_place, way)?;
    }
    Ok(arrivals)
}

/// The arcs, by the places that they lead from.
fn departures_of(alloc: Global, tables: &Tables) -> Result<Piles<Way>, AllocError>
    requires { IsModel tables.now }
    ensures { IfOk result (ArePiles (length tables.now.places) (departures_from tables.now)) }
{
    let mut departures = Piles::new(alloc, tables.places().len())?;
    for (number, arc) in tables.arcs().iter().enumerate() {
        let way = way_of(number as u32, arc);
        departures.add_if(arrives_in_plan(tables, arc), arc.from_place, way)?;
    }
    Ok(departures)
}

/// The numbers of the offers that sell this, by their commodities.
pub fn offers_of(alloc: Global, tables: &Tables, sales: &[Sale]) -> Result<Piles<u32>, AllocError>
    ensures { IfOk result (ArePiles (length tables.now.commodities) (offers_of sales.now)) }
{
    let mut offers = Piles::new(alloc, tables.commodities().len())?;
    for sale in sales {
        offers.add(sale.commodity, sale.offer)?;
    }
    Ok(offers)
}

impl Network {
    /// The offers and the arcs of a model, each looked at once.
    pub fn of_tables(alloc: Global, tables: &Tables) -> Result<Network, AllocError>
        requires { IsModel tables.now }
        ensures { IfOk result (IsNetworkOf tables.now) }
    {
        let sales = sales_of(alloc, tables)?;
        let arrivals = arrivals_of(alloc, tables)?;
        let departures = departures_of(alloc, tables)?;
        Ok(Network {
            sales,
            arrivals,
            departures,
        })
    }

    /// The offers at a place.
    pub fn sales(&self, place: u32) -> &[Sale]
        requires { place < length self.now.sales }
        ensures { result.now ≡ pile_at self.now.sales place }
    {
        self.sales.pile(place)
    }

    /// The arcs that lead to a place.
    pub fn arrivals(&self, place: u32) -> &[Way]
        requires { place < length self.now.arrivals }
        ensures { result.now ≡ pile_at self.now.arrivals place }
    {
        self.arrivals.pile(place)
    }

    /// The arcs that lead from a place.
    pub fn departures(&self, place: u32) -> &[Way]
        requires { place < length self.now.departures }
        ensures { result.now ≡ pile_at self.now.departures place }
    {
        self.departures.pile(place)
    }
}
