//! The terms of what a plan costs: what is bought, shipped and kept, and the fees of orders.
ghost use Rattle.std.specs.Prelude.{◌≡◌, [], ◌∷◌, ◌++◌, ◌+ℤ◌, slice_get, Some, OnOk};
ghost use Rattle.opt_model.specs.Quantities.{over, over_months, of_record};
ghost use Rattle.opt_model.specs.Rows.{cost_terms};
ghost use Rattle.opt_model.specs.declared.quantity.Quantity.TheVariants.{Buy, Ship, Keep, Order};
ghost use Rattle.opt_tables.specs.Facts.{IsPrice};
ghost use Rattle.opt_network.specs.Numbering.{IsLayoutOf};
ghost use Rattle.opt_rows.specs.Gathering.{entries_of};

use crate::costs::shipping_on;
use crate::counts::{arc_count, commodity_count, month_count, offer_count, place_count};
use crate::flows::arrives_in_plan;
use crate::term_buffer::TermBuffer;
use opt_base::OutOfMemory;
use opt_model::{Arc, Offer, Place, Quantity};
use opt_network::Layout;
use opt_tables::Tables;

/// What is bought of an offer in a month, by its price.
fn purchase(number: u32, offer: &Offer, month: u32) -> (Quantity, i64)
    ensures quantity { result.0 ≡ Buy number month }
    ensures coefficient { result.1 ≡ offer.now.price }
{
    let buy = Quantity::Buy {
        offer: number,
        month,
    };
    (buy, offer.price)
}

/// Adds what is bought of an offer.
fn add_purchases_of(
    terms: &mut TermBuffer,
    tables: &Tables,
    layout: &Layout,
    number: u32,
    offer: &Offer,
) -> Result<(), OutOfMemory>
    ensures { OnOk result (terms.new ≡ terms.old ++ entries_of layout.now.quantities
        (over_months tables.now λ m. (Buy number m, offer.now.price) ∷ [])) }
{
    for earlier in 0..month_count(tables) {
        terms.add(layout, purchase(number, offer, earlier + 1))?;
    }
    Ok(())
}

/// Adds what is bought of all offers.
fn add_purchases(
    terms: &mut TermBuffer,
    tables: &Tables,
    layout: &Layout,
) -> Result<(), OutOfMemory>
    ensures { OnOk result (terms.new ≡ terms.old ++ entries_of layout.now.quantities
        (over tables.now.offers λ o offer. over_months tables.now λ m. (Buy o m, offer.price) ∷ [])) }
{
    let offers = tables.offers();
    for number in 0..offer_count(tables) {
        let offer = &offers[number as usize];
        add_purchases_of(terms, tables, layout, number, offer)?;
    }
    Ok(())
}

/// What is shipped of a commodity on an arc in a month, by the price of a kilogram with the handling where the arc
/// ends.
fn shipment(tables: &Tables, number: u32, arc: &Arc, commodity: u32, month: u32) -> (Quantity, i64)
    requires { IsPrice arc.now.cost }
    ensures quantity { result.0 ≡ Ship number commodity month }
    ensures coefficient { result.1 ≡ arc.now.cost
        +ℤ of_record tables.now.places arc.now.to_place (λ r. r.handling) }
{
    let ship = Quantity::Ship {
        arc: number,
        commodity,
        month,
    };
    (ship, shipping_on(tables, arc))
}

/// Adds what is shipped of a commodity on an arc.
fn add_shipments_of(
    terms: &mut TermBuffer,
    tables: &Tables,
    layout: &Layout,
    number: u32,
    arc: &Arc,
    commodity: u32,
) -> Result<(), OutOfMemory>
    requires { IsPrice arc.now.cost }
    ensures { OnOk result (terms.new ≡ terms.old ++ entries_of layout.now.quantities
        (over_months tables.now λ m. (
          Ship number commodity m,
          arc.now.cost +ℤ of_record tables.now.places arc.now.to_place (λ r. r.handling),
        ) ∷ [])) }
{
    for earlier in 0..month_count(tables) {
        terms.add(
            layout,
            shipment(tables, number, arc, commodity, earlier + 1),
        )?;
    }
    Ok(())
}

/// Adds what is shipped on an arc.
fn add_shipments_on(
    terms: &mut TermBuffer,
    tables: &Tables,
    layout: &Layout,
    number: u32,
    arc: &Arc,
) -> Result<(), OutOfMemory>
    requires { IsPrice arc.now.cost }
    ensures { OnOk result (terms.new ≡ terms.old ++ entries_of layout.now.quantities
        (over tables.now.commodities λ c _. over_months tables.now λ m. (
          Ship number c m,
          arc.now.cost +ℤ of_record tables.now.places arc.now.to_place (λ r. r.handling),
        ) ∷ [])) }
{
    for commodity in 0..commodity_count(tables) {
        add_shipments_of(terms, tables, layout, number, arc, commodity)?;
    }
    Ok(())
}

/// Adds what is shipped on an arc. Where nothing that leaves on it arrives in the plan, no such quantity exists.
fn add_shipments_if(
    terms: &mut TermBuffer,
    tables: &Tables,
    layout: &Layout,
    number: u32,
    arc: &Arc,
) -> Result<(), OutOfMemory>
    requires layout { IsLayoutOf tables.now layout.now }
    requires arc { slice_get tables.now.arcs number ≡ Some arc.now }
    requires price { IsPrice arc.now.cost }
    ensures { OnOk result (terms.new ≡ terms.old ++ entries_of layout.now.quantities
        (over tables.now.commodities λ c _. over_months tables.now λ m. (
          Ship number c m,
          arc.now.cost +ℤ of_record tables.now.places arc.now.to_place (λ r. r.handling),
        ) ∷ [])) }
{
    if arrives_in_plan(tables, arc) {
        add_shipments_on(terms, tables, layout, number, arc)?;
    }
    Ok(())
}

/// Adds what is shipped on all arcs.
fn add_shipments(
    terms: &mut TermBuffer,
    tables: &Tables,
    layout: &Layout,
) -> Result<(), OutOfMemory>
    requires { IsLayoutOf tables.now layout.now }
    ensures { OnOk result (terms.new ≡ terms.old ++ entries_of layout.now.quantities
        (over tables.now.arcs λ a arc. over tables.now.commodities λ c _.
        over_months tables.now λ m. (
          Ship a c m,
          arc.cost +ℤ of_record tables.now.places arc.to_place (λ r. r.handling),
        ) ∷ [])) }
{
    let _settings = tables.settings();
    let arcs = tables.arcs();
    for number in 0..arc_count(tables) {
        let arc = &arcs[number as usize];
        add_shipments_if(terms, tables, layout, number, arc)?;
    }
    Ok(())
}

/// What a place keeps of a commodity in a month, by the price of a kilogram.
fn storage(number: u32, place: &Place, commodity: u32, month: u32) -> (Quantity, i64)
    ensures quantity { result.0 ≡ Keep number commodity month }
    ensures coefficient { result.1 ≡ place.now.storage_cost }
{
    let keep = Quantity::Keep {
        place: number,
        commodity,
        month,
    };
    (keep, place.storage_cost)
}

/// Adds what a place keeps of a commodity.
fn add_storage_of(
    terms: &mut TermBuffer,
    tables: &Tables,
    layout: &Layout,
    number: u32,
    place: &Place,
    commodity: u32,
) -> Result<(), OutOfMemory>
    ensures { OnOk result (terms.new ≡ terms.old ++ entries_of layout.now.quantities
        (over_months tables.now λ m. (Keep number commodity m, place.now.storage_cost) ∷ [])) }
{
    for earlier in 0..month_count(tables) {
        terms.add(layout, storage(number, place, commodity, earlier + 1))?;
    }
    Ok(())
}

/// Adds what a place keeps.
fn add_storage_at(
    terms: &mut TermBuffer,
    tables: &Tables,
    layout: &Layout,
    number: u32,
    place: &Place,
) -> Result<(), OutOfMemory>
    ensures { OnOk result (terms.new ≡ terms.old ++ entries_of layout.now.quantities
        (over tables.now.commodities λ c _. over_months tables.now λ m.
        (Keep number c m, place.now.storage_cost) ∷ [])) }
{
    for commodity in 0..commodity_count(tables) {
        add_storage_of(terms, tables, layout, number, place, commodity)?;
    }
    Ok(())
}

/// Adds what all places keep.
fn add_storage(terms: &mut TermBuffer, tables: &Tables, layout: &Layout) -> Result<(), OutOfMemory>
    ensures { OnOk result (terms.new ≡ terms.old ++ entries_of layout.now.quantities
        (over tables.now.places λ p place. over tables.now.commodities λ c _.
        over_months tables.now λ m. (Keep p c m, place.storage_cost) ∷ [])) }
{
    let places = tables.places();
    for number in 0..place_count(tables) {
        let place = &places[number as usize];
        add_storage_at(terms, tables, layout, number, place)?;
    }
    Ok(())
}

/// Whether an offer is used in a month, by its fee.
fn order(number: u32, offer: &Offer, month: u32) -> (Quantity, i64)
    ensures quantity { result.0 ≡ Order number month }
    ensures coefficient { result.1 ≡ offer.now.fee }
{
    let order = Quantity::Order {
        offer: number,
        month,
    };
    (order, offer.fee)
}

/// Adds the fees of an offer.
fn add_fees_of(
    terms: &mut TermBuffer,
    tables: &Tables,
    layout: &Layout,
    number: u32,
    offer: &Offer,
) -> Result<(), OutOfMemory>
    ensures { OnOk result (terms.new ≡ terms.old ++ entries_of layout.now.quantities
        (over_months tables.now λ m. (Order number m, offer.now.fee) ∷ [])) }
{
    for earlier in 0..month_count(tables) {
        terms.add(layout, order(number, offer, earlier + 1))?;
    }
    Ok(())
}

/// Adds the fees of all offers.
fn add_fees(terms: &mut TermBuffer, tables: &Tables, layout: &Layout) -> Result<(), OutOfMemory>
    ensures { OnOk result (terms.new ≡ terms.old ++ entries_of layout.now.quantities
        (over tables.now.offers λ o offer. over_months tables.now λ m. (Order o m, offer.fee) ∷ [])) }
{
    let offers = tables.offers();
    for number in 0..offer_count(tables) {
        let offer = &offers[number as usize];
        add_fees_of(terms, tables, layout, number, offer)?;
    }
    Ok(())
}

/// Adds the terms of the whole cost, in mills.
pub fn add_costs(
    terms: &mut TermBuffer,
    tables: &Tables,
    layout: &Layout,
) -> Result<(), OutOfMemory>
    requires { IsLayoutOf tables.now layout.now }
    ensures { OnOk result (terms.new
        ≡ terms.old ++ entries_of layout.now.quantities (cost_terms tables.now)) }
{
    add_purchases(terms, tables, layout)?;
    add_shipments(terms, tables, layout)?;
    add_storage(terms, tables, layout)?;
    add_fees(terms, tables, layout)?;
    Ok(())
}
