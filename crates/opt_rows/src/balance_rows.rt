//! The rows of the balances.
ghost use Rattle.std.specs.Prelude.{◌≡◌, ◌<◌, ◌-◌, ◌^◌, [], ◌∷◌, ◌++◌};
ghost use Rattle.std.specs.Prelude.{map, length, pos, neg_ℤ, OnOk};
ghost use Rattle.std.specs.List.{flat_map};
ghost use Rattle.opt_model.specs.Tables.{stock_at};
ghost use Rattle.opt_model.specs.Quantities.{over, over_months};
ghost use Rattle.opt_model.specs.Rows.{kept_terms, balance_rows};
ghost use Rattle.opt_model.specs.declared.quantity.Quantity.TheVariants.{Buy, Ship, Keep, Feed};
ghost use Rattle.opt_tables.specs.Facts.{IsModel, IsFrom};
ghost use Rattle.opt_network.specs.Numbering.{IsLayoutOf};
ghost use Rattle.opt_rows.specs.Gathering.{entries_of};
ghost use Rattle.opt_rows.specs.Listed.{offers_of, sales_at, AreFlowsOf, IsNetworkOf};
ghost use Rattle.opt_rows.specs.Piles.{ArePiles};
ghost use Rattle.opt_rows.specs.Parts.{balance_row, balance_terms};
ghost use Rattle.opt_rows.specs.Systems.{row_over};

use crate::arrivals::add_arrivals;
use crate::counts::{commodity_count, month_count, place_count};
use crate::flows::{Flows, Network, Way, offers_of};
use crate::piles::Piles;
use crate::spot::{Spot, handed_out};
use crate::term_buffer::{TermBuffer, push_equal};
use opt_base::OutOfMemory;
use opt_model::Quantity;
use opt_network::Layout;
use opt_system::RowList;
use opt_tables::Tables;
use std::alloc::{AllocError, Global};

/// Adds what is bought of these offers.
fn add_bought(
    terms: &mut TermBuffer,
    layout: &Layout,
    offers: &[u32],
    month: u32,
) -> Result<(), OutOfMemory>
    ensures { OnOk result (terms.new ≡ terms.old ++ entries_of layout.now.quantities
        (flat_map (λ o. (Buy o month, pos 1) ∷ []) offers.now)) }
{
    for offer in offers {
        let buy = Quantity::Buy {
            offer: *offer,
            month,
        };
        terms.add(layout, (buy, 1))?;
    }
    Ok(())
}

/// What is kept at a spot.
fn kept(spot: Spot) -> Quantity
    ensures { result ≡ Keep spot.place spot.commodity spot.month }
{
    Quantity::Keep {
        place: spot.place,
        commodity: spot.commodity,
        month: spot.month,
    }
}

/// What was kept in the month before.
fn kept_before(spot: Spot) -> Quantity
    requires { 1 < spot.month }
    ensures { result ≡ Keep spot.place spot.commodity (spot.month - 1) }
{
    Quantity::Keep {
        place: spot.place,
        commodity: spot.commodity,
        month: spot.month - 1,
    }
}

/// Adds what was kept in the month before, past the first.
fn add_kept(terms: &mut TermBuffer, layout: &Layout, spot: Spot) -> Result<(), AllocError>
    ensures { OnOk result (terms.new ≡ terms.old ++ entries_of layout.now.quantities
        (kept_terms spot.place spot.commodity spot.month)) }
{
    if spot.month > 1 {
        terms.add(layout, (kept_before(spot), 1))?;
    }
    Ok(())
}

/// Takes away what leaves.
fn add_departures(
    terms: &mut TermBuffer,
    layout: &Layout,
    departures: &[Way],
    spot: Spot,
) -> Result<(), OutOfMemory>
    ensures { OnOk result (terms.new ≡ terms.old ++ entries_of layout.now.quantities
        (flat_map (λ way. (Ship way.arc spot.commodity spot.month, neg_ℤ (pos 1)) ∷ [])
        departures.now)) }
{
    for way in departures {
        let ship = Quantity::Ship {
            arc: way.arc,
            commodity: spot.commodity,
            month: spot.month,
        };
        terms.add(layout, (ship, -1))?;
    }
    Ok(())
}

/// Takes away what is kept and handed out.
fn add_uses(terms: &mut TermBuffer, layout: &Layout, spot: Spot) -> Result<(), AllocError>
    ensures { OnOk result (terms.new ≡ terms.old ++ entries_of layout.now.quantities
        ((Keep spot.place spot.commodity spot.month, neg_ℤ (pos 1))
        ∷ (Feed spot.place spot.commodity spot.month, neg_ℤ (pos 1)) ∷ [])) }
{
    terms.add(layout, (kept(spot), -1))?;
    terms.add(layout, (handed_out(spot), -1))?;
    Ok(())
}

/// Adds the terms of a balance.
fn add_terms(
    terms: &mut TermBuffer,
    tables: &Tables,
    layout: &Layout,
    flows: &Flows<'_>,
    spot: Spot,
) -> Result<(), OutOfMemory>
    requires layout { IsLayoutOf tables.now layout.now }
    requires flows { AreFlowsOf tables.now flows.now }
    requires place { spot.place ≡ flows.now.place }
    requires commodity { spot.commodity < length tables.now.commodities }
    ensures { OnOk result (terms.new ≡ terms.old ++ entries_of layout.now.quantities
        (balance_terms tables.now spot.place spot.commodity spot.month)) }
{
    add_bought(terms, layout, flows.offers.pile(spot.commodity), spot.month)?;
    add_arrivals(terms, layout, flows.arrivals, spot)?;
    add_kept(terms, layout, spot)?;
    add_departures(terms, layout, flows.departures, spot)?;
    add_uses(terms, layout, spot)?;
    Ok(())
}

/// The stock of a spot.
fn stock(tables: &Tables, spot: Spot) -> i64
    requires { IsModel tables.now }
    ensures value { result ≡ stock_at tables.now spot.place spot.commodity spot.month }
    ensures range { IsFrom (pos 0) (pos (10 ^ 9)) result }
{
    tables.stock_at(spot.place, spot.commodity, spot.month)
}

/// The stock of a spot, with the other sign.
fn owed_stock(tables: &Tables, spot: Spot) -> i64
    requires { IsModel tables.now }
    ensures { result ≡ neg_ℤ (stock_at tables.now spot.place spot.commodity spot.month) }
{
    -stock(tables, spot)
}

/// Adds the balance of a spot.
fn add_row(
    rows: &mut RowList,
    alloc: Global,
    tables: &Tables,
    layout: &Layout,
    flows: &Flows<'_>,
    spot: Spot,
) -> Result<(), OutOfMemory>
    requires model { IsModel tables.now }
    requires layout { IsLayoutOf tables.now layout.now }
    requires flows { AreFlowsOf tables.now flows.now }
    requires place { spot.place ≡ flows.now.place }
    requires commodity { spot.commodity < length tables.now.commodities }
    ensures { OnOk result (rows.new ≡ rows.old ++ map (row_over layout.now.quantities)
        (balance_row tables.now spot.place spot.commodity spot.month)) }
{
    let mut terms = TermBuffer::new(alloc);
    add_terms(&mut terms, tables, layout, flows, spot)?;
    push_equal(rows, layout, &terms, &owed_stock(tables, spot))?;
    Ok(())
}

/// Adds the balances of a commodity at a place.
fn add_months(
    rows: &mut RowList,
    alloc: Global,
    tables: &Tables,
    layout: &Layout,
    flows: &Flows<'_>,
    commodity: u32,
) -> Result<(), OutOfMemory>
    requires model { IsModel tables.now }
    requires layout { IsLayoutOf tables.now layout.now }
    requires flows { AreFlowsOf tables.now flows.now }
    requires commodity { commodity < length tables.now.commodities }
    ensures { OnOk result (rows.new ≡ rows.old ++ map (row_over layout.now.quantities)
        (over_months tables.now (balance_row tables.now flows.now.place commodity))) }
{
    for earlier in 0..month_count(tables) {
        let spot = Spot {
            place: flows.place,
            commodity,
            month: earlier + 1,
        };
        add_row(rows, alloc, tables, layout, flows, spot)?;
    }
    Ok(())
}

/// Adds the balances of all commodities at a place with these flows.
fn add_commodities(
    rows: &mut RowList,
    alloc: Global,
    tables: &Tables,
    layout: &Layout,
    flows: &Flows<'_>,
) -> Result<(), OutOfMemory>
    requires model { IsModel tables.now }
    requires layout { IsLayoutOf tables.now layout.now }
    requires flows { AreFlowsOf tables.now flows.now }
    ensures { OnOk result (rows.new ≡ rows.old ++ map (row_over layout.now.quantities)
        (over tables.now.commodities λ c _.
        over_months tables.now (balance_row tables.now flows.now.place c))) }
{
    for commodity in 0..commodity_count(tables) {
        add_months(rows, alloc, tables, layout, flows, commodity)?;
    }
    Ok(())
}

/// Adds the balances at a place with these offers.
fn add_offered(
    rows: &mut RowList,
    alloc: Global,
    tables: &Tables,
    layout: &Layout,
    network: &Network,
    offers: &Piles<u32>,
    place: u32,
) -> Result<(), OutOfMemory>
    requires model { IsModel tables.now }
    requires layout { IsLayoutOf tables.now layout.now }
    requires network { IsNetworkOf tables.now network.now }
    requires offers { ArePiles (length tables.now.commodities)
        (offers_of (sales_at tables.now place)) offers.now }
    requires place { place < length tables.now.places }
    ensures { OnOk result (rows.new ≡ rows.old ++ map (row_over layout.now.quantities)
        (over tables.now.commodities λ c _.
        over_months tables.now (balance_row tables.now place c))) }
{
    let flows = Flows {
        place,
        offers,
        arrivals: network.arrivals(place),
        departures: network.departures(place),
    };
    add_commodities(rows, alloc, tables, layout, &flows)?;
    Ok(())
}

/// Adds the balances at a place.
fn add_place(
    rows: &mut RowList,
    alloc: Global,
    tables: &Tables,
    layout: &Layout,
    network: &Network,
    place: u32,
) -> Result<(), OutOfMemory>
    requires model { IsModel tables.now }
    requires layout { IsLayoutOf tables.now layout.now }
    requires network { IsNetworkOf tables.now network.now }
    requires place { place < length tables.now.places }
    ensures { OnOk result (rows.new ≡ rows.old ++ map (row_over layout.now.quantities)
        (over tables.now.commodities λ c _.
        over_months tables.now (balance_row tables.now place c))) }
{
    let offers = offers_of(alloc, tables, network.sales(place))?;
    add_offered(rows, alloc, tables, layout, network, &offers, place)?;
    Ok(())
}

/// Adds the rows of all places and commodities.
pub fn add_balance_rows(
    rows: &mut RowList,
    alloc: Global,
    tables: &Tables,
    layout: &Layout,
    network: &Network,
) -> Result<(), OutOfMemory>
    requires layout { IsLayoutOf tables.now layout.now }
    requires network { IsNetworkOf tables.now network.now }
    ensures { OnOk result (rows.new
        ≡ rows.old ++ map (row_over layout.now.quantities) (balance_rows tables.now)) }
{
    let _settings = tables.settings();
    for place in 0..place_count(tables) {
        add_place(rows, alloc, tables, layout, network, place)?;
    }
    Ok(())
}
