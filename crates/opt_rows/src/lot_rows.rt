//! The rows of the lots of the offers.
ghost use Rattle.std.specs.Prelude.{◌≡◌, [], ◌∷◌, ◌++◌, map, pos, neg_ℤ, ◌≤ℤ◌, OnOk};
ghost use Rattle.opt_model.specs.Quantities.{over_months, list_if};
ghost use Rattle.opt_model.specs.Rows.{at_least_row, lot_rows};
ghost use Rattle.opt_model.specs.declared.quantity.Quantity.TheVariants.{Buy, Order};
ghost use Rattle.opt_model.specs.declared.quantity.RowName.TheVariants as row;
ghost use Rattle.opt_network.specs.Counts.{is_ordered};
ghost use Rattle.opt_tables.specs.Facts.{IsKilograms};
ghost use Rattle.opt_rows.specs.Systems.{row_over};

use crate::counts::{month_count, offer_count};
use crate::term_buffer::{TermBuffer, push_at_least};
use opt_base::OutOfMemory;
use opt_model::{Offer, Quantity};
use opt_network::{Layout, is_ordered};
use opt_system::RowList;
use opt_tables::Tables;
use std::alloc::Global;

/// The term of the least lot, which is bought where an offer is used.
fn least_term(number: u32, offer: &Offer, month: u32) -> (Quantity, i64)
    requires { pos 0 ≤ℤ offer.now.least }
    ensures quantity { result.0 ≡ Order number month }
    ensures coefficient { result.1 ≡ neg_ℤ offer.now.least }
{
    let order = Quantity::Order {
        offer: number,
        month,
    };
    (order, -offer.least)
}

/// The term of what is offered, which is the most that is bought where an offer is used.
fn most_term(number: u32, offer: &Offer, month: u32) -> (Quantity, i64)
    ensures quantity { result.0 ≡ Order number month }
    ensures coefficient { result.1 ≡ offer.now.max_kg }
{
    let order = Quantity::Order {
        offer: number,
        month,
    };
    (order, offer.max_kg)
}

/// Adds the row that at least the least lot is bought where an offer is used.
fn add_low(
    rows: &mut RowList,
    alloc: Global,
    layout: &Layout,
    number: u32,
    offer: &Offer,
    month: u32,
) -> Result<(), OutOfMemory>
    requires { IsKilograms offer.now.least }
    ensures { OnOk result (rows.new ≡ rows.old ++ map (row_over layout.now.quantities)
        (at_least_row (row.LotLow number month)
        ((Buy number month, pos 1) ∷ (Order number month, neg_ℤ offer.now.least) ∷ []) (pos 0))) }
{
    let buy = Quantity::Buy {
        offer: number,
        month,
    };
    let mut terms = TermBuffer::new(alloc);
    terms.add(layout, (buy, 1))?;
    terms.add(layout, least_term(number, offer, month))?;
    push_at_least(rows, layout, &terms, &0)?;
    Ok(())
}

/// Adds the row that nothing is bought where an offer is not used, and at most what is offered where it is.
fn add_high(
    rows: &mut RowList,
    alloc: Global,
    layout: &Layout,
    number: u32,
    offer: &Offer,
    month: u32,
) -> Result<(), OutOfMemory>
    requires { IsKilograms offer.now.max_kg }
    ensures { OnOk result (rows.new ≡ rows.old ++ map (row_over layout.now.quantities)
        (at_least_row (row.LotHigh number month)
        ((Buy number month, neg_ℤ (pos 1)) ∷ (Order number month, offer.now.max_kg) ∷ []) (pos 0))) }
{
    let buy = Quantity::Buy {
        offer: number,
        month,
    };
    let mut terms = TermBuffer::new(alloc);
    terms.add(layout, (buy, -1))?;
    terms.add(layout, most_term(number, offer, month))?;
    push_at_least(rows, layout, &terms, &0)?;
    Ok(())
}

/// Adds both rows of an offer in a month.
fn add_both(
    rows: &mut RowList,
    alloc: Global,
    layout: &Layout,
    number: u32,
    offer: &Offer,
    month: u32,
) -> Result<(), OutOfMemory>
    requires least { IsKilograms offer.now.least }
    requires max_kg { IsKilograms offer.now.max_kg }
    ensures { OnOk result (rows.new ≡ rows.old ++ map (row_over layout.now.quantities)
        (at_least_row (row.LotLow number month)
        ((Buy number month, pos 1) ∷ (Order number month, neg_ℤ offer.now.least) ∷ []) (pos 0)
        ++ at_least_row (row.LotHigh number month)
        ((Buy number month, neg_ℤ (pos 1)) ∷ (Order number month, offer.now.max_kg) ∷ []) (pos 0))) }
{
    add_low(rows, alloc, layout, number, offer, month)?;
    add_high(rows, alloc, layout, number, offer, month)?;
    Ok(())
}

/// Adds the rows of an offer in a month, where it has an order.
fn add_month(
    rows: &mut RowList,
    alloc: Global,
    layout: &Layout,
    number: u32,
    offer: &Offer,
    month: u32,
) -> Result<(), OutOfMemory>
    requires least { IsKilograms offer.now.least }
    requires max_kg { IsKilograms offer.now.max_kg }
    ensures { OnOk result (rows.new ≡ rows.old ++ map (row_over layout.now.quantities)
        (list_if (is_ordered offer.now month)
        (at_least_row (row.LotLow number month)
        ((Buy number month, pos 1) ∷ (Order number month, neg_ℤ offer.now.least) ∷ []) (pos 0)
        ++ at_least_row (row.LotHigh number month)
        ((Buy number month, neg_ℤ (pos 1)) ∷ (Order number month, offer.now.max_kg) ∷ []) (pos 0)))) }
{
    if is_ordered(offer, month) {
        add_both(rows, alloc, layout, number, offer, month)?;
    }
    Ok(())
}

/// Adds the rows of an offer.
fn add_months(
    rows: &mut RowList,
    alloc: Global,
    tables: &Tables,
    layout: &Layout,
    number: u32,
    offer: &Offer,
) -> Result<(), OutOfMemory>
    requires least { IsKilograms offer.now.least }
    requires max_kg { IsKilograms offer.now.max_kg }
    ensures { OnOk result (rows.new ≡ rows.old ++ map (row_over layout.now.quantities)
        (over_months tables.now λ m. list_if (is_ordered offer.now m)
        (at_least_row (row.LotLow number m)
        ((Buy number m, pos 1) ∷ (Order number m, neg_ℤ offer.now.least) ∷ []) (pos 0)
        ++ at_least_row (row.LotHigh number m)
        ((Buy number m, neg_ℤ (pos 1)) ∷ (Order number m, offer.now.max_kg) ∷ []) (pos 0)))) }
{
    for earlier in 0..month_count(tables) {
        add_month(rows, alloc, layout, number, offer, earlier + 1)?;
    }
    Ok(())
}

/// Adds the rows of all offers.
pub fn add_lot_rows(
    rows: &mut RowList,
    alloc: Global,
    tables: &Tables,
    layout: &Layout,
) -> Result<(), OutOfMemory>
    ensures { OnOk result (rows.new
        ≡ rows.old ++ map (row_over layout.now.quantities) (lot_rows tables.now)) }
{
    let _settings = tables.settings();
    let offers = tables.offers();
    for number in 0..offer_count(tables) {
        let offer = &offers[number as usize];
        add_months(rows, alloc, tables, layout, number, offer)?;
    }
    Ok(())
}
