//! The rows of what is handed out.
ghost use Rattle.std.specs.Prelude.{◌≡◌, ◌≤◌, ◌∷◌, ◌++◌, [], map, pos, neg_ℤ, ◌*ℤ◌, ◌*◌, ◌^◌, OnOk};
ghost use Rattle.opt_model.specs.Settings.{days_of};
ghost use Rattle.opt_model.specs.Tables.{heads_at};
ghost use Rattle.opt_model.specs.Quantities.{over, over_months, list_if};
ghost use Rattle.opt_model.specs.Rows.{at_least_row, negation, handed_terms, handout_rows};
ghost use Rattle.opt_model.specs.declared.quantity.Quantity.TheVariants.{Ration, Feed};
ghost use Rattle.opt_model.specs.declared.quantity.RowName.TheVariants as row;
ghost use Rattle.opt_tables.specs.Facts.{IsModel, IsFrom};
ghost use Rattle.opt_network.specs.Counts.{is_fed};
ghost use Rattle.opt_network.specs.Numbering.{IsLayoutOf};
ghost use Rattle.opt_rows.specs.Gathering.{entries_of};
ghost use Rattle.opt_rows.specs.Parts.{handed_grams, handout_pair};
ghost use Rattle.opt_rows.specs.Systems.{row_over};

use crate::counts::{basket_count, commodity_count, month_count, place_count};
use crate::spot::{Spot, handed_out};
use crate::steps::step_of;
use crate::term_buffer::{TermBuffer, push_at_least};
use opt_base::OutOfMemory;
use opt_model::{PlaceKind, Quantity};
use opt_network::{Layout, is_fed};
use opt_system::RowList;
use opt_tables::Tables;
use std::alloc::Global;

/// A place, by the number of its record, and what it is for.
#[derive(Clone, Copy)]
struct Site {
    place: u32,
    kind: PlaceKind,
}

/// The days of a month.
fn days(tables: &Tables, month: u32) -> i64
    requires first { 1 ≤ month }
    requires last { month ≤ tables.now.settings.months }
    ensures value { result ≡ pos (days_of tables.now.settings month) }
    ensures range { IsFrom (pos 0) (pos 31) result }
{
    i64::from(tables.settings().days(month))
}

/// The persons of a basket at a place in a month.
fn heads(tables: &Tables, spot: Spot, basket: u32) -> i64
    requires { IsModel tables.now }
    ensures value { result ≡ heads_at tables.now spot.place basket spot.month }
    ensures range { IsFrom (pos 0) (pos (10 ^ 7)) result }
{
    tables.heads_at(spot.place, basket, spot.month)
}

/// The persons of a basket at a place, times the days of a month.
fn person_days(tables: &Tables, spot: Spot, basket: u32) -> i64
    requires model { IsModel tables.now }
    requires first { 1 ≤ spot.month }
    requires last { spot.month ≤ tables.now.settings.months }
    ensures value { result ≡ heads_at tables.now spot.place basket spot.month
        *ℤ pos (days_of tables.now.settings spot.month) }
    ensures range { IsFrom (pos 0) (pos (31 * 10 ^ 7)) result }
{
    heads(tables, spot, basket) * days(tables, spot.month)
}

/// The grams of a commodity that the persons of a basket at a place get in a month for each step of their ration.
fn grams(tables: &Tables, spot: Spot, basket: u32) -> i64
    requires model { IsModel tables.now }
    requires first { 1 ≤ spot.month }
    requires last { spot.month ≤ tables.now.settings.months }
    ensures value { result
        ≡ handed_grams tables.now spot.place spot.commodity spot.month basket }
    ensures range { IsFrom (pos 0) (pos (10 ^ 12)) result }
{
    person_days(tables, spot, basket) * step_of(tables, spot.commodity)
}

/// The ration of a basket.
fn ration(spot: Spot, basket: u32) -> Quantity
    ensures { result ≡ Ration basket spot.commodity spot.month }
{
    Quantity::Ration {
        basket,
        commodity: spot.commodity,
        month: spot.month,
    }
}

/// The term of what the persons of a basket get.
fn handed_term(tables: &Tables, spot: Spot, basket: u32) -> (Quantity, i64)
    requires model { IsModel tables.now }
    requires first { 1 ≤ spot.month }
    requires last { spot.month ≤ tables.now.settings.months }
    ensures quantity { result.0 ≡ Ration basket spot.commodity spot.month }
    ensures coefficient { result.1
        ≡ handed_grams tables.now spot.place spot.commodity spot.month basket }
{
    (ration(spot, basket), grams(tables, spot, basket))
}

/// The same with the other sign.
fn negated_term(tables: &Tables, spot: Spot, basket: u32) -> (Quantity, i64)
    requires model { IsModel tables.now }
    requires first { 1 ≤ spot.month }
    requires last { spot.month ≤ tables.now.settings.months }
    ensures quantity { result.0 ≡ Ration basket spot.commodity spot.month }
    ensures coefficient { result.1
        ≡ neg_ℤ (handed_grams tables.now spot.place spot.commodity spot.month basket) }
{
    (ration(spot, basket), -grams(tables, spot, basket))
}

/// Adds the grams that all persons get.
fn add_handed(
    terms: &mut TermBuffer,
    tables: &Tables,
    layout: &Layout,
    spot: Spot,
) -> Result<(), OutOfMemory>
    requires model { IsModel tables.now }
    requires first { 1 ≤ spot.month }
    requires last { spot.month ≤ tables.now.settings.months }
    ensures { OnOk result (terms.new ≡ terms.old ++ entries_of layout.now.quantities
        (handed_terms tables.now spot.place spot.commodity spot.month)) }
{
    for basket in 0..basket_count(tables) {
        terms.add(layout, handed_term(tables, spot, basket))?;
    }
    Ok(())
}

/// The same with the other sign.
fn add_negated(
    terms: &mut TermBuffer,
    tables: &Tables,
    layout: &Layout,
    spot: Spot,
) -> Result<(), OutOfMemory>
    requires model { IsModel tables.now }
    requires first { 1 ≤ spot.month }
    requires last { spot.month ≤ tables.now.settings.months }
    ensures { OnOk result (terms.new ≡ terms.old ++ entries_of layout.now.quantities
        (negation (handed_terms tables.now spot.place spot.commodity spot.month))) }
{
    for basket in 0..basket_count(tables) {
        terms.add(layout, negated_term(tables, spot, basket))?;
    }
    Ok(())
}

/// Adds the row that at least the grams of all persons are handed out.
fn add_low(
    rows: &mut RowList,
    alloc: Global,
    tables: &Tables,
    layout: &Layout,
    spot: Spot,
) -> Result<(), OutOfMemory>
    requires model { IsModel tables.now }
    requires layout { IsLayoutOf tables.now layout.now }
    requires first { 1 ≤ spot.month }
    requires last { spot.month ≤ tables.now.settings.months }
    ensures { OnOk result (rows.new ≡ rows.old ++ map (row_over layout.now.quantities)
        (at_least_row (row.HandoutLow spot.place spot.commodity spot.month)
        ((Feed spot.place spot.commodity spot.month, pos 1000)
        ∷ negation (handed_terms tables.now spot.place spot.commodity spot.month)) (pos 0))) }
{
    let mut terms = TermBuffer::new(alloc);
    terms.add(layout, (handed_out(spot), 1000))?;
    add_negated(&mut terms, tables, layout, spot)?;
    push_at_least(rows, layout, &terms, &0)?;
    Ok(())
}

/// Adds the row that less than a kilogram more is handed out.
fn add_high(
    rows: &mut RowList,
    alloc: Global,
    tables: &Tables,
    layout: &Layout,
    spot: Spot,
) -> Result<(), OutOfMemory>
    requires model { IsModel tables.now }
    requires layout { IsLayoutOf tables.now layout.now }
    requires first { 1 ≤ spot.month }
    requires last { spot.month ≤ tables.now.settings.months }
    ensures { OnOk result (rows.new ≡ rows.old ++ map (row_over layout.now.quantities)
        (at_least_row (row.HandoutHigh spot.place spot.commodity spot.month)
        ((Feed spot.place spot.commodity spot.month, neg_ℤ (pos 1000))
        ∷ handed_terms tables.now spot.place spot.commodity spot.month) (neg_ℤ (pos 999)))) }
{
    let mut terms = TermBuffer::new(alloc);
    terms.add(layout, (handed_out(spot), -1000))?;
    add_handed(&mut terms, tables, layout, spot)?;
    push_at_least(rows, layout, &terms, &-999)?;
    Ok(())
}

/// Adds both rows of a spot.
fn add_both(
    rows: &mut RowList,
    alloc: Global,
    tables: &Tables,
    layout: &Layout,
    spot: Spot,
) -> Result<(), OutOfMemory>
    requires model { IsModel tables.now }
    requires layout { IsLayoutOf tables.now layout.now }
    requires first { 1 ≤ spot.month }
    requires last { spot.month ≤ tables.now.settings.months }
    ensures { OnOk result (rows.new ≡ rows.old ++ map (row_over layout.now.quantities)
        (handout_pair tables.now spot.place spot.commodity spot.month)) }
{
    add_low(rows, alloc, tables, layout, spot)?;
    add_high(rows, alloc, tables, layout, spot)?;
    Ok(())
}

/// Adds the rows of a commodity at a place in a month, where the place feeds somebody.
fn add_month(
    rows: &mut RowList,
    alloc: Global,
    tables: &Tables,
    layout: &Layout,
    site: Site,
    spot: Spot,
) -> Result<(), OutOfMemory>
    requires model { IsModel tables.now }
    requires layout { IsLayoutOf tables.now layout.now }
    requires first { 1 ≤ spot.month }
    requires last { spot.month ≤ tables.now.settings.months }
    ensures { OnOk result (rows.new ≡ rows.old ++ map (row_over layout.now.quantities)
        (list_if (is_fed tables.now spot.place site.kind spot.month)
        (handout_pair tables.now spot.place spot.commodity spot.month))) }
{
    if is_fed(tables, spot.place, site.kind, spot.month) {
        add_both(rows, alloc, tables, layout, spot)?;
    }
    Ok(())
}

/// Adds the rows of a commodity at a place.
fn add_months(
    rows: &mut RowList,
    alloc: Global,
    tables: &Tables,
    layout: &Layout,
    site: Site,
    commodity: u32,
) -> Result<(), OutOfMemory>
    requires model { IsModel tables.now }
    requires layout { IsLayoutOf tables.now layout.now }
    ensures { OnOk result (rows.new ≡ rows.old ++ map (row_over layout.now.quantities)
        (over_months tables.now λ m. list_if (is_fed tables.now site.place site.kind m)
        (handout_pair tables.now site.place commodity m))) }
{
    for earlier in 0..month_count(tables) {
        let spot = Spot {
            place: site.place,
            commodity,
            month: earlier + 1,
        };
        add_month(rows, alloc, tables, layout, site, spot)?;
    }
    Ok(())
}

/// Adds the rows of a place.
fn add_place(
    rows: &mut RowList,
    alloc: Global,
    tables: &Tables,
    layout: &Layout,
    site: Site,
) -> Result<(), OutOfMemory>
    requires model { IsModel tables.now }
    requires layout { IsLayoutOf tables.now layout.now }
    ensures { OnOk result (rows.new ≡ rows.old ++ map (row_over layout.now.quantities)
        (over tables.now.commodities λ c _. over_months tables.now
        λ m. list_if (is_fed tables.now site.place site.kind m)
        (handout_pair tables.now site.place c m))) }
{
    for commodity in 0..commodity_count(tables) {
        add_months(rows, alloc, tables, layout, site, commodity)?;
    }
    Ok(())
}

/// Adds the rows of all places and commodities.
pub fn add_handout_rows(
    rows: &mut RowList,
    alloc: Global,
    tables: &Tables,
    layout: &Layout,
) -> Result<(), OutOfMemory>
    requires { IsLayoutOf tables.now layout.now }
    ensures { OnOk result (rows.new
        ≡ rows.old ++ map (row_over layout.now.quantities) (handout_rows tables.now)) }
{
    let _settings = tables.settings();
    let places = tables.places();
    for number in 0..place_count(tables) {
        let place = &places[number as usize];
        let site = Site {
            place: number,
            kind: place.kind,
        };
        add_place(rows, alloc, tables, layout, site)?;
    }
    Ok(())
}
