//! The rows of what the places keep.
ghost use Rattle.std.specs.Prelude.{◌≡◌, [], ◌∷◌, ◌++◌, map, int_lt, pos, ◌≤ℤ◌, OnOk};
ghost use Rattle.opt_model.specs.Quantities.{over, over_months, list_if};
ghost use Rattle.opt_model.specs.Rows.{at_most_row, storage_rows};
ghost use Rattle.opt_model.specs.declared.quantity.Quantity.TheVariants.{Keep};
ghost use Rattle.opt_model.specs.declared.quantity.RowName.TheVariants as row;
ghost use Rattle.opt_network.specs.Numbering.{IsLayoutOf};
ghost use Rattle.opt_rows.specs.Gathering.{entries_of};
ghost use Rattle.opt_rows.specs.Systems.{row_over};

use crate::counts::{commodity_count, month_count, place_count};
use crate::term_buffer::{TermBuffer, push_at_most};
use opt_base::OutOfMemory;
use opt_model::{Place, Quantity};
use opt_network::Layout;
use opt_system::RowList;
use opt_tables::Tables;
use std::alloc::Global;

/// Adds what a place keeps in a month, of all commodities.
fn add_kept(
    terms: &mut TermBuffer,
    tables: &Tables,
    layout: &Layout,
    place: u32,
    month: u32,
) -> Result<(), OutOfMemory>
    ensures { OnOk result (terms.new ≡ terms.old ++ entries_of layout.now.quantities
        (over tables.now.commodities λ c _. (Keep place c month, pos 1) ∷ [])) }
{
    for commodity in 0..commodity_count(tables) {
        let keep = Quantity::Keep {
            place,
            commodity,
            month,
        };
        terms.add(layout, (keep, 1))?;
    }
    Ok(())
}

/// Whether a place can keep something.
fn has_storage(place: &Place) -> bool
    ensures { result ≡ int_lt (pos 0) place.now.storage }
{
    place.storage > 0
}

/// Adds the row of a place in a month.
fn add_row(
    rows: &mut RowList,
    alloc: Global,
    tables: &Tables,
    layout: &Layout,
    number: u32,
    place: &Place,
    month: u32,
) -> Result<(), OutOfMemory>
    requires layout { IsLayoutOf tables.now layout.now }
    requires storage { pos 0 ≤ℤ place.now.storage }
    ensures { OnOk result (rows.new ≡ rows.old ++ map (row_over layout.now.quantities)
        (at_most_row (row.Storage number month)
        (over tables.now.commodities λ c _. (Keep number c month, pos 1) ∷ []) place.now.storage)) }
{
    let _settings = tables.settings();
    let mut terms = TermBuffer::new(alloc);
    add_kept(&mut terms, tables, layout, number, month)?;
    push_at_most(rows, layout, &terms, &place.storage)?;
    Ok(())
}

/// Adds the row of a place in a month, where it has storage.
fn add_month(
    rows: &mut RowList,
    alloc: Global,
    tables: &Tables,
    layout: &Layout,
    number: u32,
    place: &Place,
    month: u32,
) -> Result<(), OutOfMemory>
    requires layout { IsLayoutOf tables.now layout.now }
    requires storage { pos 0 ≤ℤ place.now.storage }
    ensures { OnOk result (rows.new ≡ rows.old ++ map (row_over layout.now.quantities)
        (list_if (int_lt (pos 0) place.now.storage) (at_most_row (row.Storage number month)
        (over tables.now.commodities λ c _. (Keep number c month, pos 1) ∷ []) place.now.storage))) }
{
    if has_storage(place) {
        add_row(rows, alloc, tables, layout, number, place, month)?;
    }
    Ok(())
}

/// Adds the rows of a place.
fn add_months(
    rows: &mut RowList,
    alloc: Global,
    tables: &Tables,
    layout: &Layout,
    number: u32,
    place: &Place,
) -> Result<(), OutOfMemory>
    requires layout { IsLayoutOf tables.now layout.now }
    requires storage { pos 0 ≤ℤ place.now.storage }
    ensures { OnOk result (rows.new ≡ rows.old ++ map (row_over layout.now.quantities)
        (over_months tables.now λ m. list_if (int_lt (pos 0) place.now.storage)
        (at_most_row (row.Storage number m)
        (over tables.now.commodities λ c _. (Keep number c m, pos 1) ∷ []) place.now.storage))) }
{
    for earlier in 0..month_count(tables) {
        add_month(rows, alloc, tables, layout, number, place, earlier + 1)?;
    }
    Ok(())
}

/// Adds the rows of all places.
pub fn add_storage_rows(
    rows: &mut RowList,
    alloc: Global,
    tables: &Tables,
    layout: &Layout,
) -> Result<(), OutOfMemory>
    requires { IsLayoutOf tables.now layout.now }
    ensures { OnOk result (rows.new
        ≡ rows.old ++ map (row_over layout.now.quantities) (storage_rows tables.now)) }
{
    let _settings = tables.settings();
    let places = tables.places();
    for number in 0..place_count(tables) {
        let place = &places[number as usize];
        add_months(rows, alloc, tables, layout, number, place)?;
    }
    Ok(())
}
