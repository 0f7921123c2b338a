//! The rows of what the arcs carry.
ghost use Rattle.std.specs.Prelude.{◌≡◌, ◌≤◌, ◌+◌, [], ◌∷◌, ◌++◌, map, nat_le, pos, ◌≤ℤ◌, OnOk};
ghost use Rattle.opt_model.specs.Quantities.{over, over_months, list_if};
ghost use Rattle.opt_model.specs.Rows.{at_most_row, arc_rows};
ghost use Rattle.opt_model.specs.declared.limits.TheConstants.{MONTH_LIMIT, LEAD_LIMIT};
ghost use Rattle.opt_model.specs.declared.quantity.Quantity.TheVariants.{Ship};
ghost use Rattle.opt_model.specs.declared.quantity.RowName.TheVariants as row;
ghost use Rattle.opt_network.specs.Numbering.{IsLayoutOf};
ghost use Rattle.opt_rows.specs.Gathering.{entries_of};
ghost use Rattle.opt_rows.specs.Systems.{row_over};

use crate::counts::{arc_count, commodity_count, month_count};
use crate::term_buffer::{TermBuffer, push_at_most};
use opt_base::OutOfMemory;
use opt_model::{Arc, Quantity};
use opt_network::Layout;
use opt_system::RowList;
use opt_tables::Tables;
use std::alloc::Global;

/// Adds what an arc carries in a month, of all commodities.
fn add_carried(
    terms: &mut TermBuffer,
    tables: &Tables,
    layout: &Layout,
    arc: u32,
    month: u32,
) -> Result<(), OutOfMemory>
    ensures { OnOk result (terms.new ≡ terms.old ++ entries_of layout.now.quantities
        (over tables.now.commodities λ c _. (Ship arc c month, pos 1) ∷ [])) }
{
    for commodity in 0..commodity_count(tables) {
        let ship = Quantity::Ship {
            arc,
            commodity,
            month,
        };
        terms.add(layout, (ship, 1))?;
    }
    Ok(())
}

/// Whether what leaves on an arc in a month arrives within so many months.
fn arrives(months: u32, arc: &Arc, month: u32) -> bool
    requires month { month ≤ MONTH_LIMIT }
    requires lead { arc.now.lead ≤ LEAD_LIMIT }
    ensures { result ≡ nat_le (month + arc.now.lead) months }
{
    month + arc.lead <= months
}

/// Adds the row of an arc in a month with a departure.
fn add_row(
    rows: &mut RowList,
    alloc: Global,
    tables: &Tables,
    layout: &Layout,
    number: u32,
    arc: &Arc,
    month: u32,
) -> Result<(), OutOfMemory>
    requires layout { IsLayoutOf tables.now layout.now }
    requires capacity { pos 0 ≤ℤ arc.now.capacity }
    ensures { OnOk result (rows.new ≡ rows.old ++ map (row_over layout.now.quantities)
        (at_most_row (row.Arc number month)
        (over tables.now.commodities λ c _. (Ship number c month, pos 1) ∷ []) arc.now.capacity)) }
{
    let _settings = tables.settings();
    let mut terms = TermBuffer::new(alloc);
    add_carried(&mut terms, tables, layout, number, month)?;
    push_at_most(rows, layout, &terms, &arc.capacity)?;
    Ok(())
}

/// Adds the row of an arc in a month, where something leaves.
fn add_month(
    rows: &mut RowList,
    alloc: Global,
    tables: &Tables,
    layout: &Layout,
    number: u32,
    arc: &Arc,
    month: u32,
) -> Result<(), OutOfMemory>
    requires layout { IsLayoutOf tables.now layout.now }
    requires capacity { pos 0 ≤ℤ arc.now.capacity }
    requires lead { arc.now.lead ≤ LEAD_LIMIT }
    requires month { month ≤ MONTH_LIMIT }
    ensures { OnOk result (rows.new ≡ rows.old ++ map (row_over layout.now.quantities)
        (list_if (nat_le (month + arc.now.lead) tables.now.settings.months)
        (at_most_row (row.Arc number month)
        (over tables.now.commodities λ c _. (Ship number c month, pos 1) ∷ []) arc.now.capacity))) }
{
    if arrives(month_count(tables), arc, month) {
        add_row(rows, alloc, tables, layout, number, arc, month)?;
    }
    Ok(())
}

/// Adds the rows of an arc.
fn add_months(
    rows: &mut RowList,
    alloc: Global,
    tables: &Tables,
    layout: &Layout,
    number: u32,
    arc: &Arc,
) -> Result<(), OutOfMemory>
    requires layout { IsLayoutOf tables.now layout.now }
    requires capacity { pos 0 ≤ℤ arc.now.capacity }
    requires lead { arc.now.lead ≤ LEAD_LIMIT }
    ensures { OnOk result (rows.new ≡ rows.old ++ map (row_over layout.now.quantities)
        (over_months tables.now λ m. list_if (nat_le (m + arc.now.lead) tables.now.settings.months)
        (at_most_row (row.Arc number m)
        (over tables.now.commodities λ c _. (Ship number c m, pos 1) ∷ []) arc.now.capacity))) }
{
    for earlier in 0..month_count(tables) {
        add_month(rows, alloc, tables, layout, number, arc, earlier + 1)?;
    }
    Ok(())
}

/// Adds the rows of all arcs.
pub fn add_arc_rows(
    rows: &mut RowList,
    alloc: Global,
    tables: &Tables,
    layout: &Layout,
) -> Result<(), OutOfMemory>
    requires { IsLayoutOf tables.now layout.now }
    ensures { OnOk result (rows.new
        ≡ rows.old ++ map (row_over layout.now.quantities) (arc_rows tables.now)) }
{
    let _settings = tables.settings();
    let arcs = tables.arcs();
    for number in 0..arc_count(tables) {
        let arc = &arcs[number as usize];
        add_months(rows, alloc, tables, layout, number, arc)?;
    }
    Ok(())
}
