//! The rows that limit a goal: the budget and the cap.
ghost use Rattle.std.specs.Prelude.{◌≡◌, [], ◌∷◌, ◌++◌, map, Some, pos, ◌≤ℤ◌, OnOk, IfSome};
ghost use Rattle.opt_model.specs.Quantities.{over_months};
ghost use Rattle.opt_model.specs.Rows.{budget_rows, lack_terms};
ghost use Rattle.opt_model.specs.declared.quantity.Quantity.TheVariants.{Short};
ghost use Rattle.opt_network.specs.Numbering.{IsLayoutOf};
ghost use Rattle.opt_read.specs.Setup.{IsAmount};
ghost use Rattle.opt_rows.specs.Gathering.{entries_of};
ghost use Rattle.opt_rows.specs.Systems.{row_over, cap_rows};

use crate::cost_terms::add_costs;
use crate::counts::month_count;
use crate::term_buffer::{TermBuffer, push_at_most};
use opt_base::OutOfMemory;
use opt_model::{Need, Quantity};
use opt_network::Layout;
use opt_system::RowList;
use opt_tables::Tables;
use std::alloc::Global;

/// Adds the row that the cost is at most a limit, which is from 0 on.
fn add_budget(
    rows: &mut RowList,
    alloc: Global,
    tables: &Tables,
    layout: &Layout,
    limit: &i64,
) -> Result<(), OutOfMemory>
    requires layout { IsLayoutOf tables.now layout.now }
    requires limit { pos 0 ≤ℤ limit.now }
    ensures { OnOk result (rows.new ≡ rows.old ++ map (row_over layout.now.quantities)
        (budget_rows tables.now (Some limit.now))) }
{
    let _settings = tables.settings();
    let mut terms = TermBuffer::new(alloc);
    add_costs(&mut terms, tables, layout)?;
    push_at_most(rows, layout, &terms, limit)?;
    Ok(())
}

/// Adds the row of the budget, where there is one.
pub fn add_budget_row(
    rows: &mut RowList,
    alloc: Global,
    tables: &Tables,
    layout: &Layout,
) -> Result<(), OutOfMemory>
    requires { IsLayoutOf tables.now layout.now }
    ensures { OnOk result (rows.new ≡ rows.old ++ map (row_over layout.now.quantities)
        (budget_rows tables.now tables.now.settings.budget)) }
{
    match tables.settings().budget() {
        Some(limit) => {
            add_budget(rows, alloc, tables, layout, &limit)?;
            Ok(())
        }
        None => Ok(()),
    }
}

/// The term of what is short of a need in a month, by its weight.
fn lack_term(number: u32, need: &Need, month: u32) -> (Quantity, i64)
    ensures quantity { result.0 ≡ Short number month }
    ensures coefficient { result.1 ≡ need.now.weight }
{
    let short = Quantity::Short {
        need: number,
        month,
    };
    (short, need.weight)
}

/// Adds what is short of a need.
fn add_lack(
    terms: &mut TermBuffer,
    tables: &Tables,
    layout: &Layout,
    number: u32,
    need: &Need,
) -> Result<(), OutOfMemory>
    ensures { OnOk result (terms.new ≡ terms.old ++ entries_of layout.now.quantities
        (over_months tables.now λ m. (Short number m, need.now.weight) ∷ [])) }
{
    for earlier in 0..month_count(tables) {
        terms.add(layout, lack_term(number, need, earlier + 1))?;
    }
    Ok(())
}

/// Adds what is short of all needs.
fn add_lacks(terms: &mut TermBuffer, tables: &Tables, layout: &Layout) -> Result<(), OutOfMemory>
    ensures { OnOk result (terms.new
        ≡ terms.old ++ entries_of layout.now.quantities (lack_terms tables.now)) }
{
    let _settings = tables.settings();
    for (number, need) in tables.needs().iter().enumerate() {
        add_lack(terms, tables, layout, number as u32, need)?;
    }
    Ok(())
}

/// Adds the row that the weighted shortfall is at most this, which is from 0 on.
fn add_cap(
    rows: &mut RowList,
    alloc: Global,
    tables: &Tables,
    layout: &Layout,
    cap: &i64,
) -> Result<(), OutOfMemory>
    requires layout { IsLayoutOf tables.now layout.now }
    requires cap { pos 0 ≤ℤ cap.now }
    ensures { OnOk result (rows.new ≡ rows.old ++ cap_rows tables.now (Some cap.now)) }
{
    let _settings = tables.settings();
    let mut terms = TermBuffer::new(alloc);
    add_lacks(&mut terms, tables, layout)?;
    push_at_most(rows, layout, &terms, cap)?;
    Ok(())
}

/// Adds the row of the cap, where there is one.
pub fn add_cap_row(
    rows: &mut RowList,
    alloc: Global,
    tables: &Tables,
    layout: &Layout,
    cap: Option<i64>,
) -> Result<(), OutOfMemory>
    requires layout { IsLayoutOf tables.now layout.now }
    requires cap { IfSome cap IsAmount }
    ensures { OnOk result (rows.new ≡ rows.old ++ cap_rows tables.now cap) }
{
    match cap {
        Some(cap) => {
            add_cap(rows, alloc, tables, layout, &cap)?;
            Ok(())
        }
        None => Ok(()),
    }
}
