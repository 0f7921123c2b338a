//! The rows of what the needs require.
ghost use Rattle.std.specs.Prelude.{◌≡◌, ◌<◌, [], ◌∷◌, ◌++◌, map, length, pos, ◌*ℤ◌, OnOk};
ghost use Rattle.std.specs.List.{flat_map};
ghost use Rattle.opt_model.specs.Quantities.{over_months};
ghost use Rattle.opt_model.specs.Rows.{nutrient_terms, nutrient_rows};
ghost use Rattle.opt_model.specs.declared.quantity.Quantity.TheVariants.{Ration, Short};
ghost use Rattle.opt_tables.specs.Facts.{IsModel, IsNeed};
ghost use Rattle.opt_network.specs.Numbering.{IsLayoutOf};
ghost use Rattle.opt_rows.specs.Gathering.{entries_of};
ghost use Rattle.opt_rows.specs.Listed.{step_contents};
ghost use Rattle.opt_rows.specs.Parts.{nutrient_row};
ghost use Rattle.opt_rows.specs.Piles.{ArePiles};
ghost use Rattle.opt_rows.specs.Systems.{row_over};

use crate::counts::month_count;
use crate::nutrient_contents::{StepContent, step_contents};
use crate::piles::Piles;
use crate::term_buffer::{TermBuffer, push_at_least};
use opt_base::OutOfMemory;
use opt_model::{Need, Quantity};
use opt_network::Layout;
use opt_system::RowList;
use opt_tables::Tables;
use std::alloc::Global;

/// A need, with its number and what the steps of rations hold of its nutrient.
#[derive(Clone, Copy)]
struct Demand<'a> {
    number: u32,
    need: &'a Need,
    contents: &'a [StepContent],
}

/// The term of a ration, by what its steps hold.
fn content_term(content: &StepContent, basket: u32, month: u32) -> (Quantity, i64)
    ensures quantity { result.0 ≡ Ration basket content.now.commodity month }
    ensures coefficient { result.1 ≡ content.now.units }
{
    let ration = Quantity::Ration {
        basket,
        commodity: content.commodity,
        month,
    };
    (ration, content.units)
}

/// Adds what a basket gives of a nutrient.
fn add_contents(
    terms: &mut TermBuffer,
    layout: &Layout,
    contents: &[StepContent],
    basket: u32,
    month: u32,
) -> Result<(), OutOfMemory>
    ensures { OnOk result (terms.new ≡ terms.old ++ entries_of layout.now.quantities
        (flat_map (λ r. (Ration basket r.commodity month, r.units) ∷ []) contents.now)) }
{
    for content in contents {
        terms.add(layout, content_term(content, basket, month))?;
    }
    Ok(())
}

/// What is short of a need in a month.
fn shortfall(need: u32, month: u32) -> Quantity
    ensures { result ≡ Short need month }
{
    Quantity::Short { need, month }
}

/// What a need requires, times 100.
fn required(need: &Need) -> i64
    requires { IsNeed need.now }
    ensures { result ≡ pos 100 *ℤ need.now.required }
{
    100 * need.required
}

/// Adds the row of a need in a month.
fn add_row(
    rows: &mut RowList,
    alloc: Global,
    tables: &Tables,
    layout: &Layout,
    demand: &Demand<'_>,
    month: u32,
) -> Result<(), OutOfMemory>
    requires model { IsModel tables.now }
    requires layout { IsLayoutOf tables.now layout.now }
    requires need { IsNeed demand.now.need.now }
    requires contents { demand.now.contents.now
        ≡ step_contents tables.now demand.now.need.now.nutrient }
    ensures { OnOk result (rows.new ≡ rows.old ++ map (row_over layout.now.quantities)
        (nutrient_row tables.now demand.now.number demand.now.need.now month)) }
{
    let mut terms = TermBuffer::new(alloc);
    add_contents(
        &mut terms,
        layout,
        demand.contents,
        demand.need.basket,
        month,
    )?;
    terms.add(layout, (shortfall(demand.number, month), 100))?;
    push_at_least(rows, layout, &terms, &required(demand.need))?;
    Ok(())
}

/// Adds the rows of a need with its contents.
fn add_months(
    rows: &mut RowList,
    alloc: Global,
    tables: &Tables,
    layout: &Layout,
    demand: &Demand<'_>,
) -> Result<(), OutOfMemory>
    requires model { IsModel tables.now }
    requires layout { IsLayoutOf tables.now layout.now }
    requires need { IsNeed demand.now.need.now }
    requires contents { demand.now.contents.now
        ≡ step_contents tables.now demand.now.need.now.nutrient }
    ensures { OnOk result (rows.new ≡ rows.old ++ map (row_over layout.now.quantities)
        (over_months tables.now
        (nutrient_row tables.now demand.now.number demand.now.need.now))) }
{
    for earlier in 0..month_count(tables) {
        add_row(rows, alloc, tables, layout, demand, earlier + 1)?;
    }
    Ok(())
}

/// Adds the rows of a need.
fn add_need(
    rows: &mut RowList,
    alloc: Global,
    tables: &Tables,
    layout: &Layout,
    contents: &Piles<StepContent>,
    number: u32,
    need: &Need,
) -> Result<(), OutOfMemory>
    requires model { IsModel tables.now }
    requires layout { IsLayoutOf tables.now layout.now }
    requires contents { ArePiles (length tables.now.nutrients) (step_contents tables.now)
        contents.now }
    requires nutrient { need.now.nutrient < length tables.now.nutrients }
    requires need { IsNeed need.now }
    ensures { OnOk result (rows.new ≡ rows.old ++ map (row_over layout.now.quantities)
        (over_months tables.now (nutrient_row tables.now number need.now))) }
{
    let demand = Demand {
        number,
        need,
        contents: contents.pile(need.nutrient),
    };
    add_months(rows, alloc, tables, layout, &demand)?;
    Ok(())
}

/// Adds the rows of all needs.
pub fn add_nutrient_rows(
    rows: &mut RowList,
    alloc: Global,
    tables: &Tables,
    layout: &Layout,
) -> Result<(), OutOfMemory>
    requires { IsLayoutOf tables.now layout.now }
    ensures { OnOk result (rows.new
        ≡ rows.old ++ map (row_over layout.now.quantities) (nutrient_rows tables.now)) }
{
    let _settings = tables.settings();
    let contents = step_contents(alloc, tables)?;
    for (number, need) in tables.needs().iter().enumerate() {
        add_need(rows, alloc, tables, layout, &contents, number as u32, need)?;
    }
    Ok(())
}
