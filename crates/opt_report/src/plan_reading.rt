//! What a plan file says.
ghost use Rattle.std.specs.Prelude.{◌≡◌, ◌<◌, ◌^◌, length, position, slice_index_or, pos, IfOk, None, Some};
ghost use Rattle.opt_base.specs.Answers.{Gives, Reads};
ghost use Rattle.opt_model.specs.Quantities.{quantities, same_quantity};
ghost use Rattle.opt_network.specs.Numbering.{IsLayoutOf};
ghost use Rattle.opt_rows.specs.Systems.{root_of};
ghost use Rattle.opt_system.specs.Ranges.{IsWithin};
ghost use Rattle.opt_report.specs.Subjects.{AreNamesOf};
ghost use Rattle.opt_report.specs.PlanFiles.{AreListed, with_value, with_quantity, with_row, none_listed, listed_in, value_or_none, values_of, plan_values};

use crate::plan_record::PlanRecord;
use crate::plan_subject::quantity_of;
use crate::spans::span_of;
use crate::table_names::{TableNames, subject_in};
use crate::units::unit_of;
use opt_base::{File, Kind, ModelFault, OutOfMemory, Point, Refusal};
use opt_model::{Quantity, columns_of};
use opt_network::Layout;
use opt_read::{Cells, grid};
use opt_tables::Tables;
use std::alloc::Global;

/// The number of a quantity; none where it does not exist.
fn number_of(tables: &Tables, layout: &Layout, quantity: &Quantity) -> Option<u32>
    requires { IsLayoutOf tables.now layout.now }
    ensures { result ≡ position (same_quantity quantity.now) (quantities tables.now) }
{
    let _settings = tables.settings();
    layout.index(quantity)
}

/// Lists the value of a quantity, which has this number.
fn list_value(
    tables: &Tables,
    layout: &Layout,
    row: &PlanRecord<'_>,
    listed: &mut Vec<Option<i64>>,
    quantity: Quantity,
    number: u32,
) -> Result<(), Refusal>
    requires layout { IsLayoutOf tables.now layout.now }
    requires number { position (same_quantity quantity) (quantities tables.now) ≡ Some number }
    requires listed { AreListed tables.now listed.old.items }
    ensures exact { Reads (λ _. listed.new.items) result
        (with_value tables.now row.now quantity listed.old.items number) }
    ensures listed { AreListed tables.now listed.new.items }
{
    if listed[number as usize].is_some() {
        return Err(row.refused(0, Kind::Duplicate));
    }
    let span = span_of(tables, layout, quantity, number);
    let value = row.value(unit_of(tables, quantity), &span)?;
    listed[number as usize] = Some(value);
    Ok(())
}

/// Lists the value of the quantity that a record is about, which must exist.
fn list_quantity(
    tables: &Tables,
    layout: &Layout,
    row: &PlanRecord<'_>,
    listed: &mut Vec<Option<i64>>,
    quantity: Option<Quantity>,
) -> Result<(), Refusal>
    requires layout { IsLayoutOf tables.now layout.now }
    requires listed { AreListed tables.now listed.old.items }
    ensures exact { Reads (λ _. listed.new.items) result
        (with_quantity tables.now row.now listed.old.items quantity) }
    ensures listed { AreListed tables.now listed.new.items }
{
    let Some(quantity) = quantity else {
        return Err(row.refused(0, Kind::UnknownName));
    };
    let Some(number) = number_of(tables, layout, &quantity) else {
        return Err(row.refused(0, Kind::UnknownName));
    };
    list_value(tables, layout, row, listed, quantity, number)
}

/// Lists what a record says.
fn list_row(
    tables: &Tables,
    layout: &Layout,
    names: &TableNames<'_>,
    row: &PlanRecord<'_>,
    listed: &mut Vec<Option<i64>>,
) -> Result<(), Refusal>
    requires layout { IsLayoutOf tables.now layout.now }
    requires names { AreNamesOf tables.now names.now }
    requires listed { AreListed tables.now listed.old.items }
    ensures exact { Reads (λ _. listed.new.items) result
        (with_row tables.now row.now listed.old.items) }
    ensures listed { AreListed tables.now listed.new.items }
{
    let subject = subject_in(tables, names, row)?;
    let month = row.month(tables.settings().months())?;
    let quantity = quantity_of(tables, subject, month);
    list_quantity(tables, layout, row, listed, quantity)
}

/// No value is listed of any quantity.
fn none_listed(
    alloc: Global,
    tables: &Tables,
    layout: &Layout,
) -> Result<Vec<Option<i64>>, OutOfMemory>
    requires { IsLayoutOf tables.now layout.now }
    ensures value { IfOk result (λ listed. listed.items ≡ none_listed tables.now) }
    ensures listed { IfOk result (λ listed. AreListed tables.now listed.items) }
{
    let _settings = tables.settings();
    Ok(vec![in alloc; None; layout.len() as usize]?)
}

/// What all records list, by the numbers of the quantities.
fn list_rows(
    alloc: Global,
    tables: &Tables,
    layout: &Layout,
    names: &TableNames<'_>,
    cells: &Cells,
) -> Result<Vec<Option<i64>>, ModelFault>
    requires layout { IsLayoutOf tables.now layout.now }
    requires names { AreNamesOf tables.now names.now }
    ensures exact { Gives (λ listed. listed.items) result (listed_in tables.now cells.now) }
    ensures listed { IfOk result (λ listed. AreListed tables.now listed.items) }
{
    let mut listed = none_listed(alloc, tables, layout)?;
    for i in 0..cells.len() {
        list_row(
            tables,
            layout,
            names,
            &PlanRecord::new(cells, i + 1),
            &mut listed,
        )?;
    }
    Ok(listed)
}

/// The value of the quantity of a number: what is listed, else 0, which must not lie below its least value.
fn value_of(layout: &Layout, number: u32, listed: Option<i64>) -> Result<i64, Refusal>
    requires { number < length layout.now.quantities }
    ensures { result ≡ value_or_none (slice_index_or layout.now.lows number (pos 0)) listed }
{
    match listed {
        Some(value) => Ok(value),
        None => {
            let (low, _high) = layout.range(number);
            value_of_none(&low)
        }
    }
}

/// The value of a quantity that no record lists: 0, which must not lie below its least value.
fn value_of_none(low: &i64) -> Result<i64, Refusal>
    ensures { result ≡ value_or_none low.now None }
{
    if *low > 0 {
        return Err(Refusal::at(File::Plan, 0, 5, Kind::OutOfRange));
    }
    Ok(0)
}

/// The values of all quantities: what is listed, else 0, which must not lie below the least value.
fn values(
    alloc: Global,
    tables: &Tables,
    layout: &Layout,
    listed: &[Option<i64>],
) -> Result<Point, ModelFault>
    requires layout { IsLayoutOf tables.now layout.now }
    requires listed { AreListed tables.now listed.now }
    ensures exact { Gives (λ point. point) result (values_of tables.now listed.now) }
    ensures within { IfOk result (IsWithin (root_of tables.now)) }
{
    let mut values = Vec::new(alloc);
    for i in 0..layout.len() {
        values.push(value_of(layout, i, listed[i as usize])?)?;
    }
    Ok(Point::from_slice(alloc, &values)?)
}

/// The point that the bytes of a plan file stand for, with a value for each quantity, or the first refusal.
///
/// Records may stand in any order, amounts may be 0, and a quantity without a record is 0. Refused are, in this order,
/// what `grid` refuses; then record by record its kind of quantity, its name, its commodity (of a shortfall from format
/// 2 on its nutrient), its month, a quantity that does not exist or that an earlier record lists, and its amount, whose
/// grams must be a multiple of the ration's step (NoStepInRange) and which must be in the quantity's range; at the end,
/// as record 0, a quantity without a record whose least value is above 0.
#[tactic(auto, unfolding(crate::specs::PlanFiles::plan_values))]
pub fn read_plan(
    alloc: Global,
    tables: &Tables,
    layout: &Layout,
    bytes: &[u8],
) -> Result<Point, ModelFault>
    requires layout { IsLayoutOf tables.now layout.now }
    requires bytes { length bytes.now < 2 ^ 32 }
    ensures answer { Gives (λ point. point) result (plan_values tables.now bytes.now) }
    ensures within { IfOk result (IsWithin (root_of tables.now)) }
{
    let columns = columns_of(File::Plan, tables.settings().format());
    let cells = grid(alloc, File::Plan, bytes, columns)?;
    let names = TableNames::of(alloc, tables)?;
    let listed = list_rows(alloc, tables, layout, &names, &cells)?;
    values(alloc, tables, layout, &listed)
}
