//! The report of what the baskets hold and lack.
ghost use Rattle.std.specs.Prelude.{◌≡◌, ◌<◌, ◌++◌, ◌*ℤ◌, pos, length, IfOk, OnOk};
ghost use Rattle.csv.specs.Writing.{row_text, default_writer};
ghost use Rattle.opt_model.specs.Columns.{names_of};
ghost use Rattle.opt_model.specs.Quantities.{over};
ghost use Rattle.opt_model.specs.declared.limits.TheConstants.{RATION_LIMIT};
ghost use Rattle.opt_model.specs.declared.quantity.Quantity.TheVariants.{Ration};
ghost use Rattle.opt_tables.specs.Facts.{IsFrom};
ghost use Rattle.opt_report.specs.PointPlans.{plan_with};
ghost use Rattle.opt_report.specs.Rations.{basket_columns, basket_record, ration_record, short_at, monthly_records, basket_text};

use crate::point_plan::PointPlan;
use crate::record_text::add_record;
use opt_base::OutOfMemory;
use opt_model::{Commodity, Quantity, has_baskets};
use opt_rows::{basket_name, nutrient_name};
use opt_tables::Tables;
use std::alloc::Global;

/// A basket in a month.
#[derive(Clone, Copy, Debug, PartialEq, Eq)]
struct MonthlyBasket {
    month: u32,
    basket: u32,
}

/// What a record says of a basket in a month.
#[derive(Clone, Copy, Debug)]
struct Entry<'a> {
    kind: &'a str,
    name: &'a str,
    amount: i64,
}

/// Adds the names of the columns.
fn add_header(alloc: Global, text: &mut Vec<u8>, tables: &Tables) -> Result<(), OutOfMemory>
    ensures { OnOk result (text.new.items
        ≡ text.old.items ++ row_text default_writer (names_of (basket_columns tables.now))) }
{
    if has_baskets(tables.settings().format()) {
        let columns: [&[u8]; 5] = [b"month", b"basket", b"kind", b"name", b"amount"];
        add_record(alloc, text, &columns)
    } else {
        let columns: [&[u8]; 4] = [b"month", b"kind", b"name", b"amount"];
        add_record(alloc, text, &columns)
    }
}

/// Adds a record of a basket in a month. The basket is named from format 2 on.
fn add_entry(
    alloc: Global,
    text: &mut Vec<u8>,
    tables: &Tables,
    at: MonthlyBasket,
    entry: &Entry<'_>,
) -> Result<(), OutOfMemory>
    ensures { OnOk result (text.new.items ≡ text.old.items
        ++ basket_record tables.now at.month at.basket entry.now.kind.now entry.now.name.now entry.now.amount) }
{
    let month = at.month.to_string(alloc)?;
    let amount = entry.amount.to_string(alloc)?;
    if has_baskets(tables.settings().format()) {
        let fields = [
            month.as_bytes(),
            basket_name(tables, at.basket).as_bytes(),
            entry.kind.as_bytes(),
            entry.name.as_bytes(),
            amount.as_bytes(),
        ];
        add_record(alloc, text, &fields)
    } else {
        let fields = [
            month.as_bytes(),
            entry.kind.as_bytes(),
            entry.name.as_bytes(),
            amount.as_bytes(),
        ];
        add_record(alloc, text, &fields)
    }
}

/// The ration of a commodity in a basket in a month, in grams.
fn grams_of(plan: &PointPlan<'_>, at: MonthlyBasket, number: u32, commodity: &Commodity) -> i64
    requires { IsFrom (pos 1) (pos RATION_LIMIT) commodity.now.step_g }
    ensures { result
        ≡ commodity.now.step_g *ℤ plan_with plan.now (Ration at.basket number at.month) }
{
    let steps = plan.value(Quantity::Ration {
        basket: at.basket,
        commodity: number,
        month: at.month,
    });
    commodity.step_g * steps
}

/// Adds the record of the ration of a commodity.
fn add_ration(
    alloc: Global,
    text: &mut Vec<u8>,
    tables: &Tables,
    plan: &PointPlan<'_>,
    at: MonthlyBasket,
    number: u32,
) -> Result<(), OutOfMemory>
    requires { number < length tables.now.commodities }
    ensures { OnOk result (text.new.items
        ≡ text.old.items ++ ration_record tables.now (plan_with plan.now) at.month at.basket number) }
{
    let _settings = tables.settings();
    let commodity = &tables.commodities()[number as usize];
    let entry = Entry {
        kind: "ration",
        name: commodity.commodity.as_str(),
        amount: grams_of(plan, at, number, commodity),
    };
    add_entry(alloc, text, tables, at, &entry)
}

/// Adds the records of a basket's rations in a month.
fn add_rations(
    alloc: Global,
    text: &mut Vec<u8>,
    tables: &Tables,
    plan: &PointPlan<'_>,
    at: MonthlyBasket,
) -> Result<(), OutOfMemory>
    ensures { OnOk result (text.new.items ≡ text.old.items
        ++ (over tables.now.commodities λ c _.
        ration_record tables.now (plan_with plan.now) at.month at.basket c)) }
{
    let _settings = tables.settings();
    for number in 0..tables.commodities().len() {
        add_ration(alloc, text, tables, plan, at, number as u32)?;
    }
    Ok(())
}

/// Adds the record of the shortfall of a need in a month, where it is one of the basket's.
fn add_short(
    alloc: Global,
    text: &mut Vec<u8>,
    tables: &Tables,
    plan: &PointPlan<'_>,
    at: MonthlyBasket,
    number: u32,
) -> Result<(), OutOfMemory>
    requires { number < length tables.now.needs }
    ensures { OnOk result (text.new.items ≡ text.old.items
        ++ short_at tables.now (plan_with plan.now) at.month at.basket number) }
{
    let need = &tables.needs()[number as usize];
    if need.basket != at.basket {
        return Ok(());
    }
    let entry = Entry {
        kind: "short",
        name: nutrient_name(tables, need.nutrient),
        amount: plan.value(Quantity::Short {
            need: number,
            month: at.month,
        }),
    };
    add_entry(alloc, text, tables, at, &entry)
}

/// Adds the records of a basket's shortfalls in a month.
fn add_shorts(
    alloc: Global,
    text: &mut Vec<u8>,
    tables: &Tables,
    plan: &PointPlan<'_>,
    at: MonthlyBasket,
) -> Result<(), OutOfMemory>
    ensures { OnOk result (text.new.items ≡ text.old.items
        ++ (over tables.now.needs λ d _. short_at tables.now (plan_with plan.now) at.month at.basket d)) }
{
    let _settings = tables.settings();
    for number in 0..tables.needs().len() {
        add_short(alloc, text, tables, plan, at, number as u32)?;
    }
    Ok(())
}

/// Adds the records of a month.
fn add_month(
    alloc: Global,
    text: &mut Vec<u8>,
    tables: &Tables,
    plan: &PointPlan<'_>,
    month: u32,
) -> Result<(), OutOfMemory>
    ensures { OnOk result (text.new.items ≡ text.old.items
        ++ (over tables.now.baskets λ b _. monthly_records tables.now (plan_with plan.now) month b)) }
{
    let _settings = tables.settings();
    for basket in 0..tables.baskets().len() {
        let at = MonthlyBasket {
            month,
            basket: basket as u32,
        };
        add_rations(alloc, text, tables, plan, at)?;
        add_shorts(alloc, text, tables, plan, at)?;
    }
    Ok(())
}

/// The report of what the baskets hold and lack: month by month and basket by basket a record for each commodity, in
/// grams per person and day, and one for each of the basket's needs.
pub fn basket_report(
    alloc: Global,
    tables: &Tables,
    plan: &PointPlan<'_>,
) -> Result<Vec<u8>, OutOfMemory>
    ensures { IfOk result (λ text. text.items ≡ basket_text tables.now (plan_with plan.now)) }
{
    let mut text = Vec::new(alloc);
    add_header(alloc, &mut text, tables)?;
    for earlier in 0..tables.settings().months() {
        add_month(alloc, &mut text, tables, plan, earlier + 1)?;
    }
    Ok(text)
}
