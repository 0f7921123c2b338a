//! The report of what a plan costs.
ghost use Rattle.std.specs.Prelude.{◌≡◌, ◌++◌, ◌^◌, IfOk, OnOk};
ghost use Rattle.csv.specs.Writing.{row_text, default_writer};
ghost use Rattle.opt_model.specs.Columns.{names_of};
ghost use Rattle.opt_network.specs.Numbering.{IsLayoutOf};
ghost use Rattle.opt_report.specs.PointPlans.{plan_with};
ghost use Rattle.opt_report.specs.Spending.{AreUpTo, cost_columns, spending_record, costs_text};

use crate::point_plan::PointPlan;
use crate::record_text::add_record;
use crate::spending::Spending;
use opt_base::OutOfMemory;
use opt_model::has_lots;
use opt_network::Layout;
use opt_tables::Tables;
use std::alloc::Global;

/// Adds the names of the columns.
fn add_header(alloc: Global, text: &mut Vec<u8>, tables: &Tables) -> Result<(), OutOfMemory>
    ensures { OnOk result (text.new.items
        ≡ text.old.items ++ row_text default_writer (names_of (cost_columns tables.now))) }
{
    if has_lots(tables.settings().format()) {
        let columns: [&[u8]; 6] = [
            b"month", b"bought", b"fees", b"shipped", b"stored", b"total",
        ];
        add_record(alloc, text, &columns)
    } else {
        let columns: [&[u8]; 5] = [b"month", b"bought", b"shipped", b"stored", b"total"];
        add_record(alloc, text, &columns)
    }
}

/// Adds a record with these parts of a cost. Fees are one of them from format 3 on.
fn add_spending(
    alloc: Global,
    text: &mut Vec<u8>,
    tables: &Tables,
    month: &str,
    spending: Spending,
) -> Result<(), OutOfMemory>
    requires { AreUpTo (2 ^ 124) spending }
    ensures { OnOk result (text.new.items
        ≡ text.old.items ++ spending_record tables.now month.now spending) }
{
    let bought = spending.bought.to_string(alloc)?;
    let fees = spending.fees.to_string(alloc)?;
    let shipped = spending.shipped.to_string(alloc)?;
    let stored = spending.stored.to_string(alloc)?;
    let total = spending.total().to_string(alloc)?;
    if has_lots(tables.settings().format()) {
        let fields = [
            month.as_bytes(),
            bought.as_bytes(),
            fees.as_bytes(),
            shipped.as_bytes(),
            stored.as_bytes(),
            total.as_bytes(),
        ];
        add_record(alloc, text, &fields)
    } else {
        let fields = [
            month.as_bytes(),
            bought.as_bytes(),
            shipped.as_bytes(),
            stored.as_bytes(),
            total.as_bytes(),
        ];
        add_record(alloc, text, &fields)
    }
}

/// The report of what a plan costs: a record for each month, shipments in the month in which they leave, and a last one
/// with the sums.
pub fn cost_report(
    alloc: Global,
    tables: &Tables,
    layout: &Layout,
    plan: &PointPlan<'_>,
) -> Result<Vec<u8>, OutOfMemory>
    requires { IsLayoutOf tables.now layout.now }
    ensures { IfOk result (λ text. text.items ≡ costs_text tables.now (plan_with plan.now)) }
{
    let mut text = Vec::new(alloc);
    add_header(alloc, &mut text, tables)?;
    let mut all = Spending::none();
    for earlier in 0..tables.settings().months() {
        let month = earlier + 1;
        let spending = Spending::in_month(tables, layout, plan, month);
        let name = month.to_string(alloc)?;
        add_spending(alloc, &mut text, tables, &name, spending)?;
        all = all.plus(spending);
    }
    add_spending(alloc, &mut text, tables, "all", all)?;
    Ok(text)
}
