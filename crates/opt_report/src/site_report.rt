//! The report of what happens at each place.
ghost use Rattle.std.specs.Prelude.{◌≡◌, ◌++◌, IfOk, OnOk};
ghost use Rattle.csv.specs.Writing.{row_text, default_writer};
ghost use Rattle.opt_model.specs.Columns.{names_of};
ghost use Rattle.opt_model.specs.Quantities.{over};
ghost use Rattle.opt_report.specs.PointPlans.{plan_with};
ghost use Rattle.opt_report.specs.Sites.{site_columns, figures_record, site_record, sites_text};

use crate::figures::{Figures, Site};
use crate::point_plan::PointPlan;
use crate::record_text::add_record;
use opt_base::OutOfMemory;
use opt_rows::{commodity_name, place_name};
use opt_tables::Tables;
use std::alloc::Global;

/// Adds the names of the columns.
fn add_header(alloc: Global, text: &mut Vec<u8>) -> Result<(), OutOfMemory>
    ensures { OnOk result (text.new.items
        ≡ text.old.items ++ row_text default_writer (names_of site_columns)) }
{
    let columns: [&[u8]; 9] = [
        b"month",
        b"place",
        b"commodity",
        b"stock",
        b"bought",
        b"arrived",
        b"sent",
        b"kept",
        b"handed_out",
    ];
    add_record(alloc, text, &columns)
}

/// Adds the record of a site with these figures.
fn add_figures(
    alloc: Global,
    text: &mut Vec<u8>,
    tables: &Tables,
    site: Site,
    figures: &Figures,
) -> Result<(), OutOfMemory>
    ensures { OnOk result (text.new.items ≡ text.old.items
        ++ figures_record tables.now site.month site.place site.commodity figures.now) }
{
    let month = site.month.to_string(alloc)?;
    let stock = figures.stock.to_string(alloc)?;
    let bought = figures.bought.to_string(alloc)?;
    let arrived = figures.arrived.to_string(alloc)?;
    let sent = figures.sent.to_string(alloc)?;
    let kept = figures.kept.to_string(alloc)?;
    let handed_out = figures.handed_out.to_string(alloc)?;
    let fields = [
        month.as_bytes(),
        place_name(tables, site.place).as_bytes(),
        commodity_name(tables, site.commodity).as_bytes(),
        stock.as_bytes(),
        bought.as_bytes(),
        arrived.as_bytes(),
        sent.as_bytes(),
        kept.as_bytes(),
        handed_out.as_bytes(),
    ];
    add_record(alloc, text, &fields)
}

/// Adds the record of a site, unless each figure is 0.
fn add_site(
    alloc: Global,
    text: &mut Vec<u8>,
    tables: &Tables,
    plan: &PointPlan<'_>,
    site: Site,
) -> Result<(), OutOfMemory>
    ensures { OnOk result (text.new.items ≡ text.old.items
        ++ site_record tables.now (plan_with plan.now) site.month site.place site.commodity) }
{
    let figures = Figures::of(tables, plan, site);
    if figures.are_zero() {
        return Ok(());
    }
    add_figures(alloc, text, tables, site, &figures)
}

/// Adds the records of a place in a month.
fn add_place(
    alloc: Global,
    text: &mut Vec<u8>,
    tables: &Tables,
    plan: &PointPlan<'_>,
    month: u32,
    place: u32,
) -> Result<(), OutOfMemory>
    ensures { OnOk result (text.new.items ≡ text.old.items
        ++ (over tables.now.commodities λ c _. site_record tables.now (plan_with plan.now) month place c)) }
{
    let _settings = tables.settings();
    for commodity in 0..tables.commodities().len() {
        let site = Site {
            month,
            place,
            commodity: commodity as u32,
        };
        add_site(alloc, text, tables, plan, site)?;
    }
    Ok(())
}

/// Adds the records of a month.
fn add_month(
    alloc: Global,
    text: &mut Vec<u8>,
    tables: &Tables,
    plan: &PointPlan<'_>,
    month: u32,
) -> Result<(), OutOfMemory>
    ensures { OnOk result (text.new.items ≡ text.old.items
        ++ (over tables.now.places λ p _. over tables.now.commodities λ c _.
        site_record tables.now (plan_with plan.now) month p c)) }
{
    let _settings = tables.settings();
    for place in 0..tables.places().len() {
        add_place(alloc, text, tables, plan, month, place as u32)?;
    }
    Ok(())
}

/// The report of what happens at each place: month by month and place by place a record for each commodity of which
/// there is anything.
pub fn site_report(
    alloc: Global,
    tables: &Tables,
    plan: &PointPlan<'_>,
) -> Result<Vec<u8>, OutOfMemory>
    ensures { IfOk result (λ text. text.items ≡ sites_text tables.now (plan_with plan.now)) }
{
    let mut text = Vec::new(alloc);
    add_header(alloc, &mut text)?;
    for earlier in 0..tables.settings().months() {
        add_month(alloc, &mut text, tables, plan, earlier + 1)?;
    }
    Ok(text)
}
