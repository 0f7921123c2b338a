ghost use Rattle.std.specs.Prelude.{◌≡◌, IfOk};
ghost use Rattle.opt_model.specs.Plans.{plan_of};
ghost use Rattle.opt_model.specs.Quantities.{quantities};
ghost use Rattle.opt_network.specs.Numbering.{IsLayoutOf};
ghost use Rattle.opt_rows.specs.Systems.{root_of};
ghost use Rattle.opt_system.specs.Ranges.{IsWithin};
ghost use Rattle.opt_report.specs.Reports.{AreReportsOf};

use crate::basket_report::basket_report;
use crate::cost_report::cost_report;
use crate::point_plan::PointPlan;
use crate::site_report::site_report;
use opt_base::{Blob, OutOfMemory, Point};
use opt_network::Layout;
use opt_tables::Tables;
use std::alloc::Global;

/// The three reports of a plan, each as the bytes of its file.
#[derive(Debug, Drop)]
pub struct ReportSet {
    /// `report_sites.csv`: what happens at each place, in kilograms.
    pub sites: Blob,
    /// `report_costs.csv`: what is spent, in mills.
    pub costs: Blob,
    /// `report_basket.csv`: the rations, in grams, and the shortfalls, per person and day.
    pub basket: Blob,
}

/// The reports of a point, which has one value for each quantity, within its range.
pub fn reports(
    alloc: Global,
    tables: &Tables,
    layout: &Layout,
    point: &Point,
) -> Result<ReportSet, OutOfMemory>
    requires layout { IsLayoutOf tables.now layout.now }
    requires within { IsWithin (root_of tables.now) point.now }
    ensures { IfOk result
        (AreReportsOf tables.now (plan_of (quantities tables.now) point.now)) }
{
    let plan = PointPlan::new(layout, point);
    let sites = site_report(alloc, tables, &plan)?;
    let costs = cost_report(alloc, tables, layout, &plan)?;
    let basket = basket_report(alloc, tables, &plan)?;
    Ok(ReportSet {
        sites: Blob::from_slice(alloc, &sites)?,
        costs: Blob::from_slice(alloc, &costs)?,
        basket: Blob::from_slice(alloc, &basket)?,
    })
}
