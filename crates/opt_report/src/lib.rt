//! Plan files, both ways; the rows that a plan breaks; the reports and the summary of a plan.
#![tactic(auto)]

mod audit;
mod basket_report;
mod broken;
mod cost_report;
mod digits;
mod figures;
mod names;
mod plan_reading;
mod plan_record;
mod plan_subject;
mod plan_writing;
mod point_plan;
mod record_text;
mod reporting;
mod site_report;
mod spans;
mod spending;
mod summary;
mod table_names;
#[cfg(test)]
mod tests;
mod units;
mod within;
mod words;

pub use audit::audit_text;
pub use broken::{Broken, broken_rows};
pub use plan_reading::read_plan;
pub use plan_writing::plan_text;
pub use reporting::{ReportSet, reports};
pub use summary::summary_json;
pub use within::is_within;
