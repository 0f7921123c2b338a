//! The commands of the program, from the bytes of a folder to the bytes that it writes.
#![tactic(auto)]

mod auditing;
mod checking;
mod command;
mod folder;
mod limits;
mod lines;
mod outcome_reply;
mod planning;
mod reply;
mod reporting;
#[cfg(test)]
mod tests;
mod words;

pub use auditing::run_audit;
pub use checking::run_check;
pub use limits::{CERTIFICATE_LIMIT, PLAN_LIMIT};
pub use planning::run_plan;
pub use reporting::run_report;
pub use words::optimus;
