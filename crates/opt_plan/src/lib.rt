//! Plans a model with a guide that is not trusted: one call, whose promises hold for every guide.
#![tactic(auto)]

mod planning;
mod problem;
#[cfg(test)]
mod tests;

pub use planning::plan_system;
pub use problem::Problem;
