//! Branch and bound over boxes of a system's points, led by a guide that is not trusted.
#![tactic(auto)]

mod branch_and_bound;
mod closing;
mod conclusion;
mod growth;
mod line;
mod open_leaves;
mod state;
#[cfg(test)]
mod tests;

pub use branch_and_bound::search;
