//! A diving heuristic for whole numbers: the optimum of a box's relaxation rounded up quantity by quantity, with the
//! bounded dual simplex in between.
#![tactic(auto)]

mod fixing;
mod guide;
mod rounding;

pub use guide::DiveGuide;
pub use rounding::dive;

#[cfg(test)]
mod tests;
