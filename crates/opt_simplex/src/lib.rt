//! The bounded dual simplex with exact fractions: multipliers that bound a system on a box, and a least point of its
//! relaxation.
#![tactic(auto)]

mod box_end;
mod choice;
mod columns;
mod end;
mod fracs;
mod fractional;
mod guide;
mod limits;
mod multipliers;
mod pivot;
mod point;
mod raw;
mod simplex;
mod start;
mod tableau;
mod values;
mod variables;

pub use end::{LpEnd, Why};
pub use fracs::Fracs;
pub use guide::SimplexGuide;
pub use limits::PIVOT_LIMIT;
pub use raw::Raw;
pub use simplex::solve;

#[cfg(test)]
mod tests;
