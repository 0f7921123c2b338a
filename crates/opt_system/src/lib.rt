//! Systems of rows over whole quantities: rows, ranges, and the sums that say which points meet a system.
#![tactic(auto)]

mod columns;
mod limits;
mod points;
mod range;
mod rows;
mod system;
mod terms;

pub use limits::{RIGHT_HAND_SIDE_LIMIT, SIZE_LIMIT};
pub use range::Range;
pub use rows::{RowKind, RowList};
pub use system::System;

#[cfg(test)]
mod tests;
