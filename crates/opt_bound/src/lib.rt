//! Lower bounds on the value of a system's points by multipliers of its rows: weak duality of linear programming.
#![tactic(auto)]

mod clipping;
mod fault;
mod leaf;
mod limits;
mod lower;
mod mult;

pub use clipping::clip;
pub use fault::EntryFault;
pub use leaf::{Leaf, verdict_of};
pub use limits::MULTIPLIER_LIMIT;
pub use lower::{bound, leaf_at};
pub use mult::Mult;

#[cfg(test)]
mod tests;
