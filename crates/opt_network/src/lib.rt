//! The quantities of a model over its months: how many there are, which they are in the order of their numbers, the
//! number of each, and the least and the greatest value of each.
#![tactic(auto)]

mod counts;
mod fed;
mod flows;
mod layout;
mod listing;
mod months;
mod numbers;
mod spans;
#[cfg(test)]
mod tests;

pub use fed::is_fed;
pub use layout::Layout;
pub use months::{departure_months, is_ordered};
pub use opt_model::Quantity;
