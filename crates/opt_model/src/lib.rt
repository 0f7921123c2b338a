//! The model of food assistance in its final form: the records of the tables, the quantities that a plan decides and
//! the names of its rows. What a plan must meet is defined in this crate's specs.
#![tactic(auto)]

mod columns;
mod file;
mod format;
mod limits;
mod name;
mod quantity;
mod records;
#[cfg(test)]
mod tests;

pub use columns::{column_name, columns_of};
pub use file::file_name;
pub use format::{has_baskets, has_lots};
pub use limits::{
    BASKET_LIMIT, CONTENT_LIMIT, GROUP_LIMIT, KILOGRAM_LIMIT, LAST_FORMAT, LEAD_LIMIT, MONTH_LIMIT,
    NEED_LIMIT, PERSON_LIMIT, PRICE_LIMIT, RATION_LIMIT, WEIGHT_LIMIT,
};
pub use name::Name;
pub use opt_base::Verdict;
pub use quantity::{Quantity, RowName};
pub use records::{
    Arc, Basket, Commodity, Content, Goal, Group, Need, Nutrient, Offer, Persons, Place, PlaceKind,
    Stock,
};
