//! Reads the tables of a model: the files of a folder, and what they say or the first refusal.
#![tactic(auto)]

mod amounts;
mod arcs;
mod baskets;
mod commodities;
mod contents;
mod demand;
mod diet;
mod fault;
mod fetching;
mod files;
mod grids;
mod groups;
mod key;
mod keys;
mod lines;
mod link;
mod needs;
mod network;
mod nutrients;
mod offers;
mod persons;
mod places;
mod reading;
mod record_list;
mod row;
mod stock;
mod tables;
#[cfg(test)]
mod tests;

pub use fault::FetchFault;
pub use fetching::fetch;
pub use files::{Files, SETTINGS_LIMIT, TABLE_LIMIT};
pub use offers::FEE_LIMIT;
pub use opt_model::{
    Arc, Basket, Commodity, Content, Goal, Group, Name, Need, Nutrient, Offer, Persons, Place,
    PlaceKind, Stock,
};
pub use opt_read::Setup;
pub use reading::read_model;
pub use row::NAME_LIMIT;
pub use tables::Tables;
