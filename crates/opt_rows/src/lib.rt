//! The rows of a model: as a system over the numbers of its quantities, their names, and how they are printed.
#![tactic(auto)]

mod arc_rows;
mod arrivals;
mod balance_rows;
mod building;
mod cost_terms;
mod costs;
mod counts;
mod diet_names;
mod flows;
mod goal_rows;
mod group_members;
mod group_rows;
mod handout_names;
mod handout_rows;
mod limits;
mod lot_names;
mod lot_rows;
mod names;
mod network_names;
mod network_rows;
mod nutrient_contents;
mod nutrient_rows;
mod piles;
mod ranges;
mod record_names;
mod row_counts;
mod row_lists;
mod rows;
mod spot;
mod steps;
mod storage_rows;
mod sums;
mod term_buffer;
#[cfg(test)]
mod tests;
mod texts;
mod throughput_rows;

pub use building::{build, build_goal};
pub use costs::mills_of;
pub use limits::{ENTRY_LIMIT, node_limit};
pub use names::row_name;
pub use opt_model::RowName;
pub use record_names::{
    arc_name, basket_name, commodity_name, group_name, nutrient_name, offer_name, place_name,
};
pub use texts::row_text;
