//! Reads the two forms of a model file: a table of comma-separated fields, and the settings.
#![tactic(auto)]

mod blanks;
mod cells;
mod csv_table;
mod field_list;
mod key;
mod limits;
mod reading;
mod rows;
mod setup;
mod toml_settings;

pub use cells::Cells;
pub use csv_table::grid;
pub use opt_model::Goal;
pub use setup::Setup;
pub use toml_settings::settings;

#[cfg(test)]
mod tests;
