use opt_base::{QUANTITY_LIMIT, ROW_LIMIT};

/// The most variables that there may be without the objective: quantities and rows' sums.
pub(crate) const VARIABLE_LIMIT: usize = QUANTITY_LIMIT + ROW_LIMIT;

/// The most coefficients that may be stored.
pub(crate) const FILL_LIMIT: usize = 1 << 24;

/// More coefficients than equations over so few variables can have.
pub(crate) const COUNT_LIMIT: usize = 1 << 32;

/// The most pivots that the guide lets the simplex make on a box.
pub const PIVOT_LIMIT: u32 = 20_000;
