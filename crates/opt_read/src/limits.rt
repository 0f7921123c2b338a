//! What the settings may say.

/// The greatest number of days in a month.
pub const DAY_LIMIT: u64 = 31;
/// The greatest gap and budget, in mills or, for a gap, in units of weighted shortfall.
pub const AMOUNT_LIMIT: u64 = 9_000_000_000_000_000_000;
/// The greatest number of nodes of the search; the least is 1.
pub const NODE_SETTING_LIMIT: u64 = 1_000_000;
