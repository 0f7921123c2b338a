/// The greatest size of a multiplier, of the objective or of a row.
pub const MULTIPLIER_LIMIT: u64 = 1 << 56;
