/// The greatest objective, best or bound in a certificate.
pub const OBJECTIVE_LIMIT: u128 = 1 << 126;

/// The greatest value of a quantity in a certificate's point, and the greatest cut.
pub const VALUE_LIMIT: u64 = (1 << 63) - 1;

/// The greatest number of a row or a quantity in a certificate.
pub const NUMBER_LIMIT: u64 = (1 << 32) - 1;
