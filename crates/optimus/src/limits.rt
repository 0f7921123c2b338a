/// The most bytes of a certificate that is read.
pub const CERTIFICATE_LIMIT: u64 = 536_870_912;

/// The most bytes of a plan file that is read.
pub const PLAN_LIMIT: u64 = 16_777_216;
