/// The most quantities that a model, or a system of rows, may have.
pub const QUANTITY_LIMIT: usize = 20_000;

/// The most rows that a model, or a system of rows, may have.
pub const ROW_LIMIT: usize = 20_000;

/// The most terms, coefficients other than 0, that all rows together may have.
pub const TERM_LIMIT: usize = 262_144;

/// The column by which a refusal of the model as a whole names its quantities.
pub const QUANTITIES_COLUMN: u8 = 1;

/// The column by which a refusal of the model as a whole names its rows.
pub const ROWS_COLUMN: u8 = 2;

/// The column by which a refusal of the model as a whole names its terms.
pub const TERMS_COLUMN: u8 = 3;
