use crate::fracs::Fracs;
use crate::raw::Raw;

/// Why the simplex stopped before an end.
#[derive(Clone, Copy, Debug, PartialEq, Eq)]
pub enum Why {
    /// A product or a sum left `-(2^127 - 1)` to `2^127 - 1`.
    Wide,
    /// More than 2^24 coefficients were stored.
    Fill,
    /// The limit of pivots was reached.
    Pivots,
}

/// The end of the simplex on a box, with the count of finished pivots `done`.
#[derive(Debug, Drop)]
pub enum LpEnd {
    /// The point is the least of the relaxation, and its objective times `q` is the bound of the multipliers.
    Optimal { point: Fracs, raw: Raw, done: u32 },
    /// No point of the box meets the rows, as the bound of the multipliers shows.
    Empty { raw: Raw, done: u32 },
    /// The simplex stopped; the multipliers prove a bound all the same.
    Stopped { why: Why, done: u32, raw: Raw },
}
