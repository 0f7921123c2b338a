ghost use Rattle.std.specs.Prelude.{◌≡◌, ◌≤◌, ◌↔◌, length, max, sum_by, All, IsTrue, unsigned_abs};
ghost use Rattle.opt_system.specs.Systems.{IsSmallBy, IsSmallTerm, IsSmallCost, AreSmallCosts, term_count as count_of_terms};

use crate::rows::Row;
use opt_base::{QUANTITY_LIMIT, ROW_LIMIT};

/// Each greatest value of a quantity, and each coefficient's size and each cost times the greatest value of its
/// quantity (or 1), is below this.
pub const SIZE_LIMIT: u128 = 1 << 51;

/// The sizes of a system's right-hand sides are at most this together.
pub const RIGHT_HAND_SIDE_LIMIT: u128 = 1 << 64;

/// How many terms these rows have together.
pub fn term_count(rows: &[Row]) -> usize
    requires few { length rows.now ≤ ROW_LIMIT }
    requires short { All (λ row. length row.terms ≤ QUANTITY_LIMIT) rows.now }
    ensures { result ≡ count_of_terms rows.now }
{
    let mut count = 0;
    for row in rows {
        count += row.terms.as_slice().len();
    }
    count
}

/// Whether a coefficient or cost is small enough for a quantity with this greatest value.
fn is_small_by(number: &i64, high: &i64) -> bool
    ensures { IsTrue result ↔ IsSmallBy number.now high.now }
{
    u128::from(number.unsigned_abs()) * u128::from(high.unsigned_abs().max(1)) < SIZE_LIMIT
}

/// Whether a cost is from 0 on and small for this greatest value, which is small too.
fn is_small_cost(cost: &i64, high: &i64) -> bool
    ensures { IsTrue result ↔ IsSmallCost cost.now high.now }
{
    *cost >= 0 && is_small_by(cost, high) && u128::from(high.unsigned_abs()) < SIZE_LIMIT
}

/// Whether the costs are from 0 on and small, and the greatest values too.
pub fn small_costs(costs: &[i64], high: &[i64]) -> bool
    requires { length costs.now ≡ length high.now }
    ensures { IsTrue result ↔ AreSmallCosts costs.now high.now }
{
    costs
        .iter()
        .zip(high)
        .all(|(cost, high)| is_small_cost(cost, high))
}

/// Whether the term names a quantity and has a small coefficient.
fn is_small_term(term: &(u32, i64), high: &[i64]) -> bool
    ensures { IsTrue result ↔ IsSmallTerm high.now term.now }
{
    let j = term.0 as usize;
    j < high.len() && is_small_by(&term.1, &high[j])
}

/// Whether the terms name quantities and have small coefficients.
fn small_terms(terms: &[(u32, i64)], high: &[i64]) -> bool
    ensures { IsTrue result ↔ All (IsSmallTerm high.now) terms.now }
{
    terms.iter().all(|term| is_small_term(term, high))
}

/// Whether the terms of each row do.
pub fn small_rows(rows: &[Row], high: &[i64]) -> bool
    ensures { IsTrue result ↔ All (λ row. All (IsSmallTerm high.now) row.terms) rows.now }
{
    rows.iter()
        .all(|row| small_terms(row.terms.as_slice(), high))
}

/// Whether the sizes of the right-hand sides are small enough together.
pub fn small_right_hand_sides(rows: &[Row]) -> bool
    ensures { IsTrue result
        ↔ (sum_by (λ row. unsigned_abs row.right_hand_side) rows.now ≤ RIGHT_HAND_SIDE_LIMIT) }
{
    let mut sum = 0u128;
    for row in rows {
        sum += u128::from(row.right_hand_side.unsigned_abs());
    }
    sum <= RIGHT_HAND_SIDE_LIMIT
}
