ghost use Rattle.std.specs.Prelude.{◌≡◌, ℕ, ◌*◌, ◌<◌, ◌≤◌, ◌*ℤ◌, length, All, unsigned_abs};
ghost use Rattle.opt_sums.specs.Sums.{at, sum_to};
ghost use Rattle.opt_sums.specs.Entries.{AllBelow, dot};

use crate::limits::SIZE_LIMIT;
use opt_base::QUANTITY_LIMIT;
use opt_sums::product;

/// What the term gives at the point.
fn term_value(term: &(u32, i64), x: &[i64]) -> i128
    requires { term.now.0 < length x.now }
    ensures { result ≡ term.now.1 *ℤ at x.now term.now.0 }
{
    product(term.1, x[term.0 as usize])
}

/// The sum of these terms at the point.
pub fn sum_of_terms(terms: &[(u32, i64)], x: &[i64]) -> i128
    requires named { AllBelow (length x.now) terms.now }
    requires small { All (λ e. unsigned_abs e.1 * unsigned_abs (at x.now e.0) < SIZE_LIMIT)
        terms.now }
    requires few { length terms.now ≤ QUANTITY_LIMIT }
    ensures { result ≡ dot terms.now x.now }
{
    let mut sum = 0i128;
    for term in terms {
        sum += term_value(term, x);
    }
    sum
}

/// The product of the two lists' numbers at `j`.
fn product_at(costs: &[i64], x: &[i64], j: usize) -> i128
    requires cost { j < length costs.now }
    requires point { j < length x.now }
    ensures { result ≡ at costs.now j *ℤ at x.now j }
{
    product(costs[j], x[j])
}

/// The sum of the products of the two lists' numbers.
pub fn sum_of_products(costs: &[i64], x: &[i64]) -> i128
    requires same_length { length x.now ≡ length costs.now }
    requires few { length costs.now ≤ QUANTITY_LIMIT }
    requires small { (j : ℕ) → j < length costs.now
        → unsigned_abs (at costs.now j) * unsigned_abs (at x.now j) < SIZE_LIMIT }
    ensures { result ≡ sum_to (length costs.now) (λ j. at costs.now j *ℤ at x.now j) }
{
    let mut sum = 0i128;
    for j in 0..costs.len() {
        sum += product_at(costs, x, j);
    }
    sum
}
