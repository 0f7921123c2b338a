ghost use Rattle.std.specs.Prelude.{◌≡◌, ◌^◌, ◌<◌, ◌≤◌, ◌*ℤ◌, length, unsigned_abs};
ghost use Rattle.opt_sums.specs.Sums.{at};
ghost use Rattle.opt_sums.specs.Entries.{AllBelow, coef};
ghost use Rattle.opt_system.specs.Ranges.{IsOrdered, LiesIn};
ghost use Rattle.opt_system.specs.Systems.{IsLimited, row_at};
ghost use Rattle.opt_bound.specs.Multipliers.{IsAdmissible, IsProper};
ghost use Rattle.opt_bound.specs.Bound.{bound_of, point_bound_of, least_of, right_hand_side_of, reduced_cost_of};
ghost use Rattle.opt_bound.specs.Verdict.{leaf_of, IsLeafInRange, IsLowerBound, IsTrueOf};

use crate::leaf::{Leaf, verdict_of};
use crate::mult::Mult;
use opt_sums::product;
use opt_system::{Range, System};

/// The lower bound on q times the value of each point of the range that meets the rows.
///
/// It is the weighted sum of the right-hand sides and, for each quantity, the least that it can give in the range of what is
/// left of its cost. Where the multipliers are admissible, it is a bound by weak duality of linear programming. It goes
/// once over the terms and the quantities, takes no memory and cannot overflow.
pub fn bound(system: &System, range: &Range, mult: &Mult) -> i128
    requires named { AllBelow (length system.now.rows) mult.now.entries }
    requires within { LiesIn system.now.root range.now }
    ensures value { result ≡ bound_of system.now range.now mult.now }
    ensures small { unsigned_abs result < 2 ^ 126 }
    ensures limited { IsLimited system.now }
    ensures point { range.now.low ≡ range.now.high
        → result ≡ point_bound_of system.now mult.now range.now.low }
    // Weak duality.
    ensures law { IsAdmissible system.now mult.now
        → IsLowerBound system.now range.now mult.now.q result }
{
    let quantities = system.quantities();
    let mut sum = weighted_right_hand_side(system, mult);
    for j in 0..quantities {
        sum += least_part(system, range, mult, j);
    }
    sum
}

/// What admissible multipliers show of a range: that none of its points meets the rows, or a value that each such point
/// has at least.
pub fn leaf_at(system: &System, range: &Range, mult: &Mult) -> Leaf
    requires admissible { IsAdmissible system.now mult.now }
    requires within { LiesIn system.now.root range.now }
    ensures value { result ≡ leaf_of (bound_of system.now range.now mult.now) mult.now.q }
    ensures in_range { IsLeafInRange result }
    ensures law { IsTrueOf system.now range.now result }
{
    verdict_of(bound(system, range, mult), mult.q())
}

/// The weighted sum of the right-hand sides.
fn weighted_right_hand_side(system: &System, mult: &Mult) -> i128
    requires limited { IsLimited system.now }
    requires named { AllBelow (length system.now.rows) mult.now.entries }
    ensures value { result ≡ right_hand_side_of system.now mult.now }
    ensures small { unsigned_abs result ≤ 2 ^ 120 }
    ensures proper { IsProper mult.now }
{
    let mut sum = 0i128;
    for entry in mult.entries() {
        sum += right_hand_part(system, entry);
    }
    sum
}

/// The right-hand side of the entry's row as often as the entry takes it.
fn right_hand_part(system: &System, entry: &(u32, i64)) -> i128
    requires { entry.now.0 < length system.now.rows }
    ensures { result ≡ entry.now.1 *ℤ (row_at system.now.rows entry.now.0).right_hand_side }
{
    product(entry.1, system.right_hand_side(entry.0))
}

/// The least that quantity `j` can give in the range.
fn least_part(system: &System, range: &Range, mult: &Mult, j: u32) -> i128
    requires limited { IsLimited system.now }
    requires proper { IsProper mult.now }
    requires quantity { j < length system.now.cost }
    requires within { LiesIn system.now.root range.now }
    ensures value { result ≡ least_of system.now range.now mult.now j }
    ensures ordered { IsOrdered range.now }
{
    let reduced_cost = reduced_cost(system, mult, j);
    let end = if reduced_cost >= 0 {
        range.low()[j as usize]
    } else {
        range.high()[j as usize]
    };
    reduced_cost * i128::from(end)
}

/// What is left of the cost of a unit of quantity `j` when the weighted rows are taken off.
fn reduced_cost(system: &System, mult: &Mult, j: u32) -> i128
    requires limited { IsLimited system.now }
    requires proper { IsProper mult.now }
    requires quantity { j < length system.now.cost }
    ensures { result ≡ reduced_cost_of system.now mult.now j }
{
    let mut reduced_cost = scaled_cost(system, mult, j);
    for term in system.column(j) {
        reduced_cost -= part_of(mult, term);
    }
    reduced_cost
}

/// What a unit of quantity `j` costs, as often as the objective is taken.
fn scaled_cost(system: &System, mult: &Mult, j: u32) -> i128
    requires { j < length system.now.cost }
    ensures { result ≡ mult.now.q *ℤ at system.now.cost j }
{
    product(mult.q(), system.cost(j))
}

/// The coefficient of the term as often as its row is taken.
fn part_of(mult: &Mult, term: &(u32, i64)) -> i128
    ensures { result ≡ term.now.1 *ℤ coef mult.now.entries term.now.0 }
{
    product(term.1, mult.weight(term.0))
}
