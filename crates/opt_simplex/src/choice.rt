ghost use Rattle.std.specs.Prelude.{◌≡◌, ◌<◌, None, int_lt, length, option_map, pos, ◌*ℤ◌, ◌≤ℤ◌, IfSome, unsigned_abs};
ghost use Rattle.opt_sums.specs.Entries.{AllBelow, coef};
ghost use Rattle.opt_frac.specs.Divisors.{Fits};
ghost use Rattle.opt_simplex.specs.Choice.{better as better_of, can_help as can_help_of, entering_from, has_less_ratio as has_less_ratio_of, is_above as is_above_of, lesser as lesser_of, may_enter as may_enter_of};
ghost use Rattle.opt_simplex.specs.Outcomes.{leaving_at};
ghost use Rattle.opt_simplex.specs.Shape.{IsChoice};
ghost use Rattle.opt_simplex.specs.Values.{LeavesBy, side_of};

use crate::variables::Variables;
use opt_frac::{Equation, compare};
use std::cmp::Ordering;

/// A basic variable whose value is out of its range: the position of its equation, and whether the value is below its
/// low.
#[derive(Clone, Copy, Debug)]
pub(crate) struct Leaving {
    pub position: usize,
    pub below: bool,
}

/// Whether `value / lead` is below the bound.
fn is_below(value: i128, lead: i128, bound: i128) -> bool
    requires { pos 1 ≤ℤ lead }
    ensures { result ≡ int_lt value (bound *ℤ lead) }
{
    compare(value, lead, bound, 1) == Ordering::Less
}

/// Whether `value / lead` is above the high, where there is one.
fn is_above(value: i128, lead: i128, high: Option<i128>) -> bool
    requires { pos 1 ≤ℤ lead }
    ensures { result ≡ is_above_of value lead high }
{
    match high {
        Some(high) => compare(high, 1, value, lead) == Ordering::Less,
        None => false,
    }
}

/// Whether the value of the equation's variable, over the lead, is below its low, where it is out of its range.
pub(crate) fn side(variables: &Variables, equation: &Equation, value: i128) -> Option<bool>
    requires { equation.now.basic < length variables.now.low }
    ensures { result ≡ side_of variables.now equation.now value }
{
    let basic = equation.basic();
    if is_below(value, equation.lead(), variables.low(basic)) {
        return Some(true);
    }
    if is_above(value, equation.lead(), variables.high(basic)) {
        return Some(false);
    }
    None
}

/// The variable of the equation at the position as one that may leave, where it is on a side of its range.
fn leaving_on(position: usize, side: Option<bool>) -> Option<Leaving>
    ensures position { IfSome result (λ l. l.position ≡ position) }
    ensures below { option_map (λ l. l.below) result ≡ side }
{
    match side {
        Some(below) => Some(Leaving { position, below }),
        None => None,
    }
}

/// The one of the lesser variable.
fn lesser(equations: &[Equation], best: Option<Leaving>, found: Option<Leaving>) -> Option<Leaving>
    requires best { IfSome best (λ l. l.position < length equations.now) }
    requires found { IfSome found (λ l. l.position < length equations.now) }
    ensures lesser { option_map (leaving_at equations.now) result
        ≡ lesser_of (option_map (leaving_at equations.now) best) (option_map (leaving_at equations.now) found) }
    ensures within { IfSome result (λ l. l.position < length equations.now) }
{
    match (best, found) {
        (None, found) => found,
        (best, None) => best,
        (Some(a), Some(b)) => {
            let first = &equations[a.position];
            let second = &equations[b.position];
            if second.basic() < first.basic() {
                Some(b)
            } else {
                Some(a)
            }
        }
    }
}

/// The least variable of the basis whose value is out of its range, where these are the sides of the values.
pub(crate) fn choose_leaving(equations: &[Equation], sides: &[Option<bool>]) -> Option<Leaving>
    requires { length sides.now ≡ length equations.now }
    ensures within { IfSome result (λ l. l.position < length equations.now) }
    ensures least { LeavesBy equations.now sides.now (option_map (leaving_at equations.now) result) }
{
    let mut best = None;
    for i in 0..equations.len() {
        let side = sides[i];
        if side.is_some() {
            best = lesser(equations, best, leaving_on(i, side));
        }
    }
    best
}

/// Whether a variable with this coefficient, which rests at its high or low, can move the leaving one toward its range.
fn can_help(below: bool, at_high: bool, coefficient: i128) -> bool
    ensures { result ≡ can_help_of below at_high coefficient }
{
    if below == at_high {
        coefficient < 0
    } else {
        coefficient > 0
    }
}

/// Whether the variable of the leaving equation's term may enter the basis.
fn may_enter(variables: &Variables, at_high: &[bool], below: bool, term: &(u32, i128)) -> bool
    requires named { term.now.0 < length variables.now.low }
    requires flags { length at_high.now ≡ length variables.now.low }
    ensures { result ≡ may_enter_of variables.now at_high.now below term.now }
{
    variables.is_free(term.0) && can_help(below, at_high[term.0 as usize], term.1)
}

/// The size of the number.
fn size(number: i128) -> i128
    requires { Fits number }
    ensures { result ≡ pos (unsigned_abs number) }
{
    if number < 0 { -number } else { number }
}

/// The size of the variable's cost.
fn cost_size(cost: &Equation, variable: u32) -> i128
    ensures { result ≡ pos (unsigned_abs (coef cost.now.terms variable)) }
{
    size(cost.coefficient(variable))
}

/// Whether the ratio of the size of the first one's cost to that of its coefficient is less than the second one's.
fn has_less_ratio(cost: &Equation, first: &(u32, i128), second: &(u32, i128)) -> bool
    requires first { IsChoice first.now }
    requires second { IsChoice second.now }
    ensures { result ≡ has_less_ratio_of cost.now first.now second.now }
{
    let first_size = size(first.1);
    let second_size = size(second.1);
    let order = compare(
        cost_size(cost, first.0),
        first_size,
        cost_size(cost, second.0),
        second_size,
    );
    order == Ordering::Less
}

/// The one of the lesser ratio, and the earlier one of equal ratios.
fn better(cost: &Equation, best: Option<(u32, i128)>, term: (u32, i128)) -> Option<(u32, i128)>
    requires best { IfSome best IsChoice }
    requires term { IsChoice term }
    ensures better { result ≡ better_of cost.now best term }
    ensures choice { IfSome result IsChoice }
{
    match best {
        Some(earlier) => {
            if has_less_ratio(cost, &term, &earlier) {
                Some(term)
            } else {
                Some(earlier)
            }
        }
        None => Some(term),
    }
}

/// The term of least ratio among those of the leaving equation whose variable may enter, the first of equal ones.
pub(crate) fn choose_entering(
    variables: &Variables,
    at_high: &[bool],
    below: bool,
    cost: &Equation,
    leaving: &Equation,
) -> Option<(u32, i128)>
    requires named { AllBelow (length variables.now.low) leaving.now.terms }
    requires flags { length at_high.now ≡ length variables.now.low }
    ensures { result ≡ entering_from variables.now at_high.now below cost.now None leaving.now.terms }
{
    let mut best = None;
    for term in leaving.terms() {
        if may_enter(variables, at_high, below, term) {
            best = better(cost, best, *term);
        }
    }
    best
}
