ghost use Rattle.std.specs.Prelude.{◌≡◌, ◌<◌, ◌∷◌, ℕ, List, false, All, Contains, None, length, option_and_then, pos, replicate, IfOk};
ghost use Rattle.opt_sums.specs.Entries.{AllBelow};
ghost use Rattle.opt_simplex.specs.Variables.{resting};
ghost use Rattle.opt_simplex.specs.Outcomes.{with_product};
ghost use Rattle.opt_simplex.specs.Shape.{IsShaped};
ghost use Rattle.opt_simplex.specs.Choice.{sum_from};
ghost use Rattle.opt_simplex.specs.Values.{AreNoted, AreNotedBut};

use crate::choice::side;
use crate::tableau::Tableau;
use crate::variables::Variables;
use opt_frac::{product, sum};
use std::alloc::{AllocError, Global};
use std::marker::Model;

/// Lead times the value of each equation's variable, by position, and for those that are out of their range whether
/// they are below their low; or the mark that a value does not fit.
#[derive(Debug, Drop)]
pub(crate) struct Values {
    wide: bool,
    numbers: Vec<i128>,
    sides: Vec<Option<bool>>,
}

impl Model for Values {
    ghost use Rattle.opt_simplex.specs.Values.{Values};

    ghost Value = { Values };

    ghost view = { λ v. record { wide = v.wide; numbers = v.numbers.items; sides = v.sides.items } };
}

impl Values {
    /// The values of the tableau.
    pub(crate) fn new(
        alloc: Global,
        variables: &Variables,
        tableau: &Tableau,
    ) -> Result<Values, AllocError>
        requires { IsShaped (length variables.now.low) tableau.now }
        ensures { IfOk result (AreNoted variables.now tableau.now) }
    {
        let count = tableau.equations().len();
        let positions = all_positions(alloc, count)?;
        let mut values = Values::unknown(alloc, count)?;
        values.refresh(variables, tableau, &positions);
        Ok(values)
    }

    /// So many values, none of them known yet.
    fn unknown(alloc: Global, count: usize) -> Result<Values, AllocError>
        ensures wide { IfOk result (λ values. values.wide ≡ false) }
        ensures numbers { IfOk result (λ values. length values.numbers ≡ count) }
        ensures sides { IfOk result (λ values. length values.sides ≡ count) }
    {
        Ok(Values {
            wide: false,
            numbers: vec![in alloc; 0; count]?,
            sides: no_sides(alloc, count)?,
        })
    }

    /// Whether a value does not fit.
    pub(crate) fn is_wide(&self) -> bool
        ensures { result ≡ self.now.wide }
    {
        self.wide
    }

    /// Lead times the value of each equation's variable, by position.
    pub(crate) fn numbers(&self) -> &[i128]
        ensures { result.now ≡ self.now.numbers }
    {
        &self.numbers
    }

    /// For each variable that is out of its range, by the position of its equation, whether it is below its low.
    pub(crate) fn sides(&self) -> &[Option<bool>]
        ensures { result.now ≡ self.now.sides }
    {
        &self.sides
    }

    /// Computes the value of the equation at this position anew.
    fn note(&mut self, variables: &Variables, tableau: &Tableau, i: usize)
        requires shaped { IsShaped (length variables.now.low) tableau.now }
        requires numbers_each { length self.old.numbers ≡ length tableau.now.equations }
        requires sides_each { length self.old.sides ≡ length tableau.now.equations }
        requires inside { i < length tableau.now.equations }
        ensures { (others : List ℕ) → AreNotedBut variables.now tableau.now self.old (i ∷ others)
            → AreNotedBut variables.now tableau.now self.new others }
    {
        let equation = &tableau.equations()[i];
        match value(variables, tableau.at_high(), equation.terms()) {
            Some(number) => {
                self.numbers[i] = number;
                self.sides[i] = side(variables, equation, number);
            }
            None => self.wide = true,
        }
    }

    /// Computes the values of the equations at these positions anew.
    pub(crate) fn refresh(&mut self, variables: &Variables, tableau: &Tableau, positions: &[usize])
        requires shaped { IsShaped (length variables.now.low) tableau.now }
        requires inside { All (λ i. i < length tableau.now.equations) positions.now }
        requires others { AreNotedBut variables.now tableau.now self.old positions.now }
        ensures { AreNoted variables.now tableau.now self.new }
    {
        for i in positions {
            self.note(variables, tableau, *i);
        }
    }
}

/// The positions below the count.
fn all_positions(alloc: Global, count: usize) -> Result<Vec<usize>, AllocError>
    ensures inside { IfOk result (λ positions. All (λ i. i < count) positions.items) }
    ensures all { IfOk result (λ positions. (i : ℕ) → i < count → Contains positions.items i) }
{
    let mut positions = Vec::with_capacity(alloc, count)?;
    for i in 0..count {
        positions.push(i)?;
    }
    Ok(positions)
}

/// So many sides, none of them known yet.
fn no_sides(alloc: Global, count: usize) -> Result<Vec<Option<bool>>, AllocError>
    ensures { IfOk result (λ sides. sides.items ≡ replicate count None) }
{
    let mut sides = Vec::with_capacity(alloc, count)?;
    for _ in 0..count {
        sides.push(None)?;
    }
    Ok(sides)
}

/// The total with the coefficient times the value added, or none where the product or the sum does not fit.
fn add_product(total: i128, coefficient: i128, value: i128) -> Option<i128>
    ensures { result ≡ with_product total coefficient value }
{
    sum(total, product(coefficient, value)?)
}

/// The total, where there is one, with the term at the value at which its variable rests added.
fn add_term(
    variables: &Variables,
    at_high: &[bool],
    total: Option<i128>,
    term: &(u32, i128),
) -> Option<i128>
    requires flags { length at_high.now ≡ length variables.now.low }
    requires named { term.now.0 < length variables.now.low }
    ensures { result ≡ option_and_then
        (λ sum. with_product sum term.now.1 (resting variables.now at_high.now term.now.0)) total }
{
    match total {
        Some(total) => add_product(total, term.1, variables.resting(at_high, term.0)),
        None => None,
    }
}

/// What the terms sum to where each variable rests, or none where a product or a sum on the way does not fit.
pub(crate) fn value(variables: &Variables, at_high: &[bool], terms: &[(u32, i128)]) -> Option<i128>
    requires flags { length at_high.now ≡ length variables.now.low }
    requires named { AllBelow (length variables.now.low) terms.now }
    ensures { result ≡ sum_from (resting variables.now at_high.now) (pos 0) terms.now }
{
    let mut total = Some(0);
    for term in terms {
        total = add_term(variables, at_high, total, term);
    }
    total
}
