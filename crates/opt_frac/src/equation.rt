ghost use Rattle.std.specs.Prelude.{◌≡◌, ◌≢◌, ◌↔◌, [], ◌*ℤ◌, ◌≤ℤ◌, pos, IfOk, IsTrue, OnErr, OnOk};
ghost use Rattle.opt_sums.specs.Entries.{coef};
ghost use Rattle.opt_frac.specs.Equations.{HasTerm, IsReduced, equation_of};
ghost use Rattle.opt_frac.specs.Elimination.{elimination as elimination_of, negated_if, merged_sum, whole, without};
ghost use Rattle.opt_frac.specs.Merging.{Writes, sums_fit};
ghost use Rattle.opt_frac.specs.Replacing.{IsMade, IsProduct, ReplacesBy, other_factor, other_terms, own_factor, own_terms};

use crate::elim_fault::ElimFault;
use crate::elimination::{Factors, coefficient, least_factors, reduce};
use crate::merging::{Multiple, add_multiples};
use crate::number::product;
use crate::solved::is_solved;
use crate::turning::{negate_if, place_of, push_signed};
use opt_base::OutOfMemory;
use std::alloc::{AllocError, Global};
use std::marker::Model;
use std::mem;

/// An equation solved for one of its variables, the basic one, in lowest terms:
/// its lead times the basic variable is the sum of each coefficient times its variable.
///
/// The lead is at least 1, the terms go by rising variable, none of them is 0 or at the basic variable, and the
/// greatest common divisor of the lead and all coefficients is 1. No number is -2^127.
#[derive(Debug, Drop)]
pub struct Equation {
    basic: u32,
    lead: i128,
    terms: Vec<(u32, i128)>,
}

impl Model for Equation {
    ghost use Rattle.opt_frac.specs.Equations.{Equation, IsReduced, equation_of};

    ghost Value = { Equation };

    ghost view = { λ e. equation_of e.basic e.lead e.terms.items };

    ghost invariant = { λ e. IsReduced (equation_of e.basic e.lead e.terms.items) };
}

impl Equation {
    ghost use Rattle.opt_frac.specs.Equations.{IsSolved, SameValues, SameValuesWhere, lowest};
    ghost use Rattle.opt_frac.specs.Elimination.{solution_for};
    ghost use Rattle.opt_frac.specs.Replacing.{Replaces, ReplacesIn};

    /// Whether an equation may be made of this basic variable, lead and terms: the lead is at least 1, the terms go
    /// by rising variable, none of them is 0 or at the basic variable, and no number is -2^127.
    pub fn is_solved(basic: u32, lead: i128, terms: &[(u32, i128)]) -> bool
        ensures { IsTrue result ↔ IsSolved (equation_of basic lead terms.now) }
    {
        is_solved(basic, lead, terms)
    }

    /// The equation with this basic variable, lead and terms, divided by their greatest common divisor.
    ///
    /// The lead is at least 1, the terms go by rising variable, none of them is 0 or at the basic variable, and no
    /// number is -2^127.
    pub fn new(
        alloc: Global,
        basic: u32,
        lead: i128,
        terms: &[(u32, i128)],
    ) -> Result<Equation, OutOfMemory>
        requires { IsSolved (equation_of basic lead terms.now) }
        ensures { IfOk result (λ equation. equation ≡ lowest (equation_of basic lead terms.now)) }
    {
        let mut terms = Vec::from_slice(alloc, terms)?;
        let lead = reduce(lead, &mut terms);
        Ok(Equation { basic, lead, terms })
    }

    /// The variable for which the equation is solved.
    pub fn basic(&self) -> u32
        ensures value { result ≡ self.now.basic }
        ensures reduced { IsReduced self.now }
    {
        self.basic
    }

    /// How often the basic variable is taken, at least 1.
    pub fn lead(&self) -> i128
        ensures value { result ≡ self.now.lead }
        ensures reduced { IsReduced self.now }
    {
        self.lead
    }

    /// The terms: variables with their coefficients, by rising variable.
    pub fn terms(&self) -> &[(u32, i128)]
        ensures value { result.now ≡ self.now.terms }
        ensures reduced { IsReduced self.now }
    {
        &self.terms
    }

    /// The coefficient at the variable, or 0 where there is no term.
    pub fn coefficient(&self, variable: u32) -> i128
        ensures value { result ≡ coef self.now.terms variable }
        ensures reduced { IsReduced self.now }
    {
        coefficient(self.terms(), variable)
    }

    /// The equation as one sum that is 0: its terms, and its lead with the sign changed at the basic variable.
    pub fn whole_terms(&self, alloc: Global) -> Result<Vec<(u32, i128)>, OutOfMemory>
        ensures whole { IfOk result (λ terms. terms.items ≡ whole self.now) }
        ensures reduced { IsReduced self.now }
    {
        let place = place_of(self.terms(), self.basic());
        let mut terms = Vec::from_slice(alloc, self.terms())?;
        terms.insert(place, (self.basic(), -self.lead()))?;
        Ok(terms)
    }

    /// The same equation solved for the variable `col`, at which it has a term.
    pub fn turn(&self, alloc: Global, col: u32) -> Result<Equation, OutOfMemory>
        requires { HasTerm self.now col }
        ensures turned { IfOk result (λ equation. equation ≡ solution_for col self.now) }
        ensures same_values { IfOk result (SameValues self.now) }
    {
        let pivot = self.coefficient(col);
        let terms = turned_terms(alloc, self, col, pivot > 0)?;
        Ok(Equation {
            basic: col,
            lead: pivot.abs(),
            terms,
        })
    }

    /// The equation with the basic variable of the turned one, at which it has a term, replaced by what the turned
    /// one says of it, in lowest terms.
    ///
    /// It is Wide exactly where a product or a sum on the way lies outside -(2^127 - 1) to 2^127 - 1. The two
    /// equations are solved for different variables, and the turned one has no term at this one's.
    pub fn eliminate(&self, alloc: Global, turned: &Equation) -> Result<Equation, ElimFault>
        requires other { self.now.basic ≢ turned.now.basic }
        requires term { HasTerm self.now turned.now.basic }
        requires apart { coef turned.now.terms self.now.basic ≡ pos 0 }
        ensures replaced { Replaces result (elimination_of turned.now self.now) }
        ensures same_values { IfOk result (SameValuesWhere turned.now self.now) }
    {
        let mut terms = Vec::new(alloc);
        let lead = replace(self, turned, &mut terms)?;
        Ok(Equation {
            basic: self.basic,
            lead,
            terms,
        })
    }

    /// Puts the equation that `eliminate` gives in this one's place. A fault leaves this one as it was.
    ///
    /// The buffer lends its memory and has the old equation's terms then, so that many calls need little new memory.
    pub fn eliminate_in_place(
        &mut self,
        turned: &Equation,
        buffer: &mut Vec<(u32, i128)>,
    ) -> Result<(), ElimFault>
        requires other { self.old.basic ≢ turned.now.basic }
        requires term { HasTerm self.old turned.now.basic }
        requires apart { coef turned.now.terms self.old.basic ≡ pos 0 }
        ensures replaced { ReplacesIn result self.new (elimination_of turned.now self.old) }
        ensures lent { OnOk result (buffer.new.items ≡ self.old.terms) }
        ensures unchanged { OnErr result (self.new ≡ self.old) }
    {
        let lead = replace(self, turned, buffer)?;
        self.lead = lead;
        mem::swap(&mut self.terms, buffer);
        Ok(())
    }
}

/// All terms of the equation as one sum that is 0, but for those at `col`, with all signs changed where that is wanted.
fn turned_terms(
    alloc: Global,
    equation: &Equation,
    col: u32,
    negative: bool,
) -> Result<Vec<(u32, i128)>, AllocError>
    requires { equation.now.basic ≢ col }
    ensures { IfOk result (λ terms. terms.items ≡ negated_if negative (without col (whole equation.now))) }
{
    let basic = equation.basic();
    let place = place_of(equation.terms(), basic);
    let mut terms = Vec::with_capacity(alloc, equation.terms().len())?;
    push_signed(&mut terms, &equation.terms()[..place], col, negative)?;
    terms.push((basic, negate_if(equation.lead(), !negative)))?;
    push_signed(&mut terms, &equation.terms()[place..], col, negative)?;
    Ok(terms)
}

/// How often the equation and the turned one are taken, so that the turned one's variable falls out.
fn factors_for(old: &Equation, turned: &Equation) -> Factors
    ensures own { result.own ≡ own_factor turned.now old.now }
    ensures other { result.other ≡ other_factor turned.now old.now }
    ensures positive { pos 1 ≤ℤ result.own }
    ensures old_reduced { IsReduced old.now }
    ensures turned_reduced { IsReduced turned.now }
{
    least_factors(turned.lead(), old.coefficient(turned.basic()))
}

/// The equation's lead times its factor, or Wide where it does not fit.
fn scaled_lead(old: &Equation, factors: Factors) -> Result<i128, ElimFault>
    requires { pos 1 ≤ℤ factors.own }
    ensures product { IsProduct result (old.now.lead *ℤ factors.own) }
    ensures positive { pos 1 ≤ℤ (old.now.lead *ℤ factors.own) }
{
    product(old.lead(), factors.own).ok_or(ElimFault::Wide)
}

/// Writes the terms of both equations as often as they are taken, added, into the buffer.
fn add_terms(
    old: &Equation,
    turned: &Equation,
    terms: &mut Vec<(u32, i128)>,
) -> Result<(), ElimFault>
    ensures { let own = own_terms turned.now old.now in
        let other = other_terms turned.now old.now in
        Writes result [] terms.new.items (sums_fit own other) (merged_sum own other) }
{
    let factors = factors_for(old, turned);
    let kept = Multiple {
        terms: old.terms(),
        factor: factors.own,
    };
    let added = Multiple {
        terms: turned.terms(),
        factor: factors.other,
    };
    add_multiples(terms, turned.basic(), kept, added)
}

/// Writes the terms of the equation with the turned one's variable replaced into the buffer, and gives its lead.
fn replace(
    old: &Equation,
    turned: &Equation,
    terms: &mut Vec<(u32, i128)>,
) -> Result<i128, ElimFault>
    requires term { HasTerm old.now turned.now.basic }
    requires apart { coef turned.now.terms old.now.basic ≡ pos 0 }
    ensures replaced { ReplacesBy result old.now.basic terms.new.items (elimination_of turned.now old.now) }
    ensures made { IfOk result (λ lead. IsMade turned.now old.now (equation_of old.now.basic lead terms.new.items)) }
{
    let lead = scaled_lead(old, factors_for(old, turned))?;
    add_terms(old, turned, terms)?;
    Ok(reduce(lead, terms))
}
