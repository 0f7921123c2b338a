ghost use Rattle.std.specs.Prelude.{◌≡◌, ℕ, ◌+◌, ◌*◌, ◌^◌, ◌<◌, ◌≤◌, ◌*ℤ◌, ◌≤ℤ◌, length, pos, IfOk, IfSome, unsigned_abs};
ghost use Rattle.opt_sums.specs.Sums.{at};
ghost use Rattle.opt_system.specs.Ranges.{LiesIn};
ghost use Rattle.opt_guide.specs.Lies.{AreWildMultipliers, IsWildPoint, IsWildCut};
ghost use Rattle.opt_guide.specs.Relations.{any_multipliers, any_candidate, any_cut, AllowsSame};

use crate::guide::Guide;
use opt_base::{Draws, OutOfMemory, Point};
use opt_bound::Mult;
use opt_system::{Range, System};
use std::alloc::{AllocError, Global};

/// Says whatever it draws from a number, most of it wrong: rows and quantities that do not exist, multipliers of the
/// wrong sign, points and cuts out of range. The same number gives the same lies.
#[derive(Debug, Drop)]
pub struct LieGuide {
    draws: Draws,
}

impl LieGuide {
    /// A guide that draws its lies from this number.
    pub fn new(number: u64) -> LieGuide
        ensures { result.draws ≡ number }
    {
        LieGuide {
            draws: Draws::new(number),
        }
    }
}

impl Guide for LieGuide {
    ghost may_weigh = { λ _. any_multipliers };

    ghost may_try = { λ _. any_candidate };

    ghost may_cut = { λ _. any_cut };

    fn multipliers(
        &mut self,
        alloc: Global,
        system: &System,
        _range: &Range,
    ) -> Result<Mult, OutOfMemory>
        ensures wild { IfOk result (AreWildMultipliers system.now) }
        ensures allowed { IfOk result (λ m. Unit {0}) }
        ensures same { AllowsSame any_multipliers any_multipliers any_candidate any_candidate any_cut any_cut }
    {
        let rows = system.rows();
        let q = self.draws.below(4) as i64;
        if rows == 0 {
            return Mult::new(alloc, q, &[]);
        }
        let row = self.draws.below(2 * u64::from(rows)) as u32;
        let multiplier = signed_draw(&mut self.draws);
        Mult::new(alloc, q, &[(row, multiplier)])
    }

    fn candidate(
        &mut self,
        alloc: Global,
        system: &System,
        _range: &Range,
    ) -> Result<Option<Point>, OutOfMemory>
        ensures wild { IfOk result (λ x. IfSome x (IsWildPoint system.now)) }
        ensures allowed { IfOk result (λ x. Unit {0}) }
        ensures same { AllowsSame any_multipliers any_multipliers any_candidate any_candidate any_cut any_cut }
    {
        let _quantities = system.quantities();
        let values = wild_values(alloc, &mut self.draws, system.root().high())?;
        Ok(Some(Point::from_slice(alloc, &values)?))
    }

    fn cut(
        &mut self,
        _alloc: Global,
        system: &System,
        _range: &Range,
    ) -> Result<(u32, i64), OutOfMemory>
        ensures wild { IfOk result (λ cut. IsWildCut system.now cut.0 cut.1) }
        ensures allowed { IfOk result (λ cut. Unit {0}) }
        ensures same { AllowsSame any_multipliers any_multipliers any_candidate any_candidate any_cut any_cut }
    {
        let quantities = system.quantities();
        let quantity = self.draws.below(2 * u64::from(quantities)) as u32;
        if quantity >= quantities {
            return Ok((quantity, 0));
        }
        let high = system.root().high()[quantity as usize];
        Ok((quantity, wild_value(&mut self.draws, high)))
    }

    fn pick(&mut self, count: u32) -> u32
        requires { 1 ≤ count }
        ensures wild { result < 2 * count }
        ensures same { AllowsSame any_multipliers any_multipliers any_candidate any_candidate any_cut any_cut }
    {
        self.draws.below(2 * u64::from(count)) as u32
    }
}

/// A number from 1 to 16, or one from -16 to -1.
fn signed_draw(draws: &mut Draws) -> i64
    ensures small { unsigned_abs result ≤ 16 }
    ensures no_zero { 0 < unsigned_abs result }
{
    let size = draws.below(16) as i64 + 1;
    if draws.below(2) == 0 { size } else { -size }
}

/// A number from 0 to twice the greatest value.
fn wild_value(draws: &mut Draws, high: i64) -> i64
    requires from_zero { pos 0 ≤ℤ high }
    requires small { unsigned_abs high < 2 ^ 51 }
    ensures from_zero { pos 0 ≤ℤ result }
    ensures at_most_twice { result ≤ℤ (pos 2 *ℤ high) }
{
    draws.below(2 * high.unsigned_abs() + 1) as i64
}

/// A number from 0 to twice the greatest value, for each of these.
fn wild_values(alloc: Global, draws: &mut Draws, highs: &[i64]) -> Result<Vec<i64>, AllocError>
    requires from_zero { (j : ℕ) → j < length highs.now → pos 0 ≤ℤ at highs.now j }
    requires small { (j : ℕ) → j < length highs.now → unsigned_abs (at highs.now j) < 2 ^ 51 }
    ensures each { IfOk result (λ v. length v.items ≡ length highs.now) }
    ensures from_zero { IfOk result (λ v. (j : ℕ) → j < length v.items → pos 0 ≤ℤ at v.items j) }
    ensures at_most_twice { IfOk result (λ v. (j : ℕ) → j < length v.items → at v.items j ≤ℤ (pos 2 *ℤ at highs.now j)) }
{
    let mut values = Vec::with_capacity(alloc, highs.len())?;
    for high in highs {
        values.push(wild_value(draws, *high))?;
    }
    Ok(values)
}
