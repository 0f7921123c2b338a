ghost use Rattle.std.specs.Prelude.{◌≡◌, ◌≢◌, ℕ, ◌^◌, ◌<◌, ◌≤◌, ◌<ℤ◌, ◌≤ℤ◌, ◌+ℤ◌, ◌*ℤ◌, pos, length, IfOk, IsTrue, ◌↔◌};
ghost use Rattle.opt_sums.specs.Sums.{at};
ghost use Rattle.opt_system.specs.Ranges.{IsOrdered, IsWithin, LiesIn};
ghost use Rattle.opt_system.specs.Cuts.{IsCut};
ghost use Rattle.opt_guide.specs.Relations.{AllowsSame};
ghost use Rattle.opt_search.specs.Guided.{IsLine, IsOnePoint, IsPointLine, IsCutLine, IsHalving};

use opt_base::OutOfMemory;
use opt_bound::Mult;
use opt_guide::Guide;
use opt_system::{Range, System};
use std::alloc::Global;

/// The guide's multipliers for the box, or the objective alone where they are not admissible.
pub fn line<G: Guide>(
    alloc: Global,
    system: &System,
    range: &Range,
    guide: &mut G,
) -> Result<Mult, OutOfMemory>
    requires { LiesIn system.now.root range.now }
    ensures line { IfOk result (IsLine (G.may_weigh guide.old) system.now range.now) }
    ensures same { AllowsSame (G.may_weigh guide.old) (G.may_weigh guide.new) (G.may_try guide.old)
        (G.may_try guide.new) (G.may_cut guide.old) (G.may_cut guide.new) }
{
    let mult = guide.multipliers(alloc, system, range)?;
    if mult.admissible(system) {
        Ok(mult)
    } else {
        Ok(Mult::trivial(alloc))
    }
}

/// A unit of the first row that the point breaks, against the side on which it breaks it; the objective alone where it
/// breaks none.
pub fn point_line(alloc: Global, system: &System, x: &[i64]) -> Result<Mult, OutOfMemory>
    requires { IsWithin system.now.root x.now }
    ensures { IfOk result (IsPointLine system.now x.now) }
{
    match system.first_broken(x) {
        Some(row) => {
            let below = system.row_sum(row, x) < i128::from(system.right_hand_side(row));
            let unit = if below { 1 } else { -1 };
            Mult::new(alloc, 0, &[(row, unit)])
        }
        None => Ok(Mult::trivial(alloc)),
    }
}

/// The guide's cut of the box, or the halving of its first quantity that has more than one value where that is no cut.
pub fn cut_line<G: Guide>(
    alloc: Global,
    system: &System,
    range: &Range,
    guide: &mut G,
) -> Result<(u32, i64), OutOfMemory>
    requires inside { LiesIn system.now.root range.now }
    requires several { ¬ IsOnePoint range.now }
    ensures cut { IfOk result (λ cut. IsCut range.now cut.0 cut.1) }
    ensures line { IfOk result (λ cut. IsCutLine (G.may_cut guide.old) system.now range.now cut.0 cut.1) }
    ensures same { AllowsSame (G.may_weigh guide.old) (G.may_weigh guide.new) (G.may_try guide.old)
        (G.may_try guide.new) (G.may_cut guide.old) (G.may_cut guide.new) }
{
    let _quantities = system.quantities();
    let (quantity, at) = guide.cut(alloc, system, range)?;
    if range.has_cut(quantity, at) {
        Ok((quantity, at))
    } else {
        Ok(halving(range))
    }
}

/// The first quantity that has more than one value in the box, and halfway between its ends, rounded down.
fn halving(range: &Range) -> (u32, i64)
    requires several { ¬ IsOnePoint range.now }
    requires few { length range.now.low ≤ 2 ^ 32 }
    ensures cut { IsCut range.now result.0 result.1 }
    ensures halving { IsHalving range.now result.0 result.1 }
{
    let low = range.low();
    let high = range.high();
    let j = first_several(low, high);
    (j as u32, midpoint(low[j], high[j]))
}

/// Halfway between two numbers from 0 on, the first of which is lower, rounded down.
fn midpoint(low: i64, high: i64) -> i64
    requires from_zero { pos 0 ≤ℤ low }
    requires lower { low <ℤ high }
    ensures from_low { low ≤ℤ result }
    ensures below_high { result <ℤ high }
    ensures halfway { (pos 2 *ℤ result) ≤ℤ (low +ℤ high) }
    ensures rounded_down { (low +ℤ high) <ℤ ((pos 2 *ℤ result) +ℤ pos 2) }
{
    low + (high - low) / 2
}

/// The first place at which the two lists differ.
fn first_several(low: &[i64], high: &[i64]) -> usize
    requires same_length { length low.now ≡ length high.now }
    requires differ { low.now ≢ high.now }
    ensures there { result < length low.now }
    ensures several { at low.now result ≢ at high.now result }
    ensures before { (k : ℕ) → k < result → at low.now k ≡ at high.now k }
{
    let mut j = 0;
    while j < low.len() && low[j] == high[j] {
        j += 1;
    }
    j
}
