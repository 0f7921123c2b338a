ghost use Rattle.std.specs.Prelude.{◌≡◌, ◌↔◌, ℕ, ◌<◌, pos, ◌≤ℤ◌, length, slice_set, IsTrue, IfOk};
ghost use Rattle.opt_sums.specs.Sums.{at};

use opt_base::OutOfMemory;
use std::alloc::Global;
use std::marker::Model;

/// The least and the greatest value of each quantity.
#[derive(Debug, Drop)]
pub struct Range {
    low: Vec<i64>,
    high: Vec<i64>,
}

impl Model for Range {
    ghost use Rattle.opt_system.specs.Ranges.{Range, IsOrdered};

    ghost Value = { Range };

    ghost view = { λ r. record { low = r.low.items; high = r.high.items } };

    ghost invariant = { λ r. IsOrdered (record { low = r.low.items; high = r.high.items }) };
}

impl Range {
    ghost use Rattle.opt_system.specs.Ranges.{Range, IsOrdered, IsWithin, LiesIn};
    ghost use Rattle.opt_system.specs.Cuts.{IsCut, is_cut};

    /// The range of these lows and highs: as many of each, and `0 <= low <= high` throughout.
    pub fn new(alloc: Global, low: &[i64], high: &[i64]) -> Result<Range, OutOfMemory>
        requires { IsOrdered (record { low = low.now; high = high.now }) }
        ensures { IfOk result (λ range. range ≡ record { low = low.now; high = high.now }) }
    {
        let low = Vec::from_slice(alloc, low)?;
        let high = Vec::from_slice(alloc, high)?;
        Ok(Range { low, high })
    }

    /// The range of these lows and highs, which it keeps: as many of each, and `0 <= low <= high` throughout.
    pub fn from_vecs(low: Vec<i64>, high: Vec<i64>) -> Range
        requires { IsOrdered (record { low = low.items; high = high.items }) }
        ensures { result ≡ record { low = low.items; high = high.items } }
    {
        Range { low, high }
    }

    /// Whether there are as many of each, and `0 <= low <= high` throughout.
    pub fn is_ordered(low: &[i64], high: &[i64]) -> bool
        ensures { IsTrue result ↔ IsOrdered (record { low = low.now; high = high.now }) }
    {
        if low.len() != high.len() {
            return false;
        }
        low.iter()
            .zip(high)
            .all(|(low, high)| 0 <= *low && low <= high)
    }

    /// Whether the point has one value for each quantity, and each lies in its range.
    pub fn contains(&self, x: &[i64]) -> bool
        ensures { IsTrue result ↔ IsWithin self.now x.now }
    {
        if x.len() != self.low.len() {
            return false;
        }
        at_most(&self.low, x) && at_most(x, &self.high)
    }

    /// Whether the range is for the quantities of the outer one and leaves no value that the outer one lacks.
    pub fn lies_in(&self, outer: &Range) -> bool
        ensures { IsTrue result ↔ LiesIn outer.now self.now }
    {
        if self.low.len() != outer.low.len() {
            return false;
        }
        if !at_most(&outer.low, &self.low) {
            return false;
        }
        at_most(&self.high, &outer.high)
    }

    /// Whether the quantity may be cut at `at`: there is such a quantity, and both halves of the range keep a value.
    pub fn has_cut(&self, quantity: u32, at: i64) -> bool
        ensures value { result ≡ is_cut self.now quantity at }
        ensures cut { IsTrue result ↔ IsCut self.now quantity at }
        ensures ordered { IsOrdered self.now }
    {
        let j = quantity as usize;
        j < self.low.len() && self.low[j] <= at && at < self.high[j]
    }

    /// The least value of each quantity.
    pub fn low(&self) -> &[i64]
        ensures value { result.now ≡ self.now.low }
        ensures ordered { IsOrdered self.now }
    {
        &self.low
    }

    /// The greatest value of each quantity.
    pub fn high(&self) -> &[i64]
        ensures value { result.now ≡ self.now.high }
        ensures ordered { IsOrdered self.now }
    {
        &self.high
    }

    /// Puts another least value for quantity `j`, from 0 to its greatest one.
    pub fn set_low(&mut self, j: u32, value: i64)
        requires quantity { j < length self.old.low }
        requires from_zero { pos 0 ≤ℤ value }
        requires to_high { value ≤ℤ at self.old.high j }
        ensures { self.new ≡ record self.old { low = slice_set self.old.low j value } }
    {
        self.low[j as usize] = value;
    }

    /// Puts another greatest value for quantity `j`, of at least its least one.
    pub fn set_high(&mut self, j: u32, value: i64)
        requires quantity { j < length self.old.low }
        requires from_low { at self.old.low j ≤ℤ value }
        ensures { self.new ≡ record self.old { high = slice_set self.old.high j value } }
    {
        self.high[j as usize] = value;
    }

    /// A copy of the range.
    pub fn copy(&self, alloc: Global) -> Result<Range, OutOfMemory>
        ensures copy { IfOk result (λ range. range ≡ self.now) }
        ensures ordered { IsOrdered self.now }
    {
        Range::new(alloc, &self.low, &self.high)
    }
}

impl PartialEq for Range {
    ghost use Rattle.opt_system.specs.Equal.{range_eq, range_eq_laws};

    ghost eq = { range_eq };

    ghost laws = { range_eq_laws };

    fn eq(&self, other: &Range) -> bool
        ensures value { result ≡ range_eq self.now other.now }
        ensures same { IsTrue result ↔ (self.now ≡ other.now) }
    {
        self.low == other.low && self.high == other.high
    }
}

/// Whether no number of the first list is above that of the second at the same place.
fn at_most(first: &[i64], second: &[i64]) -> bool
    requires { length first.now ≡ length second.now }
    ensures { IsTrue result
        ↔ ((j : ℕ) → j < length first.now → at first.now j ≤ℤ at second.now j) }
{
    first
        .iter()
        .zip(second)
        .all(|(first, second)| first <= second)
}
