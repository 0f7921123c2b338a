ghost use Rattle.std.specs.Prelude.{◌≡◌, ◌++◌, ◌+◌, ◌<◌, ◌≤◌, length, map, Some, IfOk, OnOk};
ghost use Rattle.opt_base.specs.declared.limits.TheConstants.{QUANTITY_LIMIT, ROW_LIMIT};
ghost use Rattle.opt_system.specs.Ranges.{IsOrdered, LiesIn};
ghost use Rattle.opt_system.specs.Systems.{IsLimited, row_at};
ghost use Rattle.opt_frac.specs.Divisors.{Fits};
ghost use Rattle.opt_simplex.specs.Variables.{variables_of, row_high as row_high_of, low_of, high_of, resting as resting_of, is_free as is_free_of};

use opt_base::OutOfMemory;
use opt_system::{Range, RowKind, System};
use std::alloc::{AllocError, Global};
use std::marker::Model;

/// The range of each variable but the objective: first the quantities, then the rows' sums. A sum may have no greatest value.
#[derive(Debug, Drop)]
pub(crate) struct Variables {
    quantities: u32,
    low: Vec<i128>,
    high: Vec<Option<i128>>,
}

impl Model for Variables {
    ghost use Rattle.opt_simplex.specs.Variables.{Variables};
    ghost use Rattle.opt_simplex.specs.Shape.{AreKept};

    ghost Value = { Variables };

    ghost view = { λ v. record { quantities = v.quantities; low = v.low.items; high = v.high.items } };

    ghost invariant = { λ v. AreKept (record { quantities = v.quantities; low = v.low.items; high = v.high.items }) };
}

impl Variables {
    ghost use Rattle.opt_simplex.specs.Shape.{AreKept};

    /// The variables of the system on the box.
    pub(crate) fn new(
        alloc: Global,
        system: &System,
        range: &Range,
    ) -> Result<Variables, OutOfMemory>
        requires { LiesIn system.now.root range.now }
        ensures value { IfOk result (λ variables. variables ≡ variables_of system.now range.now) }
        ensures limited { IsLimited system.now }
        ensures ordered { IsOrdered range.now }
    {
        let quantities = system.quantities();
        let mut low = Vec::new(alloc);
        push_lows(&mut low, range.low())?;
        push_row_lows(&mut low, system)?;
        let mut high = Vec::new(alloc);
        push_highs(&mut high, range.high())?;
        push_row_highs(&mut high, system)?;
        Ok(Variables {
            quantities,
            low,
            high,
        })
    }

    /// How many of the variables are quantities.
    pub(crate) fn quantities(&self) -> u32
        ensures value { result ≡ self.now.quantities }
        ensures kept { AreKept self.now }
    {
        self.quantities
    }

    /// The least value of the variable.
    pub(crate) fn low(&self, variable: u32) -> i128
        requires { variable < length self.now.low }
        ensures value { result ≡ low_of self.now variable }
        ensures fits { Fits result }
    {
        self.low[variable as usize]
    }

    /// The greatest value of the variable, where it has one.
    pub(crate) fn high(&self, variable: u32) -> Option<i128>
        requires { variable < length self.now.low }
        ensures { result ≡ high_of self.now variable }
    {
        self.high[variable as usize]
    }

    /// Whether the variable's low and high differ.
    pub(crate) fn is_free(&self, variable: u32) -> bool
        requires { variable < length self.now.low }
        ensures { result ≡ is_free_of (low_of self.now variable) (high_of self.now variable) }
    {
        match self.high(variable) {
            Some(high) => self.low(variable) != high,
            None => true,
        }
    }

    /// The value at which the variable rests while it is outside the basis: its high where the flag is set, else its low.
    pub(crate) fn resting(&self, at_high: &[bool], variable: u32) -> i128
        requires named { variable < length self.now.low }
        requires flags { length at_high.now ≡ length self.now.low }
        ensures value { result ≡ resting_of self.now at_high.now variable }
        ensures fits { Fits result }
    {
        if !at_high[variable as usize] {
            return self.low(variable);
        }
        match self.high[variable as usize] {
            Some(high) => high,
            None => self.low(variable),
        }
    }
}

/// Pushes the least value of each quantity.
fn push_lows(lows: &mut Vec<i128>, values: &[i64]) -> Result<(), AllocError>
    ensures { OnOk result (lows.new.items ≡ lows.old.items ++ values.now) }
{
    for value in values {
        lows.push(i128::from(*value))?;
    }
    Ok(())
}

/// Pushes the least value of each row's sum.
fn push_row_lows(lows: &mut Vec<i128>, system: &System) -> Result<(), AllocError>
    ensures { OnOk result
        (lows.new.items ≡ lows.old.items ++ map (λ row. row.right_hand_side) system.now.rows) }
{
    for i in 0..system.rows() {
        lows.push(i128::from(system.right_hand_side(i)))?;
    }
    Ok(())
}

/// Pushes the greatest value of each quantity.
fn push_highs(highs: &mut Vec<Option<i128>>, values: &[i64]) -> Result<(), AllocError>
    ensures { OnOk result (highs.new.items ≡ highs.old.items ++ map Some values.now) }
{
    for value in values {
        highs.push(Some(i128::from(*value)))?;
    }
    Ok(())
}

/// The greatest value of the sum of row `i`, where it has one.
fn row_high(system: &System, i: u32) -> Option<i128>
    requires { i < length system.now.rows }
    ensures { let row = row_at system.now.rows i in result ≡ row_high_of row.kind row.right_hand_side }
{
    match system.kind(i) {
        RowKind::Ge => None,
        RowKind::Eq => Some(i128::from(system.right_hand_side(i))),
    }
}

/// Pushes the greatest value of each row's sum.
fn push_row_highs(highs: &mut Vec<Option<i128>>, system: &System) -> Result<(), AllocError>
    ensures { OnOk result (highs.new.items
        ≡ highs.old.items ++ map (λ row. row_high_of row.kind row.right_hand_side) system.now.rows) }
{
    for i in 0..system.rows() {
        highs.push(row_high(system, i))?;
    }
    Ok(())
}
