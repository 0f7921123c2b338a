//! The rows that a point breaks.
ghost use Rattle.std.specs.Prelude.{◌≡◌, ◌<◌, ◌++◌, length, All, IfOk, OnOk, IsTrue, None, [], ◌↔◌};
ghost use Rattle.opt_model.specs.Plans.{plan_of};
ghost use Rattle.opt_model.specs.Quantities.{quantities};
ghost use Rattle.opt_model.specs.Rows.{rows};
ghost use Rattle.opt_model.specs.Tables.{Tables};
ghost use Rattle.opt_model.specs.declared.records.Goal.{Goal};
ghost use Rattle.opt_rows.specs.Systems.{system_of};
ghost use Rattle.opt_sums.specs.Entries.{dot};
ghost use Rattle.opt_system.specs.Ranges.{IsWithin};
ghost use Rattle.opt_system.specs.Systems.{row_at};
ghost use Rattle.opt_report.specs.Broken.{distance, breach_at, broken_by, breaches_of};

use opt_base::{OutOfMemory, Point};
use opt_system::System;
use std::alloc::Global;
use std::marker::Model;

/// Rows that a point breaks: their numbers, rising, each with the distance of the row's sum from its right-hand side.
#[derive(Debug, Drop)]
pub struct Broken {
    rows: Vec<(u32, i128)>,
}

impl Model for Broken {
    ghost use Rattle.std.specs.Prelude.{List, ℕ, ℤ};

    ghost Value = { List (ℕ × ℤ) };

    ghost view = { λ broken. broken.rows.items };
}

impl Broken {
    /// The numbers of the rows, rising, each with the distance of its sum from its right-hand side.
    pub fn as_slice(&self) -> &[(u32, i128)]
        ensures { result.now ≡ self.now }
    {
        self.rows.as_slice()
    }

    /// Whether no row is broken.
    pub fn is_empty(&self) -> bool
        ensures { IsTrue result ↔ (self.now ≡ []) }
    {
        self.rows.is_empty()
    }
}

/// How far the sum of row `i` at the point lies from its right-hand side.
fn distance(system: &System, i: u32, x: &[i64]) -> i128
    requires row { i < length system.now.rows }
    requires within { IsWithin system.now.root x.now }
    ensures { result ≡ distance (dot (row_at system.now.rows i).terms x.now)
        (row_at system.now.rows i).right_hand_side }
{
    let _rows = system.rows();
    (system.row_sum(i, x) - i128::from(system.right_hand_side(i))).abs()
}

/// Adds row `i`, if the point breaks it.
fn add_row(
    rows: &mut Vec<(u32, i128)>,
    system: &System,
    i: u32,
    x: &[i64],
) -> Result<(), OutOfMemory>
    requires row { i < length system.now.rows }
    requires within { IsWithin system.now.root x.now }
    ensures { OnOk result (rows.new.items
        ≡ rows.old.items ++ breach_at x.now i (row_at system.now.rows i)) }
{
    if !system.holds(i, x) {
        rows.push((i, distance(system, i, x)))?;
    }
    Ok(())
}

/// All rows that a point within the system's root breaks.
///
/// Where the system is that of a model, these are the rows of the model that the point's plan breaks, and their numbers are
/// those of rows.
pub fn broken_rows(alloc: Global, system: &System, point: &Point) -> Result<Broken, OutOfMemory>
    requires { IsWithin system.now.root point.now }
    ensures value { IfOk result (λ broken. broken ≡ broken_by system.now point.now) }
    ensures of_model { IfOk result (λ broken. (t : Tables) (goal : Goal)
        → system.now ≡ system_of t goal None
        → broken ≡ breaches_of t (plan_of (quantities t) point.now)) }
    ensures numbers { IfOk result (λ broken. (t : Tables) (goal : Goal)
        → system.now ≡ system_of t goal None
        → All (λ row. row.0 < length (rows t)) broken) }
{
    let mut rows = Vec::new(alloc);
    for i in 0..system.rows() {
        add_row(&mut rows, system, i, point.as_slice())?;
    }
    Ok(Broken { rows })
}
