ghost use Rattle.std.specs.Prelude.{◌≡◌, ◌↔◌, ◌<◌, ◌≤◌, IfOk, IfSome, length, IsTrue, MatchOption, pos, ◌≤ℤ◌};
ghost use Rattle.opt_sums.specs.Entries.{IsRising};
ghost use Rattle.opt_system.specs.Ranges.{IsOrdered, IsWithin};
ghost use Rattle.opt_tree.specs.Certificates.{point_of, named_value};
ghost use Rattle.opt_tree.specs.Shown.{first_outside, first_unknown, look_range, look_objective, look_entries, look_point};
ghost use Rattle.opt_check.specs.Answers.{Shows};
ghost use Rattle.opt_check.specs.Points.{IsInside};

use opt_base::OutOfMemory;
use opt_cert::PointEntries;
use opt_system::{Range, System};
use opt_tree::{CheckFault, Verdict};
use std::alloc::Global;

/// The point of these entries over this many quantities: what they do not list is 0.
fn point_of(alloc: Global, quantities: u32, entries: &[(u32, i64)]) -> Result<Vec<i64>, OutOfMemory>
    requires { IsRising entries.now }
    ensures { IfOk result (λ x. x.items ≡ point_of quantities entries.now) }
{
    let mut x = vec![in alloc; 0i64; quantities as usize]?;
    for entry in entries {
        if entry.0 < quantities {
            x[entry.0 as usize] = entry.1;
        }
    }
    Ok(x)
}

/// The first quantity whose value leaves its range.
fn first_outside(range: &Range, x: &[i64]) -> Option<u32>
    requires each { length x.now ≡ length range.now.low }
    requires few { length x.now ≤ u32.MAX }
    ensures first { result ≡ first_outside range.now x.now }
    ensures within { MatchOption result (IsWithin range.now x.now) (λ _. Unit {0}) }
{
    for j in 0..x.len() {
        if !is_inside(range, x, j) {
            return Some(j as u32);
        }
    }
    None
}

/// Whether the value of quantity `j` lies in its range.
fn is_inside(range: &Range, x: &[i64], j: usize) -> bool
    requires quantity { j < length x.now }
    requires each { length x.now ≡ length range.now.low }
    ensures inside { IsTrue result ↔ IsInside range.now x.now j }
    ensures ordered { IsOrdered range.now }
{
    range.low()[j] <= x[j] && x[j] <= range.high()[j]
}

/// The first listed quantity that does not exist.
fn first_unknown(quantities: u32, entries: &[(u32, i64)]) -> Option<u32>
    ensures { result ≡ first_unknown quantities entries.now }
{
    for entry in entries {
        if entry.0 >= quantities {
            return Some(entry.0);
        }
    }
    None
}

/// The point that these entries list, where each quantity is in its range and each listed one exists.
fn look_range(
    alloc: Global,
    system: &System,
    entries: &[(u32, i64)],
) -> Result<Vec<i64>, CheckFault>
    requires { IsRising entries.now }
    ensures looked { Shows (λ x. x.items) result (look_range system.now entries.now) }
    ensures within { IfOk result (λ x. IsWithin system.now.root x.items) }
{
    let quantities = system.quantities();
    let x = point_of(alloc, quantities, entries)?;
    if let Some(quantity) = first_outside(system.root(), &x) {
        return Err(CheckFault::PlanRange { quantity });
    }
    if let Some(quantity) = first_unknown(quantities, entries) {
        return Err(CheckFault::PlanRange { quantity });
    }
    Ok(x)
}

/// The objective or the best that a verdict names.
fn named_value(verdict: Verdict) -> Option<i128>
    ensures { result ≡ named_value verdict }
{
    match verdict {
        Verdict::Plan { objective, .. } => Some(objective),
        Verdict::NoPlan => None,
        Verdict::Unfinished { best, .. } => best,
    }
}

/// The value of the point, where the verdict names just this value.
fn look_objective(verdict: Verdict, value: i128) -> Result<i128, CheckFault>
    ensures { result ≡ look_objective verdict value }
{
    if named_value(verdict) == Some(value) {
        Ok(value)
    } else {
        Err(CheckFault::WrongObjective { value })
    }
}

/// The value of the point that these entries list: its ranges are judged first, then its rows, then what the verdict names.
fn look_entries(
    alloc: Global,
    system: &System,
    verdict: Verdict,
    entries: &[(u32, i64)],
) -> Result<i128, CheckFault>
    requires { IsRising entries.now }
    ensures looked { Shows (λ value. value) result (look_entries system.now verdict entries.now) }
    ensures from_zero { IfOk result (λ value. pos 0 ≤ℤ value) }
{
    let x = look_range(alloc, system, entries)?;
    if let Some(row) = system.first_broken(&x) {
        return Err(CheckFault::PlanBroken { row });
    }
    look_objective(verdict, system.objective(&x))
}

/// The value of the listed point, where one is listed.
pub fn look_point(
    alloc: Global,
    system: &System,
    verdict: Verdict,
    point: &Option<PointEntries>,
) -> Result<Option<i128>, CheckFault>
    ensures looked { Shows (λ best. best) result (look_point system.now verdict point.now) }
    ensures from_zero { IfOk result (λ best. IfSome best (λ value. pos 0 ≤ℤ value)) }
{
    match point {
        Some(entries) => {
            let value = look_entries(alloc, system, verdict, entries.as_slice())?;
            Ok(Some(value))
        }
        None => Ok(None),
    }
}
