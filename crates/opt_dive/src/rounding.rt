ghost use Rattle.std.specs.Prelude.{◌≡◌, ◌<◌, ◌≤◌, ◌^◌, All, IfOk, IfSome, map, length, unsigned_abs};
ghost use Rattle.opt_base.specs.declared.limits.TheConstants.{QUANTITY_LIMIT};
ghost use Rattle.opt_system.specs.Ranges.{IsOrdered, LiesIn};
ghost use Rattle.opt_system.specs.Systems.{IsLimited, Meets};
ghost use Rattle.opt_simplex.specs.Guide.{floor_of, guide_end};
ghost use Rattle.opt_simplex.specs.Soundness.{IsSound};
ghost use Rattle.opt_dive.specs.Rounding.{IsDiveFrom, IsRoundingOf, optimum_of};

use crate::fixing::{fix_first, fix_up};
use opt_base::{OutOfMemory, Point};
use opt_simplex::{Fracs, LpEnd, PIVOT_LIMIT, solve};
use opt_system::{Range, System};
use std::alloc::Global;

/// The values of the quantities at the optimum of the box, where the simplex ends at one.
fn optimum(alloc: Global, system: &System, range: &Range) -> Result<Option<Fracs>, OutOfMemory>
    requires limited { IsLimited system.now }
    requires within { LiesIn system.now.root range.now }
    ensures value { IfOk result (λ point. point ≡ optimum_of (guide_end system.now range.now)) }
    ensures sound { IfOk result (λ point. IsSound system.now range.now (guide_end system.now range.now)) }
    ensures few { IfOk result (λ point. IfSome point (λ p. length p ≤ QUANTITY_LIMIT)) }
{
    match solve(alloc, system, range, PIVOT_LIMIT)? {
        LpEnd::Optimal { point, .. } => Ok(Some(point)),
        _ => Ok(None),
    }
}

/// The floor of each fraction.
fn floors(alloc: Global, point: &Fracs) -> Result<Point, OutOfMemory>
    requires { All (λ f. unsigned_abs (floor_of f) < 2 ^ 51) point.now }
    ensures { IfOk result (λ floors. floors ≡ map floor_of point.now) }
{
    let count = point.as_slice().len();
    let mut values = Vec::with_capacity(alloc, count)?;
    for j in 0..count {
        values.push(point.floor(j) as i64)?;
    }
    Point::from_slice(alloc, &values)
}

/// Fixes the first quantity whose value at the optimum is not whole at that value rounded up, until there is none: the
/// values are the point then. There is no point where an optimum is missing on the way.
fn round(alloc: Global, system: &System, mut range: Range) -> Result<Option<Point>, OutOfMemory>
    requires limited { IsLimited system.now }
    requires ordered { IsOrdered range }
    requires within { LiesIn system.now.root range }
    ensures rounding { IfOk result (IsRoundingOf system.now range) }
    ensures meets { IfOk result (λ x. IfSome x (Meets system.now)) }
{
    while let Some(point) = optimum(alloc, system, &range)? {
        match point.first_fractional() {
            Some(j) => fix_up(&mut range, &point, j as u32),
            None => return Ok(Some(floors(alloc, &point)?)),
        }
    }
    Ok(None)
}

/// The rounding search on a box from the values of its quantities.
///
/// The box lies within the system's root, and there is one fraction for each quantity. The first `rations` quantities,
/// or all where there are fewer, are fixed at their fractions rounded up within their ranges. Then the simplex is asked
/// for the optimum, and the first quantity that is not whole there is fixed at its value rounded up, until each is
/// whole: these are the point. What was fixed stays fixed. There is no point just where one of these solves, of at most
/// 20,000 pivots, does not end at an optimum. A point lies in the root and meets each row.
pub fn dive(
    alloc: Global,
    system: &System,
    range: &Range,
    point: &Fracs,
    rations: u32,
) -> Result<Option<Point>, OutOfMemory>
    requires within { LiesIn system.now.root range.now }
    requires each { length point.now ≡ length range.now.low }
    ensures dive { IfOk result (IsDiveFrom system.now range.now point.now rations) }
    ensures meets { IfOk result (λ x. IfSome x (Meets system.now)) }
{
    let mut part = range.copy(alloc)?;
    let count = rations.min(system.quantities());
    fix_first(&mut part, point, count);
    round(alloc, system, part)
}
