ghost use Rattle.std.specs.Prelude.{◌≡◌, ◌↔◌, ◌<◌, ◌^◌, All, IfOk, IfSome, IsTrue, unsigned_abs};
ghost use Rattle.opt_system.specs.Ranges.{LiesIn};
ghost use Rattle.opt_system.specs.Cuts.{IsCut};
ghost use Rattle.opt_bound.specs.Multipliers.{IsAdmissible};
ghost use Rattle.opt_simplex.specs.Kept.{IsFraction};
ghost use Rattle.opt_simplex.specs.Soundness.{IsSound};
ghost use Rattle.opt_simplex.specs.Guide.{IsClippedEnd, IsFirstCut, multipliers_of, fractions_of, first_fractional, guide_end};

use crate::end::LpEnd;
use crate::fractional::first_cut;
use crate::limits::PIVOT_LIMIT;
use crate::raw::Raw;
use crate::simplex::solve;
use opt_base::OutOfMemory;
use opt_bound::{Mult, clip};
use opt_system::{Range, System};
use std::alloc::Global;
use std::marker::Model;

/// The end of the simplex on a box, with the system and the box.
#[derive(Debug, Drop)]
pub(crate) struct BoxEnd {
    system: System,
    range: Range,
    end: LpEnd,
}

impl Model for BoxEnd {
    ghost use Rattle.opt_simplex.specs.Guide.{Subject, IsEndOn};

    ghost Value = { Subject };

    ghost view = { λ s. record { system = s.system; range = s.range } };

    ghost invariant = { λ s. IsEndOn s.system s.range s.end };
}

impl BoxEnd {
    ghost use Rattle.opt_simplex.specs.Guide.{Subject};

    /// Solves the system on the box, which lies within its root.
    pub(crate) fn new(alloc: Global, system: &System, range: &Range) -> Result<BoxEnd, OutOfMemory>
        requires { LiesIn system.now.root range.now }
        ensures { IfOk result (λ end. end ≡ record { system = system.now; range = range.now }) }
    {
        let _quantities = system.quantities();
        let end = solve(alloc, system, range, PIVOT_LIMIT)?;
        let range = range.copy(alloc)?;
        let system = system.copy(alloc)?;
        Ok(BoxEnd { system, range, end })
    }

    /// Whether it is the end of this system on this box.
    pub(crate) fn is_of(&self, system: &System, range: &Range) -> bool
        ensures { IsTrue result ↔ (self.now ≡ record { system = system.now; range = range.now }) }
    {
        self.range == *range && self.system == *system
    }

    /// The end.
    pub(crate) fn end(&self) -> &LpEnd
        ensures value { result.now ≡ guide_end self.now.system self.now.range }
        ensures sound { IsSound self.now.system self.now.range result.now }
    {
        &self.end
    }

    /// The clip of the end's multipliers.
    pub(crate) fn multipliers(&self, alloc: Global) -> Result<Mult, OutOfMemory>
        ensures clip { IfOk result (IsClippedEnd self.now.system self.now.range) }
        ensures admissible { IfOk result (IsAdmissible self.now.system) }
    {
        let raw = multipliers(&self.end);
        clip(alloc, raw.q(), raw.entries())
    }

    /// The first quantity whose value at the end is not whole, with its floor; where there is none, (0, 0).
    pub(crate) fn cut(&self) -> (u32, i64)
        ensures first { IsFirstCut self.now.system self.now.range result.0 result.1 }
        ensures proper { IfSome (first_fractional (fractions_of (guide_end self.now.system self.now.range)))
            (λ j. IsCut self.now.range result.0 result.1) }
    {
        first_cut(fractions(&self.end))
    }
}

/// The multipliers of the end.
fn multipliers(end: &LpEnd) -> &Raw
    ensures { result.now ≡ multipliers_of end.now }
{
    match end {
        LpEnd::Optimal { raw, .. } => raw,
        LpEnd::Empty { raw, .. } => raw,
        LpEnd::Stopped { raw, .. } => raw,
    }
}

/// The values of the quantities at the end; only an optimal one has them.
fn fractions(end: &LpEnd) -> &[(i128, i128)]
    ensures value { result.now ≡ fractions_of end.now }
    ensures proper { All IsFraction result.now }
{
    match end {
        LpEnd::Optimal { point, .. } => point.as_slice(),
        _ => &[],
    }
}
