ghost use Rattle.std.specs.Prelude.{◌≡◌, ◌≤◌, None, Some, IfOk, IfSome, OnOk, option_map};
ghost use Rattle.opt_system.specs.Ranges.{LiesIn};
ghost use Rattle.opt_system.specs.Cuts.{IsCut};
ghost use Rattle.opt_bound.specs.Multipliers.{IsAdmissible};
ghost use Rattle.opt_guide.specs.Relations.{AllowsSame};
ghost use Rattle.opt_simplex.specs.Soundness.{IsSound};
ghost use Rattle.opt_simplex.specs.Guide.{IsClippedEnd, IsNoCandidate, IsFirstCut, fractions_of, end_on, first_fractional, guide_end};

use crate::box_end::BoxEnd;
use crate::end::LpEnd;
use opt_base::{OutOfMemory, Point};
use opt_bound::Mult;
use opt_guide::Guide;
use opt_system::{Range, System};
use std::alloc::Global;
use std::marker::Model;

/// Asks the simplex on each box: the clipped multipliers of its end, no candidate, the first quantity whose value at
/// the end is not whole cut at its floor, the pick 0.
///
/// It keeps its last solve, so multipliers and cut of one box cost one.
#[derive(Debug, Drop)]
pub struct SimplexGuide {
    alloc: Global,
    last: Option<BoxEnd>,
}

impl Model for SimplexGuide {
    ghost use Rattle.std.specs.Prelude.{Option};
    ghost use Rattle.opt_simplex.specs.Guide.{Subject};

    ghost Value = { Option Subject };

    ghost view = { λ g. g.last };
}

impl SimplexGuide {
    ghost use Rattle.opt_simplex.specs.Guide.{Subject};

    /// A guide that has not solved yet.
    pub fn new(alloc: Global) -> SimplexGuide
        ensures { result ≡ None }
    {
        SimplexGuide { alloc, last: None }
    }

    /// Takes out the end of the system on the box: the last one, or a new one where that was of another system or
    /// another box.
    fn take(&mut self, system: &System, range: &Range) -> Result<BoxEnd, OutOfMemory>
        requires { LiesIn system.now.root range.now }
        ensures { IfOk result (λ end. end ≡ record { system = system.now; range = range.now }) }
    {
        if let Some(end) = self.last.take() {
            if end.is_of(system, range) {
                return Ok(end);
            }
        }
        BoxEnd::new(self.alloc, system, range)
    }

    /// Solves the system on the box, which lies within its root, unless that was the last solve.
    pub fn solve(&mut self, system: &System, range: &Range) -> Result<(), OutOfMemory>
        requires { LiesIn system.now.root range.now }
        ensures { OnOk result (self.new ≡ Some (record { system = system.now; range = range.now })) }
    {
        let end = self.take(system, range)?;
        self.last = Some(end);
        Ok(())
    }

    /// The end of the last solve, with at most 20,000 pivots, where there was one.
    pub fn last_end(&self) -> Option<&LpEnd>
        ensures value { option_map (λ end. end.now) result ≡ option_map end_on self.now }
        ensures sound { IfSome self.now (λ s. IsSound s.system s.range (end_on s)) }
    {
        match &self.last {
            Some(last) => Some(last.end()),
            None => None,
        }
    }
}

impl Guide for SimplexGuide {
    ghost may_weigh = { λ _. IsClippedEnd };

    ghost may_try = { λ _. IsNoCandidate };

    ghost may_cut = { λ _. IsFirstCut };

    fn multipliers(
        &mut self,
        alloc: Global,
        system: &System,
        range: &Range,
    ) -> Result<Mult, OutOfMemory>
        requires { LiesIn system.now.root range.now }
        ensures last { OnOk result (self.new ≡ Some (record { system = system.now; range = range.now })) }
        ensures admissible { IfOk result (IsAdmissible system.now) }
        ensures allowed { IfOk result (IsClippedEnd system.now range.now) }
        ensures same { AllowsSame IsClippedEnd IsClippedEnd IsNoCandidate IsNoCandidate IsFirstCut IsFirstCut }
    {
        let end = self.take(system, range)?;
        let mult = end.multipliers(alloc);
        self.last = Some(end);
        mult
    }

    fn candidate(
        &mut self,
        _alloc: Global,
        _system: &System,
        _range: &Range,
    ) -> Result<Option<Point>, OutOfMemory> {
        Ok(None)
    }

    fn cut(
        &mut self,
        _alloc: Global,
        system: &System,
        range: &Range,
    ) -> Result<(u32, i64), OutOfMemory>
        requires { LiesIn system.now.root range.now }
        ensures last { OnOk result (self.new ≡ Some (record { system = system.now; range = range.now })) }
        ensures proper { IfOk result (λ cut. IfSome (first_fractional (fractions_of (guide_end system.now range.now)))
            (λ j. IsCut range.now cut.0 cut.1)) }
        ensures allowed { IfOk result (λ cut. IsFirstCut system.now range.now cut.0 cut.1) }
        ensures same { AllowsSame IsClippedEnd IsClippedEnd IsNoCandidate IsNoCandidate IsFirstCut IsFirstCut }
    {
        let end = self.take(system, range)?;
        let cut = end.cut();
        self.last = Some(end);
        Ok(cut)
    }

    fn pick(&mut self, _count: u32) -> u32
        ensures first { result ≡ 0 }
        ensures same { AllowsSame IsClippedEnd IsClippedEnd IsNoCandidate IsNoCandidate IsFirstCut IsFirstCut }
    {
        0
    }
}
