ghost use Rattle.std.specs.Prelude.{◌≡◌, ◌≤◌, None, Some, IfOk, IfSome, OnOk};
ghost use Rattle.opt_system.specs.Ranges.{LiesIn};
ghost use Rattle.opt_system.specs.Cuts.{IsCut};
ghost use Rattle.opt_system.specs.Systems.{Meets};
ghost use Rattle.opt_bound.specs.Multipliers.{IsAdmissible};
ghost use Rattle.opt_simplex.specs.Guide.{IsClippedEnd, IsFirstCut, fractions_of, first_fractional, guide_end};
ghost use Rattle.opt_dive.specs.Guide.{IsDive, KeepsAnswers};

use crate::rounding::dive;
use opt_base::{OutOfMemory, Point};
use opt_bound::Mult;
use opt_guide::Guide;
use opt_simplex::{LpEnd, SimplexGuide};
use opt_system::{Range, System};
use std::alloc::Global;
use std::marker::Model;

/// Asks the simplex on each box, and dives from its optimum: the clipped multipliers of its end, the point of the
/// rounding search as candidate, the first quantity whose value at the end is not whole cut at its floor, the pick 0.
///
/// It keeps the last solve of a box, so multipliers, candidate and cut of one box share it.
#[derive(Debug, Drop)]
pub struct DiveGuide {
    simplex: SimplexGuide,
    rations: u32,
}

impl Model for DiveGuide {
    ghost use Rattle.opt_dive.specs.Guide.{Diver};

    ghost Value = { Diver };

    ghost view = { λ g. record { rations = g.rations; last = g.simplex } };
}

impl DiveGuide {
    ghost use Rattle.opt_dive.specs.Guide.{Diver};

    /// A guide that has not solved yet. A dive rounds the first `rations` quantities at once.
    pub fn new(alloc: Global, rations: u32) -> DiveGuide
        ensures { result ≡ record { rations = rations; last = None } }
    {
        DiveGuide {
            simplex: SimplexGuide::new(alloc),
            rations,
        }
    }
}

impl Guide for DiveGuide {
    ghost may_weigh = { λ _. IsClippedEnd };

    ghost may_try = { λ g. IsDive g.rations };

    ghost may_cut = { λ _. IsFirstCut };

    fn multipliers(
        &mut self,
        alloc: Global,
        system: &System,
        range: &Range,
    ) -> Result<Mult, OutOfMemory>
        requires { LiesIn system.now.root range.now }
        ensures rations { self.new.rations ≡ self.old.rations }
        ensures last { OnOk result (self.new.last ≡ Some (record { system = system.now; range = range.now })) }
        ensures admissible { IfOk result (IsAdmissible system.now) }
        ensures allowed { IfOk result (IsClippedEnd system.now range.now) }
        ensures same { KeepsAnswers self.old.rations self.new.rations }
    {
        self.simplex.multipliers(alloc, system, range)
    }

    fn candidate(
        &mut self,
        alloc: Global,
        system: &System,
        range: &Range,
    ) -> Result<Option<Point>, OutOfMemory>
        requires { LiesIn system.now.root range.now }
        ensures rations { self.new.rations ≡ self.old.rations }
        ensures last { OnOk result (self.new.last ≡ Some (record { system = system.now; range = range.now })) }
        ensures allowed { IfOk result (IsDive self.old.rations system.now range.now) }
        ensures meets { IfOk result (λ x. IfSome x (Meets system.now)) }
        ensures same { KeepsAnswers self.old.rations self.new.rations }
    {
        let _quantities = system.quantities();
        self.simplex.solve(system, range)?;
        match self.simplex.last_end() {
            Some(LpEnd::Optimal { point, .. }) => dive(alloc, system, range, point, self.rations),
            _ => Ok(None),
        }
    }

    fn cut(
        &mut self,
        alloc: Global,
        system: &System,
        range: &Range,
    ) -> Result<(u32, i64), OutOfMemory>
        requires { LiesIn system.now.root range.now }
        ensures rations { self.new.rations ≡ self.old.rations }
        ensures last { OnOk result (self.new.last ≡ Some (record { system = system.now; range = range.now })) }
        ensures proper { IfOk result (λ cut. IfSome (first_fractional (fractions_of (guide_end system.now range.now)))
            (λ j. IsCut range.now cut.0 cut.1)) }
        ensures allowed { IfOk result (λ cut. IsFirstCut system.now range.now cut.0 cut.1) }
        ensures same { KeepsAnswers self.old.rations self.new.rations }
    {
        self.simplex.cut(alloc, system, range)
    }

    fn pick(&mut self, _count: u32) -> u32
        ensures first { result ≡ 0 }
        ensures unchanged { self.new ≡ self.old }
        ensures same { KeepsAnswers self.old.rations self.new.rations }
    {
        0
    }
}
