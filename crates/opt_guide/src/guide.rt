ghost use Rattle.std.specs.Prelude.{◌≤◌, option_map, IfOk};
ghost use Rattle.opt_system.specs.Ranges.{LiesIn};
ghost use Rattle.opt_guide.specs.Relations.{OfMultipliers, OfCandidates, OfCuts, AllowsSame};

use opt_base::{OutOfMemory, Point};
use opt_bound::Mult;
use opt_system::{Range, System};
use std::alloc::Global;

/// Proposes to a search what to do on a box of a system.
///
/// It promises nothing about what it proposes but that each call returns: whoever calls it replaces what is wrong. It
/// names what it may answer, so that the caller can say what it used; no call changes that.
pub trait Guide {
    /// Which multipliers it may answer on a box.
    ghost may_weigh: { Self → OfMultipliers };

    /// Which candidate, or none, it may answer on a box.
    ghost may_try: { Self → OfCandidates };

    /// Which cut it may answer on a box.
    ghost may_cut: { Self → OfCuts };

    /// Multipliers of the system's rows for a bound on the box.
    fn multipliers(
        &mut self,
        alloc: Global,
        system: &System,
        range: &Range,
    ) -> Result<Mult, OutOfMemory>
        requires { LiesIn system.now.root range.now }
        ensures allowed { IfOk result (may_weigh self.old system.now range.now) }
        ensures same { AllowsSame (may_weigh self.old) (may_weigh self.new) (may_try self.old)
            (may_try self.new) (may_cut self.old) (may_cut self.new) };

    /// A point of the system that may be worth a try, one number for each quantity; or none.
    fn candidate(
        &mut self,
        alloc: Global,
        system: &System,
        range: &Range,
    ) -> Result<Option<Point>, OutOfMemory>
        requires { LiesIn system.now.root range.now }
        ensures allowed { IfOk result (may_try self.old system.now range.now) }
        ensures same { AllowsSame (may_weigh self.old) (may_weigh self.new) (may_try self.old)
            (may_try self.new) (may_cut self.old) (may_cut self.new) };

    /// Where to cut the box: a quantity, and the greatest value that it has in the left part.
    fn cut(
        &mut self,
        alloc: Global,
        system: &System,
        range: &Range,
    ) -> Result<(u32, i64), OutOfMemory>
        requires { LiesIn system.now.root range.now }
        ensures allowed { IfOk result (λ cut. may_cut self.old system.now range.now cut.0 cut.1) }
        ensures same { AllowsSame (may_weigh self.old) (may_weigh self.new) (may_try self.old)
            (may_try self.new) (may_cut self.old) (may_cut self.new) };

    /// Which of `count` open leaves to split next, by its rank from 0.
    fn pick(&mut self, count: u32) -> u32
        requires { 1 ≤ count }
        ensures same { AllowsSame (may_weigh self.old) (may_weigh self.new) (may_try self.old)
            (may_try self.new) (may_cut self.old) (may_cut self.new) };
}
