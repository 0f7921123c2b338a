ghost use Rattle.std.specs.Prelude.{◌≡◌, ◌≤◌, None, pos, []};
ghost use Rattle.opt_guide.specs.Relations.{AllowsSame};

use crate::guide::Guide;
use opt_base::{OutOfMemory, Point};
use opt_bound::Mult;
use opt_system::{Range, System};
use std::alloc::Global;

/// Knows nothing: the objective alone as multipliers, no candidate, the cut (0, 0), the pick 0.
#[derive(Clone, Copy, Debug, PartialEq, Eq)]
pub struct ZeroGuide;

impl Guide for ZeroGuide {
    ghost may_weigh = { λ _. λ s box m. m ≡ record { q = pos 1; entries = [] } };

    ghost may_try = { λ _. λ s box x. x ≡ None };

    ghost may_cut = { λ _. λ s box j t. (j ≡ 0) × (t ≡ pos 0) };

    fn multipliers(
        &mut self,
        alloc: Global,
        _system: &System,
        _range: &Range,
    ) -> Result<Mult, OutOfMemory> {
        Ok(Mult::trivial(alloc))
    }

    fn candidate(
        &mut self,
        _alloc: Global,
        _system: &System,
        _range: &Range,
    ) -> Result<Option<Point>, OutOfMemory> {
        Ok(None)
    }

    fn cut(
        &mut self,
        _alloc: Global,
        _system: &System,
        _range: &Range,
    ) -> Result<(u32, i64), OutOfMemory> {
        Ok((0, 0))
    }

    fn pick(&mut self, _count: u32) -> u32
        ensures first { result ≡ 0 }
        ensures same { AllowsSame (⟦<ZeroGuide as Guide>⟧.may_weigh self.old) (⟦<ZeroGuide as Guide>⟧.may_weigh self.new)
            (⟦<ZeroGuide as Guide>⟧.may_try self.old) (⟦<ZeroGuide as Guide>⟧.may_try self.new)
            (⟦<ZeroGuide as Guide>⟧.may_cut self.old) (⟦<ZeroGuide as Guide>⟧.may_cut self.new) }
    {
        0
    }
}
