ghost use Rattle.std.specs.Prelude.{◌≡◌, ◌≤◌, [], ◌∷◌, ◌++◌, None, pos, IfOk, OnOk, OnErr};
ghost use Rattle.opt_system.specs.Ranges.{LiesIn};
ghost use Rattle.opt_guide.specs.Relations.{any_multipliers, any_candidate, any_cut, AllowsSame};
ghost use Rattle.opt_guide.specs.Script.{trivial, next_or, rest_of};

use crate::guide::Guide;
use opt_base::{OutOfMemory, Point};
use opt_bound::Mult;
use opt_system::{Range, System};
use std::alloc::Global;
use std::collections::VecDeque;
use std::marker::Model;

/// Says what it was told to say, call by call, and what `ZeroGuide` says once a list has ended.
#[derive(Debug, Drop)]
pub struct ScriptGuide {
    alloc: Global,
    multipliers: VecDeque<Mult>,
    candidates: VecDeque<Option<Point>>,
    cuts: VecDeque<(u32, i64)>,
    picks: VecDeque<u32>,
}

impl Model for ScriptGuide {
    ghost use Rattle.opt_guide.specs.Script.{Script};

    ghost Value = { Script };

    ghost view = { λ g. record { multipliers = g.multipliers.items; candidates = g.candidates.items; cuts = g.cuts.items; picks = g.picks.items } };
}

impl ScriptGuide {
    /// Nothing to say yet.
    pub fn new(alloc: Global) -> ScriptGuide
        ensures { result ≡ record { multipliers = []; candidates = []; cuts = []; picks = [] } }
    {
        ScriptGuide {
            alloc,
            multipliers: VecDeque::new(alloc),
            candidates: VecDeque::new(alloc),
            cuts: VecDeque::new(alloc),
            picks: VecDeque::new(alloc),
        }
    }

    /// Adds multipliers at the end of their list.
    pub fn add_mult(&mut self, m: Mult) -> Result<(), OutOfMemory>
        ensures ok { OnOk result (self.new ≡ record self.old { multipliers = self.old.multipliers ++ m ∷ [] }) }
        ensures err { OnErr result (self.new ≡ self.old) }
    {
        self.multipliers.push_back(m)?;
        Ok(())
    }

    /// Adds a candidate, or none, at the end of their list.
    pub fn add_point(&mut self, p: Option<Point>) -> Result<(), OutOfMemory>
        ensures ok { OnOk result (self.new ≡ record self.old { candidates = self.old.candidates ++ p ∷ [] }) }
        ensures err { OnErr result (self.new ≡ self.old) }
    {
        self.candidates.push_back(p)?;
        Ok(())
    }

    /// Adds a cut at the end of their list.
    pub fn add_cut(&mut self, quantity: u32, at: i64) -> Result<(), OutOfMemory>
        ensures ok { OnOk result (self.new ≡ record self.old { cuts = self.old.cuts ++ (quantity, at) ∷ [] }) }
        ensures err { OnErr result (self.new ≡ self.old) }
    {
        self.cuts.push_back((quantity, at))?;
        Ok(())
    }

    /// Adds a pick at the end of their list.
    pub fn add_pick(&mut self, k: u32) -> Result<(), OutOfMemory>
        ensures ok { OnOk result (self.new ≡ record self.old { picks = self.old.picks ++ k ∷ [] }) }
        ensures err { OnErr result (self.new ≡ self.old) }
    {
        self.picks.push_back(k)?;
        Ok(())
    }
}

impl Guide for ScriptGuide {
    ghost may_weigh = { λ _. any_multipliers };

    ghost may_try = { λ _. any_candidate };

    ghost may_cut = { λ _. any_cut };

    fn multipliers(
        &mut self,
        alloc: Global,
        _system: &System,
        _range: &Range,
    ) -> Result<Mult, OutOfMemory>
        ensures next { IfOk result (λ m. m ≡ next_or trivial self.old.multipliers) }
        ensures rest { self.new ≡ record self.old { multipliers = rest_of self.old.multipliers } }
        ensures allowed { IfOk result (λ m. Unit {0}) }
        ensures same { AllowsSame any_multipliers any_multipliers any_candidate any_candidate any_cut any_cut }
    {
        match self.multipliers.pop_front() {
            Some(mult) => Ok(mult),
            None => Ok(Mult::trivial(alloc)),
        }
    }

    fn candidate(
        &mut self,
        _alloc: Global,
        _system: &System,
        _range: &Range,
    ) -> Result<Option<Point>, OutOfMemory>
        ensures next { IfOk result (λ x. x ≡ next_or None self.old.candidates) }
        ensures rest { self.new ≡ record self.old { candidates = rest_of self.old.candidates } }
        ensures allowed { IfOk result (λ x. Unit {0}) }
        ensures same { AllowsSame any_multipliers any_multipliers any_candidate any_candidate any_cut any_cut }
    {
        match self.candidates.pop_front() {
            Some(candidate) => Ok(candidate),
            None => Ok(None),
        }
    }

    fn cut(
        &mut self,
        _alloc: Global,
        _system: &System,
        _range: &Range,
    ) -> Result<(u32, i64), OutOfMemory>
        ensures next { IfOk result (λ cut. cut ≡ next_or (0, pos 0) self.old.cuts) }
        ensures rest { self.new ≡ record self.old { cuts = rest_of self.old.cuts } }
        ensures allowed { IfOk result (λ cut. Unit {0}) }
        ensures same { AllowsSame any_multipliers any_multipliers any_candidate any_candidate any_cut any_cut }
    {
        match self.cuts.pop_front() {
            Some(cut) => Ok(cut),
            None => Ok((0, 0)),
        }
    }

    fn pick(&mut self, _count: u32) -> u32
        ensures next { result ≡ next_or 0 self.old.picks }
        ensures rest { self.new ≡ record self.old { picks = rest_of self.old.picks } }
        ensures same { AllowsSame any_multipliers any_multipliers any_candidate any_candidate any_cut any_cut }
    {
        self.picks.pop_front().unwrap_or(0)
    }
}
