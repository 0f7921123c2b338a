ghost use Rattle.std.specs.Prelude.{◌≡◌, ◌+◌, ◌-◌, ◌^◌, ◌↔◌, ◌≤◌, [], min, IfOk, IsTrue, Contains};
ghost use Rattle.std.specs.Bool.{OnTrue, OnFalse};
ghost use Rattle.opt_base.specs.Outside.{Rose};

use crate::out_of_memory::OutOfMemory;
use std::alloc::Global;

/// Which calls of a fake fail, by their numbers from 1, how many were made and how many failed.
#[derive(Debug, Drop)]
pub struct Calls {
    fails: Vec<u64>,
    made: u64,
    failed: u64,
}

impl Calls {
    /// No call was made yet, and those with these numbers will fail.
    pub fn new(alloc: Global, fails: &[u64]) -> Result<Calls, OutOfMemory>
        ensures fails { IfOk result (λ calls. calls.fails.items ≡ fails.now) }
        ensures none { IfOk result (λ calls. (calls.made ≡ 0) × (calls.failed ≡ 0)) }
    {
        let fails = Vec::from_slice(alloc, fails)?;
        Ok(Calls {
            fails,
            made: 0,
            failed: 0,
        })
    }

    /// How many calls failed.
    pub fn failed(&self) -> u64
        ensures { result ≡ self.now.failed }
    {
        self.failed
    }

    /// How many calls were made.
    pub fn made(&self) -> u64
        ensures { result ≡ self.now.made }
    {
        self.made
    }

    /// Counts one more call, and whether it fails.
    pub fn next_fails(&mut self) -> bool
        ensures counted { self.new.made ≡ min (self.old.made + 1) (2 ^ 64 - 1) }
        ensures fails { IsTrue result ↔ Contains self.old.fails.items self.new.made }
        ensures same { self.new.fails ≡ self.old.fails }
        ensures rose { OnTrue result (Rose self.old.failed self.new.failed) }
        ensures still { OnFalse result (self.new.failed ≡ self.old.failed) }
        ensures later { self.old.failed ≤ self.new.failed }
    {
        self.made = self.made.saturating_add(1);
        let fails = self.fails.contains(&self.made);
        if fails {
            self.failed = self.failed.saturating_add(1);
        }
        fails
    }
}
