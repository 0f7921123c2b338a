ghost use Rattle.std.specs.Prelude.{◌≡◌, ◌≤◌};
ghost use Rattle.opt_model.specs.Settings.{days_of};

use opt_model::Goal;
use std::marker::Model;

/// What a folder's settings say. Contracts see a record of them.
#[derive(Debug, Drop)]
pub struct Setup {
    pub(crate) format: u32,
    pub(crate) months: u32,
    pub(crate) days: Vec<u32>,
    pub(crate) goal: Goal,
    pub(crate) gap: i64,
    pub(crate) nodes: u32,
    pub(crate) budget: Option<i64>,
}

impl Model for Setup {
    ghost use Rattle.opt_model.specs.Settings.{Settings};
    ghost use Rattle.opt_read.specs.Setup.{IsSetup};

    ghost Value = { Settings };

    ghost view = { λ setup. record { format = setup.format; months = setup.months; days = setup.days.items; goal = setup.goal; gap = setup.gap; nodes = setup.nodes; budget = setup.budget } };

    ghost invariant = { λ setup. IsSetup (record { format = setup.format; months = setup.months; days = setup.days.items; goal = setup.goal; gap = setup.gap; nodes = setup.nodes; budget = setup.budget }) };
}

impl Setup {
    /// The format of the folder.
    pub fn format(&self) -> u32
        ensures { result ≡ self.now.format }
    {
        self.format
    }

    /// The number of months, which are numbered from 1.
    pub fn months(&self) -> u32
        ensures { result ≡ self.now.months }
    {
        self.months
    }

    /// The days of a month, 0 to 31.
    pub fn days(&self, month: u32) -> u32
        requires first { 1 ≤ month }
        requires last { month ≤ self.now.months }
        ensures { result ≡ days_of self.now month }
    {
        match self.days.get(month as usize - 1) {
            Some(days) => *days,
            None => 0,
        }
    }

    /// What the objective is.
    pub fn goal(&self) -> Goal
        ensures { result ≡ self.now.goal }
    {
        self.goal
    }

    /// How far a plan's objective may lie above the best, in mills or in units of weighted shortfall.
    pub fn gap(&self) -> i64
        ensures { result ≡ self.now.gap }
    {
        self.gap
    }

    /// The greatest number of nodes of the search.
    pub fn nodes(&self) -> u32
        ensures { result ≡ self.now.nodes }
    {
        self.nodes
    }

    /// The greatest cost of a plan, in mills, where there is one.
    pub fn budget(&self) -> Option<i64>
        ensures { result ≡ self.now.budget }
    {
        self.budget
    }
}
