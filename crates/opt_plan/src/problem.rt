ghost use Rattle.std.specs.Prelude.{◌≡◌, ◌≤◌, None, IfOk};
ghost use Rattle.opt_base.specs.Answers.{Gives};
ghost use Rattle.opt_guide.specs.Relations.{AllowsSame};
ghost use Rattle.opt_model.specs.Limits.{within_limits};
ghost use Rattle.opt_model.specs.Verdicts.{node_limit as limit_of};
ghost use Rattle.opt_network.specs.Numbering.{IsLayoutOf};
ghost use Rattle.opt_rows.specs.Laws.{SpeaksFor};
ghost use Rattle.opt_search.specs.Outcomes.{FollowsGuide};
ghost use Rattle.opt_tree.specs.declared.limits.TheConstants.{NODE_LIMIT};
ghost use Rattle.opt_plan.specs.Models.{model_of, own_system};
ghost use Rattle.opt_plan.specs.Problems.{IsOutcomeFor};

use crate::planning::plan_system;
use opt_base::{ModelFault, OutOfMemory};
use opt_guide::Guide;
use opt_network::Layout;
use opt_rows::{build, node_limit};
use opt_system::System;
use opt_tables::{Files, Tables, read_model};
use opt_tree::Outcome;
use std::alloc::Global;
use std::marker::Model;

/// A model within its limits, with the numbers of its quantities and its system of rows. Contracts see its tables.
#[derive(Debug, Drop)]
pub struct Problem {
    tables: Tables,
    layout: Layout,
    system: System,
}

impl Model for Problem {
    ghost use Rattle.opt_model.specs.Tables.{Tables as Contents};
    ghost use Rattle.opt_plan.specs.Problems.{IsProblemOf};

    ghost Value = { Contents };

    ghost view = { λ p. p.tables };

    ghost invariant = { λ p. IsProblemOf p.tables p.layout p.system };
}

impl Problem {
    /// The model that the files stand for.
    ///
    /// Refused is first what `read_model` refuses, then TooMany with the exact count: of the quantities past
    /// `QUANTITY_LIMIT`, of the rows past `ROW_LIMIT`, of the rows' terms past `TERM_LIMIT`.
    pub fn read(alloc: Global, files: &Files) -> Result<Problem, ModelFault>
        ensures { Gives (λ problem. problem) result (model_of files.now) }
    {
        let tables = read_model(alloc, files)?;
        Problem::new(alloc, tables)
    }

    /// The model of these tables, or the first count that is past its limit: of quantities, of rows, of their terms.
    pub fn new(alloc: Global, tables: Tables) -> Result<Problem, ModelFault>
        ensures { Gives (λ problem. problem) result (within_limits tables) }
    {
        let layout = Layout::new(alloc, &tables)?;
        let system = build(alloc, &tables, &layout)?;
        Ok(Problem {
            tables,
            layout,
            system,
        })
    }

    /// What the files say.
    pub fn tables(&self) -> &Tables
        ensures { result.now ≡ self.now }
    {
        &self.tables
    }

    /// The quantities by their numbers.
    pub fn layout(&self) -> &Layout
        ensures { IsLayoutOf self.now result.now }
    {
        &self.layout
    }

    /// The rows over the numbers of the quantities, with the costs of the goal that the settings name.
    pub fn system(&self) -> &System
        ensures system { result.now ≡ own_system self.now }
        ensures law { SpeaksFor self.now self.now.settings.goal None result.now }
    {
        &self.system
    }

    /// How many nodes a plan may take: the setting `nodes`, or fewer where there are many rows.
    pub fn node_limit(&self) -> u32
        ensures exact { result ≡ limit_of self.now }
        ensures at_least_one { 1 ≤ result }
        ensures few { result ≤ NODE_LIMIT }
    {
        // The call says that the setting is in its range.
        let _settings = self.tables.settings();
        node_limit(&self.tables, self.system.rows())
    }

    /// Plans the model with a guide that is not trusted, with the gap of its settings and within its limit of nodes.
    pub fn plan<G: Guide>(&self, alloc: Global, guide: &mut G) -> Result<Outcome, OutOfMemory>
        // Whatever the guide says.
        ensures outcome { IfOk result (IsOutcomeFor self.now) }

        // What is kept of the guide's answers.
        ensures guided { IfOk result (FollowsGuide (G.may_weigh guide.old) (G.may_try guide.old)
            (G.may_cut guide.old) (own_system self.now) self.now.settings.gap) }
        ensures same { AllowsSame (G.may_weigh guide.old) (G.may_weigh guide.new)
            (G.may_try guide.old) (G.may_try guide.new) (G.may_cut guide.old) (G.may_cut guide.new) }
    {
        let gap = self.tables().settings().gap();
        plan_system(alloc, self.system(), gap, self.node_limit(), guide)
    }
}
