ghost use Rattle.std.specs.Prelude.{None, IfOk, IfSome};
ghost use Rattle.opt_base.specs.Answers.{Gives};
ghost use Rattle.opt_network.specs.Numbering.{IsLayoutOf};
ghost use Rattle.opt_read.specs.Setup.{IsAmount};
ghost use Rattle.opt_rows.specs.Systems.{model_system};
ghost use Rattle.opt_rows.specs.Laws.{SpeaksFor};

use crate::costs::goal_costs;
use crate::ranges::root_range;
use crate::rows::model_rows;
use opt_base::ModelFault;
use opt_model::Goal;
use opt_network::Layout;
use opt_system::System;
use opt_tables::Tables;
use std::alloc::Global;

/// The system of a model: its rows in order over the numbers of its quantities, their ranges, and the costs of the
/// goal that the settings name. `layout` is that of these tables.
///
/// A list of values meets the system exactly where its plan is feasible, and then costs what the plan does; each
/// feasible plan is the plan of just one list.
///
/// It is refused with TooMany of the rows past 20,000 of them, which are counted before one is made, and then with
/// TooMany of their terms past 262,144.
pub fn build(alloc: Global, tables: &Tables, layout: &Layout) -> Result<System, ModelFault>
    requires { IsLayoutOf tables.now layout.now }
    ensures system { Gives (λ system. system) result
        (model_system tables.now tables.now.settings.goal None) }
    ensures law { IfOk result (SpeaksFor tables.now tables.now.settings.goal None) }
{
    build_goal(alloc, tables, layout, tables.settings().goal(), None)
}

/// The system of a model, as `build` makes it, with the costs of this goal and, where a cap is given, a last row: the
/// weighted shortfall is at most the cap, which is from 0 to 9 * 10^18.
///
/// A list of values meets the system exactly where its plan is feasible and keeps the cap.
pub fn build_goal(
    alloc: Global,
    tables: &Tables,
    layout: &Layout,
    goal: Goal,
    cap: Option<i64>,
) -> Result<System, ModelFault>
    requires layout { IsLayoutOf tables.now layout.now }
    requires cap { IfSome cap IsAmount }
    ensures system { Gives (λ system. system) result (model_system tables.now goal cap) }
    ensures law { IfOk result (SpeaksFor tables.now goal cap) }
{
    let rows = model_rows(alloc, tables, layout, cap)?;
    let root = root_range(alloc, layout)?;
    let costs = goal_costs(alloc, tables, layout, goal)?;
    System::from_rows(alloc, &rows, &root, &costs)
}
