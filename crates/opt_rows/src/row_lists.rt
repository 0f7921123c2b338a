//! The rows of a model, in order.
ghost use Rattle.std.specs.Prelude.{◌≡◌, IfOk, IfSome};
ghost use Rattle.opt_network.specs.Numbering.{IsLayoutOf};
ghost use Rattle.opt_read.specs.Setup.{IsAmount};
ghost use Rattle.opt_rows.specs.Systems.{system_rows};

use crate::goal_rows::{add_budget_row, add_cap_row};
use crate::group_rows::add_group_rows;
use crate::handout_rows::add_handout_rows;
use crate::lot_rows::add_lot_rows;
use crate::network_rows::add_network_rows;
use crate::nutrient_rows::add_nutrient_rows;
use opt_base::OutOfMemory;
use opt_network::Layout;
use opt_system::RowList;
use opt_tables::Tables;
use std::alloc::Global;

/// The rows of a model in order and, where a cap is given, its row.
pub fn list_rows(
    alloc: Global,
    tables: &Tables,
    layout: &Layout,
    cap: Option<i64>,
) -> Result<RowList, OutOfMemory>
    requires layout { IsLayoutOf tables.now layout.now }
    requires cap { IfSome cap IsAmount }
    ensures { IfOk result (λ rows. rows ≡ system_rows tables.now cap) }
{
    let mut rows = RowList::new(alloc);
    add_nutrient_rows(&mut rows, alloc, tables, layout)?;
    add_group_rows(&mut rows, alloc, tables, layout)?;
    add_handout_rows(&mut rows, alloc, tables, layout)?;
    add_network_rows(&mut rows, alloc, tables, layout)?;
    add_budget_row(&mut rows, alloc, tables, layout)?;
    add_lot_rows(&mut rows, alloc, tables, layout)?;
    add_cap_row(&mut rows, alloc, tables, layout, cap)?;
    Ok(rows)
}
