ghost use Rattle.std.specs.Prelude.{IfOk, IfSome};
ghost use Rattle.opt_base.specs.Answers.{Gives};
ghost use Rattle.opt_network.specs.Numbering.{IsLayoutOf};
ghost use Rattle.opt_read.specs.Setup.{IsAmount};
ghost use Rattle.opt_rows.specs.Systems.{rows_or_too_many, AreSmallRows};

use crate::row_counts::row_count;
use crate::row_lists::list_rows;
use opt_base::{ModelFault, ROW_LIMIT, ROWS_COLUMN, Refusal};
use opt_network::Layout;
use opt_system::RowList;
use opt_tables::Tables;
use std::alloc::Global;

/// The rows of a model in order and, where a cap is given, the row that the weighted shortfall is at most the cap. It is
/// refused exactly where there are more of them than `ROW_LIMIT`, with their count, which is found before one is made.
pub fn model_rows(
    alloc: Global,
    tables: &Tables,
    layout: &Layout,
    cap: Option<i64>,
) -> Result<RowList, ModelFault>
    requires layout { IsLayoutOf tables.now layout.now }
    requires cap { IfSome cap IsAmount }
    ensures rows { Gives (λ rows. rows) result (rows_or_too_many tables.now cap) }
    ensures small { IfOk result (AreSmallRows layout.now.highs) }
{
    let _settings = tables.settings();
    let count = row_count(tables, layout, cap);
    if count > ROW_LIMIT as u64 {
        return Err(ModelFault::Refused(Refusal::too_many(ROWS_COLUMN, count)));
    }
    Ok(list_rows(alloc, tables, layout, cap)?)
}
