ghost use Rattle.std.specs.Prelude.{◌≡◌, ◌<◌, length, option_map, slice_get, Some};
ghost use Rattle.opt_model.specs.Rows.{rows as rows_of};
ghost use Rattle.opt_rows.specs.Names.{Finds, budget_names, limit_names, row_names};

use crate::diet_names::{find_group, find_nutrient};
use crate::handout_names::find_handout;
use crate::lot_names::find_lot;
use crate::network_names::{find_arc, find_balance, find_storage, find_throughput};
use opt_model::RowName;
use opt_tables::Tables;

/// Looks for the row of this number in the budget's: an error is its name, Ok how many numbers are left past it.
fn find_budget(tables: &Tables, i: u32) -> Result<u32, RowName>
    ensures { Finds (budget_names tables.now.settings.budget) i result }
{
    if tables.settings().budget().is_none() {
        return Ok(i);
    }
    if i == 0 {
        return Err(RowName::Budget);
    }
    Ok(i - 1)
}

/// Looks for the row of this number among those of arcs, storage, throughput, the budget and lots.
fn find_limit(tables: &Tables, i: u32) -> Result<u32, RowName>
    ensures { Finds (limit_names tables.now) i result }
{
    let rest = find_arc(tables, i)?;
    let rest = find_storage(tables, rest)?;
    let rest = find_throughput(tables, rest)?;
    let rest = find_budget(tables, rest)?;
    find_lot(tables, rest)
}

/// Looks for the row of this number among all.
pub fn find_row(tables: &Tables, i: u32) -> Result<u32, RowName>
    ensures { Finds (row_names tables.now) i result }
{
    let rest = find_nutrient(tables, i)?;
    let rest = find_group(tables, rest)?;
    let rest = find_handout(tables, rest)?;
    let rest = find_balance(tables, rest)?;
    find_limit(tables, rest)
}

/// The name of row `i`, with rows numbered from 0. It takes no memory.
pub fn row_name(tables: &Tables, i: u32) -> RowName
    requires { i < length (rows_of tables.now) }
    ensures { option_map (λ row. row.name) (slice_get (rows_of tables.now) i) ≡ Some result }
{
    match find_row(tables, i) {
        Err(name) => name,
        Ok(_) => unreachable!(),
    }
}
