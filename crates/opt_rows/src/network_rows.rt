//! The rows of the places and the arcs.
ghost use Rattle.std.specs.Prelude.{◌≡◌, ◌++◌, map, OnOk};
ghost use Rattle.opt_network.specs.Numbering.{IsLayoutOf};
ghost use Rattle.opt_rows.specs.Listed.{IsNetworkOf};
ghost use Rattle.opt_rows.specs.Parts.{network_rows};
ghost use Rattle.opt_rows.specs.Systems.{row_over};

use crate::arc_rows::add_arc_rows;
use crate::balance_rows::add_balance_rows;
use crate::flows::Network;
use crate::storage_rows::add_storage_rows;
use crate::throughput_rows::add_throughput_rows;
use opt_base::OutOfMemory;
use opt_network::Layout;
use opt_system::RowList;
use opt_tables::Tables;
use std::alloc::Global;

/// Adds the rows of balances, arcs, storage and throughput.
fn add_all(
    rows: &mut RowList,
    alloc: Global,
    tables: &Tables,
    layout: &Layout,
    network: &Network,
) -> Result<(), OutOfMemory>
    requires layout { IsLayoutOf tables.now layout.now }
    requires network { IsNetworkOf tables.now network.now }
    ensures { OnOk result (rows.new
        ≡ rows.old ++ map (row_over layout.now.quantities) (network_rows tables.now)) }
{
    add_balance_rows(rows, alloc, tables, layout, network)?;
    add_arc_rows(rows, alloc, tables, layout)?;
    add_storage_rows(rows, alloc, tables, layout)?;
    add_throughput_rows(rows, alloc, tables, layout, network)?;
    Ok(())
}

/// Adds the rows of balances, arcs, storage and throughput. The offers and the arcs are sorted by their places once.
pub fn add_network_rows(
    rows: &mut RowList,
    alloc: Global,
    tables: &Tables,
    layout: &Layout,
) -> Result<(), OutOfMemory>
    requires { IsLayoutOf tables.now layout.now }
    ensures { OnOk result (rows.new
        ≡ rows.old ++ map (row_over layout.now.quantities) (network_rows tables.now)) }
{
    let _settings = tables.settings();
    let network = Network::of_tables(alloc, tables)?;
    add_all(rows, alloc, tables, layout, &network)?;
    Ok(())
}
