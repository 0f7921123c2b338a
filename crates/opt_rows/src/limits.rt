ghost use Rattle.std.specs.Prelude.{◌≡◌, ◌/◌, ◌^◌, min, max, length};
ghost use Rattle.opt_model.specs.Rows.{rows as rows_of};
ghost use Rattle.opt_model.specs.Verdicts.{node_limit as limit_of};

use opt_tables::Tables;

/// The most entries that the multipliers of all nodes of a search can have, one a row.
pub const ENTRY_LIMIT: u32 = 1 << 24;

/// How many nodes a search may make in a system of this many rows: the setting `nodes`, or fewer where their multipliers could
/// have more than `ENTRY_LIMIT` entries.
pub fn node_limit(tables: &Tables, rows: u32) -> u32
    ensures value { result ≡ min tables.now.settings.nodes (2 ^ 24 / max rows 1) }
    ensures model { rows ≡ length (rows_of tables.now) → result ≡ limit_of tables.now }
{
    tables.settings().nodes().min(ENTRY_LIMIT / rows.max(1))
}
