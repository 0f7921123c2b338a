ghost use Rattle.std.specs.Prelude.{◌≡◌, ◌≤◌, length};
ghost use Rattle.opt_model.specs.declared.limits.TheConstants.{MONTH_LIMIT};

use opt_tables::Tables;

// The call of `settings` says that no table has more than 2^24 records.

/// How many commodities there are.
pub fn commodity_count(tables: &Tables) -> u32
    ensures { result ≡ length tables.now.commodities }
{
    let _settings = tables.settings();
    tables.commodities().len() as u32
}

/// How many groups there are.
pub fn group_count(tables: &Tables) -> u32
    ensures { result ≡ length tables.now.groups }
{
    let _settings = tables.settings();
    tables.groups().len() as u32
}

/// How many places there are.
pub fn place_count(tables: &Tables) -> u32
    ensures { result ≡ length tables.now.places }
{
    let _settings = tables.settings();
    tables.places().len() as u32
}

/// How many offers there are.
pub fn offer_count(tables: &Tables) -> u32
    ensures { result ≡ length tables.now.offers }
{
    let _settings = tables.settings();
    tables.offers().len() as u32
}

/// How many arcs there are.
pub fn arc_count(tables: &Tables) -> u32
    ensures { result ≡ length tables.now.arcs }
{
    let _settings = tables.settings();
    tables.arcs().len() as u32
}

/// How many baskets there are.
pub fn basket_count(tables: &Tables) -> u32
    ensures { result ≡ length tables.now.baskets }
{
    let _settings = tables.settings();
    tables.baskets().len() as u32
}

/// How many months the plan has: 1 to 36.
pub fn month_count(tables: &Tables) -> u32
    ensures count { result ≡ tables.now.settings.months }
    ensures few { result ≤ MONTH_LIMIT }
{
    tables.settings().months()
}
