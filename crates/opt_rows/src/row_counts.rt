//! How many rows a model has, by arithmetic on its tables and its layout.
ghost use Rattle.std.specs.Prelude.{◌≡◌, ◌+◌, ◌*◌, ◌^◌, ◌≤◌, count_by, is_some, length, sum_by, Option, IfSome, ℤ};
ghost use Rattle.opt_model.specs.Rows.{rows as rows_of};
ghost use Rattle.opt_model.specs.declared.limits.TheConstants.{MONTH_LIMIT};
ghost use Rattle.opt_network.specs.Counts.{departure_months, has_storage};
ghost use Rattle.opt_network.specs.Numbering.{IsLayoutOf};
ghost use Rattle.opt_rows.specs.Counting.{has_throughput, has_two_rows};
ghost use Rattle.opt_rows.specs.Systems.{system_rows};
ghost use Rattle.opt_tables.specs.Facts.{IsModel};

use opt_model::{Place, Quantity};
use opt_network::{Layout, departure_months};
use opt_tables::Tables;

/// How many rows there are of which each record has one with each other record in each month.
fn count_each(records: usize, others: usize, months: u32) -> u64
    requires records { records ≤ 2 ^ 24 }
    requires others { others ≤ 2 ^ 24 }
    requires months { months ≤ MONTH_LIMIT }
    ensures value { result ≡ records * (others * months) }
    ensures few { result ≤ 2 ^ 54 }
{
    records as u64 * (others as u64 * u64::from(months))
}

/// Rows of needs and of groups.
fn diet_count(tables: &Tables) -> u64
    requires { IsModel tables.now }
    ensures value { result ≡ length tables.now.needs * tables.now.settings.months
        + length tables.now.baskets * (length tables.now.groups * tables.now.settings.months) * 2 }
    ensures few { result ≤ 2 ^ 56 }
{
    let months = tables.settings().months();
    let needs = count_each(1, tables.needs().len(), months);
    needs + count_each(tables.baskets().len(), tables.groups().len(), months) * 2
}

/// Rows of balances.
fn balance_count(tables: &Tables) -> u64
    requires { IsModel tables.now }
    ensures value { result ≡ length tables.now.places
        * (length tables.now.commodities * tables.now.settings.months) }
    ensures few { result ≤ 2 ^ 54 }
{
    count_each(
        tables.places().len(),
        tables.commodities().len(),
        tables.settings().months(),
    )
}

/// Rows of arcs: one in each month with a departure.
#[tactic(auto, using(std::proofs::lemmas::List::Sums::sum_by_more))]
fn arc_count(tables: &Tables) -> u64
    requires { IsModel tables.now }
    ensures value { result ≡ sum_by (departure_months tables.now) tables.now.arcs }
    ensures few { result ≤ 2 ^ 30 }
{
    let months = tables.settings().months();
    let mut count = 0;
    for arc in tables.arcs() {
        count += departure_months(arc, months);
    }
    count
}

/// How many places can keep something.
fn storage_count(places: &[Place]) -> usize
    ensures value { result ≡ count_by has_storage places.now }
    ensures few { result ≤ length places.now }
{
    places.iter().filter(|place| place.storage > 0).count()
}

/// How many places have a limit of what arrives.
fn throughput_count(places: &[Place]) -> usize
    ensures value { result ≡ count_by has_throughput places.now }
    ensures few { result ≤ length places.now }
{
    places
        .iter()
        .filter(|place| place.throughput.is_some())
        .count()
}

/// Rows of storage and of throughput.
fn place_count(tables: &Tables) -> u64
    requires { IsModel tables.now }
    ensures value { result ≡ count_by has_storage tables.now.places * tables.now.settings.months
        + count_by has_throughput tables.now.places * tables.now.settings.months }
    ensures few { result ≤ 2 ^ 55 }
{
    let months = tables.settings().months();
    let places = tables.places();
    count_each(1, storage_count(places), months) + count_each(1, throughput_count(places), months)
}

/// Whether a quantity has two rows of its own: what is handed out, and whether an offer is used.
fn has_two_rows(quantity: Quantity) -> bool
    ensures { result ≡ has_two_rows quantity }
{
    matches!(quantity, Quantity::Feed { .. } | Quantity::Order { .. })
}

/// Rows of handing out and of lots.
fn own_count(layout: &Layout) -> u64
    ensures value { result ≡ 2 * count_by has_two_rows layout.now.quantities }
    ensures few { result ≤ 2 ^ 32 }
{
    let mut count = 0;
    for i in 0..layout.len() {
        count += 2 * u64::from(has_two_rows(layout.quantity(i)));
    }
    count
}

/// How many rows a model has, and with the row of a cap, where one is given.
pub fn row_count(tables: &Tables, layout: &Layout, cap: Option<i64>) -> u64
    requires { IsLayoutOf tables.now layout.now }
    ensures { result ≡ length (system_rows tables.now cap) }
{
    let limits = u64::from(tables.settings().budget().is_some()) + u64::from(cap.is_some());
    diet_count(tables)
        + balance_count(tables)
        + arc_count(tables)
        + place_count(tables)
        + own_count(layout)
        + limits
}
