//! How many quantities a model has, by arithmetic on its tables.
ghost use Rattle.std.specs.Prelude.{◌≡◌, ◌*◌, ◌^◌, ◌≤◌, count_by, length, sum_by};
ghost use Rattle.opt_model.specs.Quantities.{rations, shorts, ships, keeps, feeds, quantities};
ghost use Rattle.opt_model.specs.declared.limits.TheConstants.{MONTH_LIMIT};
ghost use Rattle.opt_network.specs.Fed.{MarksFed};
ghost use Rattle.opt_tables.specs.Facts.{IsModel};
ghost use Rattle.opt_network.specs.Counts.{offered_months, ordered_months, departure_months, fed_months};
ghost use Rattle.opt_network.specs.Counts.{has_storage, sum_numbered};

use crate::fed::FedMonths;
use crate::months::{departure_months, fed_months, offered_months, ordered_months};
use opt_tables::{Place, Tables};

/// A count that recurs in each of so many months.
fn in_all_months(count: u64, months: u32) -> u64
    requires count { count ≤ 2 ^ 24 }
    requires months { months ≤ MONTH_LIMIT }
    ensures value { result ≡ count * months }
    ensures few { result ≤ 2 ^ 30 }
{
    count * u64::from(months)
}

/// A count that recurs in each of so many records.
fn in_all_records(records: u64, count: u64) -> u64
    requires records { records ≤ 2 ^ 24 }
    requires count { count ≤ 2 ^ 30 }
    ensures value { result ≡ records * count }
    ensures few { result ≤ 2 ^ 54 }
{
    records * count
}

/// How many rations there are.
#[tactic(auto, using(crate::proofs::Lengths::length_rations))]
pub fn ration_count(tables: &Tables) -> u64
    requires { IsModel tables.now }
    ensures count { result ≡ length (rations tables.now) }
    ensures few { result ≤ 2 ^ 54 }
{
    let commodities = tables.commodities().len() as u64;
    let of_a_basket = in_all_months(commodities, tables.settings().months());
    in_all_records(tables.baskets().len() as u64, of_a_basket)
}

/// How many shortfalls there are.
#[tactic(auto, using(crate::proofs::Lengths::length_shorts))]
fn short_count(tables: &Tables) -> u64
    requires { IsModel tables.now }
    ensures count { result ≡ length (shorts tables.now) }
    ensures few { result ≤ 2 ^ 54 }
{
    in_all_months(tables.needs().len() as u64, tables.settings().months())
}

/// How many purchases there are.
#[tactic(auto, using(std::proofs::lemmas::List::Sums::sum_by_more))]
fn buy_count(tables: &Tables) -> u64
    requires { IsModel tables.now }
    ensures count { result ≡ sum_by (offered_months tables.now) tables.now.offers }
    ensures few { result ≤ 2 ^ 54 }
{
    let months = tables.settings().months();
    let mut count = 0;
    for offer in tables.offers() {
        count += offered_months(offer, months);
    }
    count
}

/// How many departures there are.
#[tactic(auto, using(std::proofs::lemmas::List::Sums::sum_by_more))]
fn departure_count(tables: &Tables) -> u64
    requires { IsModel tables.now }
    ensures count { result ≡ sum_by (departure_months tables.now) tables.now.arcs }
    ensures few { result ≤ 2 ^ 30 }
{
    let months = tables.settings().months();
    let mut count = 0;
    for arc in tables.arcs() {
        count += departure_months(arc, months);
    }
    count
}

/// How many shipments there are.
#[tactic(auto, using(crate::proofs::Lengths::length_ships))]
fn ship_count(tables: &Tables) -> u64
    requires { IsModel tables.now }
    ensures count { result ≡ length (ships tables.now) }
    ensures few { result ≤ 2 ^ 54 }
{
    in_all_records(tables.commodities().len() as u64, departure_count(tables))
}

/// How many places can keep something.
fn storage_count(places: &[Place]) -> u64
    ensures count { result ≡ count_by has_storage places.now }
    ensures few { result ≤ length places.now }
{
    places.iter().filter(|place| place.storage > 0).count() as u64
}

/// How many quantities of kept food there are.
#[tactic(auto, using(crate::proofs::Lengths::length_keeps))]
fn keep_count(tables: &Tables) -> u64
    requires { IsModel tables.now }
    ensures count { result ≡ length (keeps tables.now) }
    ensures few { result ≤ 2 ^ 54 }
{
    let places = storage_count(tables.places());
    let of_a_commodity = in_all_months(places, tables.settings().months());
    in_all_records(tables.commodities().len() as u64, of_a_commodity)
}

/// In how many months a place feeds somebody, over all places.
#[tactic(auto, using(crate::proofs::RecordLists::sum_numbered_more))]
fn fed_count(tables: &Tables, fed: &FedMonths) -> u64
    requires model { IsModel tables.now }
    requires fed { MarksFed tables.now fed.now }
    ensures count { result ≡ sum_numbered tables.now.places (fed_months tables.now) }
    ensures few { result ≤ 2 ^ 30 }
{
    let mut count = 0;
    for (number, place) in tables.places().iter().enumerate() {
        count += fed_months(tables, fed, number as u32, place);
    }
    count
}

/// How many quantities of food that is handed out there are.
#[tactic(auto, using(crate::proofs::Lengths::length_feeds))]
fn feed_count(tables: &Tables, fed: &FedMonths) -> u64
    requires model { IsModel tables.now }
    requires fed { MarksFed tables.now fed.now }
    ensures count { result ≡ length (feeds tables.now) }
    ensures few { result ≤ 2 ^ 54 }
{
    in_all_records(tables.commodities().len() as u64, fed_count(tables, fed))
}

/// How many orders there are.
#[tactic(auto, using(std::proofs::lemmas::List::Sums::sum_by_more))]
fn order_count(tables: &Tables) -> u64
    requires { IsModel tables.now }
    ensures count { result ≡ sum_by (ordered_months tables.now) tables.now.offers }
    ensures few { result ≤ 2 ^ 54 }
{
    let months = tables.settings().months();
    let mut count = 0;
    for offer in tables.offers() {
        count += ordered_months(offer, months);
    }
    count
}

/// How many quantities a model has.
#[tactic(auto, using(crate::proofs::Lengths::counted_quantities))]
pub fn quantity_count(tables: &Tables, fed: &FedMonths) -> u64
    requires model { IsModel tables.now }
    requires fed { MarksFed tables.now fed.now }
    ensures { result ≡ length (quantities tables.now) }
{
    ration_count(tables)
        + short_count(tables)
        + buy_count(tables)
        + ship_count(tables)
        + keep_count(tables)
        + feed_count(tables, fed)
        + order_count(tables)
}
