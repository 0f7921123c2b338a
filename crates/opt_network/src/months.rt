//! In which months a quantity exists, and in how many.
ghost use Rattle.std.specs.Prelude.{◌≡◌, ◌≤◌};
ghost use Rattle.opt_model.specs.Quantities.{is_offered, has_order};
ghost use Rattle.opt_network.specs.Counts.{month_count, is_ordered, arrives, fed_months, has_storage};
ghost use Rattle.opt_model.specs.declared.limits.TheConstants.{MONTH_LIMIT, LEAD_LIMIT};
ghost use Rattle.opt_network.specs.Fed.{MarksFed};
ghost use Rattle.opt_tables.specs.Facts.{IsModel};

use crate::fed::FedMonths;
use opt_model::{Arc, Offer, Place};
use opt_tables::Tables;

/// Whether an offer stands in a month.
pub fn is_offered(offer: &Offer, month: u32) -> bool
    ensures { result ≡ is_offered offer.now month }
{
    offer.first <= month && month <= offer.last
}

/// Whether an offer has a fee or a least lot.
fn has_order(offer: &Offer) -> bool
    ensures { result ≡ has_order offer.now }
{
    offer.fee > 0 || offer.least > 0
}

/// Whether an offer stands in a month and has a fee or a least lot.
pub fn is_ordered(offer: &Offer, month: u32) -> bool
    ensures { result ≡ is_ordered offer.now month }
{
    is_offered(offer, month) && has_order(offer)
}

/// Whether what leaves on an arc in a month arrives within so many months.
pub fn arrives(months: u32, arc: &Arc, month: u32) -> bool
    requires month { month ≤ MONTH_LIMIT }
    requires lead { arc.now.lead ≤ LEAD_LIMIT }
    ensures { result ≡ arrives months arc.now month }
{
    month + arc.lead <= months
}

/// Whether a place can keep something.
pub fn has_storage(place: &Place) -> bool
    ensures { result ≡ has_storage place.now }
{
    place.storage > 0
}

/// In how many of so many months an offer stands.
#[tactic(auto, using(crate::proofs::MonthLists::month_count_more, crate::proofs::MonthLists::month_count_few))]
pub fn offered_months(offer: &Offer, months: u32) -> u64
    requires { months ≤ MONTH_LIMIT }
    ensures count { result ≡ month_count months (is_offered offer.now) }
    ensures few { result ≤ MONTH_LIMIT }
{
    let mut count = 0;
    for earlier in 0..months {
        count += u64::from(is_offered(offer, earlier + 1));
    }
    count
}

/// In how many of so many months an offer stands that has a fee or a least lot.
#[tactic(auto, using(crate::proofs::MonthLists::ordered_count))]
pub fn ordered_months(offer: &Offer, months: u32) -> u64
    requires { months ≤ MONTH_LIMIT }
    ensures count { result ≡ month_count months (is_ordered offer.now) }
    ensures few { result ≤ MONTH_LIMIT }
{
    if has_order(offer) {
        offered_months(offer, months)
    } else {
        0
    }
}

/// In how many of so many months something leaves on an arc.
#[tactic(auto, using(crate::proofs::MonthLists::month_count_more, crate::proofs::MonthLists::month_count_few))]
pub fn departure_months(arc: &Arc, months: u32) -> u64
    requires months { months ≤ MONTH_LIMIT }
    requires lead { arc.now.lead ≤ LEAD_LIMIT }
    ensures count { result ≡ month_count months (arrives months arc.now) }
    ensures few { result ≤ MONTH_LIMIT }
{
    let mut count = 0;
    for earlier in 0..months {
        count += u64::from(arrives(months, arc, earlier + 1));
    }
    count
}

/// In how many months a place feeds somebody.
#[tactic(auto, using(crate::proofs::MonthLists::month_count_more, crate::proofs::MonthLists::month_count_few))]
pub fn fed_months(tables: &Tables, fed: &FedMonths, number: u32, place: &Place) -> u64
    requires model { IsModel tables.now }
    requires fed { MarksFed tables.now fed.now }
    ensures count { result ≡ fed_months tables.now number place.now }
    ensures few { result ≤ MONTH_LIMIT }
{
    let mut count = 0;
    for earlier in 0..tables.settings().months() {
        count += u64::from(fed.is_fed(number, place.kind, earlier + 1));
    }
    count
}
