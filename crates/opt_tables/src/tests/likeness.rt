//! Whether a record says what it should.
use opt_model::{Arc, Commodity, Group, Need, Offer, Place, PlaceKind};

pub fn is_commodity(
    one: &Commodity,
    name: &str,
    group: Option<u32>,
    least: i64,
    greatest: i64,
    step: i64,
) -> bool {
    one.commodity.as_str() == name
        && one.group == group
        && one.min_g == least
        && one.max_g == greatest
        && one.step_g == step
}

pub fn is_group(one: &Group, name: &str, least: i64, greatest: i64) -> bool {
    one.group.as_str() == name && one.min_g == least && one.max_g == greatest
}

pub fn is_need(one: &Need, nutrient: u32, required: i64, most: i64, weight: i64) -> bool {
    one.basket == 0
        && one.nutrient == nutrient
        && one.required == required
        && one.max_short == most
        && one.weight == weight
}

pub fn is_place(
    one: &Place,
    name: &str,
    kind: PlaceKind,
    storage: i64,
    throughput: Option<i64>,
) -> bool {
    one.place.as_str() == name
        && one.kind == kind
        && one.storage == storage
        && one.throughput == throughput
}

pub fn costs(one: &Place, handling: i64, storage_cost: i64) -> bool {
    one.handling == handling && one.storage_cost == storage_cost
}

pub fn is_offer(
    one: &Offer,
    name: &str,
    place: u32,
    commodity: u32,
    price: i64,
    most: i64,
) -> bool {
    one.offer.as_str() == name
        && one.place == place
        && one.commodity == commodity
        && one.price == price
        && one.max_kg == most
        && one.fee == 0
        && one.least == 0
}

pub fn stands(one: &Offer, first: u32, last: u32) -> bool {
    one.first == first && one.last == last
}

pub fn is_arc(one: &Arc, name: &str, start: u32, end: u32) -> bool {
    one.arc.as_str() == name && one.from_place == start && one.to_place == end
}

pub fn moves(one: &Arc, cost: i64, capacity: i64, lead: u32) -> bool {
    one.cost == cost && one.capacity == capacity && one.lead == lead
}
