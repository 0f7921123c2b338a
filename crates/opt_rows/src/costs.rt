ghost use Rattle.std.specs.Prelude.{◌≡◌, ◌+ℤ◌, IfOk};
ghost use Rattle.opt_model.specs.Quantities.{of_record};
ghost use Rattle.opt_network.specs.Numbering.{IsLayoutOf};
ghost use Rattle.opt_system.specs.Systems.{AreSmallCosts};
ghost use Rattle.opt_tables.specs.Facts.{IsPrice};
ghost use Rattle.opt_rows.specs.Costs.{mills_of, weight_of, unit_cost};
ghost use Rattle.opt_rows.specs.Systems.{costs_of};

use opt_base::OutOfMemory;
use opt_model::{Arc, Goal, Quantity};
use opt_network::Layout;
use opt_tables::Tables;
use std::alloc::Global;

/// What a kilogram that arrives at a place costs there, in mills.
fn handling_at(tables: &Tables, place: u32) -> i64
    ensures value { result ≡ of_record tables.now.places place (λ r. r.handling) }
    ensures price { IsPrice result }
{
    let _settings = tables.settings();
    match tables.places().get(place as usize) {
        Some(record) => record.handling,
        None => 0,
    }
}

/// What a kilogram on an arc costs, with the handling where it ends, in mills.
pub fn shipping_on(tables: &Tables, arc: &Arc) -> i64
    requires { IsPrice arc.now.cost }
    ensures { result ≡ arc.now.cost
        +ℤ of_record tables.now.places arc.now.to_place (λ place. place.handling) }
{
    let handling = handling_at(tables, arc.to_place);
    arc.cost + handling
}

/// What a kilogram on the arc of this number costs, in mills.
fn shipping_of(tables: &Tables, number: u32) -> i64
    ensures { result ≡ of_record tables.now.arcs number
        (λ r. r.cost +ℤ of_record tables.now.places r.to_place (λ place. place.handling)) }
{
    let _settings = tables.settings();
    match tables.arcs().get(number as usize) {
        Some(arc) => shipping_on(tables, arc),
        None => 0,
    }
}

/// What a kilogram of the offer of this number costs, in mills.
fn price_of(tables: &Tables, number: u32) -> i64
    ensures { result ≡ of_record tables.now.offers number (λ r. r.price) }
{
    match tables.offers().get(number as usize) {
        Some(offer) => offer.price,
        None => 0,
    }
}

/// What it costs to use the offer of this number in a month, in mills.
fn fee_of(tables: &Tables, number: u32) -> i64
    ensures { result ≡ of_record tables.now.offers number (λ r. r.fee) }
{
    match tables.offers().get(number as usize) {
        Some(offer) => offer.fee,
        None => 0,
    }
}

/// What a kilogram kept at the place of this number costs, in mills.
fn storage_cost_of(tables: &Tables, number: u32) -> i64
    ensures { result ≡ of_record tables.now.places number (λ r. r.storage_cost) }
{
    match tables.places().get(number as usize) {
        Some(place) => place.storage_cost,
        None => 0,
    }
}

/// What a unit of a quantity costs, in mills.
pub fn mills_of(tables: &Tables, quantity: Quantity) -> i64
    ensures { result ≡ mills_of tables.now quantity }
{
    match quantity {
        Quantity::Buy { offer, .. } => price_of(tables, offer),
        Quantity::Ship { arc, .. } => shipping_of(tables, arc),
        Quantity::Keep { place, .. } => storage_cost_of(tables, place),
        Quantity::Order { offer, .. } => fee_of(tables, offer),
        Quantity::Ration { .. } | Quantity::Short { .. } | Quantity::Feed { .. } => 0,
    }
}

/// What a unit of a quantity weighs, in weighted shortfall.
fn weight_of(tables: &Tables, quantity: Quantity) -> i64
    ensures { result ≡ weight_of tables.now quantity }
{
    match quantity {
        Quantity::Short { need, .. } => match tables.needs().get(need as usize) {
            Some(record) => record.weight,
            None => 0,
        },
        Quantity::Ration { .. }
        | Quantity::Buy { .. }
        | Quantity::Ship { .. }
        | Quantity::Keep { .. }
        | Quantity::Feed { .. }
        | Quantity::Order { .. } => 0,
    }
}

/// What a unit of a quantity adds to the goal.
fn unit_cost(tables: &Tables, goal: Goal, quantity: Quantity) -> i64
    ensures { result ≡ unit_cost tables.now goal quantity }
{
    match goal {
        Goal::Cost => mills_of(tables, quantity),
        Goal::Shortfall => weight_of(tables, quantity),
    }
}

/// What a unit of each quantity adds to the goal, by number.
pub fn goal_costs(
    alloc: Global,
    tables: &Tables,
    layout: &Layout,
    goal: Goal,
) -> Result<Vec<i64>, OutOfMemory>
    requires { IsLayoutOf tables.now layout.now }
    ensures costs { IfOk result (λ costs. costs.items ≡ costs_of tables.now goal) }
    ensures small { IfOk result (λ costs. AreSmallCosts costs.items layout.now.highs) }
{
    let _settings = tables.settings();
    let mut costs = Vec::new(alloc);
    for i in 0..layout.len() {
        costs.push(unit_cost(tables, goal, layout.quantity(i)))?;
    }
    Ok(costs)
}
