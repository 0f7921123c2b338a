//! The ranges of quantities.
ghost use Rattle.std.specs.Prelude.{◌≡◌, ◌≤◌, ◌^◌, ◌*ℤ◌, ◌≤ℤ◌, pos, true, map, All, IfOk};
ghost use Rattle.opt_model.specs.Quantities.{all_heads, ceil_div, least_steps, most_steps, low, high};
ghost use Rattle.opt_model.specs.Settings.{days_of};
ghost use Rattle.opt_model.specs.declared.quantity.Quantity.TheVariants.{Feed};
ghost use Rattle.opt_tables.specs.Facts.{IsCommodity, IsFrom, IsModel};
ghost use Rattle.opt_network.specs.Numbering.{has_quantity};

use crate::fed::all_heads;
use opt_model::{Commodity, Quantity};
use opt_tables::Tables;
use std::alloc::{AllocError, Global};

/// The least and the greatest value of a quantity.
#[derive(Clone, Copy, Debug, PartialEq, Eq)]
pub struct Span {
    pub low: i64,
    pub high: i64,
}

/// The least and the greatest values of quantities.
#[derive(Debug, Drop)]
pub struct Spans {
    pub lows: Vec<i64>,
    pub highs: Vec<i64>,
}

/// From 0 to the greatest value.
fn up_to(high: &i64) -> Span
    ensures low { result.low ≡ pos 0 }
    ensures high { result.high ≡ high.now }
{
    Span {
        low: 0,
        high: *high,
    }
}

/// The least ration of a commodity, in steps.
#[tactic(auto, using(crate::proofs::Quotients::rounded_up))]
fn least_steps(commodity: &Commodity) -> i64
    requires { IsCommodity commodity.now }
    ensures { result ≡ least_steps commodity.now }
{
    (commodity.min_g + (commodity.step_g - 1)) / commodity.step_g
}

/// The greatest ration of a commodity, in steps.
fn most_steps(commodity: &Commodity) -> i64
    requires { IsCommodity commodity.now }
    ensures { result ≡ most_steps commodity.now }
{
    commodity.max_g / commodity.step_g
}

/// The range of a ration, in steps.
fn steps(commodity: &Commodity) -> Span
    requires { IsCommodity commodity.now }
    ensures low { result.low ≡ least_steps commodity.now }
    ensures high { result.high ≡ most_steps commodity.now }
{
    Span {
        low: least_steps(commodity),
        high: most_steps(commodity),
    }
}

/// The greatest ration of a commodity, in grams per person and day.
fn greatest_ration(commodity: &Commodity) -> i64
    requires { IsCommodity commodity.now }
    ensures { result ≡ commodity.now.step_g *ℤ most_steps commodity.now }
{
    let step = commodity.step_g;
    step * (commodity.max_g / step)
}

/// The days of a month.
fn days(tables: &Tables, month: u32) -> i64
    requires first { 1 ≤ month }
    requires last { month ≤ tables.now.settings.months }
    ensures value { result ≡ pos (days_of tables.now.settings month) }
    ensures low { pos 0 ≤ℤ result }
    ensures high { result ≤ℤ pos 31 }
{
    i64::from(tables.settings().days(month))
}

/// The persons whom a place feeds in a month, times its days.
fn person_days(tables: &Tables, place: u32, month: u32) -> i64
    requires model { IsModel tables.now }
    requires first { 1 ≤ month }
    requires last { month ≤ tables.now.settings.months }
    ensures value { result
        ≡ all_heads tables.now place month *ℤ pos (days_of tables.now.settings month) }
    ensures low { pos 0 ≤ℤ result }
    ensures high { result ≤ℤ pos (10 ^ 10) }
{
    all_heads(tables, place, month) * days(tables, month)
}

/// Grams in kilograms, rounded up.
#[tactic(auto, using(crate::proofs::Quotients::thousandths_up))]
fn kilograms(grams: &i64) -> i64
    requires { IsFrom (pos 0) (pos (10 ^ 13)) grams.now }
    ensures { result ≡ ceil_div grams.now (pos 1000) }
{
    (*grams + 999) / 1000
}

/// What so many persons times days would get of a commodity at the greatest ration, in kilograms.
fn most_kilograms(person_days: &i64, commodity: &Commodity) -> i64
    requires days { IsFrom (pos 0) (pos (10 ^ 10)) person_days.now }
    requires small { IsFrom (pos 0) (pos (10 ^ 13))
        (person_days.now *ℤ (commodity.now.step_g *ℤ most_steps commodity.now)) }
    requires commodity { IsCommodity commodity.now }
    ensures { result ≡ ceil_div
        (person_days.now *ℤ (commodity.now.step_g *ℤ most_steps commodity.now)) (pos 1000) }
{
    kilograms(&(*person_days * greatest_ration(commodity)))
}

/// The range of what is handed out.
fn fed_span(tables: &Tables, place: u32, commodity: u32, month: u32) -> Span
    requires model { IsModel tables.now }
    requires exists { has_quantity tables.now (Feed place commodity month) ≡ true }
    ensures low { result.low ≡ pos 0 }
    ensures high { result.high ≡ high tables.now (Feed place commodity month) }
{
    let one = &tables.commodities()[commodity as usize];
    up_to(&most_kilograms(&person_days(tables, place, month), one))
}

/// The range of a quantity.
fn span_of(tables: &Tables, quantity: Quantity) -> Span
    requires model { IsModel tables.now }
    requires exists { has_quantity tables.now quantity ≡ true }
    ensures low { result.low ≡ low tables.now quantity }
    ensures high { result.high ≡ high tables.now quantity }
{
    match quantity {
        Quantity::Ration { commodity, .. } => steps(&tables.commodities()[commodity as usize]),
        Quantity::Short { need, .. } => up_to(&tables.needs()[need as usize].max_short),
        Quantity::Buy { offer, .. } => up_to(&tables.offers()[offer as usize].max_kg),
        Quantity::Ship { arc, .. } => up_to(&tables.arcs()[arc as usize].capacity),
        Quantity::Keep { place, .. } => up_to(&tables.places()[place as usize].storage),
        Quantity::Feed {
            place,
            commodity,
            month,
        } => fed_span(tables, place, commodity, month),
        Quantity::Order { .. } => up_to(&1),
    }
}

/// The ranges of quantities that exist.
pub fn spans_of(alloc: Global, tables: &Tables, list: &[Quantity]) -> Result<Spans, AllocError>
    requires model { IsModel tables.now }
    requires exist { All (λ q. has_quantity tables.now q ≡ true) list.now }
    ensures lows { IfOk result (λ spans. spans.lows.items ≡ map (low tables.now) list.now) }
    ensures highs { IfOk result (λ spans. spans.highs.items ≡ map (high tables.now) list.now) }
{
    let mut lows = Vec::new(alloc);
    let mut highs = Vec::new(alloc);
    for quantity in list {
        let span = span_of(tables, *quantity);
        lows.push(span.low)?;
        highs.push(span.high)?;
    }
    Ok(Spans { lows, highs })
}
