//! What one of a quantity's value stands for in a plan file and a report.
ghost use Rattle.std.specs.Prelude.{◌≡◌, ◌≤◌, ◌^◌, pos, true};
ghost use Rattle.opt_model.specs.declared.limits.TheConstants.{RATION_LIMIT};
ghost use Rattle.opt_network.specs.Numbering.{has_quantity};
ghost use Rattle.opt_tables.specs.Facts.{IsFrom};
ghost use Rattle.opt_report.specs.Units.{unit_of, amount_of};

use opt_model::{Commodity, Quantity};
use opt_tables::Tables;

/// The step of a commodity's ration, in grams.
fn step_of(commodity: &Commodity) -> u32
    requires { IsFrom (pos 1) (pos RATION_LIMIT) commodity.now.step_g }
    ensures value { pos result ≡ commodity.now.step_g }
    ensures range { (1 ≤ result) × (result ≤ RATION_LIMIT) }
{
    commodity.step_g as u32
}

/// The step of a ration, in grams; of all others 1.
pub fn unit_of(tables: &Tables, quantity: Quantity) -> u32
    requires { has_quantity tables.now quantity ≡ true }
    ensures value { pos result ≡ unit_of tables.now quantity }
    ensures range { (1 ≤ result) × (result ≤ RATION_LIMIT) }
{
    let _settings = tables.settings();
    match quantity {
        Quantity::Ration { commodity, .. } => step_of(&tables.commodities()[commodity as usize]),
        Quantity::Short { .. }
        | Quantity::Buy { .. }
        | Quantity::Ship { .. }
        | Quantity::Keep { .. }
        | Quantity::Feed { .. }
        | Quantity::Order { .. } => 1,
    }
}

/// The amount that a plan file gives for a value of a quantity: grams of a ration, else the value itself.
pub fn amount_of(tables: &Tables, quantity: Quantity, value: &i64) -> i64
    requires exists { has_quantity tables.now quantity ≡ true }
    requires small { IsFrom (pos 0) (pos (2 ^ 40)) value.now }
    ensures { result ≡ amount_of tables.now quantity value.now }
{
    i64::from(unit_of(tables, quantity)) * *value
}
