//! The parts of what a plan costs.
ghost use Rattle.std.specs.Prelude.{◌≡◌, ◌≤◌, ◌^◌, unsigned_abs, pos};
ghost use Rattle.opt_network.specs.Numbering.{IsLayoutOf};
ghost use Rattle.opt_report.specs.PointPlans.{plan_with};
ghost use Rattle.opt_report.specs.Spending.{MONTH_SIZE, AreUpTo, is_part, spent_on, spent, spending_in, together, total_of};

use crate::point_plan::PointPlan;
use crate::words::month_of;
use opt_model::Quantity;
use opt_network::Layout;
use opt_rows::mills_of;
use opt_sums::product;
use opt_tables::Tables;

/// What a part of the cost is for.
#[derive(Clone, Copy, Debug, PartialEq, Eq)]
pub enum CostPart {
    /// What is bought.
    Purchases,
    /// Offers that are used.
    Fees,
    /// What is shipped, with the handling where it ends.
    Shipping,
    /// What is kept.
    Storage,
}

/// The parts of a cost, in mills.
#[derive(Clone, Copy, Debug, PartialEq, Eq)]
pub struct Spending {
    pub bought: i128,
    pub fees: i128,
    pub shipped: i128,
    pub stored: i128,
}

/// Whether a quantity adds to this part of the cost.
fn is_part(part: CostPart, quantity: Quantity) -> bool
    ensures { result ≡ is_part part quantity }
{
    match (part, quantity) {
        (CostPart::Purchases, Quantity::Buy { .. })
        | (CostPart::Fees, Quantity::Order { .. })
        | (CostPart::Shipping, Quantity::Ship { .. })
        | (CostPart::Storage, Quantity::Keep { .. }) => true,
        _ => false,
    }
}

/// What a quantity adds to a part of the cost of a month, in mills.
fn spent_on(
    tables: &Tables,
    plan: &PointPlan<'_>,
    part: CostPart,
    month: u32,
    quantity: Quantity,
) -> i128
    ensures value { result ≡ spent_on tables.now (plan_with plan.now) part month quantity }
    ensures small { unsigned_abs result ≤ 2 ^ 103 }
{
    if !is_part(part, quantity) || month_of(quantity) != month {
        return 0;
    }
    product(mills_of(tables, quantity), plan.value(quantity))
}

/// What a part of the cost comes to in a month, in mills.
fn spent(tables: &Tables, layout: &Layout, plan: &PointPlan<'_>, part: CostPart, month: u32) -> i128
    requires { IsLayoutOf tables.now layout.now }
    ensures value { result ≡ spent tables.now (plan_with plan.now) part month }
    ensures small { unsigned_abs result ≤ MONTH_SIZE }
{
    let mut sum = 0i128;
    for i in 0..layout.len() {
        sum += spent_on(tables, plan, part, month, layout.quantity(i));
    }
    sum
}

impl Spending {
    /// Nothing.
    pub fn none() -> Spending
        ensures { result ≡ record {
          bought = pos 0;
          fees = pos 0;
          shipped = pos 0;
          stored = pos 0;
        } }
    {
        Spending {
            bought: 0,
            fees: 0,
            shipped: 0,
            stored: 0,
        }
    }

    /// The parts of the cost of a month.
    pub fn in_month(tables: &Tables, layout: &Layout, plan: &PointPlan<'_>, month: u32) -> Spending
        requires { IsLayoutOf tables.now layout.now }
        ensures value { result ≡ spending_in tables.now (plan_with plan.now) month }
        ensures small { AreUpTo MONTH_SIZE result }
    {
        Spending {
            bought: spent(tables, layout, plan, CostPart::Purchases, month),
            fees: spent(tables, layout, plan, CostPart::Fees, month),
            shipped: spent(tables, layout, plan, CostPart::Shipping, month),
            stored: spent(tables, layout, plan, CostPart::Storage, month),
        }
    }

    /// These parts and those of another cost together.
    pub fn plus(self, other: Spending) -> Spending
        requires small { AreUpTo (2 ^ 124) self }
        requires other_small { AreUpTo (2 ^ 124) other }
        ensures { result ≡ together self other }
    {
        Spending {
            bought: self.bought + other.bought,
            fees: self.fees + other.fees,
            shipped: self.shipped + other.shipped,
            stored: self.stored + other.stored,
        }
    }

    /// The sum of the parts.
    pub fn total(self) -> i128
        requires { AreUpTo (2 ^ 124) self }
        ensures { result ≡ total_of self }
    {
        self.bought + self.fees + self.shipped + self.stored
    }
}
