ghost use Rattle.std.specs.Prelude.{◌≡◌, ◌^◌, pos};
ghost use Rattle.opt_model.specs.Plans.{plan_of};
ghost use Rattle.opt_system.specs.Ranges.{IsWithin};
ghost use Rattle.opt_tables.specs.Facts.{IsFrom};
ghost use Rattle.opt_report.specs.PointPlans.{plan_with};

use opt_base::Point;
use opt_model::Quantity;
use opt_network::Layout;
use std::marker::Model;

/// The plan of a point, whose values lie within the ranges of their quantities. It has a value for every quantity, 0
/// for those that do not exist.
#[derive(Debug, Drop)]
pub struct PointPlan<'a> {
    layout: &'a Layout,
    values: &'a [i64],
}

impl<'a> Model for PointPlan<'a> {
    ghost use Rattle.opt_system.specs.Ranges.{IsWithin};
    ghost use Rattle.opt_report.specs.PointPlans.{ValueList};

    ghost Value = { ValueList };

    ghost view = { λ plan. record { quantities = plan.layout.now.quantities; values = plan.values.now } };

    ghost invariant = { λ plan.
        IsWithin (record { low = plan.layout.now.lows; high = plan.layout.now.highs }) plan.values.now };
}

impl<'a> PointPlan<'a> {
    /// The plan of a point within the ranges.
    pub fn new(layout: &'a Layout, point: &'a Point) -> PointPlan<'a>
        requires { IsWithin (record { low = layout.now.lows; high = layout.now.highs }) point.now }
        ensures { plan_with result ≡ plan_of layout.now.quantities point.now }
    {
        PointPlan {
            layout,
            values: point.as_slice(),
        }
    }

    /// The value of a quantity.
    pub fn value(&self, quantity: Quantity) -> i64
        ensures value { result ≡ plan_with self.now quantity }
        ensures small { IsFrom (pos 0) (pos (2 ^ 40)) result }
    {
        let _count = self.layout.len();
        match self.layout.index(&quantity) {
            Some(number) => self.values[number as usize],
            None => 0,
        }
    }
}
