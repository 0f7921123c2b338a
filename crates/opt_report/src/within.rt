ghost use Rattle.std.specs.Prelude.{◌↔◌, IsTrue};
ghost use Rattle.opt_system.specs.Ranges.{IsWithin};

use opt_base::Point;
use opt_network::Layout;

/// Whether a point has one value for each quantity, and each lies within its range.
pub fn is_within(layout: &Layout, point: &Point) -> bool
    ensures { IsTrue result
        ↔ IsWithin (record { low = layout.now.lows; high = layout.now.highs }) point.now }
{
    let values = point.as_slice();
    if values.len() != layout.len() as usize {
        return false;
    }
    for i in 0..layout.len() {
        let (low, high) = layout.range(i);
        let value = values[i as usize];
        if value < low || high < value {
            return false;
        }
    }
    true
}
