ghost use Rattle.std.specs.Prelude.{◌≡◌, IfOk};

use opt_base::OutOfMemory;
use opt_network::Layout;
use opt_system::Range;
use std::alloc::Global;

/// The ranges of the quantities of a layout, by number.
pub fn root_range(alloc: Global, layout: &Layout) -> Result<Range, OutOfMemory>
    ensures { IfOk result (λ range. range ≡ record { low = layout.now.lows; high = layout.now.highs }) }
{
    let mut low = Vec::new(alloc);
    let mut high = Vec::new(alloc);
    for i in 0..layout.len() {
        let range = layout.range(i);
        low.push(range.0)?;
        high.push(range.1)?;
    }
    Ok(Range::from_vecs(low, high))
}
