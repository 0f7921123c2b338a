ghost use Rattle.std.specs.Prelude.{◌≡◌, position, Some};
ghost use Rattle.opt_model.specs.Quantities.{quantities, low, high, same_quantity};
ghost use Rattle.opt_network.specs.Numbering.{IsLayoutOf, IsSpan};

use opt_model::Quantity;
use opt_network::Layout;
use opt_tables::Tables;

/// The least and the greatest value of a quantity.
#[derive(Clone, Copy, Debug, PartialEq, Eq)]
pub struct Span {
    pub low: i64,
    pub high: i64,
}

/// The range of the quantity of a number.
pub fn span_of(tables: &Tables, layout: &Layout, quantity: Quantity, number: u32) -> Span
    requires layout { IsLayoutOf tables.now layout.now }
    requires number { position (same_quantity quantity) (quantities tables.now) ≡ Some number }
    ensures low { result.low ≡ low tables.now quantity }
    ensures high { result.high ≡ high tables.now quantity }
    ensures span { IsSpan result.low result.high }
{
    let _settings = tables.settings();
    let (low, high) = layout.range(number);
    Span { low, high }
}
