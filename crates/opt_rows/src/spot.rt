//! Where and when rows speak of a commodity.
ghost use Rattle.std.specs.Prelude.{◌≡◌};
ghost use Rattle.opt_model.specs.declared.quantity.Quantity.TheVariants.{Feed};

use opt_model::Quantity;

/// A commodity at a place in a month. The place and the commodity go by the numbers of their records, months from 1.
#[derive(Clone, Copy, Debug, PartialEq, Eq)]
pub struct Spot {
    pub place: u32,
    pub commodity: u32,
    pub month: u32,
}

/// What is handed out at a spot.
pub fn handed_out(spot: Spot) -> Quantity
    ensures { result ≡ Feed spot.place spot.commodity spot.month }
{
    Quantity::Feed {
        place: spot.place,
        commodity: spot.commodity,
        month: spot.month,
    }
}
