//! What arrives at a spot.
ghost use Rattle.std.specs.Prelude.{◌≡◌, ◌<◌, ◌-◌, [], ◌∷◌, ◌++◌, nat_lt, pos, OnOk};
ghost use Rattle.std.specs.List.{flat_map};
ghost use Rattle.opt_model.specs.Quantities.{list_if};
ghost use Rattle.opt_model.specs.declared.quantity.Quantity.TheVariants.{Ship};
ghost use Rattle.opt_rows.specs.Gathering.{entries_of};

use crate::flows::Way;
use crate::spot::Spot;
use crate::term_buffer::TermBuffer;
use opt_base::OutOfMemory;
use opt_model::Quantity;
use opt_network::Layout;
use std::alloc::AllocError;

/// What leaves on an arc so that it arrives at a spot.
fn shipment(arrival: Way, spot: Spot) -> Quantity
    requires { arrival.lead < spot.month }
    ensures { result ≡ Ship arrival.arc spot.commodity (spot.month - arrival.lead) }
{
    Quantity::Ship {
        arc: arrival.arc,
        commodity: spot.commodity,
        month: spot.month - arrival.lead,
    }
}

/// Adds what arrives on an arc, where it can have left in the plan.
fn add_arrival(
    terms: &mut TermBuffer,
    layout: &Layout,
    arrival: Way,
    spot: Spot,
) -> Result<(), AllocError>
    ensures { OnOk result (terms.new ≡ terms.old ++ entries_of layout.now.quantities
        (list_if (nat_lt arrival.lead spot.month)
        ((Ship arrival.arc spot.commodity (spot.month - arrival.lead), pos 1) ∷ []))) }
{
    if arrival.lead < spot.month {
        terms.add(layout, (shipment(arrival, spot), 1))?;
    }
    Ok(())
}

/// Adds what arrives.
pub fn add_arrivals(
    terms: &mut TermBuffer,
    layout: &Layout,
    arrivals: &[Way],
    spot: Spot,
) -> Result<(), OutOfMemory>
    ensures { OnOk result (terms.new ≡ terms.old ++ entries_of layout.now.quantities
        (flat_map (λ arrival. list_if (nat_lt arrival.lead spot.month)
        ((Ship arrival.arc spot.commodity (spot.month - arrival.lead), pos 1) ∷ []))
        arrivals.now)) }
{
    for arrival in arrivals {
        add_arrival(terms, layout, *arrival, spot)?;
    }
    Ok(())
}
