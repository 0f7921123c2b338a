//! The quantities that are shipped, kept and handed out, in the order of their numbers.
ghost use Rattle.std.specs.Prelude.{◌≡◌, ◌≤◌, [], ◌∷◌, ◌++◌, OnOk};
ghost use Rattle.opt_model.specs.Quantities.{over, over_months, list_if, ships, keeps, feeds};
ghost use Rattle.opt_model.specs.declared.quantity.Quantity.TheVariants.{Ship, Keep, Feed};
ghost use Rattle.opt_model.specs.declared.limits.TheConstants.{LEAD_LIMIT};
ghost use Rattle.opt_network.specs.Fed.{MarksFed};
ghost use Rattle.opt_tables.specs.Facts.{IsModel};
ghost use Rattle.opt_network.specs.Counts.{arrives, has_storage, is_fed};

use crate::fed::FedMonths;
use crate::listing::add_if;
use crate::months::{arrives, departure_months, fed_months, has_storage};
use opt_model::{Arc, Place, Quantity};
use opt_tables::Tables;
use std::alloc::AllocError;

/// Adds the shipments of a commodity on an arc.
fn add_ship_months(
    list: &mut Vec<Quantity>,
    tables: &Tables,
    number: u32,
    commodity: u32,
    arc: &Arc,
) -> Result<(), AllocError>
    requires model { IsModel tables.now }
    requires lead { arc.now.lead ≤ LEAD_LIMIT }
    ensures { OnOk result (list.new.items ≡ list.old.items ++ (over_months tables.now
        λ m. list_if (arrives tables.now.settings.months arc.now m) (Ship number commodity m ∷ []))) }
{
    let months = tables.settings().months();
    for earlier in 0..months {
        let month = earlier + 1;
        let ship = Quantity::Ship {
            arc: number,
            commodity,
            month,
        };
        add_if(list, arrives(months, arc, month), ship)?;
    }
    Ok(())
}

/// Adds the shipments on an arc.
fn add_arc(
    list: &mut Vec<Quantity>,
    tables: &Tables,
    number: u32,
    arc: &Arc,
) -> Result<(), AllocError>
    requires model { IsModel tables.now }
    requires lead { arc.now.lead ≤ LEAD_LIMIT }
    ensures { OnOk result (list.new.items ≡ list.old.items
        ++ (over tables.now.commodities λ c _. over_months tables.now
        λ m. list_if (arrives tables.now.settings.months arc.now m) (Ship number c m ∷ []))) }
{
    if departure_months(arc, tables.settings().months()) == 0 {
        return Ok(());
    }
    for commodity in 0..tables.commodities().len() {
        add_ship_months(list, tables, number, commodity as u32, arc)?;
    }
    Ok(())
}

/// Adds the shipments on all arcs.
pub fn add_ships(list: &mut Vec<Quantity>, tables: &Tables) -> Result<(), AllocError>
    requires { IsModel tables.now }
    ensures { OnOk result (list.new.items ≡ list.old.items ++ ships tables.now) }
{
    for (number, arc) in tables.arcs().iter().enumerate() {
        add_arc(list, tables, number as u32, arc)?;
    }
    Ok(())
}

/// Adds what is kept of a commodity at a place.
fn add_keep_months(
    list: &mut Vec<Quantity>,
    tables: &Tables,
    number: u32,
    commodity: u32,
    place: &Place,
) -> Result<(), AllocError>
    requires { IsModel tables.now }
    ensures { OnOk result (list.new.items ≡ list.old.items ++ (over_months tables.now
        λ m. list_if (has_storage place.now) (Keep number commodity m ∷ []))) }
{
    for earlier in 0..tables.settings().months() {
        let keep = Quantity::Keep {
            place: number,
            commodity,
            month: earlier + 1,
        };
        add_if(list, has_storage(place), keep)?;
    }
    Ok(())
}

/// Adds what is kept at a place.
fn add_storage(
    list: &mut Vec<Quantity>,
    tables: &Tables,
    number: u32,
    place: &Place,
) -> Result<(), AllocError>
    requires { IsModel tables.now }
    ensures { OnOk result (list.new.items ≡ list.old.items
        ++ (over tables.now.commodities λ c _. over_months tables.now
        λ m. list_if (has_storage place.now) (Keep number c m ∷ []))) }
{
    if !has_storage(place) {
        return Ok(());
    }
    for commodity in 0..tables.commodities().len() {
        add_keep_months(list, tables, number, commodity as u32, place)?;
    }
    Ok(())
}

/// Adds what is kept at all places.
pub fn add_keeps(list: &mut Vec<Quantity>, tables: &Tables) -> Result<(), AllocError>
    requires { IsModel tables.now }
    ensures { OnOk result (list.new.items ≡ list.old.items ++ keeps tables.now) }
{
    for (number, place) in tables.places().iter().enumerate() {
        add_storage(list, tables, number as u32, place)?;
    }
    Ok(())
}

/// Adds what is handed out of a commodity at a place.
fn add_feed_months(
    list: &mut Vec<Quantity>,
    tables: &Tables,
    fed: &FedMonths,
    number: u32,
    commodity: u32,
    place: &Place,
) -> Result<(), AllocError>
    requires model { IsModel tables.now }
    requires fed { MarksFed tables.now fed.now }
    ensures { OnOk result (list.new.items ≡ list.old.items ++ (over_months tables.now
        λ m. list_if (is_fed tables.now number place.now.kind m) (Feed number commodity m ∷ []))) }
{
    for earlier in 0..tables.settings().months() {
        let month = earlier + 1;
        let feed = Quantity::Feed {
            place: number,
            commodity,
            month,
        };
        add_if(list, fed.is_fed(number, place.kind, month), feed)?;
    }
    Ok(())
}

/// Adds what is handed out at a place.
fn add_place(
    list: &mut Vec<Quantity>,
    tables: &Tables,
    fed: &FedMonths,
    number: u32,
    place: &Place,
) -> Result<(), AllocError>
    requires model { IsModel tables.now }
    requires fed { MarksFed tables.now fed.now }
    ensures { OnOk result (list.new.items ≡ list.old.items
        ++ (over tables.now.commodities λ c _. over_months tables.now
        λ m. list_if (is_fed tables.now number place.now.kind m) (Feed number c m ∷ []))) }
{
    if fed_months(tables, fed, number, place) == 0 {
        return Ok(());
    }
    for commodity in 0..tables.commodities().len() {
        add_feed_months(list, tables, fed, number, commodity as u32, place)?;
    }
    Ok(())
}

/// Adds what is handed out at all places.
pub fn add_feeds(
    list: &mut Vec<Quantity>,
    tables: &Tables,
    fed: &FedMonths,
) -> Result<(), AllocError>
    requires model { IsModel tables.now }
    requires fed { MarksFed tables.now fed.now }
    ensures { OnOk result (list.new.items ≡ list.old.items ++ feeds tables.now) }
{
    for (number, place) in tables.places().iter().enumerate() {
        add_place(list, tables, fed, number as u32, place)?;
    }
    Ok(())
}
