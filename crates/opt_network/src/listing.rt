//! The quantities of a model, in the order of their numbers.
ghost use Rattle.std.specs.Prelude.{◌≡◌, [], ◌∷◌, ◌++◌, OnOk, IfOk};
ghost use Rattle.opt_model.specs.Quantities.{over, over_months, list_if, is_offered};
ghost use Rattle.opt_model.specs.Quantities.{rations, shorts, buys, orders, quantities};
ghost use Rattle.opt_model.specs.declared.quantity.Quantity.TheVariants.{Ration, Short, Buy, Order};
ghost use Rattle.opt_network.specs.Fed.{MarksFed};
ghost use Rattle.opt_tables.specs.Facts.{IsModel};
ghost use Rattle.opt_network.specs.Counts.{is_ordered};

use crate::fed::FedMonths;
use crate::flows::{add_feeds, add_keeps, add_ships};
use crate::months::{is_offered, is_ordered};
use opt_model::{Offer, Quantity};
use opt_tables::Tables;
use std::alloc::{AllocError, Global};

/// Adds a quantity, where it exists.
pub fn add_if(list: &mut Vec<Quantity>, exists: bool, quantity: Quantity) -> Result<(), AllocError>
    ensures { OnOk result (list.new.items ≡ list.old.items ++ list_if exists (quantity ∷ [])) }
{
    if exists {
        list.push(quantity)?;
    }
    Ok(())
}

/// Adds the rations of a commodity in a basket.
fn add_ration_months(
    list: &mut Vec<Quantity>,
    tables: &Tables,
    basket: u32,
    commodity: u32,
) -> Result<(), AllocError>
    requires { IsModel tables.now }
    ensures { OnOk result (list.new.items
        ≡ list.old.items ++ (over_months tables.now λ m. Ration basket commodity m ∷ [])) }
{
    for earlier in 0..tables.settings().months() {
        let ration = Quantity::Ration {
            basket,
            commodity,
            month: earlier + 1,
        };
        add_if(list, true, ration)?;
    }
    Ok(())
}

/// Adds the rations of a basket.
fn add_basket(list: &mut Vec<Quantity>, tables: &Tables, basket: u32) -> Result<(), AllocError>
    requires { IsModel tables.now }
    ensures { OnOk result (list.new.items ≡ list.old.items
        ++ (over tables.now.commodities λ c _. over_months tables.now λ m. Ration basket c m ∷ [])) }
{
    for commodity in 0..tables.commodities().len() {
        add_ration_months(list, tables, basket, commodity as u32)?;
    }
    Ok(())
}

/// Adds the rations of all baskets.
fn add_rations(list: &mut Vec<Quantity>, tables: &Tables) -> Result<(), AllocError>
    requires { IsModel tables.now }
    ensures { OnOk result (list.new.items ≡ list.old.items ++ rations tables.now) }
{
    for basket in 0..tables.baskets().len() {
        add_basket(list, tables, basket as u32)?;
    }
    Ok(())
}

/// Adds the shortfalls of a need.
fn add_need(list: &mut Vec<Quantity>, tables: &Tables, need: u32) -> Result<(), AllocError>
    requires { IsModel tables.now }
    ensures { OnOk result (list.new.items
        ≡ list.old.items ++ (over_months tables.now λ m. Short need m ∷ [])) }
{
    for earlier in 0..tables.settings().months() {
        let short = Quantity::Short {
            need,
            month: earlier + 1,
        };
        add_if(list, true, short)?;
    }
    Ok(())
}

/// Adds the shortfalls of all needs.
fn add_shorts(list: &mut Vec<Quantity>, tables: &Tables) -> Result<(), AllocError>
    requires { IsModel tables.now }
    ensures { OnOk result (list.new.items ≡ list.old.items ++ shorts tables.now) }
{
    for need in 0..tables.needs().len() {
        add_need(list, tables, need as u32)?;
    }
    Ok(())
}

/// Adds the purchases of an offer.
fn add_offer(
    list: &mut Vec<Quantity>,
    tables: &Tables,
    number: u32,
    offer: &Offer,
) -> Result<(), AllocError>
    requires { IsModel tables.now }
    ensures { OnOk result (list.new.items ≡ list.old.items
        ++ (over_months tables.now λ m. list_if (is_offered offer.now m) (Buy number m ∷ []))) }
{
    for earlier in 0..tables.settings().months() {
        let month = earlier + 1;
        let buy = Quantity::Buy {
            offer: number,
            month,
        };
        add_if(list, is_offered(offer, month), buy)?;
    }
    Ok(())
}

/// Adds the purchases of all offers.
fn add_buys(list: &mut Vec<Quantity>, tables: &Tables) -> Result<(), AllocError>
    requires { IsModel tables.now }
    ensures { OnOk result (list.new.items ≡ list.old.items ++ buys tables.now) }
{
    for (number, offer) in tables.offers().iter().enumerate() {
        add_offer(list, tables, number as u32, offer)?;
    }
    Ok(())
}

/// Adds the orders of an offer.
fn add_orders_of(
    list: &mut Vec<Quantity>,
    tables: &Tables,
    number: u32,
    offer: &Offer,
) -> Result<(), AllocError>
    requires { IsModel tables.now }
    ensures { OnOk result (list.new.items ≡ list.old.items
        ++ (over_months tables.now λ m. list_if (is_ordered offer.now m) (Order number m ∷ []))) }
{
    for earlier in 0..tables.settings().months() {
        let month = earlier + 1;
        let order = Quantity::Order {
            offer: number,
            month,
        };
        add_if(list, is_ordered(offer, month), order)?;
    }
    Ok(())
}

/// Adds the orders of all offers.
fn add_orders(list: &mut Vec<Quantity>, tables: &Tables) -> Result<(), AllocError>
    requires { IsModel tables.now }
    ensures { OnOk result (list.new.items ≡ list.old.items ++ orders tables.now) }
{
    for (number, offer) in tables.offers().iter().enumerate() {
        add_orders_of(list, tables, number as u32, offer)?;
    }
    Ok(())
}

/// The quantities of a model, in the order of their numbers.
pub fn list_quantities(
    alloc: Global,
    tables: &Tables,
    fed: &FedMonths,
) -> Result<Vec<Quantity>, AllocError>
    requires model { IsModel tables.now }
    requires fed { MarksFed tables.now fed.now }
    ensures { IfOk result (λ list. list.items ≡ quantities tables.now) }
{
    let mut list = Vec::new(alloc);
    add_rations(&mut list, tables)?;
    add_shorts(&mut list, tables)?;
    add_buys(&mut list, tables)?;
    add_ships(&mut list, tables)?;
    add_keeps(&mut list, tables)?;
    add_feeds(&mut list, tables, fed)?;
    add_orders(&mut list, tables)?;
    Ok(list)
}
