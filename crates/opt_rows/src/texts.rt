ghost use Rattle.std.specs.Prelude.{◌≡◌, IfOk, string_bytes};
ghost use Rattle.opt_model.specs.RowTexts.{row_text, one_named, two_named, basket_named, place_name as place_of, commodity_name as commodity_of};

use crate::record_names::{
    arc_name, basket_name, commodity_name, group_name, nutrient_name, offer_name, place_name,
};
use opt_base::OutOfMemory;
use opt_model::{RowName, has_baskets};
use opt_tables::Tables;
use std::alloc::{AllocError, Global};

/// A row for one record in a month.
fn one_named(alloc: Global, kind: &str, name: &str, month: u32) -> Result<String, AllocError>
    ensures { IfOk result (λ text. string_bytes text ≡ one_named kind.now name.now month) }
{
    format!(in alloc; "{kind} {name} month {month}")
}

/// A row for two records in a month.
fn two_named(
    alloc: Global,
    kind: &str,
    first: &str,
    second: &str,
    month: u32,
) -> Result<String, AllocError>
    ensures { IfOk result (λ text. string_bytes text
        ≡ two_named kind.now first.now second.now month) }
{
    format!(in alloc; "{kind} {first} {second} month {month}")
}

/// A row for a record of a basket in a month. The basket is named from format 2 on.
fn basket_named(
    alloc: Global,
    tables: &Tables,
    kind: &str,
    basket: u32,
    name: &str,
    month: u32,
) -> Result<String, AllocError>
    ensures { IfOk result (λ text. string_bytes text
        ≡ basket_named tables.now kind.now basket name.now month) }
{
    if has_baskets(tables.settings().format()) {
        two_named(alloc, kind, basket_name(tables, basket), name, month)
    } else {
        one_named(alloc, kind, name, month)
    }
}

/// A row for a place and a commodity in a month.
fn place_named(
    alloc: Global,
    tables: &Tables,
    kind: &str,
    place: u32,
    commodity: u32,
    month: u32,
) -> Result<String, AllocError>
    ensures { IfOk result (λ text. string_bytes text
        ≡ two_named kind.now (place_of tables.now place) (commodity_of tables.now commodity) month) }
{
    let place = place_name(tables, place);
    let commodity = commodity_name(tables, commodity);
    two_named(alloc, kind, place, commodity, month)
}

/// The printed name of a row: its kind, the names of the records that it is for, and its month.
pub fn row_text(alloc: Global, tables: &Tables, name: RowName) -> Result<String, OutOfMemory>
    ensures { IfOk result (λ text. string_bytes text ≡ row_text tables.now name) }
{
    let text = match name {
        RowName::Nutrient {
            basket,
            nutrient,
            month,
        } => {
            let name = nutrient_name(tables, nutrient);
            basket_named(alloc, tables, "nutrient", basket, name, month)?
        }
        RowName::GroupLow {
            basket,
            group,
            month,
        } => {
            let name = group_name(tables, group);
            basket_named(alloc, tables, "group-low", basket, name, month)?
        }
        RowName::GroupHigh {
            basket,
            group,
            month,
        } => {
            let name = group_name(tables, group);
            basket_named(alloc, tables, "group-high", basket, name, month)?
        }
        RowName::HandoutLow {
            place,
            commodity,
            month,
        } => place_named(alloc, tables, "handout-low", place, commodity, month)?,
        RowName::HandoutHigh {
            place,
            commodity,
            month,
        } => place_named(alloc, tables, "handout-high", place, commodity, month)?,
        RowName::Balance {
            place,
            commodity,
            month,
        } => place_named(alloc, tables, "balance", place, commodity, month)?,
        RowName::Arc { arc, month } => { one_named(alloc, "arc", arc_name(tables, arc), month)? }
        RowName::Storage { place, month } => {
            one_named(alloc, "storage", place_name(tables, place), month)?
        }
        RowName::Throughput { place, month } => {
            one_named(alloc, "throughput", place_name(tables, place), month)?
        }
        RowName::Budget => "budget".to_string(alloc)?,
        RowName::LotLow { offer, month } => {
            one_named(alloc, "lot-low", offer_name(tables, offer), month)?
        }
        RowName::LotHigh { offer, month } => {
            one_named(alloc, "lot-high", offer_name(tables, offer), month)?
        }
    };
    Ok(text)
}
