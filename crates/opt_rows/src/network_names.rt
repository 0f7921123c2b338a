ghost use Rattle.std.specs.Prelude.{◌≡◌};
ghost use Rattle.opt_rows.specs.Names.{Finds, balance_names_of, balance_names_at, balance_names, arc_names_of, arc_names, storage_names_of, storage_names, throughput_names_of, throughput_names};

use crate::counts::{arc_count, commodity_count, month_count, place_count};
use opt_model::{Arc, Place, RowName};
use opt_tables::Tables;

/// Looks for the row of this number among the balances of a commodity at a place: an error is its name, Ok how many numbers
/// are left past them.
fn find_balance_of(tables: &Tables, place: u32, commodity: u32, i: u32) -> Result<u32, RowName>
    ensures { Finds (balance_names_of tables.now place commodity) i result }
{
    let months = month_count(tables);
    if i < months {
        return Err(RowName::Balance {
            place,
            commodity,
            month: i + 1,
        });
    }
    Ok(i - months)
}

/// Looks for the row of this number among the balances at a place.
fn find_balance_at(tables: &Tables, place: u32, i: u32) -> Result<u32, RowName>
    ensures { Finds (balance_names_at tables.now place) i result }
{
    let mut rest = i;
    for commodity in 0..commodity_count(tables) {
        rest = find_balance_of(tables, place, commodity, rest)?;
    }
    Ok(rest)
}

/// Looks for the row of this number among the balances.
pub fn find_balance(tables: &Tables, i: u32) -> Result<u32, RowName>
    ensures { Finds (balance_names tables.now) i result }
{
    let mut rest = i;
    for place in 0..place_count(tables) {
        rest = find_balance_at(tables, place, rest)?;
    }
    Ok(rest)
}

/// Looks for the row of this number among those of an arc.
fn find_arc_of(tables: &Tables, number: u32, arc: &Arc, i: u32) -> Result<u32, RowName>
    ensures { Finds (arc_names_of tables.now number arc.now) i result }
{
    let departures = month_count(tables).saturating_sub(arc.lead);
    if i < departures {
        return Err(RowName::Arc {
            arc: number,
            month: i + 1,
        });
    }
    Ok(i - departures)
}

/// Looks for the row of this number among those of the arcs.
pub fn find_arc(tables: &Tables, i: u32) -> Result<u32, RowName>
    ensures { Finds (arc_names tables.now) i result }
{
    let arcs = tables.arcs();
    let mut rest = i;
    for number in 0..arc_count(tables) {
        let arc = &arcs[number as usize];
        rest = find_arc_of(tables, number, arc, rest)?;
    }
    Ok(rest)
}

/// Looks for the row of this number among those of a place's storage.
fn find_storage_of(tables: &Tables, number: u32, place: &Place, i: u32) -> Result<u32, RowName>
    ensures { Finds (storage_names_of tables.now number place.now) i result }
{
    if place.storage <= 0 {
        return Ok(i);
    }
    let months = month_count(tables);
    if i < months {
        return Err(RowName::Storage {
            place: number,
            month: i + 1,
        });
    }
    Ok(i - months)
}

/// Looks for the row of this number among those of storage.
pub fn find_storage(tables: &Tables, i: u32) -> Result<u32, RowName>
    ensures { Finds (storage_names tables.now) i result }
{
    let places = tables.places();
    let mut rest = i;
    for number in 0..place_count(tables) {
        let place = &places[number as usize];
        rest = find_storage_of(tables, number, place, rest)?;
    }
    Ok(rest)
}

/// Looks for the row of this number among those of a place's throughput.
fn find_throughput_of(tables: &Tables, number: u32, place: &Place, i: u32) -> Result<u32, RowName>
    ensures { Finds (throughput_names_of tables.now number place.now) i result }
{
    if place.throughput.is_none() {
        return Ok(i);
    }
    let months = month_count(tables);
    if i < months {
        return Err(RowName::Throughput {
            place: number,
            month: i + 1,
        });
    }
    Ok(i - months)
}

/// Looks for the row of this number among those of throughput.
pub fn find_throughput(tables: &Tables, i: u32) -> Result<u32, RowName>
    ensures { Finds (throughput_names tables.now) i result }
{
    let places = tables.places();
    let mut rest = i;
    for number in 0..place_count(tables) {
        let place = &places[number as usize];
        rest = find_throughput_of(tables, number, place, rest)?;
    }
    Ok(rest)
}
