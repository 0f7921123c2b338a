ghost use Rattle.opt_rows.specs.Names.{Finds, handout_names_in, handout_names_of, handout_names_at, handout_names};

use crate::counts::{commodity_count, month_count, place_count};
use opt_model::{Place, RowName};
use opt_network::is_fed;
use opt_tables::Tables;

/// Looks for the row of this number among those of what a point hands out of a commodity in a month: an error is its name, Ok
/// how many numbers are left past them.
fn find_handout_in(
    tables: &Tables,
    number: u32,
    place: &Place,
    commodity: u32,
    month: u32,
    i: u32,
) -> Result<u32, RowName>
    ensures { Finds (handout_names_in tables.now number place.now commodity month) i result }
{
    // The call says that the tables are those of a model, which `is_fed` needs.
    let _settings = tables.settings();
    if !is_fed(tables, number, place.kind, month) {
        return Ok(i);
    }
    if i == 0 {
        return Err(RowName::HandoutLow {
            place: number,
            commodity,
            month,
        });
    }
    if i == 1 {
        return Err(RowName::HandoutHigh {
            place: number,
            commodity,
            month,
        });
    }
    Ok(i - 2)
}

/// Looks for the row of this number among those of what a point hands out of a commodity.
fn find_handout_of(
    tables: &Tables,
    number: u32,
    place: &Place,
    commodity: u32,
    i: u32,
) -> Result<u32, RowName>
    ensures { Finds (handout_names_of tables.now number place.now commodity) i result }
{
    let mut rest = i;
    for earlier in 0..month_count(tables) {
        rest = find_handout_in(tables, number, place, commodity, earlier + 1, rest)?;
    }
    Ok(rest)
}

/// Looks for the row of this number among those of what a point hands out.
fn find_handout_at(tables: &Tables, number: u32, place: &Place, i: u32) -> Result<u32, RowName>
    ensures { Finds (handout_names_at tables.now number place.now) i result }
{
    let mut rest = i;
    for commodity in 0..commodity_count(tables) {
        rest = find_handout_of(tables, number, place, commodity, rest)?;
    }
    Ok(rest)
}

/// Looks for the row of this number among those of handing out.
pub fn find_handout(tables: &Tables, i: u32) -> Result<u32, RowName>
    ensures { Finds (handout_names tables.now) i result }
{
    let places = tables.places();
    let mut rest = i;
    for number in 0..place_count(tables) {
        let place = &places[number as usize];
        rest = find_handout_at(tables, number, place, rest)?;
    }
    Ok(rest)
}
