ghost use Rattle.opt_rows.specs.Names.{Finds, lot_names_in, lot_names_of, lot_names};

use crate::counts::{month_count, offer_count};
use opt_model::{Offer, RowName};
use opt_network::is_ordered;
use opt_tables::Tables;

/// Looks for the row of this number among those of an offer's lot in a month: an error is its name, Ok how many numbers are
/// left past them.
fn find_lot_in(number: u32, offer: &Offer, month: u32, i: u32) -> Result<u32, RowName>
    ensures { Finds (lot_names_in number offer.now month) i result }
{
    if !is_ordered(offer, month) {
        return Ok(i);
    }
    if i == 0 {
        return Err(RowName::LotLow {
            offer: number,
            month,
        });
    }
    if i == 1 {
        return Err(RowName::LotHigh {
            offer: number,
            month,
        });
    }
    Ok(i - 2)
}

/// Looks for the row of this number among those of an offer's lots.
fn find_lot_of(tables: &Tables, number: u32, offer: &Offer, i: u32) -> Result<u32, RowName>
    ensures { Finds (lot_names_of tables.now number offer.now) i result }
{
    let mut rest = i;
    for earlier in 0..month_count(tables) {
        rest = find_lot_in(number, offer, earlier + 1, rest)?;
    }
    Ok(rest)
}

/// Looks for the row of this number among those of the lots.
pub fn find_lot(tables: &Tables, i: u32) -> Result<u32, RowName>
    ensures { Finds (lot_names tables.now) i result }
{
    let offers = tables.offers();
    let mut rest = i;
    for number in 0..offer_count(tables) {
        let offer = &offers[number as usize];
        rest = find_lot_of(tables, number, offer, rest)?;
    }
    Ok(rest)
}
