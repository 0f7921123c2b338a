//! The rows of what arrives at the places.
ghost use Rattle.std.specs.Prelude.{◌≡◌, ◌<◌, ◌++◌, map, length, Some, pos, ◌≤ℤ◌, OnOk, IfSome};
ghost use Rattle.opt_model.specs.Quantities.{over, over_months};
ghost use Rattle.opt_model.specs.Rows.{arrived_terms, throughput_row, throughput_rows};
ghost use Rattle.opt_tables.specs.Facts.{IsKilograms};
ghost use Rattle.opt_network.specs.Numbering.{IsLayoutOf};
ghost use Rattle.opt_rows.specs.Gathering.{entries_of};
ghost use Rattle.opt_rows.specs.Listed.{arrivals_at, IsNetworkOf};
ghost use Rattle.opt_rows.specs.Systems.{row_over};

use crate::arrivals::add_arrivals;
use crate::counts::{commodity_count, month_count, place_count};
use crate::flows::{Network, Way};
use crate::spot::Spot;
use crate::term_buffer::{TermBuffer, push_at_most};
use opt_base::OutOfMemory;
use opt_model::Place;
use opt_network::Layout;
use opt_system::RowList;
use opt_tables::Tables;
use std::alloc::Global;

/// A place with a throughput, which is in kilograms a month, and the arcs that lead to it.
#[derive(Clone, Copy)]
struct Intake<'a> {
    place: u32,
    arrivals: &'a [Way],
    throughput: i64,
}

/// Adds what arrives at a place in a month, of all commodities.
fn add_all_arrivals(
    terms: &mut TermBuffer,
    tables: &Tables,
    layout: &Layout,
    intake: &Intake<'_>,
    month: u32,
) -> Result<(), OutOfMemory>
    requires layout { IsLayoutOf tables.now layout.now }
    requires arrivals { intake.now.arrivals.now ≡ arrivals_at tables.now intake.now.place }
    ensures { OnOk result (terms.new ≡ terms.old ++ entries_of layout.now.quantities
        (over tables.now.commodities λ c _. arrived_terms tables.now intake.now.place c month)) }
{
    for commodity in 0..commodity_count(tables) {
        let spot = Spot {
            place: intake.place,
            commodity,
            month,
        };
        add_arrivals(terms, layout, intake.arrivals, spot)?;
    }
    Ok(())
}

/// Adds the row of a place in a month.
fn add_row(
    rows: &mut RowList,
    alloc: Global,
    tables: &Tables,
    layout: &Layout,
    intake: &Intake<'_>,
    month: u32,
) -> Result<(), OutOfMemory>
    requires layout { IsLayoutOf tables.now layout.now }
    requires arrivals { intake.now.arrivals.now ≡ arrivals_at tables.now intake.now.place }
    requires throughput { pos 0 ≤ℤ intake.now.throughput }
    ensures { OnOk result (rows.new ≡ rows.old ++ map (row_over layout.now.quantities)
        (throughput_row tables.now intake.now.place (Some intake.now.throughput) month)) }
{
    let _settings = tables.settings();
    let mut terms = TermBuffer::new(alloc);
    add_all_arrivals(&mut terms, tables, layout, intake, month)?;
    push_at_most(rows, layout, &terms, &intake.throughput)?;
    Ok(())
}

/// Adds the rows of a place in all months.
fn add_months(
    rows: &mut RowList,
    alloc: Global,
    tables: &Tables,
    layout: &Layout,
    intake: &Intake<'_>,
) -> Result<(), OutOfMemory>
    requires layout { IsLayoutOf tables.now layout.now }
    requires arrivals { intake.now.arrivals.now ≡ arrivals_at tables.now intake.now.place }
    requires throughput { pos 0 ≤ℤ intake.now.throughput }
    ensures { OnOk result (rows.new ≡ rows.old ++ map (row_over layout.now.quantities)
        (over_months tables.now λ m.
        throughput_row tables.now intake.now.place (Some intake.now.throughput) m)) }
{
    for earlier in 0..month_count(tables) {
        add_row(rows, alloc, tables, layout, intake, earlier + 1)?;
    }
    Ok(())
}

/// Adds the rows of a place with this throughput.
fn add_limited(
    rows: &mut RowList,
    alloc: Global,
    tables: &Tables,
    layout: &Layout,
    network: &Network,
    place: u32,
    throughput: &i64,
) -> Result<(), OutOfMemory>
    requires layout { IsLayoutOf tables.now layout.now }
    requires network { IsNetworkOf tables.now network.now }
    requires place { place < length tables.now.places }
    requires throughput { pos 0 ≤ℤ throughput.now }
    ensures { OnOk result (rows.new ≡ rows.old ++ map (row_over layout.now.quantities)
        (over_months tables.now λ m. throughput_row tables.now place (Some throughput.now) m)) }
{
    let intake = Intake {
        place,
        arrivals: network.arrivals(place),
        throughput: *throughput,
    };
    add_months(rows, alloc, tables, layout, &intake)?;
    Ok(())
}

/// Adds the rows of a place, where it has a throughput.
fn add_place(
    rows: &mut RowList,
    alloc: Global,
    tables: &Tables,
    layout: &Layout,
    network: &Network,
    number: u32,
    place: &Place,
) -> Result<(), OutOfMemory>
    requires layout { IsLayoutOf tables.now layout.now }
    requires network { IsNetworkOf tables.now network.now }
    requires place { number < length tables.now.places }
    requires throughput { IfSome place.now.throughput IsKilograms }
    ensures { OnOk result (rows.new ≡ rows.old ++ map (row_over layout.now.quantities)
        (over_months tables.now λ m. throughput_row tables.now number place.now.throughput m)) }
{
    match place.throughput {
        Some(throughput) => {
            add_limited(rows, alloc, tables, layout, network, number, &throughput)?;
            Ok(())
        }
        None => Ok(()),
    }
}

/// Adds the rows of all places.
pub fn add_throughput_rows(
    rows: &mut RowList,
    alloc: Global,
    tables: &Tables,
    layout: &Layout,
    network: &Network,
) -> Result<(), OutOfMemory>
    requires layout { IsLayoutOf tables.now layout.now }
    requires network { IsNetworkOf tables.now network.now }
    ensures { OnOk result (rows.new
        ≡ rows.old ++ map (row_over layout.now.quantities) (throughput_rows tables.now)) }
{
    let _settings = tables.settings();
    let places = tables.places();
    for number in 0..place_count(tables) {
        let place = &places[number as usize];
        add_place(rows, alloc, tables, layout, network, number, place)?;
    }
    Ok(())
}
