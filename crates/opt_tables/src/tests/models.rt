use super::likeness::{costs, is_arc, is_commodity, is_need, is_offer, is_place, moves, stands};
use super::{Held, NETWORK, tables_of};
use crate::Tables;
use opt_base::File;
use opt_model::{Goal, PlaceKind};
use std::process::Abort;
use std::test::Fail;

/// Whether there is one basket, that of a folder without baskets.
pub fn has_one_basket(tables: &Tables) -> bool {
    let [basket] = tables.baskets() else {
        return false;
    };
    basket.basket.as_str() == "all"
}

pub fn has_settings(tables: &Tables) -> bool {
    let settings = tables.settings();
    settings.format() == 1
        && settings.months() == 1
        && settings.days(1) == 30
        && settings.goal() == Goal::Shortfall
        && settings.gap() == 0
        && settings.nodes() == 1
        && settings.budget().is_none()
}

fn has_rice(tables: &Tables, name: &str) -> bool {
    let [rice] = tables.commodities() else {
        return false;
    };
    is_commodity(rice, name, None, 0, 600, 10)
}

fn has_energy(tables: &Tables) -> bool {
    let [energy] = tables.nutrients() else {
        return false;
    };
    let [need] = tables.needs() else {
        return false;
    };
    energy.nutrient.as_str() == "energy" && is_need(need, 0, 2100, 0, 1)
}

fn has_energy_in_rice(tables: &Tables) -> bool {
    let [content] = tables.contents() else {
        return false;
    };
    content.commodity == 0 && content.nutrient == 0 && content.per_100g == 360
}

fn has_supplier_and_point(tables: &Tables) -> bool {
    let [supplier, point] = tables.places() else {
        return false;
    };
    is_place(supplier, "S", PlaceKind::Supplier, 0, None)
        && costs(supplier, 0, 0)
        && is_place(point, "P", PlaceKind::Point, 0, None)
        && costs(point, 0, 0)
}

fn has_offer_and_arc(tables: &Tables) -> bool {
    let [offer] = tables.offers() else {
        return false;
    };
    let [arc] = tables.arcs() else {
        return false;
    };
    is_offer(offer, "o1", 0, 0, 450, 20_000)
        && stands(offer, 1, 1)
        && is_arc(arc, "a1", 0, 1)
        && moves(arc, 50, 20_000, 0)
}

fn has_persons(tables: &Tables) -> bool {
    let [persons] = tables.persons() else {
        return false;
    };
    persons.place == 1 && persons.month == 1 && persons.persons == 1000 && persons.basket == 0
}

/// The tables are those of the network, whose commodity has this name.
fn assert_network(rt: &impl Abort, tables: &Tables, name: &str) {
    assert!(rt; has_settings(tables));
    assert!(rt; has_rice(tables, name));
    assert!(rt; tables.groups().is_empty());
    assert!(rt; has_energy(tables));
    assert!(rt; has_energy_in_rice(tables));
    assert!(rt; has_supplier_and_point(tables));
    assert!(rt; has_offer_and_arc(tables));
    assert!(rt; has_persons(tables));
    assert!(rt; tables.stock().is_empty());
    assert!(rt; has_one_basket(tables));
}

#[test]
fn reads_a_network(rt: HostRuntime) -> Result<(), Fail> {
    let tables = tables_of(rt.alloc(), &NETWORK, &[])?;
    assert_network(&rt, &tables, "rice");
    Ok(())
}

#[test]
fn reads_a_table_of_a_spreadsheet(rt: HostRuntime) -> Result<(), Fail> {
    // A mark, CRLF, another order, a further column, a quoted comma.
    let changes = [
        Held(
            File::Commodities,
            b"\xef\xbb\xbfstep_g,commodity,group,note,max_g,min_g\r\n10,\"rice, white\",,spring,600,0\r\n",
        ),
        Held(
            File::Contents,
            b"commodity,nutrient,per_100g\n\"rice, white\",energy,360\n",
        ),
        Held(
            File::Offers,
            b"offer,place,commodity,price,max_kg,first,last\no1,S,\"rice, white\",450,20000,1,1\n",
        ),
    ];
    let tables = tables_of(rt.alloc(), &NETWORK, &changes)?;
    assert_network(&rt, &tables, "rice, white");
    Ok(())
}

#[test]
fn reads_names_in_quotes(rt: HostRuntime) -> Result<(), Fail> {
    // A comma, a doubled quote and a line end in a name; blanks round it, within the quotes.
    let changes = [
        Held(
            File::Commodities,
            b"commodity,group,min_g,max_g,step_g\n\" rice, \"\"white\"\"\r\nand long \",,0,600,10\n",
        ),
        Held(
            File::Contents,
            b"commodity,nutrient,per_100g\n\"rice, \"\"white\"\"\r\nand long\",energy,360\n",
        ),
        Held(
            File::Offers,
            b"offer,place,commodity,price,max_kg,first,last\no1,S,\"rice, \"\"white\"\"\r\nand long\",450,20000,1,1",
        ),
    ];
    let tables = tables_of(rt.alloc(), &NETWORK, &changes)?;
    assert_network(&rt, &tables, "rice, \"white\"\r\nand long");
    Ok(())
}

#[test]
fn reads_lines_that_end_in_any_way(rt: HostRuntime) -> Result<(), Fail> {
    // CR alone, no end, CRLF and empty lines, LF after a mark.
    let changes = [
        Held(
            File::Commodities,
            b"commodity,group,min_g,max_g,step_g\rrice,,0,600,10\r",
        ),
        Held(
            File::Contents,
            b"commodity,nutrient,per_100g\rrice,energy,360",
        ),
        Held(
            File::Places,
            b"\r\n\nplace,kind,storage,throughput,handling,storage_cost\r\n\r\nS,supplier,0,,0,0\r\n\n\r\rP,point,0,,0,0\r\n\r\n",
        ),
        Held(
            File::Persons,
            b"\xef\xbb\xbfplace,month,persons\nP,1,1000\n",
        ),
    ];
    let tables = tables_of(rt.alloc(), &NETWORK, &changes)?;
    assert_network(&rt, &tables, "rice");
    Ok(())
}
