use super::likeness::{
    costs, is_arc, is_commodity, is_group, is_need, is_offer, is_place, moves, stands,
};
use super::models::{has_one_basket, has_settings};
use super::{Held, SETTINGS, tables_of};
use crate::Tables;
use opt_base::File;
use opt_model::PlaceKind;
use std::process::Abort;
use std::test::Fail;

/// A folder with all files: two places of each kind, groups, stock, and numbers at the ends of their ranges.
const FOLDER: [Held<'static>; 10] = [
    Held(File::Settings, SETTINGS),
    Held(
        File::Commodities,
        b"commodity,group,min_g,max_g,step_g\nrice,fats,0,600,10\noil,fats,25,25,5\nsalt,cereals,2000,2000,2000\nmaize,,0,0,1\n",
    ),
    Held(
        File::Groups,
        b"group,min_g,max_g\ncereals,100,99\nfats,0,1000000\n",
    ),
    Held(
        File::Nutrients,
        b"nutrient,required,max_short,weight\nenergy,2100,0,1\nfat,1000000000,1000000000,1000000\n",
    ),
    Held(
        File::Contents,
        b"commodity,nutrient,per_100g\noil,fat,1000000\nrice,energy,360\noil,energy,884\n",
    ),
    Held(
        File::Places,
        b"place,kind,storage,throughput,handling,storage_cost\nS1,supplier,0,,0,0\nS2,supplier,9,8,7,6\nQ1,port,2000000,10000000,10,2\nQ2,port,0,0,0,0\nH1,hub,500000,,5,2\nH2,hub,1000000000,1000000000,1000000,1000000\nP1,point,100,,0,1\nP2,point,0,20,3,0\n",
    ),
    Held(
        File::Offers,
        b"offer,place,commodity,price,max_kg,first,last\no1,S1,rice,450,20000,1,1\no2,S2,salt,1000000,1000000000,36,2\n",
    ),
    Held(
        File::Arcs,
        b"arc,from,to,cost,capacity,lead\nS1-Q1,S1,Q1,60,10000000,1\nQ2-H2,Q2,H2,1000000,1000000000,12\nP1-P2,P1,P2,0,0,0\n",
    ),
    Held(
        File::Persons,
        b"place,month,persons\nP2,1,10000000\nP1,01,0\n",
    ),
    Held(
        File::Stock,
        b"place,commodity,month,kg\nP1,rice,1,17700\nS2,oil,1,0\nP1,maize,001,1000000000\n",
    ),
];

/// The same tables with their columns in the opposite order and further columns; two of them have a mark.
const TURNED: [Held<'static>; 10] = [
    Held(
        File::Settings,
        b"\xef\xbb\xbfnodes = 1\ngap = 0\ngoal = 'shortfall'\ndays = [30]\nmonths = 1\nformat = 1\nnote = 'x'\n",
    ),
    Held(
        File::Commodities,
        b"note,step_g,max_g,min_g,group,commodity\n,10,600,0,fats,rice\n,5,25,25,fats,oil\n,2000,2000,2000,cereals,salt\n,1,0,0,,maize\n",
    ),
    Held(
        File::Groups,
        b"max_g,min_g,group,\n99,100,cereals,x\n1000000,0,fats,y\n",
    ),
    Held(
        File::Nutrients,
        b"weight,max_short,required,nutrient\n1,0,2100,energy\n1000000,1000000000,1000000000,fat\n",
    ),
    Held(
        File::Contents,
        b"\xef\xbb\xbfper_100g,nutrient,commodity\n1000000,fat,oil\n360,energy,rice\n884,energy,oil\n",
    ),
    Held(
        File::Places,
        b"storage_cost,handling,throughput,storage,kind,place\n0,0,,0,supplier,S1\n6,7,8,9,supplier,S2\n2,10,10000000,2000000,port,Q1\n0,0,0,0,port,Q2\n2,5,,500000,hub,H1\n1000000,1000000,1000000000,1000000000,hub,H2\n1,0,,100,point,P1\n0,3,20,0,point,P2\n",
    ),
    Held(
        File::Offers,
        b"last,first,max_kg,price,commodity,place,offer\n1,1,20000,450,rice,S1,o1\n2,36,1000000000,1000000,salt,S2,o2\n",
    ),
    Held(
        File::Arcs,
        b"lead,capacity,cost,to,from,arc\n1,10000000,60,Q1,S1,S1-Q1\n12,1000000000,1000000,H2,Q2,Q2-H2\n0,0,0,P2,P1,P1-P2\n",
    ),
    Held(
        File::Persons,
        b"persons,x,month,x,place\n10000000,,1,,P2\n0,P1,01,,P1\n",
    ),
    Held(
        File::Stock,
        b"kg,month,commodity,place\n17700,1,rice,P1\n0,1,oil,S2\n1000000000,001,maize,P1\n",
    ),
];

fn has_commodities(tables: &Tables) -> bool {
    let [rice, oil, salt, maize] = tables.commodities() else {
        return false;
    };
    is_commodity(rice, "rice", Some(1), 0, 600, 10)
        && is_commodity(oil, "oil", Some(1), 25, 25, 5)
        && is_commodity(salt, "salt", Some(0), 2000, 2000, 2000)
        && is_commodity(maize, "maize", None, 0, 0, 1)
}

fn has_groups(tables: &Tables) -> bool {
    let [cereals, fats] = tables.groups() else {
        return false;
    };
    is_group(cereals, "cereals", 100, 99) && is_group(fats, "fats", 0, 1_000_000)
}

fn has_nutrients(tables: &Tables) -> bool {
    let [energy, fat] = tables.nutrients() else {
        return false;
    };
    energy.nutrient.as_str() == "energy" && fat.nutrient.as_str() == "fat"
}

fn has_needs(tables: &Tables) -> bool {
    let [energy, fat] = tables.needs() else {
        return false;
    };
    is_need(energy, 0, 2100, 0, 1) && is_need(fat, 1, 1_000_000_000, 1_000_000_000, 1_000_000)
}

fn has_contents(tables: &Tables) -> bool {
    let [fat, rice, oil] = tables.contents() else {
        return false;
    };
    fat.commodity == 1
        && fat.nutrient == 1
        && fat.per_100g == 1_000_000
        && rice.commodity == 0
        && rice.nutrient == 0
        && rice.per_100g == 360
        && oil.commodity == 1
        && oil.nutrient == 0
        && oil.per_100g == 884
}

fn has_suppliers_and_ports(tables: &Tables) -> bool {
    let [first, second, port, other, _, _, _, _] = tables.places() else {
        return false;
    };
    is_place(first, "S1", PlaceKind::Supplier, 0, None)
        && costs(first, 0, 0)
        && is_place(second, "S2", PlaceKind::Supplier, 9, Some(8))
        && costs(second, 7, 6)
        && is_place(port, "Q1", PlaceKind::Port, 2_000_000, Some(10_000_000))
        && costs(port, 10, 2)
        && is_place(other, "Q2", PlaceKind::Port, 0, Some(0))
        && costs(other, 0, 0)
}

fn has_hubs_and_points(tables: &Tables) -> bool {
    let [_, _, _, _, hub, other, first, second] = tables.places() else {
        return false;
    };
    is_place(hub, "H1", PlaceKind::Hub, 500_000, None)
        && costs(hub, 5, 2)
        && is_place(
            other,
            "H2",
            PlaceKind::Hub,
            1_000_000_000,
            Some(1_000_000_000),
        )
        && costs(other, 1_000_000, 1_000_000)
        && is_place(first, "P1", PlaceKind::Point, 100, None)
        && costs(first, 0, 1)
        && is_place(second, "P2", PlaceKind::Point, 0, Some(20))
        && costs(second, 3, 0)
}

fn has_offers(tables: &Tables) -> bool {
    let [rice, salt] = tables.offers() else {
        return false;
    };
    is_offer(rice, "o1", 0, 0, 450, 20_000)
        && stands(rice, 1, 1)
        && is_offer(salt, "o2", 1, 2, 1_000_000, 1_000_000_000)
        && stands(salt, 36, 2)
}

fn has_arcs(tables: &Tables) -> bool {
    let [first, second, third] = tables.arcs() else {
        return false;
    };
    is_arc(first, "S1-Q1", 0, 2)
        && moves(first, 60, 10_000_000, 1)
        && is_arc(second, "Q2-H2", 3, 5)
        && moves(second, 1_000_000, 1_000_000_000, 12)
        && is_arc(third, "P1-P2", 6, 7)
        && moves(third, 0, 0, 0)
}

fn has_both_points_persons(tables: &Tables) -> bool {
    let [many, none] = tables.persons() else {
        return false;
    };
    many.place == 7
        && many.month == 1
        && many.persons == 10_000_000
        && many.basket == 0
        && none.place == 6
        && none.month == 1
        && none.persons == 0
        && none.basket == 0
}

fn has_stock(tables: &Tables) -> bool {
    let [rice, oil, maize] = tables.stock() else {
        return false;
    };
    rice.place == 6
        && rice.commodity == 0
        && rice.month == 1
        && rice.kg == 17_700
        && oil.place == 1
        && oil.commodity == 1
        && oil.month == 1
        && oil.kg == 0
        && maize.place == 6
        && maize.commodity == 3
        && maize.month == 1
        && maize.kg == 1_000_000_000
}

/// The tables are those of the folder with all files.
fn assert_folder(rt: &impl Abort, tables: &Tables) {
    assert!(rt; has_settings(tables));
    assert!(rt; has_commodities(tables));
    assert!(rt; has_groups(tables));
    assert!(rt; has_nutrients(tables));
    assert!(rt; has_needs(tables));
    assert!(rt; has_contents(tables));
    assert!(rt; has_suppliers_and_ports(tables));
    assert!(rt; has_hubs_and_points(tables));
    assert!(rt; has_offers(tables));
    assert!(rt; has_arcs(tables));
    assert!(rt; has_both_points_persons(tables));
    assert!(rt; has_stock(tables));
    assert!(rt; has_one_basket(tables));
}

#[test]
fn reads_a_folder_with_all_files(rt: HostRuntime) -> Result<(), Fail> {
    let tables = tables_of(rt.alloc(), &FOLDER, &[])?;
    assert_folder(&rt, &tables);
    Ok(())
}

#[test]
fn columns_may_stand_in_any_order(rt: HostRuntime) -> Result<(), Fail> {
    let tables = tables_of(rt.alloc(), &TURNED, &[])?;
    assert_folder(&rt, &tables);
    Ok(())
}
