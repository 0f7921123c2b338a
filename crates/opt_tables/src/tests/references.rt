use super::{Held, NETWORK, fault_of, refusal, table};
use opt_base::{File, Kind};
use std::alloc::{AllocError, Global};
use std::process::Abort;
use std::test::Fail;

/// A place of each kind.
const PLACES: Held<'static> = Held(
    File::Places,
    b"place,kind,storage,throughput,handling,storage_cost\nS,supplier,0,,0,0\nQ,port,0,,0,0\nH,hub,0,,0,0\nP,point,0,,0,0\n",
);

const GROUPS: Held<'static> = Held(File::Groups, b"group,min_g,max_g\ncereals,0,600\n");

/// Records of a table, and the number of the one that names a record wrongly, the column and the kind.
#[derive(Clone, Copy)]
struct Wrong<'a>(&'a str, u32, u8, Kind);

fn assert_wrong(
    rt: &impl Abort,
    alloc: Global,
    file: File,
    cases: &[Wrong<'_>],
) -> Result<(), AllocError> {
    for case in cases {
        let text = table(alloc, file, case.0)?;
        let held = Held(file, text.as_bytes());
        let expected = refusal(file, case.1, case.2, case.3);
        assert_eq!(rt;
            fault_of(alloc, &NETWORK, &[PLACES, GROUPS, held]),
            expected,
            "{text}"
        );
    }
    Ok(())
}

const COMMODITIES: [Wrong<'static>; 4] = [
    Wrong("rice,fats,0,600,10", 1, 2, Kind::UnknownName),
    Wrong("rice,Cereals,0,600,10", 1, 2, Kind::UnknownName),
    Wrong("rice,rice,0,600,10", 1, 2, Kind::UnknownName),
    Wrong(
        "rice,cereals,0,600,10\noil,,0,5,5\nsalt,cereal,0,5,5",
        3,
        2,
        Kind::UnknownName,
    ),
];

const CONTENTS: [Wrong<'static>; 5] = [
    Wrong("maize,energy,360", 1, 1, Kind::UnknownName),
    Wrong("Rice,energy,360", 1, 1, Kind::UnknownName),
    Wrong("rice,protein,7", 1, 2, Kind::UnknownName),
    Wrong("energy,rice,7", 1, 1, Kind::UnknownName),
    Wrong(
        "rice,energy,360\nrice,protein,7\nmaize,energy,1",
        2,
        2,
        Kind::UnknownName,
    ),
];

const OFFERS: [Wrong<'static>; 8] = [
    Wrong("o1,X,rice,450,20000,1,1", 1, 2, Kind::UnknownName),
    Wrong("o1,Q,rice,450,20000,1,1", 1, 2, Kind::WrongPlaceKind),
    Wrong("o1,H,rice,450,20000,1,1", 1, 2, Kind::WrongPlaceKind),
    Wrong("o1,P,rice,450,20000,1,1", 1, 2, Kind::WrongPlaceKind),
    Wrong("o1,S,maize,450,20000,1,1", 1, 3, Kind::UnknownName),
    Wrong("o1,X,maize,450,20000,1,1", 1, 2, Kind::UnknownName),
    Wrong("o1,H,maize,450,20000,1,1", 1, 2, Kind::WrongPlaceKind),
    Wrong(
        "o1,S,rice,450,20000,1,1\no2,S,maize,0,0,1,1\no3,X,rice,0,0,1,1",
        2,
        3,
        Kind::UnknownName,
    ),
];

const ARCS: [Wrong<'static>; 11] = [
    Wrong("a1,X,P,50,20000,0", 1, 2, Kind::UnknownName),
    Wrong("a1,S,X,50,20000,0", 1, 3, Kind::UnknownName),
    Wrong("a1,X,X,50,20000,0", 1, 2, Kind::UnknownName),
    Wrong("a1,X,S,50,20000,0", 1, 2, Kind::UnknownName),
    Wrong("a1,Q,S,50,20000,0", 1, 3, Kind::WrongPlaceKind),
    Wrong("a1,P,S,50,20000,0", 1, 3, Kind::WrongPlaceKind),
    Wrong("a1,S,S,50,20000,0", 1, 3, Kind::WrongPlaceKind),
    Wrong("a1,Q,Q,50,20000,0", 1, 3, Kind::WrongPlaceKind),
    Wrong("a1,H,H,50,20000,0", 1, 3, Kind::WrongPlaceKind),
    Wrong("a1,P,P,50,20000,0", 1, 3, Kind::WrongPlaceKind),
    Wrong(
        "a1,S,Q,50,20000,0\na2,Q,X,0,0,0\na3,X,Q,0,0,0",
        2,
        3,
        Kind::UnknownName,
    ),
];

const PERSONS: [Wrong<'static>; 5] = [
    Wrong("X,1,1000", 1, 1, Kind::UnknownName),
    Wrong("S,1,1000", 1, 1, Kind::WrongPlaceKind),
    Wrong("Q,1,1000", 1, 1, Kind::WrongPlaceKind),
    Wrong("H,1,0", 1, 1, Kind::WrongPlaceKind),
    Wrong("P,1,1000\nS,1,5\nX,1,5", 2, 1, Kind::WrongPlaceKind),
];

const STOCK: [Wrong<'static>; 4] = [
    Wrong("X,rice,1,5", 1, 1, Kind::UnknownName),
    Wrong("P,maize,1,5", 1, 2, Kind::UnknownName),
    Wrong("X,maize,1,5", 1, 1, Kind::UnknownName),
    Wrong(
        "P,rice,1,5\nS,maize,1,5\nX,rice,1,5",
        2,
        2,
        Kind::UnknownName,
    ),
];

#[test]
fn refuses_names_that_are_not_there(rt: HostRuntime) -> Result<(), Fail> {
    let alloc = rt.alloc();
    assert_wrong(&rt, alloc, File::Commodities, &COMMODITIES)?;
    assert_wrong(&rt, alloc, File::Contents, &CONTENTS)?;
    assert_wrong(&rt, alloc, File::Stock, &STOCK)?;
    Ok(())
}

#[test]
fn refuses_places_of_the_wrong_kind(rt: HostRuntime) -> Result<(), Fail> {
    let alloc = rt.alloc();
    assert_wrong(&rt, alloc, File::Offers, &OFFERS)?;
    assert_wrong(&rt, alloc, File::Arcs, &ARCS)?;
    assert_wrong(&rt, alloc, File::Persons, &PERSONS)?;
    Ok(())
}

#[test]
fn arcs_and_stock_are_for_all_kinds(rt: HostRuntime) -> Result<(), Fail> {
    let alloc = rt.alloc();
    let ways =
        "a1,S,Q,0,0,0\na2,S,H,0,0,0\na3,S,P,0,0,0\na4,Q,H,0,0,0\na5,H,Q,0,0,0\na6,H,P,0,0,0\na7,P,H,0,0,0\na8,P,Q,0,0,0";
    let ways = table(alloc, File::Arcs, ways)?;
    let arcs = Held(File::Arcs, ways.as_bytes());
    assert_eq!(rt; fault_of(alloc, &NETWORK, &[PLACES, arcs]), None);
    let food = table(
        alloc,
        File::Stock,
        "S,rice,1,5\nQ,rice,1,5\nH,rice,1,5\nP,rice,1,5",
    )?;
    let stock = Held(File::Stock, food.as_bytes());
    assert_eq!(rt; fault_of(alloc, &NETWORK, &[PLACES, stock]), None);
    Ok(())
}
