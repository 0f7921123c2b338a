use super::{Held, NETWORK, assert_read, assert_refused, fault_of, nothing, refusal, table};
use opt_base::{File, Kind};
use std::alloc::{AllocError, Global};
use std::process::Abort;
use std::test::Fail;

/// Records of a table, and the number of the one that is refused, the column and the kind.
#[derive(Clone, Copy)]
struct Wrong<'a>(&'a str, u32, u8, Kind);

/// Each of these tables is refused, also where a later record or a later table is wrong.
fn assert_wrong(
    rt: &impl Abort,
    alloc: Global,
    file: File,
    cases: &[Wrong<'_>],
) -> Result<(), AllocError> {
    let nothing = nothing(file);
    for case in cases {
        let expected = refusal(file, case.1, case.2, case.3);
        let text = table(alloc, file, case.0)?;
        assert_refused(rt, alloc, file, text.as_str(), expected);
        let longer = format!(in alloc; "{text}{nothing}\n")?;
        assert_refused(rt, alloc, file, longer.as_str(), expected);
    }
    Ok(())
}

const COMMODITIES: [Wrong<'static>; 15] = [
    Wrong(",,x,2001,0", 1, 1, Kind::EmptyName),
    Wrong("rice,,x,2001,0", 1, 3, Kind::BadNumber),
    Wrong("rice,,2001,x,0", 1, 3, Kind::OutOfRange),
    Wrong("rice,,0,x,0", 1, 4, Kind::BadNumber),
    Wrong("rice,,30,20,0", 1, 5, Kind::OutOfRange),
    Wrong("rice,,0,600,10\noil,,25,25,x", 2, 5, Kind::BadNumber),
    // No multiple of the step: none between the two, the least above the greatest, one step past both.
    Wrong("rice,,11,19,10", 1, 0, Kind::NoStepInRange),
    Wrong("rice,,30,20,10", 1, 0, Kind::NoStepInRange),
    Wrong("rice,,1,0,1", 1, 0, Kind::NoStepInRange),
    Wrong("rice,,1,1999,2000", 1, 0, Kind::NoStepInRange),
    Wrong("rice,,0,600,10\nrice,,0,100,10", 2, 0, Kind::Duplicate),
    Wrong(
        "rice,,0,600,10\noil,,0,5,5\n\"rice \",,0,600,10",
        3,
        0,
        Kind::Duplicate,
    ),
    Wrong("rice,,0,600,10\nrice,,11,19,10", 2, 0, Kind::NoStepInRange),
    Wrong("rice,,0,600,10\nrice,,0,100,0", 2, 5, Kind::OutOfRange),
    Wrong(
        "rice,maize,0,600,10\nrice,maize,0,600,10",
        2,
        0,
        Kind::Duplicate,
    ),
];

const GROUPS: [Wrong<'static>; 6] = [
    Wrong(",x,1000001", 1, 1, Kind::EmptyName),
    Wrong("cereals,x,1000001", 1, 2, Kind::BadNumber),
    Wrong("cereals,1000001,x", 1, 2, Kind::OutOfRange),
    Wrong("cereals,0,0\nfats,0,x", 2, 3, Kind::BadNumber),
    Wrong("cereals,0,0\nfats,0,0\ncereals,5,6", 3, 0, Kind::Duplicate),
    Wrong("cereals,0,0\ncereals,0,x", 2, 3, Kind::BadNumber),
];

const NUTRIENTS: [Wrong<'static>; 6] = [
    Wrong(",x,1000000001,x", 1, 1, Kind::EmptyName),
    Wrong("energy,1000000001,x,x", 1, 2, Kind::OutOfRange),
    Wrong("energy,2100,x,1000001", 1, 3, Kind::BadNumber),
    Wrong("energy,2100,0,1\nfat,40,0,1000001", 2, 4, Kind::OutOfRange),
    Wrong("energy,2100,0,1\nenergy,0,0,0", 2, 0, Kind::Duplicate),
    Wrong("energy,2100,0,1\nenergy,0,0,x", 2, 4, Kind::BadNumber),
];

const CONTENTS: [Wrong<'static>; 7] = [
    Wrong(",,x", 1, 1, Kind::EmptyName),
    Wrong("rice,,x", 1, 2, Kind::EmptyName),
    Wrong(
        "rice,energy,360\noil,energy,1000001",
        2,
        3,
        Kind::OutOfRange,
    ),
    Wrong(
        "rice,energy,360\nrice,fat,1\nrice,energy,360",
        3,
        0,
        Kind::Duplicate,
    ),
    Wrong("rice,energy,360\nrice,energy,x", 2, 3, Kind::BadNumber),
    // Names that are not there come later.
    Wrong("beans,protein,1\nbeans,protein,2", 2, 0, Kind::Duplicate),
    Wrong("beans,protein,1\nrice,energy,x", 2, 3, Kind::BadNumber),
];

const PLACES: [Wrong<'static>; 13] = [
    Wrong(",depot,x,x,x,x", 1, 1, Kind::EmptyName),
    Wrong("S,,x,x,x,x", 1, 2, Kind::UnknownName),
    Wrong("S,depot,x,x,x,x", 1, 2, Kind::UnknownName),
    Wrong("S,Supplier,0,,0,0", 1, 2, Kind::UnknownName),
    Wrong("S,suppliers,0,,0,0", 1, 2, Kind::UnknownName),
    Wrong("S,supplie,0,,0,0", 1, 2, Kind::UnknownName),
    Wrong("S,sup plier,0,,0,0", 1, 2, Kind::UnknownName),
    Wrong("S,supplier,x,x,x,x", 1, 3, Kind::BadNumber),
    Wrong("S,supplier,0,1000000001,x,x", 1, 4, Kind::OutOfRange),
    Wrong("S,supplier,0,,1000001,x", 1, 5, Kind::OutOfRange),
    Wrong("S,supplier,0,,0,0\nP,point,0,,0,x", 2, 6, Kind::BadNumber),
    Wrong("S,supplier,0,,0,0\nS,point,0,,0,0", 2, 0, Kind::Duplicate),
    Wrong("S,supplier,0,,0,0\nS,depot,0,,0,0", 2, 2, Kind::UnknownName),
];

const OFFERS: [Wrong<'static>; 10] = [
    Wrong(",,,x,x,0,37", 1, 1, Kind::EmptyName),
    Wrong("o1,,,x,x,0,37", 1, 2, Kind::EmptyName),
    Wrong("o1,X,,x,x,0,37", 1, 3, Kind::EmptyName),
    Wrong("o1,X,maize,1e3,x,0,37", 1, 4, Kind::BadNumber),
    Wrong("o1,P,rice,450,x,0,37", 1, 5, Kind::BadNumber),
    Wrong("o1,S,rice,450,20000,0,37", 1, 6, Kind::OutOfRange),
    Wrong("o1,S,rice,450,20000,1,37", 1, 7, Kind::OutOfRange),
    Wrong(
        "o1,X,rice,450,20000,1,1\no2,S,rice,450,20000,1,x",
        2,
        7,
        Kind::BadNumber,
    ),
    Wrong(
        "o1,S,rice,450,20000,1,1\no1,P,maize,0,0,2,2",
        2,
        0,
        Kind::Duplicate,
    ),
    Wrong(
        "o1,S,rice,450,20000,1,1\no1,S,rice,450,20000,1,0",
        2,
        7,
        Kind::OutOfRange,
    ),
];

const ARCS: [Wrong<'static>; 9] = [
    Wrong(",,,x,x,13", 1, 1, Kind::EmptyName),
    Wrong("a1,,,x,x,13", 1, 2, Kind::EmptyName),
    Wrong("a1,X,,x,x,13", 1, 3, Kind::EmptyName),
    Wrong("a1,X,X,x,x,13", 1, 4, Kind::BadNumber),
    Wrong("a1,P,S,50,x,13", 1, 5, Kind::BadNumber),
    Wrong("a1,S,P,50,20000,13", 1, 6, Kind::OutOfRange),
    Wrong(
        "a1,P,P,50,20000,0\na2,S,P,50,20000,x",
        2,
        6,
        Kind::BadNumber,
    ),
    Wrong("a1,S,P,50,20000,0\na1,P,S,0,0,0", 2, 0, Kind::Duplicate),
    Wrong(
        "a1,S,P,50,20000,0\na1,S,P,50,20000,13",
        2,
        6,
        Kind::OutOfRange,
    ),
];

const PERSONS: [Wrong<'static>; 8] = [
    Wrong(",0,x", 1, 1, Kind::EmptyName),
    Wrong("X,0,x", 1, 2, Kind::OutOfRange),
    Wrong("S,2,x", 1, 2, Kind::OutOfRange),
    Wrong("S,1,5\nP,1,x", 2, 3, Kind::BadNumber),
    Wrong("P,1,1000\nP,1,1000", 2, 0, Kind::Duplicate),
    Wrong("P,1,1000\nP,01,5", 2, 0, Kind::Duplicate),
    Wrong("X,001,1\nS,1,1\nX,1,2", 3, 0, Kind::Duplicate),
    Wrong("P,1,1000\nP,1,10000001", 2, 3, Kind::OutOfRange),
];

const STOCK: [Wrong<'static>; 8] = [
    Wrong(",,0,x", 1, 1, Kind::EmptyName),
    Wrong("X,,0,x", 1, 2, Kind::EmptyName),
    Wrong("P,maize,0,x", 1, 3, Kind::OutOfRange),
    Wrong("X,maize,1,5\nP,rice,1,x", 2, 4, Kind::BadNumber),
    Wrong("P,rice,1,5\nP,rice,1,5", 2, 0, Kind::Duplicate),
    Wrong("P,rice,1,5\nS,rice,1,5\nP,rice,01,6", 3, 0, Kind::Duplicate),
    Wrong("X,maize,1,5\nX,maize,1,6", 2, 0, Kind::Duplicate),
    Wrong("P,rice,1,5\nP,rice,1,1000000001", 2, 4, Kind::OutOfRange),
];

#[test]
fn refuses_records_of_the_diet(rt: HostRuntime) -> Result<(), Fail> {
    let alloc = rt.alloc();
    assert_wrong(&rt, alloc, File::Commodities, &COMMODITIES)?;
    assert_wrong(&rt, alloc, File::Groups, &GROUPS)?;
    assert_wrong(&rt, alloc, File::Nutrients, &NUTRIENTS)?;
    assert_wrong(&rt, alloc, File::Contents, &CONTENTS)?;
    Ok(())
}

#[test]
fn refuses_records_of_the_network(rt: HostRuntime) -> Result<(), Fail> {
    let alloc = rt.alloc();
    assert_wrong(&rt, alloc, File::Places, &PLACES)?;
    assert_wrong(&rt, alloc, File::Offers, &OFFERS)?;
    assert_wrong(&rt, alloc, File::Arcs, &ARCS)?;
    assert_wrong(&rt, alloc, File::Persons, &PERSONS)?;
    assert_wrong(&rt, alloc, File::Stock, &STOCK)?;
    Ok(())
}

/// The network is read with this table.
fn assert_right(
    rt: &impl Abort,
    alloc: Global,
    file: File,
    records: &str,
) -> Result<(), AllocError> {
    let text = table(alloc, file, records)?;
    assert_read(rt, alloc, file, text.as_str());
    Ok(())
}

#[test]
fn reads_records_that_limit_nothing_well(rt: HostRuntime) -> Result<(), Fail> {
    let alloc = rt.alloc();
    // A step of which 0 is the one multiple, a ration of just one multiple.
    assert_right(&rt, alloc, File::Commodities, "rice,,0,1999,2000")?;
    assert_right(&rt, alloc, File::Commodities, "rice,,20,29,10")?;
    // A group that no sum can meet, an offer whose first month is past its last, one past the plan.
    assert_right(&rt, alloc, File::Groups, "cereals,1000000,0")?;
    assert_right(&rt, alloc, File::Offers, "o1,S,rice,450,20000,36,1")?;
    assert_right(&rt, alloc, File::Offers, "o1,S,rice,450,20000,2,36")?;
    Ok(())
}

#[test]
fn quotes_and_blanks_are_not_read(rt: HostRuntime) -> Result<(), Fail> {
    let alloc = rt.alloc();
    assert_right(
        &rt,
        alloc,
        File::Commodities,
        "\"rice\",\"\",\"0\", 600\t,\" 10 \"",
    )?;
    assert_right(
        &rt,
        alloc,
        File::Places,
        "S,\tsupplier ,0, ,0,0\nP,\"point\",0,\"\",0,0",
    )?;
    // A quote that does not begin a field is part of it, one that is not closed runs to the end.
    let number = refusal(File::Contents, 1, 3, Kind::BadNumber);
    let text = "commodity,nutrient,per_100g\nrice,energy, \"360\"\n";
    assert_refused(&rt, alloc, File::Contents, text, number);
    let uneven = refusal(File::Contents, 1, 0, Kind::Uneven);
    let text = "commodity,nutrient,per_100g\n\"rice,energy,360\nrice,,\n";
    assert_refused(&rt, alloc, File::Contents, text, uneven);
    Ok(())
}

#[test]
fn keys_differ_by_a_byte(rt: HostRuntime) -> Result<(), Fail> {
    let alloc = rt.alloc();
    assert_right(
        &rt,
        alloc,
        File::Commodities,
        "rice,,0,600,10\nRice,,0,600,10\nrice1,,0,5,5",
    )?;
    assert_right(
        &rt,
        alloc,
        File::Offers,
        "o1,S,rice,450,20000,1,1\no2,S,rice,450,20000,1,1",
    )?;
    assert_right(
        &rt,
        alloc,
        File::Arcs,
        "a1,S,P,50,20000,0\na2,S,P,50,20000,0",
    )?;
    assert_right(&rt, alloc, File::Stock, "P,rice,1,5\nS,rice,1,5")?;
    Ok(())
}

#[test]
fn two_names_are_not_one(rt: HostRuntime) {
    // Joined, the names of all four contents would be the same in two ways.
    let changes = [
        Held(
            File::Commodities,
            b"commodity,group,min_g,max_g,step_g\na,,0,5,5\nab,,0,5,5\nrice,,0,5,5\n",
        ),
        Held(
            File::Nutrients,
            b"nutrient,required,max_short,weight\nc,0,0,0\nbc,0,0,0\n",
        ),
        Held(
            File::Contents,
            b"commodity,nutrient,per_100g\na,bc,1\nab,c,2\na,c,3\nab,bc,4\n",
        ),
    ];
    assert_eq!(rt; fault_of(rt.alloc(), &NETWORK, &changes), None);
}

#[test]
fn commodities_must_be_there(rt: HostRuntime) -> Result<(), Fail> {
    let alloc = rt.alloc();
    let expected = refusal(File::Commodities, 0, 0, Kind::EmptyTable);
    let header = "commodity,group,min_g,max_g,step_g";
    assert_refused(&rt, alloc, File::Commodities, header, expected);
    let lines = "commodity,group,min_g,max_g,step_g\n\n\r\n";
    assert_refused(&rt, alloc, File::Commodities, lines, expected);
    // The other tables may be empty.
    assert_read(&rt, alloc, File::Contents, "commodity,nutrient,per_100g\n");
    let groups = Held(File::Groups, b"group,min_g,max_g\n,0,0\n");
    let commodities = Held(File::Commodities, header.as_bytes());
    assert_eq!(rt; fault_of(alloc, &NETWORK, &[groups, commodities]), expected);
    Ok(())
}
