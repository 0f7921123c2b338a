use super::{
    Held, NETWORK, assert_read, assert_refused, fault_of, header, nothing, refusal, table,
};
use opt_base::{File, Kind};
use std::alloc::{AllocError, Global};
use std::process::Abort;
use std::test::Fail;

/// The columns of a table: the first, those between, the last, and how many they are.
#[derive(Clone, Copy)]
struct Columns<'a>(File, &'a str, &'a str, &'a str, u8);

const COLUMNS: [Columns<'static>; 9] = [
    Columns(
        File::Commodities,
        "commodity",
        "group,min_g,max_g",
        "step_g",
        5,
    ),
    Columns(File::Groups, "group", "min_g", "max_g", 3),
    Columns(
        File::Nutrients,
        "nutrient",
        "required,max_short",
        "weight",
        4,
    ),
    Columns(File::Contents, "commodity", "nutrient", "per_100g", 3),
    Columns(
        File::Places,
        "place",
        "kind,storage,throughput,handling",
        "storage_cost",
        6,
    ),
    Columns(
        File::Offers,
        "offer",
        "place,commodity,price,max_kg,first",
        "last",
        7,
    ),
    Columns(File::Arcs, "arc", "from,to,cost,capacity", "lead", 6),
    Columns(File::Persons, "place", "month", "persons", 3),
    Columns(File::Stock, "place", "commodity,month", "kg", 4),
];

/// A table with this first record is refused for a column, also where its records are wrong.
fn assert_header(
    rt: &impl Abort,
    alloc: Global,
    file: File,
    names: &str,
    column: u8,
    kind: Kind,
) -> Result<(), AllocError> {
    let expected = refusal(file, 0, column, kind);
    assert_refused(rt, alloc, file, names, expected);
    let uneven = format!(in alloc; "{names}\n,\n,,,,,,,,,\n")?;
    assert_refused(rt, alloc, file, uneven.as_str(), expected);
    Ok(())
}

/// The first column and the last must be there.
fn assert_there(rt: &impl Abort, alloc: Global, columns: &Columns<'_>) -> Result<(), AllocError> {
    let (first, middle, last) = (columns.1, columns.2, columns.3);
    let kind = Kind::ColumnMissing;
    let names = format!(in alloc; "{middle},{last}")?;
    assert_header(rt, alloc, columns.0, names.as_str(), 1, kind)?;
    let names = format!(in alloc; "{first},{middle}")?;
    assert_header(rt, alloc, columns.0, names.as_str(), columns.4, kind)
}

/// The first column and the last may not be there twice.
fn assert_once(rt: &impl Abort, alloc: Global, columns: &Columns<'_>) -> Result<(), AllocError> {
    let (first, middle, last) = (columns.1, columns.2, columns.3);
    let kind = Kind::ColumnTwice;
    let names = format!(in alloc; "{first},{middle},{last},\t{first} ")?;
    assert_header(rt, alloc, columns.0, names.as_str(), 1, kind)?;
    let names = format!(in alloc; "{last},{first},{middle},{last}")?;
    assert_header(rt, alloc, columns.0, names.as_str(), columns.4, kind)
}

#[test]
fn columns_must_be_there_once(rt: HostRuntime) -> Result<(), Fail> {
    let alloc = rt.alloc();
    for columns in &COLUMNS {
        assert_there(&rt, alloc, columns)?;
        assert_once(&rt, alloc, columns)?;
    }
    Ok(())
}

#[test]
fn columns_are_known_by_their_bytes(rt: HostRuntime) -> Result<(), Fail> {
    let alloc = rt.alloc();
    let missing = Kind::ColumnMissing;
    let twice = Kind::ColumnTwice;
    // Another case, a longer name, a blank inside a name, all names in quotes as one.
    assert_header(&rt, alloc, File::Groups, "Group,min_g,max_g", 1, missing)?;
    assert_header(&rt, alloc, File::Groups, "groups,min_g,max_g", 1, missing)?;
    assert_header(&rt, alloc, File::Groups, "group,min g,max_g", 2, missing)?;
    assert_header(
        &rt,
        alloc,
        File::Groups,
        "\"group,min_g,max_g\"",
        1,
        missing,
    )?;
    // The earlier column decides, whatever is wrong with it.
    assert_header(&rt, alloc, File::Groups, "group,group,min_g", 1, twice)?;
    assert_header(&rt, alloc, File::Groups, "min_g,max_g,max_g", 1, missing)?;
    assert_header(&rt, alloc, File::Groups, "group,max_g,max_g", 2, missing)?;
    Ok(())
}

/// The nine tables.
const TABLES: [File; 9] = [
    File::Commodities,
    File::Groups,
    File::Nutrients,
    File::Contents,
    File::Places,
    File::Offers,
    File::Arcs,
    File::Persons,
    File::Stock,
];

#[test]
fn records_must_be_even(rt: HostRuntime) -> Result<(), Fail> {
    let alloc = rt.alloc();
    for file in TABLES {
        // The second record is shorter; the first one, whose fields are empty, is judged later.
        let nothing = nothing(file);
        let records = format!(in alloc; "{nothing}\nx")?;
        let shorter = table(alloc, file, records.as_str())?;
        let expected = refusal(file, 2, 0, Kind::Uneven);
        assert_refused(&rt, alloc, file, shorter.as_str(), expected);
        // A line of blanks is no empty line.
        let records = format!(in alloc; "{nothing}\n \t")?;
        let blanks = table(alloc, file, records.as_str())?;
        assert_refused(&rt, alloc, file, blanks.as_str(), expected);
        // The first record is longer, by an empty field.
        let records = format!(in alloc; "{nothing},\nx")?;
        let longer = table(alloc, file, records.as_str())?;
        let expected = refusal(file, 1, 0, Kind::Uneven);
        assert_refused(&rt, alloc, file, longer.as_str(), expected);
    }
    Ok(())
}

#[test]
fn tables_without_a_record(rt: HostRuntime) -> Result<(), Fail> {
    let alloc = rt.alloc();
    for file in TABLES {
        // A byte order mark alone, or line ends alone, and there is no record that names the columns.
        let expected = refusal(file, 0, 1, Kind::ColumnMissing);
        assert_refused(&rt, alloc, file, "\u{feff}", expected);
        assert_refused(&rt, alloc, file, "\n", expected);
        assert_refused(&rt, alloc, file, "\u{feff}\r\n\r\n", expected);
        // A second mark is part of the first name.
        let header = header(file);
        let marked = format!(in alloc; "\u{feff}\u{feff}{header}\n")?;
        assert_refused(&rt, alloc, file, marked.as_str(), expected);
    }
    for file in [File::Commodities, File::Nutrients, File::Contents] {
        let expected = refusal(file, 0, 1, Kind::ColumnMissing);
        assert_refused(&rt, alloc, file, "", expected);
    }
    Ok(())
}

#[test]
fn tables_that_may_be_empty(rt: HostRuntime) -> Result<(), Fail> {
    let alloc = rt.alloc();
    for file in [
        File::Groups,
        File::Offers,
        File::Arcs,
        File::Persons,
        File::Stock,
    ] {
        assert_read(&rt, alloc, file, "");
        assert_read(&rt, alloc, file, header(file));
        let marked = table(alloc, file, "\r\n\n")?;
        assert_read(&rt, alloc, file, marked.as_str());
    }
    // The network's first four files have no places.
    let diet = &NETWORK[..4];
    let places = Held(File::Places, header(File::Places).as_bytes());
    assert_eq!(rt; fault_of(alloc, diet, &[]), None);
    assert_eq!(rt; fault_of(alloc, diet, &[Held(File::Places, b"")]), None);
    assert_eq!(rt; fault_of(alloc, diet, &[places]), None);
    Ok(())
}
