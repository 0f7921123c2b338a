use super::{
    ARCS, COMMODITIES, CONTENTS, Held, NETWORK, NUTRIENTS, OFFERS, PERSONS, PLACES, SETTINGS,
    fault_of, refusal,
};
use crate::{FetchFault, Files, fetch, read_model};
use opt_base::{Blob, File, Kind, MemShelf, OutOfMemory, Refusal};
use std::alloc::Global;
use std::test::Fail;

/// The most bytes of settings.toml.
const SETTINGS_BYTES: usize = 65_536;

/// The most bytes of a table.
const TABLE_BYTES: usize = 16_777_216;

/// Whether a file is held with these bytes.
fn holds(files: &Files, file: File, bytes: &[u8]) -> bool {
    match files.held(file) {
        Some(held) => held == bytes,
        None => false,
    }
}

#[test]
fn keeps_files(rt: HostRuntime) -> Result<(), Fail> {
    let mut files = Files::new();
    let blob = Blob::from_slice(rt.alloc(), b"rice")?;
    files.set(File::Contents, Some(blob));
    assert!(rt; holds(&files, File::Contents, b"rice"));
    files.set(File::Contents, None);
    assert!(rt; files.get(File::Contents).is_none());
    Ok(())
}

/// These bytes, and then this byte as often as it takes to make them so many.
fn filled(alloc: Global, bytes: &[u8], byte: u8, count: usize) -> Result<Vec<u8>, OutOfMemory> {
    let mut filled = Vec::from_slice(alloc, bytes)?;
    filled.resize(count, byte)?;
    Ok(filled)
}

#[test]
fn settings_have_at_most_65_536_bytes(rt: HostRuntime) -> Result<(), Fail> {
    let alloc = rt.alloc();
    let comment = b"format = 1\nmonths = 1\ndays = [30]\ngoal = 'shortfall'\ngap = 0\nnodes = 1\n#";
    let longest = filled(alloc, comment, b'#', SETTINGS_BYTES)?;
    let held = Held(File::Settings, longest.as_slice());
    assert_eq!(rt; fault_of(alloc, &NETWORK, &[held]), None);
    let longer = filled(alloc, comment, b'#', SETTINGS_BYTES + 1)?;
    let held = Held(File::Settings, longer.as_slice());
    let too_big = refusal(File::Settings, 0, 0, Kind::FileTooBig);
    assert_eq!(rt; fault_of(alloc, &NETWORK, &[held]), too_big);
    Ok(())
}

#[test]
fn tables_have_at_most_16_777_216_bytes(rt: HostRuntime) -> Result<(), Fail> {
    let alloc = rt.alloc();
    // Empty lines are no records, and a further column may be as long as there is room.
    let lines = filled(alloc, COMMODITIES, b'\n', TABLE_BYTES)?;
    let held = Held(File::Commodities, lines.as_slice());
    assert_eq!(rt; fault_of(alloc, &NETWORK, &[held]), None);
    let note = b"place,commodity,month,kg,note\nP,rice,1,5,";
    let wide = filled(alloc, note, b'x', TABLE_BYTES)?;
    let held = Held(File::Stock, wide.as_slice());
    assert_eq!(rt; fault_of(alloc, &NETWORK, &[held]), None);
    Ok(())
}

/// All model files but the settings.
const TABLES: [File; 11] = [
    File::Commodities,
    File::Groups,
    File::Nutrients,
    File::Contents,
    File::Places,
    File::Offers,
    File::Arcs,
    File::Persons,
    File::Stock,
    File::Baskets,
    File::Needs,
];

#[test]
fn no_table_has_more_bytes(rt: HostRuntime) -> Result<(), Fail> {
    let alloc = rt.alloc();
    let longer = filled(alloc, b"", b'\n', TABLE_BYTES + 1)?;
    for file in TABLES {
        let held = Held(file, longer.as_slice());
        let too_big = refusal(file, 0, 0, Kind::FileTooBig);
        assert_eq!(rt; fault_of(alloc, &NETWORK, &[held]), too_big);
    }
    // What is wrong with a file as a whole comes before the settings, the earlier file first.
    let settings = Held(File::Settings, b"");
    let groups = Held(File::Groups, longer.as_slice());
    let needs = Held(File::Needs, longer.as_slice());
    let too_big = refusal(File::Needs, 0, 0, Kind::FileTooBig);
    assert_eq!(rt; fault_of(alloc, &NETWORK, &[needs, settings]), too_big);
    let too_big = refusal(File::Groups, 0, 0, Kind::FileTooBig);
    assert_eq!(rt; fault_of(alloc, &NETWORK[..2], &[needs, groups]), too_big);
    let missing = refusal(File::Nutrients, 0, 0, Kind::MissingFile);
    assert_eq!(rt; fault_of(alloc, &NETWORK[..2], &[needs]), missing);
    Ok(())
}

#[test]
fn four_files_must_be_there(rt: HostRuntime) {
    let alloc = rt.alloc();
    for count in 0..4 {
        let missing = refusal(NETWORK[count].0, 0, 0, Kind::MissingFile);
        assert_eq!(rt; fault_of(alloc, &NETWORK[..count], &[]), missing);
    }
    assert_eq!(rt; fault_of(alloc, &NETWORK[..4], &[]), None);
    // Baskets and needs are not read further.
    let baskets = Held(File::Baskets, b"no table");
    let needs = Held(File::Needs, b"\xff");
    assert_eq!(rt; fault_of(alloc, &NETWORK, &[baskets, needs]), None);
}

/// A shelf that holds the network in the folder d, with one more file, and whose calls of these numbers fail.
fn shelf_with(
    alloc: Global,
    fails: &[u64],
    path: &str,
    bytes: &[u8],
) -> Result<MemShelf, OutOfMemory> {
    let mut shelf = MemShelf::new(alloc, fails)?;
    shelf.load("d/settings.toml", SETTINGS)?;
    shelf.load("d/commodities.csv", COMMODITIES)?;
    shelf.load("d/nutrients.csv", NUTRIENTS)?;
    shelf.load("d/contents.csv", CONTENTS)?;
    shelf.load("d/places.csv", PLACES)?;
    shelf.load("d/offers.csv", OFFERS)?;
    shelf.load("d/arcs.csv", ARCS)?;
    shelf.load("d/persons.csv", PERSONS)?;
    shelf.load(path, bytes)?;
    Ok(shelf)
}

/// What is got of a folder from such a shelf.
fn fetched(
    alloc: Global,
    fails: &[u64],
    path: &str,
    bytes: &[u8],
    folder: &str,
) -> Result<Files, FetchFault> {
    match shelf_with(alloc, fails, path, bytes) {
        Ok(shelf) => {
            let mut shelf = shelf;
            fetch(alloc, &mut shelf, folder)
        }
        Err(OutOfMemory) => Err(FetchFault::OutOfMemory),
    }
}

fn unfit(file: File, kind: Kind) -> Option<FetchFault> {
    Some(FetchFault::Refused(Refusal {
        file,
        number: 0,
        column: 0,
        kind,
    }))
}

#[test]
fn fetches_a_folder(rt: HostRuntime) -> Result<(), Fail> {
    let alloc = rt.alloc();
    let files = fetched(alloc, &[13], "d/stock.csv", b"", "d")?;
    assert!(rt; holds(&files, File::Contents, CONTENTS));
    assert!(rt; holds(&files, File::Persons, PERSONS));
    assert!(rt; holds(&files, File::Stock, b""));
    assert!(rt; files.get(File::Groups).is_none());
    assert!(rt; files.get(File::Needs).is_none());
    assert!(rt; read_model(alloc, &files).is_ok());
    let longest = filled(alloc, ARCS, b'\n', TABLE_BYTES)?;
    let files = fetched(alloc, &[], "d/arcs.csv", longest.as_slice(), "d")?;
    assert!(rt; holds(&files, File::Arcs, longest.as_slice()));
    Ok(())
}

#[test]
fn refuses_folders(rt: HostRuntime) -> Result<(), Fail> {
    let alloc = rt.alloc();
    let missing = unfit(File::Settings, Kind::MissingFile);
    assert_eq!(rt; fetched(alloc, &[], "d/stock.csv", b"", "e").err(), missing);
    // Of a file that is too big, the eighth, and after it nothing is got.
    let longer = filled(alloc, ARCS, b'\n', TABLE_BYTES + 1)?;
    let too_big = unfit(File::Arcs, Kind::FileTooBig);
    let answer = fetched(alloc, &[9], "d/arcs.csv", longer.as_slice(), "d").err();
    assert_eq!(rt; answer, too_big);
    let longer = filled(alloc, SETTINGS, b'\n', SETTINGS_BYTES + 1)?;
    let too_big = unfit(File::Settings, Kind::FileTooBig);
    let answer = fetched(alloc, &[2], "d/settings.toml", longer.as_slice(), "d").err();
    assert_eq!(rt; answer, too_big);
    for call in 1..13 {
        let failed = fetched(alloc, &[call], "d/stock.csv", b"", "d").err();
        assert_eq!(rt; failed, Some(FetchFault::Outside));
    }
    Ok(())
}
