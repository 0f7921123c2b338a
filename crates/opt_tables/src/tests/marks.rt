use super::{
    Held, LATE_FAULT, LATEST_FAULT, NETWORK, assert_read, assert_refused, fault_of, nothing,
    refusal, table, tables_of,
};
use crate::Tables;
use opt_base::{File, Kind, OutOfMemory};
use std::alloc::Global;
use std::process::Abort;
use std::test::Fail;

/// The network is refused as no text for this table, also where a later table is wrong.
fn assert_no_text(rt: &impl Abort, alloc: Global, file: File, bytes: &[u8]) {
    let held = Held(file, bytes);
    let later = match file {
        File::Stock => LATEST_FAULT,
        _ => LATE_FAULT,
    };
    let expected = refusal(file, 0, 0, Kind::NotUtf8);
    assert_eq!(rt; fault_of(alloc, &NETWORK, &[held]), expected);
    assert_eq!(rt; fault_of(alloc, &NETWORK, &[later, held]), expected);
}

/// A table is no text where a byte stands before it, or after it in a record that is wrong.
fn assert_no_text_with(
    rt: &impl Abort,
    alloc: Global,
    file: File,
    byte: u8,
) -> Result<(), OutOfMemory> {
    let text = table(alloc, file, nothing(file))?;
    let mut after = Vec::from_slice(alloc, text.as_bytes())?;
    after.push(byte)?;
    assert_no_text(rt, alloc, file, after.as_slice());
    let mut before = Vec::from_slice(alloc, &[byte])?;
    before.extend_from_slice(text.as_bytes())?;
    assert_no_text(rt, alloc, file, before.as_slice());
    Ok(())
}

#[test]
fn tables_are_text(rt: HostRuntime) -> Result<(), Fail> {
    let alloc = rt.alloc();
    for file in [
        File::Commodities,
        File::Groups,
        File::Nutrients,
        File::Contents,
        File::Places,
        File::Offers,
        File::Arcs,
        File::Persons,
        File::Stock,
    ] {
        assert_no_text_with(&rt, alloc, file, 0xff)?;
    }
    Ok(())
}

#[test]
fn further_columns_are_text(rt: HostRuntime) {
    let alloc = rt.alloc();
    let header = b"commodity,group,min_g,max_g,step_g,\xc3\nrice,,0,600,10,\n";
    assert_no_text(&rt, alloc, File::Commodities, header);
    let used = b"commodity,group,min_g,max_g,step_g,note\nri\xc3ce,,0,600,10,\n";
    assert_no_text(&rt, alloc, File::Commodities, used);
    // Half a letter, half a pair of UTF-16, a byte too many for a letter, and what is wrong besides.
    let unused = b"commodity,group,min_g,max_g,step_g,note\nrice,,0,600,10,\xc3\n";
    assert_no_text(&rt, alloc, File::Commodities, unused);
    let surrogate = b"commodity,group,min_g,max_g,step_g,note\nrice,,0,600,10,\xed\xa0\x80\n";
    assert_no_text(&rt, alloc, File::Commodities, surrogate);
    let long = b"step_g,commodity,commodity\nrice\n,,,,\xc0\x80\n";
    assert_no_text(&rt, alloc, File::Commodities, long);
}
