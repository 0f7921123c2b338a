use super::{Held, NETWORK, assert_read, assert_refused, fault_of, refusal, table};
use opt_base::{File, Kind};
use std::alloc::{AllocError, Global};
use std::process::Abort;
use std::test::Fail;

/// A column that holds a number: its table; what stands before and after the number, which is in the first record;
/// the column; the least and the greatest number.
#[derive(Clone, Copy)]
struct Number<'a>(File, &'a str, &'a str, u8, u32, u32);

/// All columns that hold a number, but the throughput, which may be empty.
const NUMBERS: [Number<'static>; 23] = [
    Number(File::Commodities, "rice,,", ",2000,1", 3, 0, 2000),
    Number(File::Commodities, "rice,,0,", ",1", 4, 0, 2000),
    Number(File::Commodities, "rice,,0,2000,", "", 5, 1, 2000),
    Number(File::Groups, "cereals,", ",0", 2, 0, 1_000_000),
    Number(File::Groups, "cereals,5,", "", 3, 0, 1_000_000),
    Number(File::Nutrients, "energy,", ",0,1", 2, 0, 1_000_000_000),
    Number(File::Nutrients, "energy,2100,", ",1", 3, 0, 1_000_000_000),
    Number(File::Nutrients, "energy,2100,0,", "", 4, 0, 1_000_000),
    Number(File::Contents, "rice,energy,", "", 3, 0, 1_000_000),
    Number(
        File::Places,
        "S,supplier,",
        ",,0,0\nP,point,0,,0,0",
        3,
        0,
        1_000_000_000,
    ),
    Number(
        File::Places,
        "S,supplier,0,,",
        ",0\nP,point,0,,0,0",
        5,
        0,
        1_000_000,
    ),
    Number(
        File::Places,
        "S,supplier,0,,0,",
        "\nP,point,0,,0,0",
        6,
        0,
        1_000_000,
    ),
    Number(File::Offers, "o1,S,rice,", ",20000,1,1", 4, 0, 1_000_000),
    Number(File::Offers, "o1,S,rice,450,", ",1,1", 5, 0, 1_000_000_000),
    Number(File::Offers, "o1,S,rice,450,20000,", ",1", 6, 1, 36),
    Number(File::Offers, "o1,S,rice,450,20000,2,", "", 7, 1, 36),
    Number(File::Arcs, "a1,S,P,", ",20000,0", 4, 0, 1_000_000),
    Number(File::Arcs, "a1,S,P,50,", ",0", 5, 0, 1_000_000_000),
    Number(File::Arcs, "a1,S,P,50,20000,", "", 6, 0, 12),
    Number(File::Persons, "P,", ",1000", 2, 1, 1),
    Number(File::Persons, "P,1,", "", 3, 0, 10_000_000),
    Number(File::Stock, "P,rice,", ",5", 3, 1, 1),
    Number(File::Stock, "P,rice,1,", "", 4, 0, 1_000_000_000),
];

const THROUGHPUT: Number<'static> = Number(
    File::Places,
    "S,supplier,0,",
    ",0,0\nP,point,0,,0,0",
    4,
    0,
    1_000_000_000,
);

/// The table with this text in place of the number.
fn with_number(alloc: Global, one: &Number<'_>, text: &str) -> Result<String, AllocError> {
    let (before, after) = (one.1, one.2);
    let records = format!(in alloc; "{before}{text}{after}")?;
    table(alloc, one.0, records.as_str())
}

/// The text is refused in place of the number.
fn assert_wrong(
    rt: &impl Abort,
    alloc: Global,
    one: &Number<'_>,
    text: &str,
    kind: Kind,
) -> Result<(), AllocError> {
    let table = with_number(alloc, one, text)?;
    let expected = refusal(one.0, 1, one.3, kind);
    assert_refused(rt, alloc, one.0, table.as_str(), expected);
    Ok(())
}

/// The text is read in place of the number.
fn assert_right(
    rt: &impl Abort,
    alloc: Global,
    one: &Number<'_>,
    text: &str,
) -> Result<(), AllocError> {
    let table = with_number(alloc, one, text)?;
    assert_read(rt, alloc, one.0, table.as_str());
    Ok(())
}

/// What is no number is refused.
fn assert_digits(rt: &impl Abort, alloc: Global, one: &Number<'_>) -> Result<(), AllocError> {
    for text in ["1e3", "-1", "+1", "1.0", "1 0", "x", "\u{661}"] {
        assert_wrong(rt, alloc, one, text, Kind::BadNumber)?;
    }
    Ok(())
}

/// Numbers are read up to the ends of the range, also with leading zeros and blanks, and refused past them.
fn assert_range(rt: &impl Abort, alloc: Global, one: &Number<'_>) -> Result<(), AllocError> {
    let low = one.4;
    let high = u64::from(one.5);
    let past = high + 1;
    let least = format!(in alloc; "{low}")?;
    assert_right(rt, alloc, one, least.as_str())?;
    let greatest = format!(in alloc; " 00{high}\t")?;
    assert_right(rt, alloc, one, greatest.as_str())?;
    let above = format!(in alloc; "{past}")?;
    assert_wrong(rt, alloc, one, above.as_str(), Kind::OutOfRange)?;
    for text in [
        "4294967296",
        "18446744073709551616",
        "123456789012345678901234567890",
    ] {
        assert_wrong(rt, alloc, one, text, Kind::OutOfRange)?;
    }
    if low == 1 {
        assert_wrong(rt, alloc, one, "0", Kind::OutOfRange)?;
        assert_wrong(rt, alloc, one, "000", Kind::OutOfRange)?;
    }
    Ok(())
}

#[test]
fn numbers_are_digits(rt: HostRuntime) -> Result<(), Fail> {
    let alloc = rt.alloc();
    for one in &NUMBERS {
        assert_wrong(&rt, alloc, one, "", Kind::BadNumber)?;
        assert_wrong(&rt, alloc, one, " \t", Kind::BadNumber)?;
        assert_digits(&rt, alloc, one)?;
    }
    assert_digits(&rt, alloc, &THROUGHPUT)?;
    assert_right(&rt, alloc, &THROUGHPUT, "")?;
    assert_right(&rt, alloc, &THROUGHPUT, " \t")?;
    Ok(())
}

#[test]
fn numbers_lie_in_their_ranges(rt: HostRuntime) -> Result<(), Fail> {
    let alloc = rt.alloc();
    for one in &NUMBERS {
        assert_range(&rt, alloc, one)?;
    }
    assert_range(&rt, alloc, &THROUGHPUT)?;
    Ok(())
}

/// A column that holds a name: its table; what stands before and after the name, which is in the first record; the
/// column; whether it names a record of another table.
#[derive(Clone, Copy)]
struct Named<'a>(File, &'a str, &'a str, u8, bool);

/// All columns that hold a name, but the group of a commodity, which may be empty.
const NAMES: [Named<'static>; 15] = [
    Named(
        File::Commodities,
        "",
        ",,0,600,10\nrice,,0,600,10",
        1,
        false,
    ),
    Named(File::Groups, "", ",0,0", 1, false),
    Named(File::Nutrients, "", ",0,0,0\nenergy,2100,0,1", 1, false),
    Named(File::Contents, "", ",energy,360", 1, true),
    Named(File::Contents, "rice,", ",360", 2, true),
    Named(
        File::Places,
        "",
        ",hub,0,,0,0\nS,supplier,0,,0,0\nP,point,0,,0,0",
        1,
        false,
    ),
    Named(File::Offers, "", ",S,rice,450,20000,1,1", 1, false),
    Named(File::Offers, "o1,", ",rice,450,20000,1,1", 2, true),
    Named(File::Offers, "o1,S,", ",450,20000,1,1", 3, true),
    Named(File::Arcs, "", ",S,P,50,20000,0", 1, false),
    Named(File::Arcs, "a1,", ",P,50,20000,0", 2, true),
    Named(File::Arcs, "a1,S,", ",50,20000,0", 3, true),
    Named(File::Persons, "", ",1,1000", 1, true),
    Named(File::Stock, "", ",rice,1,5", 1, true),
    Named(File::Stock, "P,", ",1,5", 2, true),
];

const GROUP: Named<'static> = Named(File::Commodities, "rice,", ",0,600,10", 2, true);

/// 64 bytes.
const LONGEST: &str = "0123456789012345678901234567890123456789012345678901234567890123";

/// 32 letters, 64 bytes.
const LETTERS: &str = "éééééééééééééééééééééééééééééééé";

/// The table with this text in place of the name.
fn with_name(alloc: Global, one: &Named<'_>, text: &str) -> Result<String, AllocError> {
    let (before, after) = (one.1, one.2);
    let records = format!(in alloc; "{before}{text}{after}")?;
    table(alloc, one.0, records.as_str())
}

/// The text is refused in place of the name.
fn assert_no_name(
    rt: &impl Abort,
    alloc: Global,
    one: &Named<'_>,
    text: &str,
    kind: Kind,
) -> Result<(), AllocError> {
    let table = with_name(alloc, one, text)?;
    let expected = refusal(one.0, 1, one.3, kind);
    assert_refused(rt, alloc, one.0, table.as_str(), expected);
    Ok(())
}

/// The text is a name, though not that of a record which is to be there.
fn assert_name(
    rt: &impl Abort,
    alloc: Global,
    one: &Named<'_>,
    text: &str,
) -> Result<(), AllocError> {
    let table = with_name(alloc, one, text)?;
    let held = Held(one.0, table.as_bytes());
    let expected = if one.4 {
        refusal(one.0, 1, one.3, Kind::UnknownName)
    } else {
        None
    };
    assert_eq!(rt; fault_of(alloc, &NETWORK, &[held]), expected, "{table}");
    Ok(())
}

/// A name has at most 64 bytes, and blanks round it do not count.
fn assert_length(rt: &impl Abort, alloc: Global, one: &Named<'_>) -> Result<(), AllocError> {
    assert_name(rt, alloc, one, LONGEST)?;
    assert_name(rt, alloc, one, LETTERS)?;
    let blanks = format!(in alloc; " \t{LONGEST}\t ")?;
    assert_name(rt, alloc, one, blanks.as_str())?;
    let longer = format!(in alloc; "{LONGEST}4")?;
    assert_no_name(rt, alloc, one, longer.as_str(), Kind::NameTooLong)?;
    let letters = format!(in alloc; "{LETTERS}é")?;
    assert_no_name(rt, alloc, one, letters.as_str(), Kind::NameTooLong)
}

#[test]
fn names_have_1_to_64_bytes(rt: HostRuntime) -> Result<(), Fail> {
    let alloc = rt.alloc();
    for one in &NAMES {
        assert_no_name(&rt, alloc, one, "", Kind::EmptyName)?;
        assert_no_name(&rt, alloc, one, " \t", Kind::EmptyName)?;
        assert_length(&rt, alloc, one)?;
    }
    assert_length(&rt, alloc, &GROUP)?;
    // A commodity has no group where there is none, or blanks alone.
    assert_read(
        &rt,
        alloc,
        File::Commodities,
        with_name(alloc, &GROUP, "")?.as_str(),
    );
    assert_read(
        &rt,
        alloc,
        File::Commodities,
        with_name(alloc, &GROUP, " \t")?.as_str(),
    );
    Ok(())
}
