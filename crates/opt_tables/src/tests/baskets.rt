use super::Held;
use super::cases::{Case, assert_refused, assert_refused_early};
use super::formats::{SECOND, THIRD};
use opt_base::{File, Kind};
use std::test::Fail;

/// Nutrients, persons and baskets: each column that formats 2 and 3 share, each key and each kind of refusal. Where a later
/// record or column is wrong as well, the earlier one is named.
const BASKETS: [Case<'static>; 20] = [
    Case(File::Nutrients, "note\nenergy\n", 0, 1, Kind::ColumnMissing),
    Case(
        File::Nutrients,
        "nutrient,nutrient\nenergy,energy\n",
        0,
        1,
        Kind::ColumnTwice,
    ),
    Case(
        File::Nutrients,
        "nutrient,note\nenergy,1\n,\n",
        2,
        1,
        Kind::EmptyName,
    ),
    Case(
        File::Nutrients,
        "nutrient\nenergy\nenergy\n\"\"\n",
        2,
        0,
        Kind::Duplicate,
    ),
    Case(
        File::Persons,
        "place,month,persons\n,0,x\n",
        0,
        4,
        Kind::ColumnMissing,
    ),
    Case(
        File::Persons,
        "place,basket,month,persons,basket\n,,0,x,\n",
        0,
        4,
        Kind::ColumnTwice,
    ),
    Case(
        File::Persons,
        "place,month,persons,basket\nP,1,6\n",
        1,
        0,
        Kind::Uneven,
    ),
    Case(
        File::Persons,
        "place,month,persons,basket\nP,3,x,\n",
        1,
        2,
        Kind::OutOfRange,
    ),
    Case(
        File::Persons,
        "place,month,persons,basket\nP,1,x,\n",
        1,
        3,
        Kind::BadNumber,
    ),
    Case(
        File::Persons,
        "place,month,persons,basket\nX,1,6, \t\n",
        1,
        4,
        Kind::EmptyName,
    ),
    Case(
        File::Persons,
        "place,month,persons,basket\nX,1,6,01234567890123456789012345678901234567890123456789012345678901234\n",
        1,
        4,
        Kind::NameTooLong,
    ),
    Case(
        File::Persons,
        "place,month,persons,basket\nP,1,6,A\nP,1,6,B\nP,2,6,A\nP,01,4,B\nP,1,x,A\n",
        4,
        0,
        Kind::Duplicate,
    ),
    Case(
        File::Persons,
        "place,month,persons,basket\nX,1,6,C\nX,1,4,C\n",
        2,
        0,
        Kind::Duplicate,
    ),
    Case(File::Baskets, "Basket\nA\nB\n", 0, 1, Kind::ColumnMissing),
    Case(File::Baskets, "basket,basket\nA\n", 0, 1, Kind::ColumnTwice),
    Case(File::Baskets, "basket,note\nA,\n\"\"\n", 2, 0, Kind::Uneven),
    Case(
        File::Baskets,
        "basket\nA\n\" \"\nA\n",
        2,
        1,
        Kind::EmptyName,
    ),
    Case(
        File::Baskets,
        "basket\n01234567890123456789012345678901234567890123456789012345678901234\n",
        1,
        1,
        Kind::NameTooLong,
    ),
    Case(
        File::Baskets,
        "basket\nA\nB\n A\n\"\"\n",
        3,
        0,
        Kind::Duplicate,
    ),
    Case(File::Baskets, "", 0, 0, Kind::EmptyTable),
];

/// What persons and needs name, which is judged when every table has been read. The earlier record and column is named.
const NAMES: [Case<'static>; 5] = [
    Case(
        File::Persons,
        "place,month,persons,basket\nP,1,6,A\nP,1,4,C\nX,1,1,A\n",
        2,
        4,
        Kind::UnknownName,
    ),
    Case(
        File::Persons,
        "place,month,persons,basket\nX,1,6,C\n",
        1,
        1,
        Kind::UnknownName,
    ),
    Case(
        File::Persons,
        "place,month,persons,basket\nS,1,6,C\n",
        1,
        1,
        Kind::WrongPlaceKind,
    ),
    Case(
        File::Persons,
        "place,month,persons,basket\nP,1,6,energy\n",
        1,
        4,
        Kind::UnknownName,
    ),
    Case(
        File::Persons,
        "place,month,persons,basket\nP,1,6,a\n",
        1,
        4,
        Kind::UnknownName,
    ),
];

#[test]
fn refuses_tables_with_baskets(rt: HostRuntime) -> Result<(), Fail> {
    let alloc = rt.alloc();
    for settings in [SECOND, THIRD] {
        let settings = Held(File::Settings, settings);
        for case in &BASKETS {
            assert_refused_early(&rt, alloc, settings, case);
        }
        for case in &NAMES {
            assert_refused(&rt, alloc, settings, case);
        }
    }
    Ok(())
}
