use super::cases::{Case, assert_refused_early};
use super::formats::{FOLDER, THIRD};
use super::{Held, fault_of, refusal};
use opt_base::{File, Kind};
use std::test::Fail;

/// The columns of offers in format 3 alone.
const LOTS: [Case<'static>; 9] = [
    Case(
        File::Offers,
        "offer,place,commodity,price,max_kg,first,last,least\no1,S,rice,450,20000,1,x,0\n",
        0,
        8,
        Kind::ColumnMissing,
    ),
    Case(
        File::Offers,
        "offer,place,commodity,price,max_kg,first,last,fee\no1,S,rice,450,20000,1,x,0\n",
        0,
        9,
        Kind::ColumnMissing,
    ),
    Case(
        File::Offers,
        "fee,offer,place,commodity,price,max_kg,first,last,fee,least\n",
        0,
        8,
        Kind::ColumnTwice,
    ),
    Case(
        File::Offers,
        "offer,place,commodity,price,max_kg,first,last,fee,least\no1,S,rice,450,20000,1,37,x,x\n",
        1,
        7,
        Kind::OutOfRange,
    ),
    Case(
        File::Offers,
        "offer,place,commodity,price,max_kg,first,last,fee,least\no1,X,rice,450,20000,1,1,,x\n",
        1,
        8,
        Kind::BadNumber,
    ),
    Case(
        File::Offers,
        "offer,place,commodity,price,max_kg,first,last,fee,least\no1,S,rice,450,20000,1,1,18446744073709551616,x\n",
        1,
        8,
        Kind::OutOfRange,
    ),
    Case(
        File::Offers,
        "offer,place,commodity,price,max_kg,first,last,fee,least\no1,X,rice,450,20000,1,1,0,1.0\n",
        1,
        9,
        Kind::BadNumber,
    ),
    Case(
        File::Offers,
        "offer,place,commodity,price,max_kg,first,last,fee,least\no1,S,rice,450,20000,1,1,1000000000000,1000000001\n",
        1,
        9,
        Kind::OutOfRange,
    ),
    Case(
        File::Offers,
        "offer,place,commodity,price,max_kg,first,last,fee,least\no1,S,rice,450,20000,1,1,5,6\no1,X,maize,0,0,2,2,0,0\n",
        2,
        0,
        Kind::Duplicate,
    ),
];

#[test]
fn refuses_lots_in_format_3_alone(rt: HostRuntime) -> Result<(), Fail> {
    let alloc = rt.alloc();
    let third = Held(File::Settings, THIRD);
    for case in &LOTS {
        assert_refused_early(&rt, alloc, third, case);
    }
    // In format 2 what stands in these columns is not read.
    let lots = Held(
        File::Offers,
        b"offer,place,commodity,price,max_kg,first,last,fee,least,fee\no1,S,rice,450,20000,1,1,x,,-1\n",
    );
    assert_eq!(rt; fault_of(alloc, &FOLDER, &[lots]), None);
    let missing = refusal(File::Offers, 0, 8, Kind::ColumnTwice);
    assert_eq!(rt; fault_of(alloc, &FOLDER, &[third, lots]), missing);
    Ok(())
}
