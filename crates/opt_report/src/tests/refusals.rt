use super::{Held, TWO_BASKETS, WITH_FEE, at, read, tables_of};
use opt_base::Kind;
use opt_tables::Tables;
use std::alloc::Global;
use std::process::Abort;
use std::test::Fail;

/// Records of a plan file, and how the last of them is refused: the column and the kind.
struct Case<'a>(&'a str, u8, Kind);

/// A record that is refused at the second place is refused so alone, behind one that is well, and before one that has
/// every fault.
fn assert_refused(
    rt: &impl Abort,
    alloc: Global,
    tables: &Tables,
    cases: &[Case<'_>],
) -> Result<(), Fail> {
    for case in cases {
        let record = case.0;
        let alone = format!(in alloc; "quantity,name,commodity,month,amount\n{record}\n")?;
        assert_eq!(rt;
            read(rt, alloc, tables, alone.as_bytes()).err(),
            Some(at(1, case.1, case.2)),
            "{record}"
        );
        let behind = format!(in alloc;
            "quantity,name,commodity,month,amount\nbuy,o1,,1,5\n{record}\neat,,x,y,z\n"
        )?;
        assert_eq!(rt;
            read(rt, alloc, tables, behind.as_bytes()).err(),
            Some(at(2, case.1, case.2)),
            "{record}"
        );
    }
    Ok(())
}

/// Each refusal of a record, alone and with every later one beside it.
const OF_A_RECORD: [Case<'static>; 38] = [
    Case("eat,rice,,1,590", 1, Kind::UnknownName),
    Case("eat,,x,0,x", 1, Kind::UnknownName),
    Case(",,x,0,x", 1, Kind::UnknownName),
    Case("order,o1,,1,1", 1, Kind::UnknownName),
    Case("Buy,o1,,1,1", 1, Kind::UnknownName),
    Case("ration,,,1,590", 2, Kind::EmptyName),
    Case("ration,,x,0,x", 2, Kind::EmptyName),
    Case("feed,,x,0,x", 2, Kind::EmptyName),
    Case(
        "ship,abcdefghijklmnopqrstuvwxyzabcdefghijklmnopqrstuvwxyzabcdefghijklm,rice,1,1",
        2,
        Kind::NameTooLong,
    ),
    Case(
        "ship,abcdefghijklmnopqrstuvwxyzabcdefghijklmnopqrstuvwxyzabcdefghijklm,x,0,x",
        2,
        Kind::NameTooLong,
    ),
    Case("keep,Q,rice,1,1", 2, Kind::UnknownName),
    Case("keep,Q,,0,x", 2, Kind::UnknownName),
    Case("short,rice,,1,1", 2, Kind::UnknownName),
    Case("ration,energy,,1,10", 2, Kind::UnknownName),
    Case("buy,a1,,1,1", 2, Kind::UnknownName),
    Case("ship,o1,rice,1,1", 2, Kind::UnknownName),
    Case("ration,rice,rice,1,590", 3, Kind::UnknownName),
    Case("short,energy,energy,0,x", 3, Kind::UnknownName),
    Case("buy,o1,rice,0,x", 3, Kind::UnknownName),
    Case("ship,a1,,1,1", 3, Kind::EmptyName),
    Case("ship,a1,,0,x", 3, Kind::EmptyName),
    Case(
        "feed,P,abcdefghijklmnopqrstuvwxyzabcdefghijklmnopqrstuvwxyzabcdefghijklm,x,x",
        3,
        Kind::NameTooLong,
    ),
    Case("feed,P,energy,1,1", 3, Kind::UnknownName),
    Case("feed,P,energy,x,x", 3, Kind::UnknownName),
    Case("feed,P,rice,,1", 4, Kind::BadNumber),
    Case("feed,P,rice,-1,x", 4, Kind::BadNumber),
    Case("feed,P,rice,0,1", 4, Kind::OutOfRange),
    Case("feed,P,rice,2,x", 4, Kind::OutOfRange),
    Case("feed,P,rice,18446744073709551617,x", 4, Kind::OutOfRange),
    Case("keep,P,rice,1,1", 0, Kind::UnknownName),
    Case("feed,S,rice,1,x", 0, Kind::UnknownName),
    Case("feed,P,rice,1,", 5, Kind::BadNumber),
    Case("feed,P,rice,1,1e3", 5, Kind::BadNumber),
    Case("ration,rice,,1,595", 5, Kind::NoStepInRange),
    Case(
        "ration,rice,,1,100000000000000000000000000001",
        5,
        Kind::NoStepInRange,
    ),
    Case(
        "ration,rice,,1,100000000000000000000000000000",
        5,
        Kind::OutOfRange,
    ),
    Case("ration,rice,,1,610", 5, Kind::OutOfRange),
    Case("short,energy,,1,51", 5, Kind::OutOfRange),
];

#[test]
fn refuses_each_fault_of_a_record(rt: HostRuntime) -> Result<(), Fail> {
    let alloc = rt.alloc();
    let tables = tables_of(alloc, &[], &[])?;
    assert_refused(&rt, alloc, &tables, &OF_A_RECORD)?;
    Ok(())
}

/// The same of what format 2 adds.
const OF_BASKETS: [Case<'static>; 14] = [
    Case("ration,rice,,1,590", 2, Kind::UnknownName),
    Case("ration,A,,1,590", 3, Kind::EmptyName),
    Case("ration,A,energy,0,x", 3, Kind::UnknownName),
    Case("ration,C,,0,x", 2, Kind::UnknownName),
    Case("short,energy,,1,1", 2, Kind::UnknownName),
    Case("short,A,,0,x", 3, Kind::EmptyName),
    Case("short,A,rice,0,x", 3, Kind::UnknownName),
    Case("short,B,protein,x,x", 4, Kind::BadNumber),
    Case("short,B,protein,2,x", 4, Kind::OutOfRange),
    Case("short,B,protein,1,x", 0, Kind::UnknownName),
    Case("short,A,protein,1,1", 5, Kind::OutOfRange),
    Case("short,B,energy,1,51", 5, Kind::OutOfRange),
    Case("order,o1,,1,1", 1, Kind::UnknownName),
    Case("ration,B,rice,1,5", 5, Kind::NoStepInRange),
];

#[test]
fn refuses_what_baskets_lack(rt: HostRuntime) -> Result<(), Fail> {
    let alloc = rt.alloc();
    let tables = tables_of(alloc, &TWO_BASKETS, &[])?;
    assert_refused(&rt, alloc, &tables, &OF_BASKETS)?;
    Ok(())
}

/// The same of what format 3 adds.
const OF_ORDERS: [Case<'static>; 6] = [
    Case("order,,x,0,x", 2, Kind::EmptyName),
    Case("order,o2,x,0,x", 2, Kind::UnknownName),
    Case("order,o1,rice,0,x", 3, Kind::UnknownName),
    Case("order,o1,,2,x", 4, Kind::OutOfRange),
    Case("order,o1,,1,x", 5, Kind::BadNumber),
    Case("order,o1,,1,2", 5, Kind::OutOfRange),
];

#[test]
fn refuses_what_orders_lack(rt: HostRuntime) -> Result<(), Fail> {
    let alloc = rt.alloc();
    let tables = tables_of(alloc, &TWO_BASKETS, &WITH_FEE)?;
    assert_refused(&rt, alloc, &tables, &OF_ORDERS)?;
    Ok(())
}

#[test]
fn refuses_a_second_record_of_a_quantity(rt: HostRuntime) -> Result<(), Fail> {
    // The second has a bad amount beside; the first may be 0.
    let alloc = rt.alloc();
    let tables = tables_of(alloc, &[], &[])?;
    let text = b"quantity,name,commodity,month,amount\nbuy,o1,,1,0\nbuy,o1,,01,x\n";
    assert_eq!(rt;
        read(&rt, alloc, &tables, text).err(),
        Some(at(2, 0, Kind::Duplicate))
    );
    Ok(())
}

#[test]
fn refuses_what_a_table_is_refused_for(rt: HostRuntime) -> Result<(), Fail> {
    let alloc = rt.alloc();
    let tables = tables_of(alloc, &[], &[])?;
    let cases: [(&[u8], u32, u8, Kind); 6] = [
        (b"", 0, 1, Kind::ColumnMissing),
        (
            b"quantity,name,month,amount\nx\n",
            0,
            3,
            Kind::ColumnMissing,
        ),
        (
            b"quantity,name,commodity,month,amount,name\n",
            0,
            2,
            Kind::ColumnTwice,
        ),
        (
            b"quantity,name,commodity,month,amount\neat,,,,\nbuy\n",
            2,
            0,
            Kind::Uneven,
        ),
        (
            b"quantity,name,commodity,month\n\xFF\n",
            0,
            0,
            Kind::NotUtf8,
        ),
        (
            b"quantity,name,commodity,month,amount\nbuy,o1,,1,20001\n",
            1,
            5,
            Kind::OutOfRange,
        ),
    ];
    for case in &cases {
        assert_eq!(rt;
            read(&rt, alloc, &tables, case.0).err(),
            Some(at(case.1, case.2, case.3))
        );
    }
    Ok(())
}

/// What makes the least ration of rice 100 g.
const SOME_RICE: [Held<'static>; 1] = [Held(
    "d/commodities.csv",
    b"commodity,group,min_g,max_g,step_g\nrice,,100,600,10\n",
)];

#[test]
fn refuses_a_quantity_that_may_not_be_0_without_a_record(rt: HostRuntime) -> Result<(), Fail> {
    let alloc = rt.alloc();
    let tables = tables_of(alloc, &SOME_RICE, &[])?;
    let none = b"quantity,name,commodity,month,amount\nbuy,o1,,1,5\n";
    assert_eq!(rt;
        read(&rt, alloc, &tables, none).err(),
        Some(at(0, 5, Kind::OutOfRange))
    );
    let low = b"quantity,name,commodity,month,amount\nration,rice,,1,90\n";
    assert_eq!(rt;
        read(&rt, alloc, &tables, low).err(),
        Some(at(1, 5, Kind::OutOfRange))
    );
    let least = b"quantity,name,commodity,month,amount\nration,rice,,1,100\n";
    assert_eq!(rt;
        read(&rt, alloc, &tables, least)?.as_slice(),
        [10, 0, 0, 0, 0].as_slice()
    );
    Ok(())
}
