use super::{Held, LATE_FAULT, NETWORK, fault_of, hold, refusal};
use crate::{Files, read_model};
use opt_base::{File, Kind, ModelFault, OutOfMemory};
use std::alloc::Global;
use std::process::Abort;
use std::test::Fail;

/// A model file that is refused: the record's number, the column and the kind.
#[derive(Clone, Copy)]
struct Fault<'a>(Held<'a>, u32, u8, Kind);

/// Why there is no model of the network with these faults.
fn first_fault(alloc: Global, faults: &[Fault<'_>]) -> Result<Option<ModelFault>, OutOfMemory> {
    let mut files = Files::new();
    hold(alloc, &mut files, &NETWORK)?;
    for fault in faults {
        hold(alloc, &mut files, &[fault.0])?;
    }
    Ok(read_model(alloc, &files).err())
}

/// Of these faults the first is named, and where it is mended the next.
fn assert_in_order(
    rt: &impl Abort,
    alloc: Global,
    faults: &[Fault<'_>],
) -> Result<(), OutOfMemory> {
    for (place, fault) in faults.iter().enumerate() {
        let expected = refusal(fault.0.0, fault.1, fault.2, fault.3);
        assert_eq!(rt; first_fault(alloc, &faults[place..])?, expected);
    }
    Ok(())
}

/// The settings and each table, as they stand.
const AS_THEY_STAND: [Fault<'static>; 10] = [
    Fault(
        Held(File::Settings, b"months = 1\n"),
        0,
        1,
        Kind::SettingMissing,
    ),
    Fault(
        Held(File::Commodities, b"commodity,group,min_g,max_g,step_g\n"),
        0,
        0,
        Kind::EmptyTable,
    ),
    Fault(
        Held(File::Groups, b"group,min_g,max_g\n,0,0\n"),
        1,
        1,
        Kind::EmptyName,
    ),
    Fault(
        Held(
            File::Nutrients,
            b"nutrient,required,max_short,weight\nenergy,2100,0,1\nenergy,2100,0,1\n",
        ),
        2,
        0,
        Kind::Duplicate,
    ),
    Fault(
        Held(File::Contents, b"commodity,nutrient\n"),
        0,
        3,
        Kind::ColumnMissing,
    ),
    Fault(
        Held(
            File::Places,
            b"place,kind,storage,throughput,handling,storage_cost\nS,supplier,0,,0,0\nP,depot,0,,0,0\n",
        ),
        2,
        2,
        Kind::UnknownName,
    ),
    Fault(Held(File::Offers, b"\xff"), 0, 0, Kind::NotUtf8),
    Fault(
        Held(
            File::Arcs,
            b"arc,from,to,cost,capacity,lead\na1,S,P,50,20000\n",
        ),
        1,
        0,
        Kind::Uneven,
    ),
    Fault(
        Held(File::Persons, b"place,month,persons\nP,2,1000\n"),
        1,
        2,
        Kind::OutOfRange,
    ),
    Fault(LATE_FAULT, 1, 4, Kind::BadNumber),
];

/// The tables by what their records name.
const BY_NAME: [Fault<'static>; 6] = [
    Fault(
        Held(
            File::Commodities,
            b"commodity,group,min_g,max_g,step_g\nrice,cereals,0,600,10\n",
        ),
        1,
        2,
        Kind::UnknownName,
    ),
    Fault(
        Held(
            File::Contents,
            b"commodity,nutrient,per_100g\nrice,protein,7\n",
        ),
        1,
        2,
        Kind::UnknownName,
    ),
    Fault(
        Held(
            File::Offers,
            b"offer,place,commodity,price,max_kg,first,last\no1,P,rice,450,20000,1,1\n",
        ),
        1,
        2,
        Kind::WrongPlaceKind,
    ),
    Fault(
        Held(
            File::Arcs,
            b"arc,from,to,cost,capacity,lead\na1,S,X,50,20000,0\n",
        ),
        1,
        3,
        Kind::UnknownName,
    ),
    Fault(
        Held(File::Persons, b"place,month,persons\nS,1,1000\n"),
        1,
        1,
        Kind::WrongPlaceKind,
    ),
    Fault(
        Held(File::Stock, b"place,commodity,month,kg\nX,rice,1,5\n"),
        1,
        1,
        Kind::UnknownName,
    ),
];

#[test]
fn names_the_first_fault(rt: HostRuntime) -> Result<(), Fail> {
    let alloc = rt.alloc();
    assert_in_order(&rt, alloc, &AS_THEY_STAND)?;
    assert_in_order(&rt, alloc, &BY_NAME)?;
    Ok(())
}

#[test]
fn what_records_name_is_judged_last(rt: HostRuntime) -> Result<(), Fail> {
    let alloc = rt.alloc();
    let late = refusal(File::Stock, 1, 4, Kind::BadNumber);
    for fault in &BY_NAME {
        let faults = [*fault, Fault(LATE_FAULT, 1, 4, Kind::BadNumber)];
        assert_eq!(rt; first_fault(alloc, &faults)?, late);
    }
    // Also where a table has both.
    let both = Held(
        File::Stock,
        b"place,commodity,month,kg\nX,rice,1,5\nP,rice,1,\n",
    );
    let second = refusal(File::Stock, 2, 4, Kind::BadNumber);
    assert_eq!(rt; fault_of(alloc, &NETWORK, &[both]), second);
    Ok(())
}

/// Three faults: a number that is none, a commodity that stands there twice, an arc to a place that is not there.
const THREE: [Fault<'static>; 3] = [
    Fault(
        Held(
            File::Commodities,
            b"commodity,group,min_g,max_g,step_g\nrice,,0,600,10\nrice,,0,100,10\n",
        ),
        2,
        0,
        Kind::Duplicate,
    ),
    Fault(
        Held(
            File::Offers,
            b"offer,place,commodity,price,max_kg,first,last\no1,S,rice,1e3,20000,1,1\n",
        ),
        1,
        4,
        Kind::BadNumber,
    ),
    Fault(
        Held(
            File::Arcs,
            b"arc,from,to,cost,capacity,lead\na1,S,X,50,20000,0\n",
        ),
        1,
        3,
        Kind::UnknownName,
    ),
];

#[test]
fn names_one_of_three_faults(rt: HostRuntime) -> Result<(), Fail> {
    let alloc = rt.alloc();
    assert_in_order(&rt, alloc, &THREE)?;
    for fault in &THREE {
        let expected = refusal(fault.0.0, fault.1, fault.2, fault.3);
        assert_eq!(rt; first_fault(alloc, &[*fault])?, expected);
    }
    Ok(())
}

/// What is wrong with a folder as a whole comes before its settings, and these before its tables.
#[test]
fn files_and_settings_come_first(rt: HostRuntime) {
    let alloc = rt.alloc();
    let settings = Held(File::Settings, b"days = [30\n");
    let goal = Held(
        File::Settings,
        b"format = 1\nmonths = 1\ndays = [30]\ngap = 0\nnodes = 1\n",
    );
    let money = Held(
        File::Settings,
        b"format = 1\nmonths = 1\ndays = [30]\ngoal = \"money\"\ngap = 0\nnodes = 1\n",
    );
    let commodities = Held(File::Commodities, b"\xff");
    let refused = refusal(File::Settings, 0, 0, Kind::TomlRefused);
    assert_eq!(rt; fault_of(alloc, &NETWORK, &[settings]), refused);
    assert_eq!(rt;
        fault_of(alloc, &NETWORK, &[settings, commodities]),
        refused
    );
    let missing = refusal(File::Settings, 0, 4, Kind::SettingMissing);
    assert_eq!(rt; fault_of(alloc, &NETWORK, &[goal]), missing);
    assert_eq!(rt; fault_of(alloc, &NETWORK, &[goal, commodities]), missing);
    let range = refusal(File::Settings, 0, 4, Kind::SettingRange);
    assert_eq!(rt; fault_of(alloc, &NETWORK, &[money, commodities]), range);
    // The first three files alone: contents are missing.
    let file = refusal(File::Contents, 0, 0, Kind::MissingFile);
    assert_eq!(rt;
        fault_of(alloc, &NETWORK[..3], &[settings, commodities]),
        file
    );
}
