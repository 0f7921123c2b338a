use super::cases::{Case, NO_GROUP};
use super::formats::{FOLDER, SECOND, THIRD};
use super::{Held, fault_of, refusal};
use opt_base::{File, Kind};
use std::test::Fail;

/// Needs, the table that is judged last: the same.
const NEEDS: [Case<'static>; 17] = [
    Case(
        File::Needs,
        "nutrient,required,max_short,weight\n",
        0,
        1,
        Kind::ColumnMissing,
    ),
    Case(
        File::Needs,
        "basket,required,max_short\n",
        0,
        2,
        Kind::ColumnMissing,
    ),
    Case(
        File::Needs,
        "basket,nutrient,max_short,weight\n,,,\n",
        0,
        3,
        Kind::ColumnMissing,
    ),
    Case(
        File::Needs,
        "basket,nutrient,required,weight\n",
        0,
        4,
        Kind::ColumnMissing,
    ),
    Case(
        File::Needs,
        "basket,nutrient,required,max_short\n",
        0,
        5,
        Kind::ColumnMissing,
    ),
    Case(
        File::Needs,
        "weight,basket,nutrient,required,max_short,weight\n",
        0,
        5,
        Kind::ColumnTwice,
    ),
    Case(
        File::Needs,
        "basket,nutrient,required,max_short,weight\n,,x,x,x\nA\n",
        2,
        0,
        Kind::Uneven,
    ),
    Case(
        File::Needs,
        "basket,nutrient,required,max_short,weight\n,,x,x,x\n",
        1,
        1,
        Kind::EmptyName,
    ),
    Case(
        File::Needs,
        "basket,nutrient,required,max_short,weight\nC,,x,x,x\n",
        1,
        2,
        Kind::EmptyName,
    ),
    Case(
        File::Needs,
        "basket,nutrient,required,max_short,weight\nC,fat,1e3,x,x\n",
        1,
        3,
        Kind::BadNumber,
    ),
    Case(
        File::Needs,
        "basket,nutrient,required,max_short,weight\nA,energy,1000000001,x,x\n",
        1,
        3,
        Kind::OutOfRange,
    ),
    Case(
        File::Needs,
        "basket,nutrient,required,max_short,weight\nA,energy,1000000000,,x\n",
        1,
        4,
        Kind::BadNumber,
    ),
    Case(
        File::Needs,
        "basket,nutrient,required,max_short,weight\nA,energy,1,1000000001,x\n",
        1,
        4,
        Kind::OutOfRange,
    ),
    Case(
        File::Needs,
        "basket,nutrient,required,max_short,weight\nA,energy,1,1000000000,-1\n",
        1,
        5,
        Kind::BadNumber,
    ),
    Case(
        File::Needs,
        "basket,nutrient,required,max_short,weight\nA,energy,1,0,1000001\n",
        1,
        5,
        Kind::OutOfRange,
    ),
    Case(
        File::Needs,
        "basket,nutrient,required,max_short,weight\nA,energy,1,0,1\nB,energy,1,0,1\nA,energy,2,0,1\nA,energy,x,0,1\n",
        3,
        0,
        Kind::Duplicate,
    ),
    Case(
        File::Needs,
        "basket,nutrient,required,max_short,weight\nC,fat,1,0,1\nC,fat,2,0,1\n",
        2,
        0,
        Kind::Duplicate,
    ),
];

/// The last faults of all.
const NAMES_OF_NEEDS: [Case<'static>; 3] = [
    Case(
        File::Needs,
        "basket,nutrient,required,max_short,weight\nA,energy,1,0,1\nC,fat,1,0,1\nA,fat,1,0,1\n",
        2,
        1,
        Kind::UnknownName,
    ),
    Case(
        File::Needs,
        "basket,nutrient,required,max_short,weight\nB,fat,1,0,1\nC,energy,1,0,1\n",
        1,
        2,
        Kind::UnknownName,
    ),
    Case(
        File::Needs,
        "basket,nutrient,required,max_short,weight\nenergy,A,1,0,1\n",
        1,
        1,
        Kind::UnknownName,
    ),
];

#[test]
fn refuses_needs(rt: HostRuntime) -> Result<(), Fail> {
    let alloc = rt.alloc();
    for file in [File::Baskets, File::Needs] {
        let expected = refusal(file, 0, 0, Kind::NotUtf8);
        let held = Held(file, b"basket,nutrient\n\xff");
        assert_eq!(rt; fault_of(alloc, &FOLDER, &[held]), expected);
        assert_eq!(rt; fault_of(alloc, &FOLDER, &[NO_GROUP, held]), expected);
    }
    for settings in [SECOND, THIRD] {
        let settings = Held(File::Settings, settings);
        for case in &NEEDS {
            let text = case.1;
            let held = Held(case.0, case.1.as_bytes());
            let expected = refusal(case.0, case.2, case.3, case.4);
            assert_eq!(rt;
                fault_of(alloc, &FOLDER, &[settings, held]),
                expected,
                "{text}"
            );
            let named = [settings, NO_GROUP, held];
            assert_eq!(rt; fault_of(alloc, &FOLDER, &named), expected, "{text}");
        }
        for case in &NAMES_OF_NEEDS {
            let text = case.1;
            let expected = refusal(case.0, case.2, case.3, case.4);
            let held = Held(case.0, case.1.as_bytes());
            assert_eq!(rt;
                fault_of(alloc, &FOLDER, &[settings, held]),
                expected,
                "{text}"
            );
        }
    }
    Ok(())
}
