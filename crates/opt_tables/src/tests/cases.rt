use super::formats::FOLDER;
use super::{Held, fault_of, refusal};
use opt_base::{File, Kind};
use std::alloc::Global;
use std::process::Abort;

/// A table that is refused: the record's number, the column and the kind.
#[derive(Clone, Copy)]
pub struct Case<'a>(pub File, pub &'a str, pub u32, pub u8, pub Kind);

/// A need whose number is none: a fault of the table that is judged last.
const LATER_LINE: Held<'static> = Held(
    File::Needs,
    b"basket,nutrient,required,max_short,weight\nA,energy,x,0,1\n",
);

/// A need of a basket that is not there: the fault that is judged last of all.
const LATER_NAME: Held<'static> = Held(
    File::Needs,
    b"basket,nutrient,required,max_short,weight\nC,energy,1,0,1\n",
);

/// A group that is not there: judged when every table has been read.
pub const NO_GROUP: Held<'static> = Held(
    File::Commodities,
    b"commodity,group,min_g,max_g,step_g\nrice,cereals,0,600,10\n",
);

/// The case is refused under these settings, also where a later table, or what a later table names, is wrong.
pub fn assert_refused<'x>(rt: &impl Abort, alloc: Global, settings: Held<'x>, case: &Case<'x>) {
    let text = case.1;
    let held = Held(case.0, case.1.as_bytes());
    let expected = refusal(case.0, case.2, case.3, case.4);
    assert_eq!(rt;
        fault_of(alloc, &FOLDER, &[settings, held]),
        expected,
        "{text}"
    );
    let later = [settings, LATER_NAME, held];
    assert_eq!(rt; fault_of(alloc, &FOLDER, &later), expected, "{text}");
}

/// The same of a case that is judged before what any record names.
pub fn assert_refused_early<'x>(
    rt: &impl Abort,
    alloc: Global,
    settings: Held<'x>,
    case: &Case<'x>,
) {
    assert_refused(rt, alloc, settings, case);
    let text = case.1;
    let held = Held(case.0, case.1.as_bytes());
    let expected = refusal(case.0, case.2, case.3, case.4);
    let named = [settings, NO_GROUP, held];
    assert_eq!(rt; fault_of(alloc, &FOLDER, &named), expected, "{text}");
    let later = [settings, LATER_LINE, held];
    assert_eq!(rt; fault_of(alloc, &FOLDER, &later), expected, "{text}");
}
