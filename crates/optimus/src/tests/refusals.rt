use super::{
    BASKET, Case, Held, LINE, MISSING, Step, expect_cases, expect_held, expect_step, shelf_of,
};
use opt_base::OutOfMemory;
use std::alloc::Global;
use std::process::Abort;
use std::test::Fail;

/// Nothing is put where something is refused.
const NOTHING: [Held<'static>; 3] = [
    Held("d/certificate.txt", MISSING),
    Held("d/plan.csv", MISSING),
    Held("d/summary.json", MISSING),
];

const SETTINGS: [Case<'static>; 3] = [
    Case {
        held: &BASKET,
        changes: &[Held(
            "d/settings.toml",
            "format = 1\nmonths = 1\ndays = [30]\ngap = 300\nnodes = 1\n",
        )],
        steps: &[Step(
            "plan",
            3,
            "refused settings.toml column goal: SettingMissing\n",
        )],
        files: &NOTHING,
    },
    Case {
        held: &BASKET,
        changes: &[Held(
            "d/settings.toml",
            "format = 1\nmonths = 1\ndays = [32]\ngoal = \"shortfall\"\ngap = 300\nnodes = 1\n",
        )],
        steps: &[Step(
            "plan",
            3,
            "refused settings.toml column days: SettingRange\n",
        )],
        files: &NOTHING,
    },
    Case {
        held: &BASKET,
        changes: &[Held(
            "d/settings.toml",
            "format = 1\nmonths = 1\ndays = [30\ngoal = \"shortfall\"\ngap = 300\nnodes = 1\n",
        )],
        steps: &[Step("plan", 3, "refused settings.toml: TomlRefused\n")],
        files: &NOTHING,
    },
];

#[test]
fn settings_are_refused(rt: HostRuntime) -> Result<(), Fail> {
    expect_cases(&rt, rt.alloc(), &SETTINGS)?;
    Ok(())
}

const BAD_PRICE: Held<'static> = Held(
    "d/offers.csv",
    "offer,place,commodity,price,max_kg,first,last\no1,S,rice,1e3,20000,1,1\n",
);

const TWICE: Held<'static> = Held(
    "d/commodities.csv",
    "commodity,group,min_g,max_g,step_g\nrice,,0,600,10\nrice,,0,100,10\n",
);

const TO_NOWHERE: Held<'static> = Held(
    "d/arcs.csv",
    "arc,from,to,cost,capacity,lead\na1,S,X,50,20000,0\n",
);

/// Of three things that are wrong the one that comes first in the order of the files is named.
const ORDER: [Case<'static>; 4] = [
    Case {
        held: &LINE,
        changes: &[BAD_PRICE],
        steps: &[Step(
            "plan",
            3,
            "refused offers.csv record 1 column price: BadNumber\n",
        )],
        files: &NOTHING,
    },
    Case {
        held: &LINE,
        changes: &[TWICE],
        steps: &[Step("plan", 3, "refused commodities.csv record 2: Duplicate\n")],
        files: &NOTHING,
    },
    Case {
        held: &LINE,
        changes: &[TO_NOWHERE],
        steps: &[Step(
            "plan",
            3,
            "refused arcs.csv record 1 column to: UnknownName\n",
        )],
        files: &NOTHING,
    },
    Case {
        held: &LINE,
        changes: &[BAD_PRICE, TO_NOWHERE, TWICE],
        steps: &[Step("plan", 3, "refused commodities.csv record 2: Duplicate\n")],
        files: &NOTHING,
    },
];

#[test]
fn the_first_refusal_of_the_tables_is_named(rt: HostRuntime) -> Result<(), Fail> {
    expect_cases(&rt, rt.alloc(), &ORDER)?;
    Ok(())
}

/// The line with one table that is refused, and the line of the refusal.
#[derive(Clone, Copy)]
struct Refused<'a>(&'a str, &'a str, &'a str);

/// What is refused in other ways. A file that need not be there and holds a byte has columns.
const TABLES: [Refused<'static>; 11] = [
    Refused(
        "d/groups.csv",
        "x",
        "refused groups.csv column group: ColumnMissing\n",
    ),
    Refused(
        "d/persons.csv",
        "place,month,persons,month\nP,1,1000,1\n",
        "refused persons.csv column month: ColumnTwice\n",
    ),
    Refused(
        "d/persons.csv",
        "place,month,persons\nP,1\n",
        "refused persons.csv record 1: Uneven\n",
    ),
    Refused(
        "d/commodities.csv",
        "commodity,group,min_g,max_g,step_g\n",
        "refused commodities.csv: EmptyTable\n",
    ),
    Refused(
        "d/commodities.csv",
        "commodity,group,min_g,max_g,step_g\nrice,,601,609,10\n",
        "refused commodities.csv record 1: NoStepInRange\n",
    ),
    Refused(
        "d/nutrients.csv",
        "nutrient,required,max_short,weight\n ,2100,0,1\n",
        "refused nutrients.csv record 1 column nutrient: EmptyName\n",
    ),
    Refused(
        "d/nutrients.csv",
        "nutrient,required,max_short,weight\n\
        energy789energy789energy789energy789energy789energy789energy789energ,2100,0,1\n",
        "refused nutrients.csv record 1 column nutrient: NameTooLong\n",
    ),
    Refused(
        "d/places.csv",
        "place,kind,storage,throughput,handling,storage_cost\nS,shop,0,,0,0\nP,point,0,,0,0\n",
        "refused places.csv record 1 column kind: UnknownName\n",
    ),
    Refused(
        "d/arcs.csv",
        "arc,from,to,cost,capacity,lead\na1,S,P,50,20000,13\n",
        "refused arcs.csv record 1 column lead: OutOfRange\n",
    ),
    Refused(
        "d/arcs.csv",
        "arc,from,to,cost,capacity,lead\na1,P,S,50,20000,0\n",
        "refused arcs.csv record 1 column to: WrongPlaceKind\n",
    ),
    Refused(
        "d/stock.csv",
        "place,commodity,month,kg\nP,rice,2,500\n",
        "refused stock.csv record 1 column month: OutOfRange\n",
    ),
];

fn expect_refused(rt: &impl Abort, alloc: Global, case: &Refused<'_>) -> Result<(), OutOfMemory> {
    let mut shelf = shelf_of(alloc, &LINE, &[])?;
    shelf.load(case.0, case.1.as_bytes())?;
    expect_step(rt, alloc, &mut shelf, &Step("plan", 3, case.2))
}

fn expect_all_refused(
    rt: &impl Abort,
    alloc: Global,
    cases: &[Refused<'_>],
) -> Result<(), OutOfMemory> {
    for case in cases {
        expect_refused(rt, alloc, case)?;
    }
    Ok(())
}

#[test]
fn tables_are_refused(rt: HostRuntime) -> Result<(), Fail> {
    expect_all_refused(&rt, rt.alloc(), &TABLES)?;
    Ok(())
}

#[test]
fn a_table_that_must_be_there_is_missing(rt: HostRuntime) -> Result<(), Fail> {
    let mut shelf = shelf_of(rt.alloc(), &BASKET[..3], &[])?;
    let missing = Step("plan", 3, "refused contents.csv: MissingFile\n");
    expect_step(&rt, rt.alloc(), &mut shelf, &missing)?;
    expect_held(&rt, &shelf, &NOTHING);
    Ok(())
}

#[test]
fn what_is_no_text_is_refused(rt: HostRuntime) -> Result<(), Fail> {
    let mut shelf = shelf_of(rt.alloc(), &LINE, &[])?;
    shelf.load(
        "d/contents.csv",
        b"commodity,nutrient,per_100g\nri\xffce,energy,360\n",
    )?;
    let refused = Step("plan", 3, "refused contents.csv: NotUtf8\n");
    expect_step(&rt, rt.alloc(), &mut shelf, &refused)?;
    Ok(())
}
