use super::{Case, Held, LINE, LINE_PLAN, MISSING, Step, expect_cases, expect_steps, shelf_of};
use opt_base::OutOfMemory;
use std::alloc::Global;
use std::process::Abort;
use std::test::Fail;

/// Where the reports of a plan are put.
const NO_REPORTS: [Held<'static>; 3] = [
    Held("d/report_sites.csv", MISSING),
    Held("d/report_costs.csv", MISSING),
    Held("d/report_basket.csv", MISSING),
];

/// The plan of the line, and the same as someone else would write it: other columns, other order, what is 0 too.
const FEASIBLE: [Case<'static>; 2] = [
    Case {
        held: &LINE,
        changes: &[Held("d/plan.csv", LINE_PLAN)],
        steps: &[Step("audit", 0, "audit 0 broken\n")],
        files: &[Held("d/plan.csv", LINE_PLAN)],
    },
    Case {
        held: &LINE,
        changes: &[Held(
            "d/plan.csv",
            "month,note,quantity,commodity,name,amount\r\n01,,feed,rice,P,017700\r\n\
            1,,buy,,o1,17700\r\n1,,ship,rice,a1,17700\r\n1,dear,ration,,rice,590\r\n\
            1,,short,,energy,0\r\n",
        )],
        steps: &[Step("audit", 0, "audit 0 broken\n")],
        files: &NO_REPORTS,
    },
];

#[test]
fn a_plan_that_breaks_no_row(rt: HostRuntime) -> Result<(), Fail> {
    expect_cases(&rt, rt.alloc(), &FEASIBLE)?;
    Ok(())
}

/// A kilogram less is handed out: 17,699,000 g are 1,000 fewer than 17,700,000, and a kilogram is left over.
const KILOGRAM_LEFT: &str = "broken handout-low P rice month 1 by 1000\n\
    broken balance P rice month 1 by 1\naudit 2 broken\n";

/// A report of a plan that breaks a row says the same, and is not written. Where nothing is bought, moved or eaten
/// 210,000 hundredths are missing.
const BROKEN: [Case<'static>; 2] = [
    Case {
        held: &LINE,
        changes: &[Held(
            "d/plan.csv",
            "quantity,name,commodity,month,amount\nration,rice,,1,590\nbuy,o1,,1,17700\n\
            ship,a1,rice,1,17700\nfeed,P,rice,1,17699\n",
        )],
        steps: &[
            Step("audit", 1, KILOGRAM_LEFT),
            Step("report", 1, KILOGRAM_LEFT),
        ],
        files: &NO_REPORTS,
    },
    Case {
        held: &LINE,
        changes: &[Held("d/plan.csv", "quantity,name,commodity,month,amount\n")],
        steps: &[Step(
            "audit",
            1,
            "broken nutrient energy month 1 by 210000\naudit 1 broken\n",
        )],
        files: &NO_REPORTS,
    },
];

#[test]
fn a_plan_that_breaks_rows(rt: HostRuntime) -> Result<(), Fail> {
    expect_cases(&rt, rt.alloc(), &BROKEN)?;
    Ok(())
}

/// The names of rows. 590 g of grain are 10 too many. 17,740 kg of rice and 20 of oats, which nobody sells, go over an
/// arc for 17,750 to a place that takes 17,700 and keeps 100, with 100 of oats there: for 8,871,000 mills.
const NAMES: [Case<'static>; 1] = [Case {
    held: &LINE,
    changes: &[
        Held(
            "d/settings.toml",
            "format = 1\nmonths = 1\ndays = [30]\ngoal = \"cost\"\ngap = 0\nnodes = 1000\n\
            budget = 8850000\n",
        ),
        Held(
            "d/commodities.csv",
            "commodity,group,min_g,max_g,step_g\nrice,grain,0,600,10\noats,grain,0,600,10\n",
        ),
        Held("d/groups.csv", "group,min_g,max_g\ngrain,0,580\n"),
        Held(
            "d/places.csv",
            "place,kind,storage,throughput,handling,storage_cost\nS,supplier,0,,0,0\n\
            P,point,100,17700,0,0\n",
        ),
        Held(
            "d/arcs.csv",
            "arc,from,to,cost,capacity,lead\na1,S,P,50,17750,0\n",
        ),
        Held("d/stock.csv", "place,commodity,month,kg\nP,oats,1,100\n"),
        Held(
            "d/plan.csv",
            "quantity,name,commodity,month,amount\nration,rice,,1,590\nbuy,o1,,1,17740\n\
            ship,a1,rice,1,17740\nship,a1,oats,1,20\nkeep,P,rice,1,40\nkeep,P,oats,1,100\n\
            feed,P,rice,1,17700\n",
        ),
    ],
    steps: &[Step(
        "audit",
        1,
        "broken group-high grain month 1 by 10\nbroken balance S oats month 1 by 20\n\
        broken balance P oats month 1 by 20\nbroken arc a1 month 1 by 10\n\
        broken storage P month 1 by 40\nbroken throughput P month 1 by 60\n\
        broken budget by 21000\naudit 7 broken\n",
    )],
    files: &[],
}];

#[test]
fn broken_rows_are_named(rt: HostRuntime) -> Result<(), Fail> {
    expect_cases(&rt, rt.alloc(), &NAMES)?;
    Ok(())
}

/// A fifth record behind those of the line's plan, and what is printed of it behind `refused plan.csv`.
#[derive(Clone, Copy)]
struct Refused<'a>(&'a str, &'a str);

const REFUSED: [Refused<'static>; 16] = [
    Refused("bought,o1,,1,5", " record 5 column quantity: UnknownName"),
    Refused("order,o1,,1,1", " record 5 column quantity: UnknownName"),
    Refused("buy,,,1,5", " record 5 column name: EmptyName"),
    Refused("buy,o2,,1,5", " record 5 column name: UnknownName"),
    Refused(
        "feed,P123456789P123456789P123456789P123456789P123456789P123456789P1234,rice,1,5",
        " record 5 column name: NameTooLong",
    ),
    Refused("buy,o1,rice,1,5", " record 5 column commodity: UnknownName"),
    Refused("ship,a1,,1,5", " record 5 column commodity: EmptyName"),
    Refused(
        "feed,P,maize,1,5",
        " record 5 column commodity: UnknownName",
    ),
    Refused("buy,o1,,one,5", " record 5 column month: BadNumber"),
    Refused("buy,o1,,2,5", " record 5 column month: OutOfRange"),
    Refused("keep,P,rice,1,5", " record 5: UnknownName"),
    Refused("buy,o1,,01,5", " record 5: Duplicate"),
    Refused("short,energy,,1,-5", " record 5 column amount: BadNumber"),
    Refused("short,energy,,1,5", " record 5 column amount: OutOfRange"),
    Refused("short,energy,,1", " record 5: Uneven"),
    Refused("short,energy,,1,0,0", " record 5: Uneven"),
];

/// Audits and reports a plan file of the line, which is refused with this line.
fn expect_refused(
    rt: &impl Abort,
    alloc: Global,
    plan: &str,
    line: &str,
) -> Result<(), OutOfMemory> {
    let mut shelf = shelf_of(alloc, &LINE, &[])?;
    shelf.load("d/plan.csv", plan.as_bytes())?;
    expect_steps(
        rt,
        alloc,
        &mut shelf,
        &[Step("audit", 3, line), Step("report", 3, line)],
    )
}

fn expect_refused_record(
    rt: &impl Abort,
    alloc: Global,
    case: &Refused<'_>,
) -> Result<(), OutOfMemory> {
    let record = case.0;
    let rest = case.1;
    let plan = format!(in alloc; "{LINE_PLAN}{record}\n")?;
    let line = format!(in alloc; "refused plan.csv{rest}\n")?;
    expect_refused(rt, alloc, &plan, &line)
}

fn expect_refused_records(
    rt: &impl Abort,
    alloc: Global,
    cases: &[Refused<'_>],
) -> Result<(), OutOfMemory> {
    for case in cases {
        expect_refused_record(rt, alloc, case)?;
    }
    Ok(())
}

#[test]
fn a_record_that_names_no_quantity_is_refused(rt: HostRuntime) -> Result<(), Fail> {
    expect_refused_records(&rt, rt.alloc(), &REFUSED)?;
    Ok(())
}

/// The model is judged before its plan file is asked for. A file without a byte has no columns, grams are multiples of
/// the step, and a ration of at least 100 g must be there.
const REFUSED_FILES: [Case<'static>; 6] = [
    Case {
        held: &LINE,
        changes: &[],
        steps: &[
            Step("audit", 3, "refused plan.csv: MissingFile\n"),
            Step("report", 3, "refused plan.csv: MissingFile\n"),
        ],
        files: &[],
    },
    Case {
        held: &LINE,
        changes: &[Held("d/plan.csv", "")],
        steps: &[
            Step(
                "audit",
                3,
                "refused plan.csv column quantity: ColumnMissing\n",
            ),
            Step(
                "report",
                3,
                "refused plan.csv column quantity: ColumnMissing\n",
            ),
        ],
        files: &[],
    },
    Case {
        held: &LINE,
        changes: &[Held("d/plan.csv", "quantity,name,commodity,month,amount,name\n")],
        steps: &[Step("audit", 3, "refused plan.csv column name: ColumnTwice\n")],
        files: &[],
    },
    Case {
        held: &LINE,
        changes: &[Held(
            "d/plan.csv",
            "quantity,name,commodity,month,amount\nration,rice,,1,595\n",
        )],
        steps: &[Step(
            "audit",
            3,
            "refused plan.csv record 1 column amount: NoStepInRange\n",
        )],
        files: &[],
    },
    Case {
        held: &LINE,
        changes: &[
            Held(
                "d/commodities.csv",
                "commodity,group,min_g,max_g,step_g\nrice,,100,600,10\n",
            ),
            Held(
                "d/plan.csv",
                "quantity,name,commodity,month,amount\nbuy,o1,,1,5\n",
            ),
        ],
        steps: &[Step("audit", 3, "refused plan.csv column amount: OutOfRange\n")],
        files: &[],
    },
    Case {
        held: &LINE,
        changes: &[
            Held(
                "d/arcs.csv",
                "arc,from,to,cost,capacity,lead\na1,S,X,50,20000,0\n",
            ),
            Held("d/plan.csv", ""),
        ],
        steps: &[
            Step(
                "audit",
                3,
                "refused arcs.csv record 1 column to: UnknownName\n",
            ),
            Step(
                "report",
                3,
                "refused arcs.csv record 1 column to: UnknownName\n",
            ),
        ],
        files: &[],
    },
];

#[test]
fn a_file_that_is_no_plan_is_refused(rt: HostRuntime) -> Result<(), Fail> {
    expect_cases(&rt, rt.alloc(), &REFUSED_FILES)?;
    Ok(())
}
