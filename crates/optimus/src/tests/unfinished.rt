use super::{BASKET, Case, Held, LINE, LINE_CERTIFICATE, LINE_PLAN, MISSING, Step, expect_cases};
use std::test::Fail;

const NO_PLAN_CERTIFICATE: &str =
    "optimus-certificate 1\nno-plan\nroot 0 1 0:1\npoint none\nleaf 0 1 0:1\nend\n";

const NO_PLAN_STEPS: [Step<'static>; 2] = [
    Step("plan", 1, "no plan nodes 1\n"),
    Step("check", 1, "no plan nodes 1\n"),
];

/// 500 g of rice a day do not give what is needed: in the line nothing may be missing, and of the basket's 300 units
/// only 299. An old plan does not stay.
const TOO_LITTLE_RICE: [Case<'static>; 2] = [
    Case {
        held: &LINE,
        changes: &[
            Held(
                "d/commodities.csv",
                "commodity,group,min_g,max_g,step_g\nrice,,0,500,10\n",
            ),
            Held("d/plan.csv", LINE_PLAN),
        ],
        steps: &NO_PLAN_STEPS,
        files: &[
            Held("d/plan.csv", ""),
            Held("d/certificate.txt", NO_PLAN_CERTIFICATE),
            Held(
                "d/summary.json",
                "{\"goal\":\"cost\",\"nodes\":1,\"verdict\":\"no plan\"}\n",
            ),
        ],
    },
    Case {
        held: &BASKET,
        changes: &[Held(
            "d/nutrients.csv",
            "nutrient,required,max_short,weight\nenergy,2100,299,1\n",
        )],
        steps: &NO_PLAN_STEPS,
        files: &[
            Held("d/plan.csv", ""),
            Held("d/certificate.txt", NO_PLAN_CERTIFICATE),
            Held(
                "d/summary.json",
                "{\"goal\":\"shortfall\",\"nodes\":1,\"verdict\":\"no plan\"}\n",
            ),
        ],
    },
];

#[test]
fn too_little_rice_leaves_no_plan(rt: HostRuntime) -> Result<(), Fail> {
    expect_cases(&rt, rt.alloc(), &TOO_LITTLE_RICE)?;
    Ok(())
}

/// A gap of 100,000 admits the first plan, and two nodes do not admit a split.
const FIRST_PLANS: [Case<'static>; 2] = [
    Case {
        held: &LINE,
        changes: &[Held(
            "d/settings.toml",
            "format = 1\nmonths = 1\ndays = [30]\ngoal = \"cost\"\ngap = 100000\nnodes = 1000\n",
        )],
        steps: &[
            Step("plan", 0, "plan 8850000 bound 8750000 gap 100000 nodes 1\n"),
            Step(
                "check",
                0,
                "plan 8850000 bound 8750000 gap 100000 nodes 1\n",
            ),
        ],
        files: &[Held("d/plan.csv", LINE_PLAN)],
    },
    Case {
        held: &LINE,
        changes: &[Held(
            "d/settings.toml",
            "format = 1\nmonths = 1\ndays = [30]\ngoal = \"cost\"\ngap = 0\nnodes = 2\n",
        )],
        steps: &[
            Step("plan", 2, "unfinished bound 8750000 best 8850000 nodes 1\n"),
            Step(
                "check",
                2,
                "unfinished bound 8750000 best 8850000 nodes 1\n",
            ),
            Step("audit", 0, "audit 0 broken\n"),
        ],
        files: &[
            Held("d/plan.csv", LINE_PLAN),
            Held(
                "d/summary.json",
                "{\"best\":\"8850000\",\"bound\":\"8750000\",\"goal\":\"cost\",\"nodes\":1,\
                \"verdict\":\"unfinished\"}\n",
            ),
        ],
    },
];

#[test]
fn gap_and_nodes_end_a_search(rt: HostRuntime) -> Result<(), Fail> {
    expect_cases(&rt, rt.alloc(), &FIRST_PLANS)?;
    Ok(())
}

/// 17,699 kg are too few for the 590 g that the rounding search tries, and enough for the 583 1/3 g of the
/// relaxation. What `plan` leaves then is no plan file.
const NO_CANDIDATE: [Case<'static>; 1] = [Case {
    held: &LINE,
    changes: &[
        Held(
            "d/settings.toml",
            "format = 1\nmonths = 1\ndays = [30]\ngoal = \"cost\"\ngap = 0\nnodes = 1\n",
        ),
        Held(
            "d/arcs.csv",
            "arc,from,to,cost,capacity,lead\na1,S,P,50,17699,0\n",
        ),
        Held("d/plan.csv", LINE_PLAN),
    ],
    steps: &[
        Step("plan", 2, "unfinished bound 8750000 best none nodes 1\n"),
        Step("check", 2, "unfinished bound 8750000 best none nodes 1\n"),
        Step(
            "report",
            3,
            "refused plan.csv column quantity: ColumnMissing\n",
        ),
    ],
    files: &[
        Held("d/plan.csv", ""),
        Held(
            "d/certificate.txt",
            "optimus-certificate 1\nunfinished 8750000 none\nroot 6 4 0:250 1:3 3:2700 4:3000\n\
            point none\nleaf 6 4 0:250 1:3 3:2700 4:3000\nend\n",
        ),
        Held(
            "d/summary.json",
            "{\"best\":null,\"bound\":\"8750000\",\"goal\":\"cost\",\"nodes\":1,\
            \"verdict\":\"unfinished\"}\n",
        ),
        Held("d/report_sites.csv", MISSING),
    ],
}];

#[test]
fn a_search_may_end_without_a_plan_that_is_known(rt: HostRuntime) -> Result<(), Fail> {
    expect_cases(&rt, rt.alloc(), &NO_CANDIDATE)?;
    Ok(())
}

/// A certificate belongs to the tables of which it was made: with 1,001 persons the plan that it lists hands out too
/// little, and with a dearer offer it costs more.
const OTHER_TABLES: [Case<'static>; 2] = [
    Case {
        held: &LINE,
        changes: &[
            Held("d/persons.csv", "place,month,persons\nP,1,1001\n"),
            Held("d/certificate.txt", LINE_CERTIFICATE),
        ],
        steps: &[Step("check", 3, "refused certificate.txt row 1: PlanBroken\n")],
        files: &[],
    },
    Case {
        held: &LINE,
        changes: &[
            Held(
                "d/offers.csv",
                "offer,place,commodity,price,max_kg,first,last\no1,S,rice,451,20000,1,1\n",
            ),
            Held("d/certificate.txt", LINE_CERTIFICATE),
        ],
        steps: &[
            Step(
                "check",
                3,
                "refused certificate.txt: WrongObjective 8867700\n",
            ),
            Step("plan", 0, "plan 8867700 bound 8867700 gap 0 nodes 3\n"),
            Step("check", 0, "plan 8867700 bound 8867700 gap 0 nodes 3\n"),
        ],
        files: &[Held("d/plan.csv", LINE_PLAN)],
    },
];

#[test]
fn a_certificate_of_other_tables_is_refused(rt: HostRuntime) -> Result<(), Fail> {
    expect_cases(&rt, rt.alloc(), &OTHER_TABLES)?;
    Ok(())
}
