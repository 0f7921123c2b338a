use super::{
    BASKET, Case, Held, LINE, LINE_CERTIFICATE, LINE_PLAN, LINE_SUMMARY, LINE_VERDICT, Step,
    expect_cases,
};
use std::test::Fail;

/// What is planned is checked with the same line and status.
const BASKET_STEPS: [Step<'static>; 2] = [
    Step("plan", 0, "plan 300 bound 300 gap 0 nodes 1\n"),
    Step("check", 0, "plan 300 bound 300 gap 0 nodes 1\n"),
];

/// 300 units are missing in the best plan, of which no plan has fewer: (210,000 - 50 x 3,600) / 100.
const BASKET_FILES: [Held<'static>; 3] = [
    Held(
        "d/plan.csv",
        "quantity,name,commodity,month,amount\nration,rice,,1,500\nshort,energy,,1,300\n",
    ),
    Held(
        "d/certificate.txt",
        "optimus-certificate 1\nplan 300 300\nroot 100 1 0:1\npoint 2 0:50 1:300\n\
        leaf 100 1 0:1\nend\n",
    ),
    Held(
        "d/summary.json",
        "{\"bound\":\"300\",\"gap\":\"0\",\"goal\":\"shortfall\",\"nodes\":1,\
        \"objective\":\"300\",\"verdict\":\"plan\"}\n",
    ),
];

/// A gap that is less than what is missing changes nothing, since the bound is reached.
const BASKETS: [Case<'static>; 2] = [
    Case {
        held: &BASKET,
        changes: &[],
        steps: &BASKET_STEPS,
        files: &BASKET_FILES,
    },
    Case {
        held: &BASKET,
        changes: &[Held(
            "d/settings.toml",
            "format = 1\nmonths = 1\ndays = [30]\ngoal = \"shortfall\"\ngap = 299\nnodes = 1\n",
        )],
        steps: &BASKET_STEPS,
        files: &BASKET_FILES,
    },
];

#[test]
fn a_basket_is_planned(rt: HostRuntime) -> Result<(), Fail> {
    expect_cases(&rt, rt.alloc(), &BASKETS)?;
    Ok(())
}

const LINE_FILES: [Held<'static>; 3] = [
    Held("d/plan.csv", LINE_PLAN),
    Held("d/certificate.txt", LINE_CERTIFICATE),
    Held("d/summary.json", LINE_SUMMARY),
];

/// The relaxation of the line wants 58 1/3 steps of 10 g, and 59 are the least whole number. A second plan of the
/// folder leaves the same files.
const LINES: [Case<'static>; 2] = [
    Case {
        held: &LINE,
        changes: &[],
        steps: &[Step("plan", 0, LINE_VERDICT)],
        files: &LINE_FILES,
    },
    Case {
        held: &LINE,
        changes: &[],
        steps: &[
            Step("plan", 0, LINE_VERDICT),
            Step("plan", 0, LINE_VERDICT),
            Step("check", 0, LINE_VERDICT),
            Step("audit", 0, "audit 0 broken\n"),
        ],
        files: &LINE_FILES,
    },
];

#[test]
fn a_line_is_planned(rt: HostRuntime) -> Result<(), Fail> {
    expect_cases(&rt, rt.alloc(), &LINES)?;
    Ok(())
}

/// 17,700 kg must be moved, which cost 8,850,000 mills.
const BINDING: [Case<'static>; 4] = [
    Case {
        held: &LINE,
        changes: &[Held(
            "d/arcs.csv",
            "arc,from,to,cost,capacity,lead\na1,S,P,50,17700,0\n",
        )],
        steps: &[
            Step("plan", 0, LINE_VERDICT),
            Step("check", 0, LINE_VERDICT),
        ],
        files: &[Held("d/plan.csv", LINE_PLAN)],
    },
    Case {
        held: &LINE,
        changes: &[Held(
            "d/arcs.csv",
            "arc,from,to,cost,capacity,lead\na1,S,P,50,17699,0\n",
        )],
        steps: &[
            Step("plan", 1, "no plan nodes 3\n"),
            Step("check", 1, "no plan nodes 3\n"),
        ],
        files: &[Held("d/plan.csv", "")],
    },
    Case {
        held: &LINE,
        changes: &[Held(
            "d/settings.toml",
            "format = 1\nmonths = 1\ndays = [30]\ngoal = \"cost\"\ngap = 0\nnodes = 1000\n\
            budget = 8850000\n",
        )],
        steps: &[
            Step("plan", 0, LINE_VERDICT),
            Step("check", 0, LINE_VERDICT),
        ],
        files: &[Held("d/plan.csv", LINE_PLAN)],
    },
    Case {
        held: &LINE,
        changes: &[Held(
            "d/settings.toml",
            "format = 1\nmonths = 1\ndays = [30]\ngoal = \"cost\"\ngap = 0\nnodes = 1000\n\
            budget = 8849999\n",
        )],
        steps: &[
            Step("plan", 1, "no plan nodes 3\n"),
            Step("check", 1, "no plan nodes 3\n"),
        ],
        files: &[Held("d/plan.csv", "")],
    },
];

#[test]
fn capacity_and_budget_bind_to_the_last_unit(rt: HostRuntime) -> Result<(), Fail> {
    expect_cases(&rt, rt.alloc(), &BINDING)?;
    Ok(())
}

/// All stock must be eaten or kept: 18,000 kg are 600 g a day, and 100 kg more need storage.
const STOCKS: [Case<'static>; 3] = [
    Case {
        held: &LINE,
        changes: &[Held("d/stock.csv", "place,commodity,month,kg\nP,rice,1,18000\n")],
        steps: &[
            Step("plan", 0, "plan 0 bound 0 gap 0 nodes 1\n"),
            Step("check", 0, "plan 0 bound 0 gap 0 nodes 1\n"),
        ],
        files: &[Held(
            "d/plan.csv",
            "quantity,name,commodity,month,amount\nration,rice,,1,600\nfeed,P,rice,1,18000\n",
        )],
    },
    Case {
        held: &LINE,
        changes: &[Held("d/stock.csv", "place,commodity,month,kg\nP,rice,1,18100\n")],
        steps: &[
            Step("plan", 1, "no plan nodes 1\n"),
            Step("check", 1, "no plan nodes 1\n"),
        ],
        files: &[Held("d/plan.csv", "")],
    },
    Case {
        held: &LINE,
        changes: &[
            Held("d/stock.csv", "place,commodity,month,kg\nP,rice,1,18100\n"),
            Held(
                "d/places.csv",
                "place,kind,storage,throughput,handling,storage_cost\nS,supplier,0,,0,0\n\
                P,point,100,,0,0\n",
            ),
        ],
        steps: &[
            Step("plan", 0, "plan 0 bound 0 gap 0 nodes 1\n"),
            Step("check", 0, "plan 0 bound 0 gap 0 nodes 1\n"),
        ],
        files: &[Held(
            "d/plan.csv",
            "quantity,name,commodity,month,amount\nration,rice,,1,600\nkeep,P,rice,1,100\n\
            feed,P,rice,1,18000\n",
        )],
    },
];

#[test]
fn stock_is_eaten_or_kept(rt: HostRuntime) -> Result<(), Fail> {
    expect_cases(&rt, rt.alloc(), &STOCKS)?;
    Ok(())
}

const LATE_SETTINGS: Held<'static> = Held(
    "d/settings.toml",
    "format = 1\nmonths = 2\ndays = [30, 30]\ngoal = \"cost\"\ngap = 0\nnodes = 1000\n",
);

const LATE_OFFERS: Held<'static> = Held(
    "d/offers.csv",
    "offer,place,commodity,price,max_kg,first,last\no1,S,rice,450,20000,1,2\n",
);

const LATE_ARCS: Held<'static> = Held(
    "d/arcs.csv",
    "arc,from,to,cost,capacity,lead\na1,S,P,50,20000,1\n",
);

const LATE_PERSONS: Held<'static> = Held(
    "d/persons.csv",
    "place,month,persons\nP,1,1000\nP,2,1000\n",
);

/// What leaves in month 1 arrives in month 2, so month 1 eats from the stock or not at all.
const ON_THE_WAY: [Case<'static>; 2] = [
    Case {
        held: &LINE,
        changes: &[LATE_SETTINGS, LATE_OFFERS, LATE_ARCS, LATE_PERSONS],
        steps: &[
            Step("plan", 1, "no plan nodes 1\n"),
            Step("check", 1, "no plan nodes 1\n"),
        ],
        files: &[Held("d/plan.csv", "")],
    },
    Case {
        held: &LINE,
        changes: &[
            LATE_SETTINGS,
            LATE_OFFERS,
            LATE_ARCS,
            LATE_PERSONS,
            Held("d/stock.csv", "place,commodity,month,kg\nP,rice,1,17700\n"),
        ],
        steps: &[
            Step("plan", 0, LINE_VERDICT),
            Step("check", 0, LINE_VERDICT),
            Step("report", 0, "report written\n"),
        ],
        files: &[
            Held(
                "d/plan.csv",
                "quantity,name,commodity,month,amount\nration,rice,,1,590\nration,rice,,2,590\n\
                buy,o1,,1,17700\nship,a1,rice,1,17700\nfeed,P,rice,1,17700\n\
                feed,P,rice,2,17700\n",
            ),
            Held(
                "d/report_sites.csv",
                "month,place,commodity,stock,bought,arrived,sent,kept,handed_out\n\
                1,S,rice,0,17700,0,17700,0,0\n1,P,rice,17700,0,0,0,0,17700\n\
                2,P,rice,0,0,17700,0,0,17700\n",
            ),
        ],
    },
];

#[test]
fn what_is_on_the_way_arrives_a_month_later(rt: HostRuntime) -> Result<(), Fail> {
    expect_cases(&rt, rt.alloc(), &ON_THE_WAY)?;
    Ok(())
}

/// A name with a comma is quoted in the plan file, which is read again.
const QUOTED: [Case<'static>; 1] = [Case {
    held: &LINE,
    changes: &[
        Held(
            "d/commodities.csv",
            "\u{feff}step_g,commodity,group,note,max_g,min_g\r\n10,\"rice, white\",,spring,600,0\r\n",
        ),
        Held(
            "d/contents.csv",
            "commodity,nutrient,per_100g\n\"rice, white\",energy,360\n",
        ),
        Held(
            "d/offers.csv",
            "offer,place,commodity,price,max_kg,first,last\no1,S,\"rice, white\",450,20000,1,1\n",
        ),
    ],
    steps: &[
        Step("plan", 0, LINE_VERDICT),
        Step("audit", 0, "audit 0 broken\n"),
    ],
    files: &[Held(
        "d/plan.csv",
        "quantity,name,commodity,month,amount\nration,\"rice, white\",,1,590\nbuy,o1,,1,17700\n\
        ship,a1,\"rice, white\",1,17700\nfeed,P,\"rice, white\",1,17700\n",
    )],
}];

#[test]
fn a_name_with_a_comma_is_quoted(rt: HostRuntime) -> Result<(), Fail> {
    expect_cases(&rt, rt.alloc(), &QUOTED)?;
    Ok(())
}
