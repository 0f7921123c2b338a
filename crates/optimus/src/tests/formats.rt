use super::{Case, Held, LINE, LINE_CERTIFICATE, LINE_VERDICT, Step, expect_cases};
use std::test::Fail;

const TWO_BASKET_SETTINGS: Held<'static> = Held(
    "d/settings.toml",
    "format = 2\nmonths = 1\ndays = [30]\ngoal = \"cost\"\ngap = 0\nnodes = 1000\n",
);

const NUTRIENT_NAMES: Held<'static> = Held("d/nutrients.csv", "nutrient\nenergy\n");

const TWO_BASKET_PERSONS: Held<'static> = Held(
    "d/persons.csv",
    "place,month,persons,basket\nP,1,600,A\nP,1,400,B\n",
);

const TWO_BASKET_NEEDS: Held<'static> = Held(
    "d/needs.csv",
    "basket,nutrient,required,max_short,weight\nA,energy,2100,0,1\nB,energy,1800,0,1\n",
);

/// 600 persons of A need 2100 and 400 of B 1800: 600 x 30 x 590 g and 400 x 30 x 500 g are 16,620 kg, which cost 500
/// mills each.
const BASKETS: [Case<'static>; 2] = [
    Case {
        held: &LINE,
        changes: &[
            TWO_BASKET_SETTINGS,
            NUTRIENT_NAMES,
            TWO_BASKET_PERSONS,
            TWO_BASKET_NEEDS,
            Held("d/baskets.csv", "basket\nA\nB\n"),
        ],
        steps: &[
            Step("plan", 0, "plan 8310000 bound 8310000 gap 0 nodes 3\n"),
            Step("check", 0, "plan 8310000 bound 8310000 gap 0 nodes 3\n"),
            Step("audit", 0, "audit 0 broken\n"),
            Step("report", 0, "report written\n"),
        ],
        files: &[
            Held(
                "d/plan.csv",
                "quantity,name,commodity,month,amount\nration,A,rice,1,590\nration,B,rice,1,500\n\
                buy,o1,,1,16620\nship,a1,rice,1,16620\nfeed,P,rice,1,16620\n",
            ),
            Held(
                "d/report_basket.csv",
                "month,basket,kind,name,amount\n1,A,ration,rice,590\n1,A,short,energy,0\n\
                1,B,ration,rice,500\n1,B,short,energy,0\n",
            ),
        ],
    },
    Case {
        held: &LINE,
        changes: &[
            TWO_BASKET_SETTINGS,
            NUTRIENT_NAMES,
            TWO_BASKET_PERSONS,
            TWO_BASKET_NEEDS,
            Held("d/baskets.csv", "basket\n"),
        ],
        steps: &[Step("plan", 3, "refused baskets.csv: EmptyTable\n")],
        files: &[],
    },
];

#[test]
fn two_baskets_are_planned(rt: HostRuntime) -> Result<(), Fail> {
    expect_cases(&rt, rt.alloc(), &BASKETS)?;
    Ok(())
}

/// B gets 10 g less than it needs, and P hands out what it did: 400 x 30 x 10 g are 120,000 g too many, of which 999 are
/// allowed. A ration has the name of its basket.
const OTHER_PLANS: [Case<'static>; 2] = [
    Case {
        held: &LINE,
        changes: &[
            TWO_BASKET_SETTINGS,
            NUTRIENT_NAMES,
            TWO_BASKET_PERSONS,
            TWO_BASKET_NEEDS,
            Held("d/baskets.csv", "basket\nA\nB\n"),
            Held(
                "d/plan.csv",
                "quantity,name,commodity,month,amount\nration,A,rice,1,590\nration,B,rice,1,490\n\
                buy,o1,,1,16620\nship,a1,rice,1,16620\nfeed,P,rice,1,16620\n",
            ),
        ],
        steps: &[Step(
            "audit",
            1,
            "broken nutrient B energy month 1 by 3600\n\
            broken handout-high P rice month 1 by 119001\naudit 2 broken\n",
        )],
        files: &[],
    },
    Case {
        held: &LINE,
        changes: &[
            TWO_BASKET_SETTINGS,
            NUTRIENT_NAMES,
            TWO_BASKET_PERSONS,
            TWO_BASKET_NEEDS,
            Held("d/baskets.csv", "basket\nA\nB\n"),
            Held(
                "d/plan.csv",
                "quantity,name,commodity,month,amount\nration,rice,,1,590\n",
            ),
        ],
        steps: &[Step(
            "audit",
            3,
            "refused plan.csv record 1 column name: UnknownName\n",
        )],
        files: &[],
    },
];

#[test]
fn plan_files_name_baskets(rt: HostRuntime) -> Result<(), Fail> {
    expect_cases(&rt, rt.alloc(), &OTHER_PLANS)?;
    Ok(())
}

const ORDER_SETTINGS: Held<'static> = Held(
    "d/settings.toml",
    "format = 3\nmonths = 1\ndays = [30]\ngoal = \"cost\"\ngap = 0\nnodes = 1000\n",
);

const ONE_BASKET_PERSONS: Held<'static> = Held(
    "d/persons.csv",
    "place,month,persons,basket\nP,1,1000,all\n",
);

const ONE_BASKET: Held<'static> = Held("d/baskets.csv", "basket\nall\n");

const ONE_BASKET_NEEDS: Held<'static> = Held(
    "d/needs.csv",
    "basket,nutrient,required,max_short,weight\nall,energy,2100,0,1\n",
);

const RAISED_PLAN: &str = "quantity,name,commodity,month,amount\nration,all,rice,1,590\n\
    buy,o1,,1,17700\nship,a1,rice,1,17700\nfeed,P,rice,1,17700\n";

/// With one basket for all, and with an offer that has no fee and no least lot, the line has the rows that it has
/// without them, and so its certificate. What a nutrient's table says of needs is not read any more.
const RAISED: [Case<'static>; 2] = [
    Case {
        held: &LINE,
        changes: &[
            TWO_BASKET_SETTINGS,
            ONE_BASKET_PERSONS,
            ONE_BASKET,
            ONE_BASKET_NEEDS,
        ],
        steps: &[
            Step("plan", 0, LINE_VERDICT),
            Step("check", 0, LINE_VERDICT),
            Step("audit", 0, "audit 0 broken\n"),
        ],
        files: &[
            Held("d/plan.csv", RAISED_PLAN),
            Held("d/certificate.txt", LINE_CERTIFICATE),
        ],
    },
    Case {
        held: &LINE,
        changes: &[
            ORDER_SETTINGS,
            ONE_BASKET_PERSONS,
            ONE_BASKET,
            ONE_BASKET_NEEDS,
            Held(
                "d/offers.csv",
                "offer,place,commodity,price,max_kg,first,last,fee,least\n\
                o1,S,rice,450,20000,1,1,0,0\n",
            ),
        ],
        steps: &[
            Step("plan", 0, LINE_VERDICT),
            Step("check", 0, LINE_VERDICT),
            Step("audit", 0, "audit 0 broken\n"),
        ],
        files: &[
            Held("d/plan.csv", RAISED_PLAN),
            Held("d/certificate.txt", LINE_CERTIFICATE),
        ],
    },
];

#[test]
fn a_line_of_later_formats_is_planned(rt: HostRuntime) -> Result<(), Fail> {
    expect_cases(&rt, rt.alloc(), &RAISED)?;
    Ok(())
}

/// 17,700 kg cost 8,850,000, and the fee comes on top. A least lot of 18,000 kg, which are 600 g a day, is bought
/// whole: 9,000,000 and the fee.
const ORDERS: [Case<'static>; 2] = [
    Case {
        held: &LINE,
        changes: &[
            ORDER_SETTINGS,
            NUTRIENT_NAMES,
            ONE_BASKET_PERSONS,
            ONE_BASKET,
            ONE_BASKET_NEEDS,
            Held(
                "d/offers.csv",
                "offer,place,commodity,price,max_kg,first,last,fee,least\n\
                o1,S,rice,450,20000,1,1,1000000,0\n",
            ),
        ],
        steps: &[
            Step("plan", 0, "plan 9850000 bound 9850000 gap 0 nodes 5\n"),
            Step("check", 0, "plan 9850000 bound 9850000 gap 0 nodes 5\n"),
            Step("report", 0, "report written\n"),
        ],
        files: &[
            Held(
                "d/plan.csv",
                "quantity,name,commodity,month,amount\nration,all,rice,1,590\nbuy,o1,,1,17700\n\
                ship,a1,rice,1,17700\nfeed,P,rice,1,17700\norder,o1,,1,1\n",
            ),
            Held(
                "d/report_costs.csv",
                "month,bought,fees,shipped,stored,total\n1,7965000,1000000,885000,0,9850000\n\
                all,7965000,1000000,885000,0,9850000\n",
            ),
        ],
    },
    Case {
        held: &LINE,
        changes: &[
            ORDER_SETTINGS,
            NUTRIENT_NAMES,
            ONE_BASKET_PERSONS,
            ONE_BASKET,
            ONE_BASKET_NEEDS,
            Held(
                "d/offers.csv",
                "offer,place,commodity,price,max_kg,first,last,fee,least\n\
                o1,S,rice,450,20000,1,1,1000000,18000\n",
            ),
        ],
        steps: &[
            Step("plan", 0, "plan 10000000 bound 10000000 gap 0 nodes 5\n"),
            Step("check", 0, "plan 10000000 bound 10000000 gap 0 nodes 5\n"),
        ],
        files: &[Held(
            "d/plan.csv",
            "quantity,name,commodity,month,amount\nration,all,rice,1,600\nbuy,o1,,1,18000\n\
            ship,a1,rice,1,18000\nfeed,P,rice,1,18000\norder,o1,,1,1\n",
        )],
    },
];

#[test]
fn an_order_has_a_fee_and_a_least_lot(rt: HostRuntime) -> Result<(), Fail> {
    expect_cases(&rt, rt.alloc(), &ORDERS)?;
    Ok(())
}

/// 17,700 x 450 + 800,000 is less than 17,700 x 500. An order without a purchase of at least the lot is broken.
const OFFERS: [Case<'static>; 2] = [
    Case {
        held: &LINE,
        changes: &[
            ORDER_SETTINGS,
            NUTRIENT_NAMES,
            ONE_BASKET_PERSONS,
            ONE_BASKET,
            ONE_BASKET_NEEDS,
            Held(
                "d/offers.csv",
                "offer,place,commodity,price,max_kg,first,last,fee,least\n\
                o1,S,rice,450,20000,1,1,0,0\no2,S,rice,400,20000,1,1,800000,0\n",
            ),
        ],
        steps: &[
            Step("plan", 0, "plan 8765000 bound 8765000 gap 0 nodes 5\n"),
            Step("check", 0, "plan 8765000 bound 8765000 gap 0 nodes 5\n"),
        ],
        files: &[Held(
            "d/plan.csv",
            "quantity,name,commodity,month,amount\nration,all,rice,1,590\nbuy,o2,,1,17700\n\
            ship,a1,rice,1,17700\nfeed,P,rice,1,17700\norder,o2,,1,1\n",
        )],
    },
    Case {
        held: &LINE,
        changes: &[
            ORDER_SETTINGS,
            NUTRIENT_NAMES,
            ONE_BASKET_PERSONS,
            ONE_BASKET,
            ONE_BASKET_NEEDS,
            Held(
                "d/offers.csv",
                "offer,place,commodity,price,max_kg,first,last,fee,least\n\
                o1,S,rice,450,20000,1,1,1000000,18000\n",
            ),
            Held(
                "d/plan.csv",
                "quantity,name,commodity,month,amount\nration,all,rice,1,590\nbuy,o1,,1,17700\n\
                ship,a1,rice,1,17700\nfeed,P,rice,1,17700\norder,o1,,1,1\n",
            ),
        ],
        steps: &[Step(
            "audit",
            1,
            "broken lot-low o1 month 1 by 300\naudit 1 broken\n",
        )],
        files: &[],
    },
];

#[test]
fn the_cheaper_offer_is_ordered_in_spite_of_its_fee(rt: HostRuntime) -> Result<(), Fail> {
    expect_cases(&rt, rt.alloc(), &OFFERS)?;
    Ok(())
}
