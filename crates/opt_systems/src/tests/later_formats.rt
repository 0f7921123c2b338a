use super::Held;
use super::judging::{
    Amount, BUY, Case, FEED, Judgement, ONE_MONTH, ORDER, RATION, SECOND_BUY, SECOND_ORDER,
    SECOND_RATION, SHIP, assert_cases,
};
use std::test::Fail;

/// The row of the second basket's nutrient follows that of the first one's.
const SECOND_BASKET: u32 = 1;

/// The rows of an order are the last: six rows stand before them in the line.
const LOT_LOW: u32 = 6;

const LOT_HIGH: u32 = 7;

/// The line with two baskets, of 600 and of 400 persons.
const TWO_BASKETS: [Held<'static>; 5] = [
    Held(
        "d/settings.toml",
        b"format = 2\nmonths = 1\ndays = [30]\ngoal = \"cost\"\ngap = 0\nnodes = 1000\n",
    ),
    Held("d/nutrients.csv", b"nutrient\nenergy\n"),
    Held("d/baskets.csv", b"basket\nA\nB\n"),
    Held(
        "d/needs.csv",
        b"basket,nutrient,required,max_short,weight\nA,energy,2100,0,1\nB,energy,1800,0,1\n",
    ),
    Held(
        "d/persons.csv",
        b"place,month,persons,basket\nP,1,600,A\nP,1,400,B\n",
    ),
];

/// 590 g for 600 persons and 500 g for 400 on 30 days are 16,620 kg.
const BOTH_FED: [Amount; 5] = [
    Amount(RATION, 59),
    Amount(SECOND_RATION, 50),
    Amount(BUY, 16_620),
    Amount(SHIP, 16_620),
    Amount(FEED, 16_620),
];

const ONE_HUNGRY: [Amount; 5] = [
    Amount(RATION, 59),
    Amount(SECOND_RATION, 49),
    Amount(BUY, 16_500),
    Amount(SHIP, 16_500),
    Amount(FEED, 16_500),
];

const FED_TOGETHER: [Case<'static>; 2] = [
    Case {
        changes: &TWO_BASKETS,
        more: &[],
        plan: &BOTH_FED,
        wanted: Judgement::Costs(8_310_000),
    },
    Case {
        changes: &TWO_BASKETS,
        more: &[],
        plan: &ONE_HUNGRY,
        wanted: Judgement::Breaks(SECOND_BASKET),
    },
];

#[test]
fn baskets_are_fed_together(rt: HostRuntime) -> Result<(), Fail> {
    assert_cases(&rt, rt.alloc(), &FED_TOGETHER)
}

/// What makes the line one whose offers have a fee and a least lot.
const LOTS: [Held<'static>; 5] = [
    Held(
        "d/settings.toml",
        b"format = 3\nmonths = 1\ndays = [30]\ngoal = \"cost\"\ngap = 0\nnodes = 1000\n",
    ),
    Held("d/nutrients.csv", b"nutrient\nenergy\n"),
    Held("d/baskets.csv", b"basket\nall\n"),
    Held(
        "d/needs.csv",
        b"basket,nutrient,required,max_short,weight\nall,energy,2100,0,1\n",
    ),
    Held(
        "d/persons.csv",
        b"place,month,persons,basket\nP,1,1000,all\n",
    ),
];

const LEAST_LOT: [Held<'static>; 1] = [Held(
    "d/offers.csv",
    b"offer,place,commodity,price,max_kg,first,last,fee,least\no1,S,rice,450,20000,1,1,1000000,18000\n",
)];

/// 500 * 18,000 + 1,000,000 mills.
const WHOLE_LOT: [Amount; 5] = [
    Amount(RATION, 60),
    Amount(BUY, 18_000),
    Amount(SHIP, 18_000),
    Amount(FEED, 18_000),
    Amount(ORDER, 1),
];

/// 500 * 17,700 mills and a fee.
const ORDERED: [Amount; 5] = [
    Amount(RATION, 59),
    Amount(BUY, 17_700),
    Amount(SHIP, 17_700),
    Amount(FEED, 17_700),
    Amount(ORDER, 1),
];

const LEAST: [Case<'static>; 2] = [
    Case {
        changes: &LOTS,
        more: &LEAST_LOT,
        plan: &WHOLE_LOT,
        wanted: Judgement::Costs(10_000_000),
    },
    Case {
        changes: &LOTS,
        more: &LEAST_LOT,
        plan: &ORDERED,
        wanted: Judgement::Breaks(LOT_LOW),
    },
];

#[test]
fn an_order_has_a_least_lot(rt: HostRuntime) -> Result<(), Fail> {
    assert_cases(&rt, rt.alloc(), &LEAST)
}

const FEE: [Held<'static>; 1] = [Held(
    "d/offers.csv",
    b"offer,place,commodity,price,max_kg,first,last,fee,least\no1,S,rice,450,20000,1,1,1000000,0\n",
)];

const WITH_FEE: [Case<'static>; 2] = [
    Case {
        changes: &LOTS,
        more: &FEE,
        plan: &ORDERED,
        wanted: Judgement::Costs(9_850_000),
    },
    Case {
        changes: &LOTS,
        more: &FEE,
        plan: &ONE_MONTH,
        wanted: Judgement::Breaks(LOT_HIGH),
    },
];

#[test]
fn what_is_bought_is_ordered(rt: HostRuntime) -> Result<(), Fail> {
    assert_cases(&rt, rt.alloc(), &WITH_FEE)
}

const TWO_OFFERS: [Held<'static>; 1] = [Held(
    "d/offers.csv",
    b"offer,place,commodity,price,max_kg,first,last,fee,least\no1,S,rice,450,20000,1,1,0,0\n\
    o2,S,rice,400,20000,1,1,800000,0\n",
)];

/// 450 * 17,700 + 800,000 mills.
const CHEAPER: [Amount; 5] = [
    Amount(RATION, 59),
    Amount(SECOND_BUY, 17_700),
    Amount(SHIP, 17_700),
    Amount(FEED, 17_700),
    Amount(SECOND_ORDER, 1),
];

const CHEAPEST: [Case<'static>; 1] = [Case {
    changes: &LOTS,
    more: &TWO_OFFERS,
    plan: &CHEAPER,
    wanted: Judgement::Costs(8_765_000),
}];

#[test]
fn a_cheaper_offer_has_a_fee(rt: HostRuntime) -> Result<(), Fail> {
    assert_cases(&rt, rt.alloc(), &CHEAPEST)
}
