use super::Held;
use super::judging::{
    Amount, BUY, Case, FEED, Judgement, KEEP, LATER_FEED, LATER_RATION, ONE_MONTH, RATION, SHIP,
    assert_cases,
};
use std::test::Fail;

/// The line has a row of the nutrient, two of what is handed out, the balances of both places, the arc's row and, with a
/// budget, that of the budget.
const HANDOUT_LOW: u32 = 1;

const HANDOUT_HIGH: u32 = 2;

const BALANCE: u32 = 4;

const BUDGET_ROW: u32 = 6;

/// In two months there are two rows of the nutrient, four of what is handed out and two balances of S before.
const FIRST_BALANCE_OF_TWO_MONTHS: u32 = 8;

const WIDE_ARC: [Held<'static>; 1] = [Held(
    "d/arcs.csv",
    b"arc,from,to,cost,capacity,lead\na1,S,P,50,17700,0\n",
)];

const NARROW_ARC: [Held<'static>; 1] = [Held(
    "d/arcs.csv",
    b"arc,from,to,cost,capacity,lead\na1,S,P,50,17699,0\n",
)];

const CARRIED: [Case<'static>; 2] = [
    Case {
        changes: &WIDE_ARC,
        more: &[],
        plan: &ONE_MONTH,
        wanted: Judgement::Costs(8_850_000),
    },
    Case {
        changes: &NARROW_ARC,
        more: &[],
        plan: &ONE_MONTH,
        wanted: Judgement::OutOfRange,
    },
];

#[test]
fn an_arc_carries_its_capacity(rt: HostRuntime) -> Result<(), Fail> {
    assert_cases(&rt, rt.alloc(), &CARRIED)
}

const BUDGET: [Held<'static>; 1] = [Held(
    "d/settings.toml",
    b"format = 1\nmonths = 1\ndays = [30]\ngoal = \"cost\"\ngap = 0\nnodes = 1000\nbudget = 8850000\n",
)];

const LESS_BUDGET: [Held<'static>; 1] = [Held(
    "d/settings.toml",
    b"format = 1\nmonths = 1\ndays = [30]\ngoal = \"cost\"\ngap = 0\nnodes = 1000\nbudget = 8849999\n",
)];

const BUDGETED: [Case<'static>; 2] = [
    Case {
        changes: &BUDGET,
        more: &[],
        plan: &ONE_MONTH,
        wanted: Judgement::Costs(8_850_000),
    },
    Case {
        changes: &LESS_BUDGET,
        more: &[],
        plan: &ONE_MONTH,
        wanted: Judgement::Breaks(BUDGET_ROW),
    },
];

#[test]
fn a_budget_limits_the_cost(rt: HostRuntime) -> Result<(), Fail> {
    assert_cases(&rt, rt.alloc(), &BUDGETED)
}

/// Food is a month on the way: what is eaten in the first month must be there.
const ON_THE_WAY: [Held<'static>; 4] = [
    Held(
        "d/settings.toml",
        b"format = 1\nmonths = 2\ndays = [30, 30]\ngoal = \"cost\"\ngap = 0\nnodes = 1000\n",
    ),
    Held(
        "d/offers.csv",
        b"offer,place,commodity,price,max_kg,first,last\no1,S,rice,450,20000,1,2\n",
    ),
    Held(
        "d/arcs.csv",
        b"arc,from,to,cost,capacity,lead\na1,S,P,50,20000,1\n",
    ),
    Held(
        "d/persons.csv",
        b"place,month,persons\nP,1,1000\nP,2,1000\n",
    ),
];

const FIRST_STOCK: [Held<'static>; 1] = [Held(
    "d/stock.csv",
    b"place,commodity,month,kg\nP,rice,1,17700\n",
)];

const TWO_MONTHS: [Amount; 6] = [
    Amount(RATION, 59),
    Amount(LATER_RATION, 59),
    Amount(BUY, 17_700),
    Amount(SHIP, 17_700),
    Amount(FEED, 17_700),
    Amount(LATER_FEED, 17_700),
];

const LATER: [Case<'static>; 2] = [
    Case {
        changes: &ON_THE_WAY,
        more: &[],
        plan: &TWO_MONTHS,
        wanted: Judgement::Breaks(FIRST_BALANCE_OF_TWO_MONTHS),
    },
    Case {
        changes: &ON_THE_WAY,
        more: &FIRST_STOCK,
        plan: &TWO_MONTHS,
        wanted: Judgement::Costs(8_850_000),
    },
];

#[test]
fn food_arrives_a_lead_time_later(rt: HostRuntime) -> Result<(), Fail> {
    assert_cases(&rt, rt.alloc(), &LATER)
}

const STOCK: [Held<'static>; 1] = [Held(
    "d/stock.csv",
    b"place,commodity,month,kg\nP,rice,1,18000\n",
)];

const MORE_STOCK: [Held<'static>; 1] = [Held(
    "d/stock.csv",
    b"place,commodity,month,kg\nP,rice,1,18100\n",
)];

const STORAGE: [Held<'static>; 1] = [Held(
    "d/places.csv",
    b"place,kind,storage,throughput,handling,storage_cost\nS,supplier,0,,0,0\nP,point,100,,0,0\n",
)];

const EATEN: [Amount; 2] = [Amount(RATION, 60), Amount(FEED, 18_000)];

const KEPT: [Amount; 3] = [Amount(RATION, 60), Amount(FEED, 18_000), Amount(KEEP, 100)];

const STOCKED: [Case<'static>; 3] = [
    Case {
        changes: &STOCK,
        more: &[],
        plan: &EATEN,
        wanted: Judgement::Costs(0),
    },
    Case {
        changes: &MORE_STOCK,
        more: &[],
        plan: &EATEN,
        wanted: Judgement::Breaks(BALANCE),
    },
    Case {
        changes: &MORE_STOCK,
        more: &STORAGE,
        plan: &KEPT,
        wanted: Judgement::Costs(0),
    },
];

#[test]
fn stock_is_eaten_or_kept(rt: HostRuntime) -> Result<(), Fail> {
    assert_cases(&rt, rt.alloc(), &STOCKED)
}

const ROUNDED_DOWN: [Amount; 4] = [
    Amount(RATION, 59),
    Amount(BUY, 17_700),
    Amount(SHIP, 17_700),
    Amount(FEED, 17_699),
];

const ROUNDED_PAST: [Amount; 4] = [
    Amount(RATION, 59),
    Amount(BUY, 17_701),
    Amount(SHIP, 17_701),
    Amount(FEED, 17_701),
];

const ROUNDED: [Case<'static>; 2] = [
    Case {
        changes: &[],
        more: &[],
        plan: &ROUNDED_DOWN,
        wanted: Judgement::Breaks(HANDOUT_LOW),
    },
    Case {
        changes: &[],
        more: &[],
        plan: &ROUNDED_PAST,
        wanted: Judgement::Breaks(HANDOUT_HIGH),
    },
];

#[test]
fn kilograms_are_rounded_up(rt: HostRuntime) -> Result<(), Fail> {
    assert_cases(&rt, rt.alloc(), &ROUNDED)
}
