use super::{Held, assert_ended, fault_of, outcome_of, problem_of};
use opt_base::{File, Kind, ModelFault, OutOfMemory, Point, Refusal, Verdict};
use opt_bound::Mult;
use opt_guide::{ScriptGuide, ZeroGuide};
use opt_tree::Outcome;
use std::alloc::Global;
use std::process::Abort;
use std::test::Fail;

/// Rice for 1,000 persons on 30 days, which is bought at S, moved to P and eaten there. Of 100 g there are 360 units, so
/// 2,100 units are in 58 1/3 steps of 10 g. 59 steps are 17,700 kg, at 450 mills for food and 50 for the way.
const RICE: [Held<'static>; 8] = [
    Held(
        "d/settings.toml",
        b"format = 1\nmonths = 1\ndays = [30]\ngoal = \"cost\"\ngap = 0\nnodes = 1000\n",
    ),
    Held(
        "d/commodities.csv",
        b"commodity,group,min_g,max_g,step_g\nrice,,0,600,10\n",
    ),
    Held(
        "d/nutrients.csv",
        b"nutrient,required,max_short,weight\nenergy,2100,0,1\n",
    ),
    Held(
        "d/contents.csv",
        b"commodity,nutrient,per_100g\nrice,energy,360\n",
    ),
    Held(
        "d/places.csv",
        b"place,kind,storage,throughput,handling,storage_cost\nS,supplier,0,,0,0\nP,point,0,,0,0\n",
    ),
    Held(
        "d/offers.csv",
        b"offer,place,commodity,price,max_kg,first,last\no1,S,rice,450,20000,1,1\n",
    ),
    Held(
        "d/arcs.csv",
        b"arc,from,to,cost,capacity,lead\na1,S,P,50,20000,0\n",
    ),
    Held("d/persons.csv", b"place,month,persons\nP,1,1000\n"),
];

/// At most 50 steps, too few for the need.
const FEW_STEPS: Held<'static> = Held(
    "d/commodities.csv",
    b"commodity,group,min_g,max_g,step_g\nrice,,0,500,10\n",
);

/// An offer at a place that is not there.
const NO_SUCH_PLACE: Held<'static> = Held(
    "d/offers.csv",
    b"offer,place,commodity,price,max_kg,first,last\no1,T,rice,450,20000,1,1\n",
);

const WIDE_GAP: Held<'static> = Held(
    "d/settings.toml",
    b"format = 1\nmonths = 1\ndays = [30]\ngoal = \"cost\"\ngap = 100000\nnodes = 1000\n",
);

const TWO_NODES: Held<'static> = Held(
    "d/settings.toml",
    b"format = 1\nmonths = 1\ndays = [30]\ngoal = \"cost\"\ngap = 0\nnodes = 2\n",
);

/// Rice from 0 to 30 g in steps of 10 g, of which 100 g have 360 units, for a need of 100 units without shortfall.
const BASKET: [Held<'static>; 4] = [
    Held(
        "d/settings.toml",
        b"format = 1\nmonths = 1\ndays = [30]\ngoal = \"shortfall\"\ngap = 0\nnodes = 7\n",
    ),
    Held(
        "d/commodities.csv",
        b"commodity,group,min_g,max_g,step_g\nrice,,0,30,10\n",
    ),
    Held(
        "d/nutrients.csv",
        b"nutrient,required,max_short,weight\nenergy,100,0,1\n",
    ),
    Held(
        "d/contents.csv",
        b"commodity,nutrient,per_100g\nrice,energy,360\n",
    ),
];

const TOO_GREAT_A_NEED: Held<'static> = Held(
    "d/nutrients.csv",
    b"nutrient,required,max_short,weight\nenergy,200,0,1\n",
);

const SIX_NODES: Held<'static> = Held(
    "d/settings.toml",
    b"format = 1\nmonths = 1\ndays = [30]\ngoal = \"shortfall\"\ngap = 0\nnodes = 6\n",
);

/// The best plan: 59 steps, no shortfall, and 17,700 kg that are bought, moved and handed out.
const BEST: [i64; 5] = [59, 0, 17_700, 17_700, 17_700];

const BEST_COST: i128 = 8_850_000;

/// What the relaxed need costs: 52,500,000 / 6 mills.
const ROOT_BOUND: i128 = 8_750_000;

const UNFINISHED_WITH_BEST: Verdict = Verdict::Unfinished {
    bound: ROOT_BOUND,
    best: Some(BEST_COST),
};

const UNFINISHED: Verdict = Verdict::Unfinished {
    bound: 0,
    best: None,
};

fn add_mult(
    rt: &impl Abort,
    alloc: Global,
    guide: &mut ScriptGuide,
    q: i64,
    entries: &[(u32, i64)],
) -> Result<(), OutOfMemory> {
    let proper = Mult::are_proper(q, entries);
    assert!(rt; proper);
    guide.add_mult(Mult::new(alloc, q, entries)?)
}

const BEST_PLAN: Verdict = Verdict::Plan {
    objective: BEST_COST,
    bound: BEST_COST,
};

const PLAN_WITHIN_GAP: Verdict = Verdict::Plan {
    objective: BEST_COST,
    bound: ROOT_BOUND,
};

const PLAN_WITHOUT_SHORTFALL: Verdict = Verdict::Plan {
    objective: 0,
    bound: 0,
};

/// Multipliers that prove the root bound, multipliers that show the left half to be empty (210,000 - 58 * 3,600 = 1,200)
/// and that the right half costs at least 59 * 300,000 / 2 mills.
fn add_mults(rt: &impl Abort, alloc: Global, guide: &mut ScriptGuide) -> Result<(), OutOfMemory> {
    let root = [(0u32, 250i64), (1, 3), (3, 2_700), (4, 3_000)];
    add_mult(rt, alloc, guide, 6, &root)?;
    add_mult(rt, alloc, guide, 0, &[(0, 1)])?;
    add_mult(rt, alloc, guide, 2, &[(1, 1), (3, 900), (4, 1_000)])
}

/// Those multipliers, the best plan, and a cut after 58 steps.
fn script(rt: &impl Abort, alloc: Global) -> Result<ScriptGuide, OutOfMemory> {
    let mut guide = ScriptGuide::new(alloc);
    add_mults(rt, alloc, &mut guide)?;
    guide.add_point(Some(Point::from_slice(alloc, &BEST)?))?;
    guide.add_cut(0, 58)?;
    Ok(guide)
}

/// What the script makes of the month of rice with these changes.
fn outcome_by_script(
    rt: &impl Abort,
    alloc: Global,
    changes: &[Held<'_>],
) -> Result<Outcome, Fail> {
    let mut guide = script(rt, alloc)?;
    outcome_of(alloc, &RICE, changes, &mut guide)
}

#[test]
fn reads_a_month_of_rice(rt: HostRuntime) -> Result<(), Fail> {
    let problem = problem_of(rt.alloc(), &RICE, &[])?;
    assert_eq!(rt; problem.tables().offers().len(), 1);
    assert_eq!(rt; problem.layout().len(), 5);
    assert_eq!(rt; problem.system().rows(), 6);
    assert_eq!(rt; problem.node_limit(), 1000);
    Ok(())
}

#[test]
fn refuses_what_the_tables_do_not_have(rt: HostRuntime) -> Result<(), Fail> {
    let refusal = Refusal {
        file: File::Offers,
        number: 1,
        column: 2,
        kind: Kind::UnknownName,
    };
    assert_eq!(rt;
        fault_of(rt.alloc(), &RICE, &[NO_SUCH_PLACE])?,
        Some(ModelFault::Refused(refusal))
    );
    Ok(())
}

#[test]
fn plans_by_a_script(rt: HostRuntime) -> Result<(), Fail> {
    let outcome = outcome_by_script(&rt, rt.alloc(), &[])?;
    assert_ended(&rt, &outcome, BEST_PLAN, 3);
    let best = outcome
        .best
        .as_ref()
        .map(|best| best.as_slice() == BEST.as_slice());
    assert_eq!(rt; best, Some(true));
    Ok(())
}

#[test]
fn plans_within_a_gap(rt: HostRuntime) -> Result<(), Fail> {
    let outcome = outcome_by_script(&rt, rt.alloc(), &[WIDE_GAP])?;
    assert_ended(&rt, &outcome, PLAN_WITHIN_GAP, 1);
    Ok(())
}

#[test]
fn two_nodes_are_too_few_to_split(rt: HostRuntime) -> Result<(), Fail> {
    let outcome = outcome_by_script(&rt, rt.alloc(), &[TWO_NODES])?;
    assert_ended(&rt, &outcome, UNFINISHED_WITH_BEST, 1);
    Ok(())
}

/// The multipliers show that the best of 50 steps lacks more than nothing: 210,000 - 50 * 3,600 is above 0.
#[test]
fn shows_that_there_is_no_plan(rt: HostRuntime) -> Result<(), Fail> {
    let alloc = rt.alloc();
    let mut guide = ScriptGuide::new(alloc);
    add_mult(&rt, alloc, &mut guide, 0, &[(0, 1)])?;
    let outcome = outcome_of(alloc, &RICE, &[FEW_STEPS], &mut guide)?;
    assert_ended(&rt, &outcome, Verdict::NoPlan, 1);
    Ok(())
}

/// 499 splits are too few to close each of the 61 * 18,001 points that buy and move nothing, and so cost nothing.
#[test]
fn a_guide_that_knows_nothing(rt: HostRuntime) -> Result<(), Fail> {
    let outcome = outcome_of(rt.alloc(), &RICE, &[], &mut ZeroGuide)?;
    assert_ended(&rt, &outcome, UNFINISHED, 999);
    Ok(())
}

/// The basket has four plans, and seven nodes are enough to split down to them.
#[test]
fn seven_nodes_show_that_no_ration_is_enough(rt: HostRuntime) -> Result<(), Fail> {
    let outcome = outcome_of(rt.alloc(), &BASKET, &[TOO_GREAT_A_NEED], &mut ZeroGuide)?;
    assert_ended(&rt, &outcome, Verdict::NoPlan, 7);
    Ok(())
}

#[test]
fn six_nodes_are_too_few(rt: HostRuntime) -> Result<(), Fail> {
    let changes = [TOO_GREAT_A_NEED, SIX_NODES];
    let outcome = outcome_of(rt.alloc(), &BASKET, &changes, &mut ZeroGuide)?;
    assert_ended(&rt, &outcome, UNFINISHED, 5);
    Ok(())
}

#[test]
fn a_ration_is_enough(rt: HostRuntime) -> Result<(), Fail> {
    let outcome = outcome_of(rt.alloc(), &BASKET, &[], &mut ZeroGuide)?;
    assert_eq!(rt; outcome.verdict, PLAN_WITHOUT_SHORTFALL);
    Ok(())
}
