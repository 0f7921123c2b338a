//! What a plan is in the system of a model.
ghost use Rattle.opt_network.specs.Numbering.{IsLayoutOf};

use super::Held;
use super::line::line_with;
use opt_model::Quantity;
use opt_network::Layout;
use opt_rows::build;
use opt_system::System;
use opt_tables::Tables;
use std::alloc::{AllocError, Global};
use std::process::Abort;
use std::test::Fail;

/// What a plan is in the system of a model.
#[derive(Clone, Copy, Debug, PartialEq, Eq)]
pub enum Judgement {
    /// A quantity does not exist, or its value is outside its range.
    OutOfRange,
    /// The number of the first row that it does not meet.
    Breaks(u32),
    /// It meets all rows and costs so much.
    Costs(i128),
}

/// A quantity's value in a plan.
#[derive(Clone, Copy)]
pub struct Amount(pub Quantity, pub i64);

/// Whether the model has all quantities of a plan.
fn has_all(layout: &Layout, plan: &[Amount]) -> bool {
    plan.iter().all(|amount| layout.index(&amount.0).is_some())
}

/// Sets the value of a quantity that exists.
fn set(values: &mut Vec<i64>, layout: &Layout, amount: Amount) {
    if let Some(number) = layout.index(&amount.0) {
        if let Some(value) = values.get_mut(number as usize) {
            *value = amount.1;
        }
    }
}

/// The values of a plan by the numbers of its quantities.
fn values_of(alloc: Global, layout: &Layout, plan: &[Amount]) -> Result<Vec<i64>, AllocError> {
    let mut values = vec![in alloc; 0i64; layout.len() as usize]?;
    for amount in plan {
        set(&mut values, layout, *amount);
    }
    Ok(values)
}

fn judge_values(system: &System, values: &[i64]) -> Judgement {
    if !system.root().contains(values) {
        return Judgement::OutOfRange;
    }
    match system.first_broken(values) {
        Some(row) => Judgement::Breaks(row),
        None => Judgement::Costs(system.objective(values)),
    }
}

fn judge_plan(
    alloc: Global,
    tables: &Tables,
    layout: &Layout,
    plan: &[Amount],
) -> Result<Judgement, Fail>
    requires { IsLayoutOf tables.now layout.now }
{
    if !has_all(layout, plan) {
        return Ok(Judgement::OutOfRange);
    }
    let system = build(alloc, tables, layout)?;
    let values = values_of(alloc, layout, plan)?;
    Ok(judge_values(&system, &values))
}

/// A plan in the line with these changes, and what it is there.
#[derive(Clone, Copy)]
pub struct Case<'a> {
    pub changes: &'a [Held<'a>],
    pub more: &'a [Held<'a>],
    pub plan: &'a [Amount],
    pub wanted: Judgement,
}

fn judge(alloc: Global, case: &Case<'_>) -> Result<Judgement, Fail> {
    let tables = line_with(alloc, case.changes, case.more)?;
    let layout = Layout::new(alloc, &tables)?;
    judge_plan(alloc, &tables, &layout, case.plan)
}

pub fn assert_cases(rt: &impl Abort, alloc: Global, cases: &[Case<'_>]) -> Result<(), Fail> {
    for case in cases {
        assert_eq!(rt; judge(alloc, case)?, case.wanted);
    }
    Ok(())
}

pub const RATION: Quantity = Quantity::Ration {
    basket: 0,
    commodity: 0,
    month: 1,
};

pub const LATER_RATION: Quantity = Quantity::Ration {
    basket: 0,
    commodity: 0,
    month: 2,
};

pub const SECOND_RATION: Quantity = Quantity::Ration {
    basket: 1,
    commodity: 0,
    month: 1,
};

pub const BUY: Quantity = Quantity::Buy { offer: 0, month: 1 };

pub const SECOND_BUY: Quantity = Quantity::Buy { offer: 1, month: 1 };

pub const SHIP: Quantity = Quantity::Ship {
    arc: 0,
    commodity: 0,
    month: 1,
};

pub const KEEP: Quantity = Quantity::Keep {
    place: 1,
    commodity: 0,
    month: 1,
};

pub const FEED: Quantity = Quantity::Feed {
    place: 1,
    commodity: 0,
    month: 1,
};

pub const LATER_FEED: Quantity = Quantity::Feed {
    place: 1,
    commodity: 0,
    month: 2,
};

pub const ORDER: Quantity = Quantity::Order { offer: 0, month: 1 };

pub const SECOND_ORDER: Quantity = Quantity::Order { offer: 1, month: 1 };

/// 590 g for 1000 persons on 30 days are 17,700 kg, at 450 + 50 mills.
pub const ONE_MONTH: [Amount; 4] = [
    Amount(RATION, 59),
    Amount(BUY, 17_700),
    Amount(SHIP, 17_700),
    Amount(FEED, 17_700),
];
