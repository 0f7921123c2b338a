use super::{Held, tables_of};
use crate::names::find_row;
use crate::{node_limit, row_text};
use opt_base::OutOfMemory;
use opt_tables::Tables;
use std::alloc::Global;
use std::process::Abort;
use std::test::Fail;

/// What makes the line one of two months, in which food is a month on the way.
const TWO_MONTHS: [Held<'static>; 2] = [
    Held(
        "d/settings.toml",
        b"format = 1\nmonths = 2\ndays = [30, 30]\ngoal = \"cost\"\ngap = 0\nnodes = 1000\n",
    ),
    Held(
        "d/arcs.csv",
        b"arc,from,to,cost,capacity,lead\na1,S,P,50,20000,1\n",
    ),
];

/// What makes the line one with every kind of row.
const EVERY_KIND: [Held<'static>; 8] = [
    Held(
        "d/settings.toml",
        b"format = 3\nmonths = 1\ndays = [30]\ngoal = \"cost\"\ngap = 0\nnodes = 1000\nbudget = 5\n",
    ),
    Held(
        "d/commodities.csv",
        b"commodity,group,min_g,max_g,step_g\nrice,cereals,0,600,10\n",
    ),
    Held("d/groups.csv", b"group,min_g,max_g\ncereals,0,600\n"),
    Held("d/nutrients.csv", b"nutrient\nenergy\n"),
    Held(
        "d/places.csv",
        b"place,kind,storage,throughput,handling,storage_cost\nS,supplier,0,,0,0\nP,point,5,7,0,0\n",
    ),
    Held(
        "d/offers.csv",
        b"offer,place,commodity,price,max_kg,first,last,fee,least\no1,S,rice,450,20000,1,1,0,9\n",
    ),
    Held(
        "d/persons.csv",
        b"place,month,persons,basket\nP,1,1000,all\n",
    ),
    Held(
        "d/needs.csv",
        b"basket,nutrient,required,max_short,weight\nall,energy,2100,0,1\n",
    ),
];

const ONE_BASKET: [Held<'static>; 1] = [Held("d/baskets.csv", b"basket\nall\n")];

/// The printed name of row `i`; none past the last row.
fn text_of(alloc: Global, tables: &Tables, i: u32) -> Result<Option<String>, OutOfMemory> {
    match find_row(tables, i) {
        Err(name) => Ok(Some(row_text(alloc, tables, name)?)),
        Ok(_) => Ok(None),
    }
}

/// The rows have these names, at most 16, and there are no more.
fn assert_named(
    rt: &impl Abort,
    alloc: Global,
    tables: &Tables,
    names: &[&str],
) -> Result<(), OutOfMemory> {
    for i in 0..17u32 {
        let text = text_of(alloc, tables, i)?;
        assert_eq!(rt; text.as_deref(), names.get(i as usize).copied());
    }
    Ok(())
}

#[test]
fn names_the_rows_of_a_line(rt: HostRuntime) -> Result<(), Fail> {
    let alloc = rt.alloc();
    let tables = tables_of(alloc, &[], &[])?;
    let names = [
        "nutrient energy month 1",
        "handout-low P rice month 1",
        "handout-high P rice month 1",
        "balance S rice month 1",
        "balance P rice month 1",
        "arc a1 month 1",
    ];
    assert_named(&rt, alloc, &tables, &names)?;
    Ok(())
}

#[test]
fn names_the_rows_of_two_months(rt: HostRuntime) -> Result<(), Fail> {
    // Nobody is fed in the second month, and nothing leaves in it.
    let alloc = rt.alloc();
    let tables = tables_of(alloc, &TWO_MONTHS, &[])?;
    let names = [
        "nutrient energy month 1",
        "nutrient energy month 2",
        "handout-low P rice month 1",
        "handout-high P rice month 1",
        "balance S rice month 1",
        "balance S rice month 2",
        "balance P rice month 1",
        "balance P rice month 2",
        "arc a1 month 1",
    ];
    assert_named(&rt, alloc, &tables, &names)?;
    Ok(())
}

#[test]
fn names_every_kind_of_row(rt: HostRuntime) -> Result<(), Fail> {
    let alloc = rt.alloc();
    let tables = tables_of(alloc, &EVERY_KIND, &ONE_BASKET)?;
    let names = [
        "nutrient all energy month 1",
        "group-low all cereals month 1",
        "group-high all cereals month 1",
        "handout-low P rice month 1",
        "handout-high P rice month 1",
        "balance S rice month 1",
        "balance P rice month 1",
        "arc a1 month 1",
        "storage P month 1",
        "throughput P month 1",
        "budget",
        "lot-low o1 month 1",
        "lot-high o1 month 1",
    ];
    assert_named(&rt, alloc, &tables, &names)?;
    Ok(())
}

#[test]
fn limits_nodes_by_rows(rt: HostRuntime) -> Result<(), Fail> {
    // 2^24 / 20000 is 838.8.
    let tables = tables_of(rt.alloc(), &[], &[])?;
    assert_eq!(rt; node_limit(&tables, 0), 1000);
    assert_eq!(rt; node_limit(&tables, 16_777), 1000);
    assert_eq!(rt; node_limit(&tables, 20_000), 838);
    Ok(())
}
