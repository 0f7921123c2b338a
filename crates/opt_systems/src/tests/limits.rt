use super::line::LINE;
use super::{Held, Outcome, hold, made_of, made_on, tables_on};
use opt_base::{OutOfMemory, SureShelf};
use opt_model::Goal;
use opt_network::Layout;
use opt_rows::build_goal;
use std::alloc::{AllocError, Global};
use std::test::Fail;

/// Adds 30 so many times, after a separator but for the first.
fn push_days(text: &mut String, months: u32) -> Result<(), AllocError> {
    for month in 0..months {
        text.push_str(if month == 0 { "30" } else { ", 30" })?;
    }
    Ok(())
}

/// Settings of this format and these months of 30 days, and what follows them.
fn load_settings(
    shelf: &mut SureShelf,
    alloc: Global,
    format: u32,
    months: u32,
    end: &str,
) -> Result<(), OutOfMemory> {
    let mut text = format!(in alloc; "format = {format}\nmonths = {months}\ndays = [")?;
    push_days(&mut text, months)?;
    text.push_str("]\ngoal = \"cost\"\ngap = 0\nnodes = 1000\n")?;
    text.push_str(end)?;
    shelf.load("d/settings.toml", text.as_bytes())?;
    Ok(())
}

/// A table of so many records: its header, then for each number from 0 a letter, the number and the rest of the record.
#[derive(Clone, Copy)]
struct Numbered<'a> {
    path: &'a str,
    header: &'a str,
    letter: &'a str,
    rest: &'a str,
}

/// Adds a record for each number from 0 on, so many: the letter and the number, then the rest of the record.
fn push_numbered(
    alloc: Global,
    text: &mut String,
    letter: &str,
    count: u32,
    rest: &str,
) -> Result<(), AllocError> {
    for number in 0..count {
        let record = format!(in alloc; "{letter}{number}{rest}\n")?;
        text.push_str(record.as_str())?;
    }
    Ok(())
}

fn load_numbered(
    shelf: &mut SureShelf,
    alloc: Global,
    table: Numbered<'_>,
    count: u32,
) -> Result<(), OutOfMemory> {
    let mut text = table.header.to_string(alloc)?;
    push_numbered(alloc, &mut text, table.letter, count, table.rest)?;
    shelf.load(table.path, text.as_bytes())?;
    Ok(())
}

/// A table with a record for each of so many first names with each of so many second ones.
fn load_pairs(
    shelf: &mut SureShelf,
    alloc: Global,
    table: Numbered<'_>,
    firsts: u32,
    seconds: u32,
) -> Result<(), OutOfMemory> {
    let mut text = table.header.to_string(alloc)?;
    for first in 0..firsts {
        push_pairs(alloc, &mut text, table, first, seconds)?;
    }
    shelf.load(table.path, text.as_bytes())?;
    Ok(())
}

fn push_pairs(
    alloc: Global,
    text: &mut String,
    table: Numbered<'_>,
    first: u32,
    seconds: u32,
) -> Result<(), AllocError> {
    for second in 0..seconds {
        let letter = table.letter;
        let rest = table.rest;
        let record = format!(in alloc; "{letter}{first},n{second}{rest}\n")?;
        text.push_str(record.as_str())?;
    }
    Ok(())
}

const GROUPS: Numbered<'static> = Numbered {
    path: "d/groups.csv",
    header: "group,min_g,max_g\n",
    letter: "g",
    rest: ",0,9",
};

const COMMODITIES: Numbered<'static> = Numbered {
    path: "d/commodities.csv",
    header: "commodity,group,min_g,max_g,step_g\n",
    letter: "c",
    rest: ",,0,10,10",
};

const HUBS: Numbered<'static> = Numbered {
    path: "d/places.csv",
    header: "place,kind,storage,throughput,handling,storage_cost\n",
    letter: "p",
    rest: ",hub,0,,0,0",
};

const NUTRIENTS: Numbered<'static> = Numbered {
    path: "d/nutrients.csv",
    header: "nutrient\n",
    letter: "n",
    rest: "",
};

const CONTENTS: Numbered<'static> = Numbered {
    path: "d/contents.csv",
    header: "commodity,nutrient,per_100g\n",
    letter: "c",
    rest: ",5",
};

const BASKETS: Numbered<'static> = Numbered {
    path: "d/baskets.csv",
    header: "basket\n",
    letter: "b",
    rest: "",
};

const NEEDS: Numbered<'static> = Numbered {
    path: "d/needs.csv",
    header: "basket,nutrient,required,max_short,weight\n",
    letter: "b",
    rest: ",0,9,1",
};

/// Nobody is fed, nothing is needed, and nothing moves.
const NOTHING: [Held<'static>; 5] = [
    Held("d/nutrients.csv", b"nutrient,required,max_short,weight\n"),
    Held("d/contents.csv", b"commodity,nutrient,per_100g\n"),
    Held(
        "d/offers.csv",
        b"offer,place,commodity,price,max_kg,first,last\n",
    ),
    Held("d/arcs.csv", b"arc,from,to,cost,capacity,lead\n"),
    Held("d/persons.csv", b"place,month,persons\n"),
];

const NO_PLACES: [Held<'static>; 1] = [Held(
    "d/places.csv",
    b"place,kind,storage,throughput,handling,storage_cost\n",
)];

/// Rice in 25 months and so many groups, with two rows a month each.
fn load_groups(
    shelf: &mut SureShelf,
    alloc: Global,
    count: u32,
    end: &str,
) -> Result<(), OutOfMemory> {
    hold(shelf, &LINE)?;
    hold(shelf, &NOTHING)?;
    hold(shelf, &NO_PLACES)?;
    load_settings(shelf, alloc, 1, 25, end)?;
    load_numbered(shelf, alloc, GROUPS, count)?;
    Ok(())
}

fn groups(alloc: Global, count: u32, end: &str) -> Result<Outcome, Fail> {
    let mut shelf = SureShelf::new(alloc);
    load_groups(&mut shelf, alloc, count, end)?;
    made_on(alloc, &mut shelf)
}

/// What is made of the files on a shelf with the row of a cap.
fn capped_on(alloc: Global, shelf: &mut SureShelf) -> Result<Outcome, Fail> {
    let tables = tables_on(alloc, shelf)?;
    let layout = Layout::new(alloc, &tables)?;
    Ok(made_of(build_goal(alloc, &tables, &layout, Goal::Cost, Some(7))))
}

fn capped_groups(alloc: Global, count: u32) -> Result<Outcome, Fail> {
    let mut shelf = SureShelf::new(alloc);
    load_groups(&mut shelf, alloc, count, "")?;
    capped_on(alloc, &mut shelf)
}

/// 400 groups in 25 months have 20,000 rows; a budget has one more, and so has a cap.
#[test]
fn at_most_20_000_rows(rt: HostRuntime) -> Result<(), Fail> {
    let alloc = rt.alloc();
    assert_eq!(rt; groups(alloc, 400, "")?, Outcome::System(25, 20_000, 0));
    assert_eq!(rt;
        groups(alloc, 400, "budget = 5\n")?,
        Outcome::TooMany(2, 20_001)
    );
    assert_eq!(rt; capped_groups(alloc, 400)?, Outcome::TooMany(2, 20_001));
    Ok(())
}

/// Commodities at hubs in 36 months.
fn load_hubs(
    shelf: &mut SureShelf,
    alloc: Global,
    commodities: u32,
    hubs: u32,
) -> Result<(), OutOfMemory> {
    hold(shelf, &LINE)?;
    hold(shelf, &NOTHING)?;
    load_settings(shelf, alloc, 1, 36, "")?;
    load_numbered(shelf, alloc, COMMODITIES, commodities)?;
    load_numbered(shelf, alloc, HUBS, hubs)?;
    Ok(())
}

fn hubs(alloc: Global, commodities: u32, hubs: u32) -> Result<Outcome, Fail> {
    let mut shelf = SureShelf::new(alloc);
    load_hubs(&mut shelf, alloc, commodities, hubs)?;
    made_on(alloc, &mut shelf)
}

/// 500 commodities at 1000 hubs in 36 months have 18,000,000 balances. A table of 16 MB has 700,000 hubs.
#[test]
fn rows_are_counted_before_one_is_made(rt: HostRuntime) -> Result<(), Fail> {
    let alloc = rt.alloc();
    assert_eq!(rt; hubs(alloc, 500, 1000)?, Outcome::TooMany(2, 18_000_000));
    Ok(())
}

/// The place of an offer.
const SUPPLIER: [Held<'static>; 2] = [
    Held("d/persons.csv", b"place,month,persons,basket\n"),
    Held(
        "d/places.csv",
        b"place,kind,storage,throughput,handling,storage_cost\nS,supplier,0,,0,0\n",
    ),
];

/// What is bought in one month.
const ONE_OFFER: [Held<'static>; 1] = [Held(
    "d/offers.csv",
    b"offer,place,commodity,price,max_kg,first,last\no1,S,c0,450,20000,1,1\n",
)];

/// Eight baskets that need 32 nutrients of 31 commodities in 32 months.
fn load_dense(shelf: &mut SureShelf, alloc: Global) -> Result<(), OutOfMemory> {
    load_settings(shelf, alloc, 2, 32, "")?;
    load_numbered(shelf, alloc, COMMODITIES, 31)?;
    load_numbered(shelf, alloc, NUTRIENTS, 32)?;
    load_pairs(shelf, alloc, CONTENTS, 31, 32)?;
    load_numbered(shelf, alloc, BASKETS, 8)?;
    load_pairs(shelf, alloc, NEEDS, 8, 32)?;
    Ok(())
}

fn dense(alloc: Global, offers: &[Held<'_>]) -> Result<Outcome, Fail> {
    let mut shelf = SureShelf::new(alloc);
    hold(&mut shelf, &NOTHING)?;
    hold(&mut shelf, &SUPPLIER)?;
    hold(&mut shelf, offers)?;
    load_dense(&mut shelf, alloc)?;
    made_on(alloc, &mut shelf)
}

/// 8 * 32 needs in 32 months have a term for each of 31 commodities and one of the shortfall: 262,144. An offer of one
/// month has one term more, in a balance.
#[test]
fn at_most_262_144_terms(rt: HostRuntime) -> Result<(), Fail> {
    let alloc = rt.alloc();
    assert_eq!(rt; dense(alloc, &[])?, Outcome::System(16_128, 9184, 262_144));
    assert_eq!(rt; dense(alloc, &ONE_OFFER)?, Outcome::TooMany(3, 262_145));
    Ok(())
}
