use super::{Held, hold, system_of, tables_on};
use opt_base::SureShelf;
use opt_model::Goal;
use opt_network::Layout;
use opt_rows::build_goal;
use opt_system::System;
use opt_tables::Tables;
use std::alloc::Global;
use std::test::Fail;

/// Rice that is bought at S, moved to P and eaten there in one month.
pub const LINE: [Held<'static>; 8] = [
    Held(
        "d/settings.toml",
        b"format = 1\nmonths = 1\ndays = [30]\ngoal = \"cost\"\ngap = 0\nnodes = 1000\n",
    ),
    Held(
        "d/commodities.csv",
        b"commodity,group,min_g,max_g,step_g\nrice,,0,600,10\n",
    ),
    Held(
        "d/nutrients.csv",
        b"nutrient,required,max_short,weight\nenergy,2100,0,1\n",
    ),
    Held(
        "d/contents.csv",
        b"commodity,nutrient,per_100g\nrice,energy,360\n",
    ),
    Held(
        "d/places.csv",
        b"place,kind,storage,throughput,handling,storage_cost\nS,supplier,0,,0,0\nP,point,0,,0,0\n",
    ),
    Held(
        "d/offers.csv",
        b"offer,place,commodity,price,max_kg,first,last\no1,S,rice,450,20000,1,1\n",
    ),
    Held(
        "d/arcs.csv",
        b"arc,from,to,cost,capacity,lead\na1,S,P,50,20000,0\n",
    ),
    Held("d/persons.csv", b"place,month,persons\nP,1,1000\n"),
];

/// The tables of the line, some of whose files are replaced, and more are there.
pub fn line_with(alloc: Global, changes: &[Held<'_>], more: &[Held<'_>]) -> Result<Tables, Fail> {
    let mut shelf = SureShelf::new(alloc);
    hold(&mut shelf, &LINE)?;
    hold(&mut shelf, changes)?;
    hold(&mut shelf, more)?;
    tables_on(alloc, &mut shelf)
}

/// The system of the line.
fn system_of_line(alloc: Global) -> Result<System, Fail> {
    let tables = line_with(alloc, &[], &[])?;
    Ok(system_of(alloc, &tables)?)
}

#[test]
fn the_line_has_five_quantities_and_six_rows(rt: HostRuntime) -> Result<(), Fail> {
    let system = system_of_line(rt.alloc())?;
    assert_eq!(rt; system.quantities(), 5);
    assert_eq!(rt; system.rows(), 6);
    Ok(())
}

/// 59 steps of 10 g for 1,000 persons and 30 days are 17,700 kg, each 450 mills bought and 50 shipped.
#[test]
fn a_plan_of_the_line_meets_its_system(rt: HostRuntime) -> Result<(), Fail> {
    let system = system_of_line(rt.alloc())?;
    let x = [59, 0, 17_700, 17_700, 17_700];
    assert!(rt; system.root().contains(&x));
    assert_eq!(rt; system.first_broken(&x), None);
    assert_eq!(rt; system.objective(&x), 8_850_000);
    Ok(())
}

/// 58 steps hold 2,088 of the 2,100 that are required.
#[test]
fn too_small_a_ration_breaks_the_first_row(rt: HostRuntime) -> Result<(), Fail> {
    let system = system_of_line(rt.alloc())?;
    let x = [58, 0, 17_400, 17_400, 17_400];
    assert!(rt; system.root().contains(&x));
    assert_eq!(rt; system.first_broken(&x), Some(0));
    Ok(())
}

#[test]
fn a_cap_is_the_last_row(rt: HostRuntime) -> Result<(), Fail> {
    let alloc = rt.alloc();
    let tables = line_with(alloc, &[], &[])?;
    let layout = Layout::new(alloc, &tables)?;
    let system = build_goal(alloc, &tables, &layout, Goal::Shortfall, Some(0))?;
    assert_eq!(rt; system.rows(), 7);
    Ok(())
}
