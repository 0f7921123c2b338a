use super::network::{CONTENTS, NUTRIENTS, OFFERS, PERSONS, PLACES, SETTINGS};
use super::{Folder, layout_of};
use opt_base::{File, Kind, ModelFault, Refusal};
use std::alloc::{AllocError, Global};
use std::test::Fail;

/// Commodities alone.
fn diet_of(commodities: &[u8]) -> Folder<'_> {
    Folder {
        settings: SETTINGS,
        commodities,
        nutrients: b"nutrient,required,max_short,weight\n",
        contents: b"commodity,nutrient,per_100g\n",
        places: b"",
        offers: b"",
        arcs: b"",
        persons: b"",
        baskets: b"",
        needs: b"",
    }
}

/// The network over these months, with these commodities and arcs.
fn network_of<'a>(settings: &'a [u8], commodities: &'a [u8], arcs: &'a [u8]) -> Folder<'a> {
    Folder {
        settings,
        commodities,
        nutrients: NUTRIENTS,
        contents: CONTENTS,
        places: PLACES,
        offers: OFFERS,
        arcs,
        persons: PERSONS,
        baskets: b"",
        needs: b"",
    }
}

/// Settings of 36 months.
const LONG: &[u8] =
    b"format = 1\nmonths = 36\ndays = [30, 30, 30, 30, 30, 30, 30, 30, 30, 30, 30, 30, 30, 30, 30, 30, \
    30, 30, 30, 30, 30, 30, 30, 30, 30, 30, 30, 30, 30, 30, 30, 30, 30, 30, 30, 30]\n\
    goal = \"cost\"\ngap = 0\nnodes = 1000\n";

/// A table of commodities with so many records, rice first.
fn commodities(alloc: Global, count: u32) -> Result<String, AllocError> {
    let mut text = "commodity,group,min_g,max_g,step_g\nrice,,0,10,10\n".to_string(alloc)?;
    for number in 1..count {
        let record = format!(in alloc; "c{number},,0,10,10\n")?;
        text.push_str(record.as_str())?;
    }
    Ok(text)
}

/// A table of arcs with so many records, each with a lead time of two months.
fn arcs(alloc: Global, count: u32) -> Result<String, AllocError> {
    let mut text = "arc,from,to,cost,capacity,lead\n".to_string(alloc)?;
    for number in 0..count {
        let record = format!(in alloc; "a{number},S,P,50,20000,2\n")?;
        text.push_str(record.as_str())?;
    }
    Ok(text)
}

/// The refusal of so many quantities.
fn too_many(count: u64) -> Option<ModelFault> {
    Some(ModelFault::Refused(Refusal {
        file: File::Model,
        number: 0,
        column: 1,
        kind: Kind::TooMany(count),
    }))
}

#[test]
fn at_most_20_000_quantities(rt: HostRuntime) -> Result<(), Fail> {
    let alloc = rt.alloc();
    let most = commodities(alloc, 20_000)?;
    let layout = layout_of(alloc, &diet_of(most.as_bytes()))?;
    assert_eq!(rt; layout.len(), 20_000);
    assert_eq!(rt; layout.rations(), 20_000);
    if 19_999 < layout.len() {
        assert_eq!(rt; layout.range(19_999), (0, 1));
    }
    let more = commodities(alloc, 20_001)?;
    assert_eq!(rt;
        layout_of(alloc, &diet_of(more.as_bytes())).err(),
        too_many(20_001)
    );
    Ok(())
}

/// Of 30,000 commodities and arcs over 36 months there are 30,000 · 36 = 1,080,000 rations, 36 shortfalls, 1 purchase,
/// 30,000 · 30,000 · 34 = 30,600,000,000 shipments, and 30,000 quantities that are handed out in month 1.
#[test]
fn the_count_is_named_of_more_than_memory_holds(rt: HostRuntime) -> Result<(), Fail> {
    let alloc = rt.alloc();
    let commodities = commodities(alloc, 30_000)?;
    let arcs = arcs(alloc, 30_000)?;
    let hostile = network_of(LONG, commodities.as_bytes(), arcs.as_bytes());
    assert_eq!(rt; layout_of(alloc, &hostile).err(), too_many(30_601_110_037));
    Ok(())
}
