use super::{Held, TWO_BASKETS, WITH_FEE, tables_of};
use crate::{is_within, reports};
use opt_base::Point;
use opt_network::Layout;
use opt_tables::Tables;
use std::alloc::Global;
use std::process::Abort;
use std::test::Fail;

/// What the three reports hold.
#[derive(Drop)]
struct Texts<'a> {
    sites: &'a [u8],
    costs: &'a [u8],
    basket: &'a [u8],
}

fn assert_reports(
    rt: &impl Abort,
    alloc: Global,
    tables: &Tables,
    values: &[i64],
    texts: &Texts<'_>,
) -> Result<(), Fail> {
    let layout = Layout::new(alloc, tables)?;
    let point = Point::from_slice(alloc, values)?;
    assert!(rt; is_within(&layout, &point));
    let set = reports(alloc, tables, &layout, &point)?;
    assert_eq!(rt; set.sites.as_slice(), texts.sites);
    assert_eq!(rt; set.costs.as_slice(), texts.costs);
    assert_eq!(rt; set.basket.as_slice(), texts.basket);
    Ok(())
}

#[test]
fn reports_the_plan_of_a_line(rt: HostRuntime) -> Result<(), Fail> {
    // 17700 kg cost 450 mills each to buy and 50 to ship.
    let alloc = rt.alloc();
    let tables = tables_of(alloc, &[], &[])?;
    let texts = Texts {
        sites: b"month,place,commodity,stock,bought,arrived,sent,kept,handed_out
1,S,rice,0,17700,0,17700,0,0
1,P,rice,0,0,17700,0,0,17700
",
        costs: b"month,bought,shipped,stored,total
1,7965000,885000,0,8850000
all,7965000,885000,0,8850000
",
        basket: b"month,kind,name,amount
1,ration,rice,590
1,short,energy,0
",
    };
    assert_reports(
        &rt,
        alloc,
        &tables,
        &[59, 0, 17_700, 17_700, 17_700],
        &texts,
    )?;
    Ok(())
}

#[test]
fn reports_baskets_and_fees(rt: HostRuntime) -> Result<(), Fail> {
    // 16620 kg at 450 and 50 mills, and a fee of 1000000.
    let alloc = rt.alloc();
    let tables = tables_of(alloc, &TWO_BASKETS, &WITH_FEE)?;
    let texts = Texts {
        sites: b"month,place,commodity,stock,bought,arrived,sent,kept,handed_out
1,S,rice,0,16620,0,16620,0,0
1,P,rice,0,0,16620,0,0,16620
",
        costs: b"month,bought,fees,shipped,stored,total
1,7479000,1000000,831000,0,9310000
all,7479000,1000000,831000,0,9310000
",
        basket: b"month,basket,kind,name,amount
1,A,ration,rice,590
1,A,short,energy,5
1,A,short,protein,0
1,B,ration,rice,500
1,B,short,energy,7
",
    };
    let values = [59, 50, 5, 0, 7, 16_620, 16_620, 16_620, 1];
    assert_reports(&rt, alloc, &tables, &values, &texts)?;
    Ok(())
}

/// What makes the line one of two months, in which food is a month on the way and can be kept at P, with handling and
/// two groups of persons.
const TWO_MONTHS: [Held<'static>; 5] = [
    Held(
        "d/settings.toml",
        b"format = 1\nmonths = 2\ndays = [30, 30]\ngoal = \"cost\"\ngap = 0\nnodes = 1000\n",
    ),
    Held(
        "d/places.csv",
        b"place,kind,storage,throughput,handling,storage_cost\nS,supplier,0,,0,0\nP,point,500,,7,3\n",
    ),
    Held(
        "d/arcs.csv",
        b"arc,from,to,cost,capacity,lead\na1,S,P,50,20000,1\n",
    ),
    Held("d/persons.csv", b"place,month,persons\nP,2,100\n"),
    Held("d/stock.csv", b"place,commodity,month,kg\nP,rice,1,40\n"),
];

#[test]
fn reports_months_by_departure_and_arrival(rt: HostRuntime) -> Result<(), Fail> {
    // The quantities are two rations, two shortfalls, one purchase in month 1, one shipment that leaves in month 1,
    // what is kept in both months, and what is handed out in month 2. 40 kg are in stock and kept; 20 kg are bought,
    // shipped at 57 mills, and with 10 kg of the 40 handed out; 30 kg stay at 3 mills.
    let alloc = rt.alloc();
    let tables = tables_of(alloc, &TWO_MONTHS, &[])?;
    let texts = Texts {
        sites: b"month,place,commodity,stock,bought,arrived,sent,kept,handed_out
1,S,rice,0,20,0,20,0,0
1,P,rice,40,0,0,0,40,0
2,P,rice,0,0,20,0,30,30
",
        costs: b"month,bought,shipped,stored,total
1,9000,1140,120,10260
2,0,0,90,90
all,9000,1140,210,10350
",
        basket: b"month,kind,name,amount
1,ration,rice,0
1,short,energy,0
2,ration,rice,10
2,short,energy,50
",
    };
    let values = [0, 1, 0, 50, 20, 20, 40, 30, 30];
    assert_reports(&rt, alloc, &tables, &values, &texts)?;
    Ok(())
}
