use super::{Held, TWO_BASKETS, WITH_FEE, read, tables_of};
use crate::{plan_text, read_plan};
use opt_base::Point;
use opt_network::Layout;
use opt_tables::Tables;
use std::alloc::Global;
use std::process::Abort;
use std::test::Fail;

/// The plan that feeds 1000 persons 590 g a day for 30 days.
const PLAN: &[u8] = b"quantity,name,commodity,month,amount
ration,rice,,1,590
buy,o1,,1,17700
ship,a1,rice,1,17700
feed,P,rice,1,17700
";

const PLAN_OF_BASKETS: &[u8] = b"quantity,name,commodity,month,amount
ration,A,rice,1,590
ration,B,rice,1,500
short,A,energy,1,5
short,B,energy,1,7
buy,o1,,1,16620
ship,a1,rice,1,16620
feed,P,rice,1,16620
order,o1,,1,1
";

/// A point is written as this text and read from it.
fn assert_text(
    rt: &impl Abort,
    alloc: Global,
    tables: &Tables,
    values: &[i64],
    text: &[u8],
) -> Result<(), Fail> {
    let layout = Layout::new(alloc, tables)?;
    assert!(rt; text.len() < 4_294_967_296);
    let point = read_plan(alloc, tables, &layout, text)?;
    assert_eq!(rt; point.as_slice(), values);
    let written = plan_text(alloc, tables, &layout, &point)?;
    assert_eq!(rt; written.as_slice(), text);
    Ok(())
}

#[test]
fn writes_and_reads_the_plan_of_a_line(rt: HostRuntime) -> Result<(), Fail> {
    let alloc = rt.alloc();
    let tables = tables_of(alloc, &[], &[])?;
    assert_text(&rt, alloc, &tables, &[59, 0, 17_700, 17_700, 17_700], PLAN)?;
    Ok(())
}

#[test]
fn names_baskets_from_format_2_on(rt: HostRuntime) -> Result<(), Fail> {
    let alloc = rt.alloc();
    let tables = tables_of(alloc, &TWO_BASKETS, &WITH_FEE)?;
    let values = [59, 50, 5, 0, 7, 16_620, 16_620, 16_620, 1];
    assert_text(&rt, alloc, &tables, &values, PLAN_OF_BASKETS)?;
    Ok(())
}

#[test]
fn quotes_names_with_commas(rt: HostRuntime) -> Result<(), Fail> {
    let alloc = rt.alloc();
    let changes = [
        Held(
            "d/commodities.csv",
            b"commodity,group,min_g,max_g,step_g\n\"rice, \"\"white\"\"\",,0,600,10\n",
        ),
        Held("d/contents.csv", b"commodity,nutrient,per_100g\n"),
        Held(
            "d/offers.csv",
            b"offer,place,commodity,price,max_kg,first,last\n",
        ),
    ];
    let tables = tables_of(alloc, &changes, &[])?;
    let text =
        b"quantity,name,commodity,month,amount\nration,\"rice, \"\"white\"\"\",,1,10\nfeed,P,\"rice, \"\"white\"\"\",1,1\n";
    assert_text(&rt, alloc, &tables, &[1, 0, 0, 1], text)?;
    Ok(())
}

#[test]
fn reads_any_order_with_zeros(rt: HostRuntime) -> Result<(), Fail> {
    let alloc = rt.alloc();
    let tables = tables_of(alloc, &[], &[])?;
    let text =
        b"\xEF\xBB\xBFamount,note,name,month,quantity,commodity\r\n17700, , P ,01,feed,\"rice\"\r\n0,,energy,1,short,\t\r\n0590,x,rice,1,ration,\r\n";
    let point = read(&rt, alloc, &tables, text)?;
    assert_eq!(rt; point.as_slice(), [59, 0, 0, 0, 17_700].as_slice());
    Ok(())
}

#[test]
fn a_plan_without_records_is_zero(rt: HostRuntime) -> Result<(), Fail> {
    let alloc = rt.alloc();
    let tables = tables_of(alloc, &[], &[])?;
    let point = read(&rt, alloc, &tables, b"quantity,name,commodity,month,amount")?;
    assert_eq!(rt; point.as_slice(), [0; 5].as_slice());
    Ok(())
}
