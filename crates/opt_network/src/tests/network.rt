use super::{Folder, Line, has_lines, layout_of};
use crate::Quantity;
use std::test::Fail;

pub const SETTINGS: &[u8] =
    b"format = 1\nmonths = 1\ndays = [30]\ngoal = \"cost\"\ngap = 0\nnodes = 1000\n";

pub const COMMODITIES: &[u8] = b"commodity,group,min_g,max_g,step_g\nrice,,0,600,10\n";

pub const NUTRIENTS: &[u8] = b"nutrient,required,max_short,weight\nenergy,2100,0,1\n";

pub const CONTENTS: &[u8] = b"commodity,nutrient,per_100g\nrice,energy,360\n";

pub const PLACES: &[u8] =
    b"place,kind,storage,throughput,handling,storage_cost\nS,supplier,0,,0,0\nP,point,0,,0,0\n";

pub const OFFERS: &[u8] =
    b"offer,place,commodity,price,max_kg,first,last\no1,S,rice,450,20000,1,1\n";

pub const ARCS: &[u8] = b"arc,from,to,cost,capacity,lead\na1,S,P,50,20000,0\n";

pub const PERSONS: &[u8] = b"place,month,persons\nP,1,1000\n";

/// Rice that is bought at S, moved to P and eaten there.
const NETWORK: Folder<'static> = Folder {
    settings: SETTINGS,
    commodities: COMMODITIES,
    nutrients: NUTRIENTS,
    contents: CONTENTS,
    places: PLACES,
    offers: OFFERS,
    arcs: ARCS,
    persons: PERSONS,
    baskets: b"",
    needs: b"",
};

/// 600 g are 60 steps of 10 g; 1000 persons get 600 g on 30 days, 18,000 kg.
const LINES: [Line; 5] = [
    Line(
        Quantity::Ration {
            basket: 0,
            commodity: 0,
            month: 1,
        },
        0,
        60,
    ),
    Line(Quantity::Short { need: 0, month: 1 }, 0, 0),
    Line(Quantity::Buy { offer: 0, month: 1 }, 0, 20_000),
    Line(
        Quantity::Ship {
            arc: 0,
            commodity: 0,
            month: 1,
        },
        0,
        20_000,
    ),
    Line(
        Quantity::Feed {
            place: 1,
            commodity: 0,
            month: 1,
        },
        0,
        18_000,
    ),
];

#[test]
fn one_month_has_five_quantities(rt: HostRuntime) -> Result<(), Fail> {
    let layout = layout_of(rt.alloc(), &NETWORK)?;
    assert!(rt; has_lines(&layout, &LINES));
    assert_eq!(rt; layout.rations(), 1);
    Ok(())
}

#[test]
fn what_does_not_exist_has_no_number(rt: HostRuntime) -> Result<(), Fail> {
    let layout = layout_of(rt.alloc(), &NETWORK)?;
    // Nothing can be kept at P.
    let keep = Quantity::Keep {
        place: 1,
        commodity: 0,
        month: 1,
    };
    assert_eq!(rt; layout.index(&keep), None);
    // S feeds nobody.
    let feed = Quantity::Feed {
        place: 0,
        commodity: 0,
        month: 1,
    };
    assert_eq!(rt; layout.index(&feed), None);
    // There is no second month.
    assert_eq!(rt; layout.index(&Quantity::Buy { offer: 0, month: 2 }), None);
    Ok(())
}
