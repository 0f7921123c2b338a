use super::network::{ARCS, COMMODITIES, CONTENTS, OFFERS, PLACES};
use super::{Folder, Line, has_lines, layout_of};
use crate::Quantity;
use std::test::Fail;

/// The network with two baskets.
const BASKETS: Folder<'static> = Folder {
    settings: b"format = 2\nmonths = 1\ndays = [30]\ngoal = \"cost\"\ngap = 0\nnodes = 1000\n",
    commodities: COMMODITIES,
    nutrients: b"nutrient\nenergy\n",
    contents: CONTENTS,
    places: PLACES,
    offers: OFFERS,
    arcs: ARCS,
    persons: b"place,month,persons,basket\nP,1,600,A\nP,1,400,B\n",
    baskets: b"basket\nA\nB\n",
    needs: b"basket,nutrient,required,max_short,weight\nA,energy,2100,0,1\nB,energy,1800,7,1\n",
};

const HUB: &[u8] = b"place,kind,storage,throughput,handling,storage_cost\nS,supplier,0,,0,0\n\
    H,hub,500,,0,0\nP,point,0,,0,0\n";

const OFFERS_WITH_LOTS: &[u8] = b"offer,place,commodity,price,max_kg,first,last,fee,least\n\
    o1,S,rice,450,20000,1,1,0,18000\no2,S,rice,400,9000,2,36,0,0\n";

/// Rice that is bought at S, moved to H, kept there, moved to P and eaten there by two baskets, in month 2 alone.
const LOTS: Folder<'static> = Folder {
    settings: b"format = 3\nmonths = 2\ndays = [30, 31]\ngoal = \"cost\"\ngap = 0\nnodes = 1000\n",
    commodities: b"commodity,group,min_g,max_g,step_g\nrice,,15,609,10\n",
    nutrients: b"nutrient\nenergy\n",
    contents: CONTENTS,
    places: HUB,
    offers: OFFERS_WITH_LOTS,
    arcs: b"arc,from,to,cost,capacity,lead\na1,S,H,50,8000,1\na2,H,P,10,7000,0\n",
    persons: b"place,month,persons,basket\nP,1,0,A\nP,2,600,A\nP,2,400,B\n",
    baskets: b"basket\nA\nB\n",
    needs: b"basket,nutrient,required,max_short,weight\nA,energy,2100,5,1\n",
};

fn ration(basket: u32, month: u32) -> Quantity {
    Quantity::Ration {
        basket,
        commodity: 0,
        month,
    }
}

fn ship(arc: u32, month: u32) -> Quantity {
    Quantity::Ship {
        arc,
        commodity: 0,
        month,
    }
}

fn keep(place: u32, month: u32) -> Quantity {
    Quantity::Keep {
        place,
        commodity: 0,
        month,
    }
}

fn feed(place: u32, month: u32) -> Quantity {
    Quantity::Feed {
        place,
        commodity: 0,
        month,
    }
}

#[test]
fn each_basket_has_its_rations(rt: HostRuntime) -> Result<(), Fail> {
    let layout = layout_of(rt.alloc(), &BASKETS)?;
    let lines = [
        Line(ration(0, 1), 0, 60),
        Line(ration(1, 1), 0, 60),
        Line(Quantity::Short { need: 0, month: 1 }, 0, 0),
        Line(Quantity::Short { need: 1, month: 1 }, 0, 7),
        Line(Quantity::Buy { offer: 0, month: 1 }, 0, 20_000),
        Line(ship(0, 1), 0, 20_000),
        Line(feed(1, 1), 0, 18_000),
    ];
    assert!(rt; has_lines(&layout, &lines));
    assert_eq!(rt; layout.rations(), 2);
    Ok(())
}

/// 15 g are 2 steps rounded up and 609 g 60 steps rounded down; 1000 persons get 600 g on 31 days, 18,600 kg. What
/// leaves on the first arc in month 2 does not arrive within the plan.
#[test]
fn lots_have_orders(rt: HostRuntime) -> Result<(), Fail> {
    let layout = layout_of(rt.alloc(), &LOTS)?;
    let lines = [
        Line(ration(0, 1), 2, 60),
        Line(ration(0, 2), 2, 60),
        Line(ration(1, 1), 2, 60),
        Line(ration(1, 2), 2, 60),
        Line(Quantity::Short { need: 0, month: 1 }, 0, 5),
        Line(Quantity::Short { need: 0, month: 2 }, 0, 5),
        Line(Quantity::Buy { offer: 0, month: 1 }, 0, 20_000),
        Line(Quantity::Buy { offer: 1, month: 2 }, 0, 9000),
        Line(ship(0, 1), 0, 8000),
        Line(ship(1, 1), 0, 7000),
        Line(ship(1, 2), 0, 7000),
        Line(keep(1, 1), 0, 500),
        Line(keep(1, 2), 0, 500),
        Line(feed(2, 2), 0, 18_600),
        Line(Quantity::Order { offer: 0, month: 1 }, 0, 1),
    ];
    assert!(rt; has_lines(&layout, &lines));
    assert_eq!(rt; layout.rations(), 4);
    assert_eq!(rt; layout.index(&Quantity::Order { offer: 1, month: 2 }), None);
    assert_eq!(rt; layout.index(&feed(2, 1)), None);
    Ok(())
}
