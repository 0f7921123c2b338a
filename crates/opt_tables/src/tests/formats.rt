use super::{CONTENTS, Held, OFFERS, PLACES, fault_of, refusal, tables_of};
use opt_base::{File, Kind, ModelFault};
use std::alloc::{AllocError, Global};
use std::test::Fail;

pub const SECOND: &[u8] =
    b"format = 2\nmonths = 2\ndays = [30, 31]\ngoal = \"cost\"\ngap = 0\nnodes = 1000\n";

pub const THIRD: &[u8] =
    b"format = 3\nmonths = 2\ndays = [30, 31]\ngoal = \"cost\"\ngap = 0\nnodes = 1000\n";

const LOTS: &[u8] =
    b"offer,place,commodity,price,max_kg,first,last,fee,least\no1,S,rice,450,20000,1,1,1000000000000,18000\n";

/// Rice at S, eaten at P by two baskets.
pub const FOLDER: [Held<'static>; 9] = [
    Held(File::Settings, SECOND),
    Held(
        File::Commodities,
        b"commodity,group,min_g,max_g,step_g\nrice,,0,600,10\n",
    ),
    Held(File::Nutrients, b"nutrient\nenergy\nprotein\n"),
    Held(File::Contents, CONTENTS),
    Held(File::Places, PLACES),
    Held(
        File::Persons,
        b"place,month,persons,basket\nP,1,600,A\nP,1,400,B\nP,2,7,B\n",
    ),
    Held(
        File::Stock,
        b"place,commodity,month,kg\nP,rice,2,5\nS,rice,1,9\n",
    ),
    Held(File::Baskets, b"basket\nA\nB\n"),
    Held(
        File::Needs,
        b"basket,nutrient,required,max_short,weight\nA,energy,2100,0,1\nB,energy,1800,0,2\n",
    ),
];

/// Why the folder is refused with this table.
fn fault(alloc: Global, file: File, text: &[u8]) -> Option<ModelFault> {
    fault_of(alloc, &FOLDER, &[Held(file, text)])
}

#[test]
fn reads_two_baskets(rt: HostRuntime) -> Result<(), Fail> {
    let tables = tables_of(rt.alloc(), &FOLDER, &[])?;
    assert_eq!(rt; tables.baskets().len(), 2);
    assert_eq!(rt; tables.nutrients().len(), 2);
    assert_eq!(rt; tables.needs().len(), 2);
    assert_eq!(rt; tables.needs().get(1).map(|need| need.basket), Some(1));
    assert_eq!(rt; tables.needs().get(1).map(|need| need.required), Some(1800));
    assert_eq!(rt; tables.needs().get(1).map(|need| need.weight), Some(2));
    Ok(())
}

/// Place 1 is P, basket 0 is A; food stands at S in month 1 and at P in month 2.
#[test]
fn finds_persons_and_stock(rt: HostRuntime) -> Result<(), Fail> {
    let tables = tables_of(rt.alloc(), &FOLDER, &[])?;
    assert_eq!(rt; tables.heads_at(1, 0, 1), 600);
    assert_eq!(rt; tables.heads_at(1, 1, 1), 400);
    assert_eq!(rt; tables.heads_at(1, 1, 2), 7);
    assert_eq!(rt; tables.heads_at(1, 0, 2), 0);
    assert_eq!(rt; tables.stock_at(1, 0, 2), 5);
    assert_eq!(rt; tables.stock_at(0, 0, 1), 9);
    assert_eq!(rt; tables.stock_at(1, 0, 1), 0);
    Ok(())
}

#[test]
fn columns_go_by_the_format(rt: HostRuntime) {
    let alloc = rt.alloc();
    // The needs of format 1 are further columns here.
    let wide = b"nutrient,required,max_short,weight\nenergy,2100,0,x\n".as_slice();
    assert_eq!(rt; fault(alloc, File::Nutrients, wide), None);
    let first = Held(
        File::Settings,
        b"format = 1\nmonths = 2\ndays = [30, 31]\ngoal = \"cost\"\ngap = 0\nnodes = 1000\n",
    );
    let required = refusal(File::Nutrients, 0, 2, Kind::ColumnMissing);
    assert_eq!(rt; fault_of(alloc, &FOLDER, &[first]), required);
    // Fees and least lots are of format 3 alone.
    assert_eq!(rt; fault(alloc, File::Offers, OFFERS), None);
    let third = Held(File::Settings, THIRD);
    let offers = Held(File::Offers, OFFERS);
    let fee = refusal(File::Offers, 0, 8, Kind::ColumnMissing);
    assert_eq!(rt; fault_of(alloc, &FOLDER, &[third, offers]), fee);
    let basket = refusal(File::Persons, 0, 4, Kind::ColumnMissing);
    assert_eq!(rt;
        fault(alloc, File::Persons, b"place,month,persons\nP,1,1\n"),
        basket
    );
}

#[test]
fn offers_have_lots(rt: HostRuntime) -> Result<(), Fail> {
    let alloc = rt.alloc();
    let third = Held(File::Settings, THIRD);
    let lots = Held(File::Offers, LOTS);
    let tables = tables_of(alloc, &FOLDER, &[third, lots])?;
    assert_eq!(rt;
        tables.offers().first().map(|offer| offer.fee),
        Some(1_000_000_000_000)
    );
    assert_eq!(rt;
        tables.offers().first().map(|offer| offer.least),
        Some(18_000)
    );
    // In format 2 the same file says nothing of them.
    let tables = tables_of(alloc, &FOLDER, &[lots])?;
    assert_eq!(rt; tables.offers().first().map(|offer| offer.fee), Some(0));
    assert_eq!(rt; tables.offers().first().map(|offer| offer.least), Some(0));
    let high = Held(
        File::Offers,
        b"offer,place,commodity,price,max_kg,first,last,fee,least\no1,S,rice,450,20000,1,1,1000000000001,0\n",
    );
    let range = refusal(File::Offers, 1, 8, Kind::OutOfRange);
    assert_eq!(rt; fault_of(alloc, &FOLDER, &[third, high]), range);
    assert_eq!(rt; fault_of(alloc, &FOLDER, &[high]), None);
    Ok(())
}

/// A table of so many baskets.
fn baskets(alloc: Global, count: u32) -> Result<String, AllocError> {
    let mut text = "basket\nA\nB\n".to_string(alloc)?;
    for number in 2..count {
        let record = format!(in alloc; "b{number}\n")?;
        text.push_str(record.as_str())?;
    }
    Ok(text)
}

#[test]
fn there_are_1_to_16_baskets(rt: HostRuntime) -> Result<(), Fail> {
    let alloc = rt.alloc();
    let most = baskets(alloc, 16)?;
    assert_eq!(rt; fault(alloc, File::Baskets, most.as_bytes()), None);
    let more = baskets(alloc, 17)?;
    let many = refusal(File::Baskets, 0, 0, Kind::TooMany(17));
    assert_eq!(rt; fault(alloc, File::Baskets, more.as_bytes()), many);
    // Also where a need is wrong.
    let wrong = Held(
        File::Needs,
        b"basket,nutrient,required,max_short,weight\nA,energy,x,0,1\n",
    );
    let held = Held(File::Baskets, more.as_bytes());
    assert_eq!(rt; fault_of(alloc, &FOLDER, &[wrong, held]), many);
    let none = refusal(File::Baskets, 0, 0, Kind::EmptyTable);
    assert_eq!(rt; fault(alloc, File::Baskets, b"basket\n"), none);
    assert_eq!(rt; fault(alloc, File::Baskets, b""), none);
    Ok(())
}

#[test]
fn needs_and_persons_name_baskets(rt: HostRuntime) {
    let alloc = rt.alloc();
    let unknown = b"basket,nutrient,required,max_short,weight\nC,fat,1,0,1\n".as_slice();
    let basket = refusal(File::Needs, 1, 1, Kind::UnknownName);
    assert_eq!(rt; fault(alloc, File::Needs, unknown), basket);
    let fat = b"basket,nutrient,required,max_short,weight\nA,fat,1,0,1\n".as_slice();
    let nutrient = refusal(File::Needs, 1, 2, Kind::UnknownName);
    assert_eq!(rt; fault(alloc, File::Needs, fat), nutrient);
    let twice =
        b"basket,nutrient,required,max_short,weight\nA,energy,1,0,1\nA,energy,2,0,1\n".as_slice();
    let key = refusal(File::Needs, 2, 0, Kind::Duplicate);
    assert_eq!(rt; fault(alloc, File::Needs, twice), key);
    let persons = b"place,month,persons,basket\nP,1,6,A\nP,1,4,C\n".as_slice();
    let name = refusal(File::Persons, 2, 4, Kind::UnknownName);
    assert_eq!(rt; fault(alloc, File::Persons, persons), name);
    let again = b"place,month,persons,basket\nP,1,6,A\nP,01,4,A\n".as_slice();
    let same = refusal(File::Persons, 2, 0, Kind::Duplicate);
    assert_eq!(rt; fault(alloc, File::Persons, again), same);
}
