ghost use Rattle.std.specs.Prelude.{◌≡◌};
ghost use Rattle.opt_model.specs.RowTexts.{basket_name, nutrient_name, group_name, place_name, commodity_name, arc_name, offer_name};

use opt_tables::Tables;

/// The name of the basket of this number, or nothing where there is none.
pub fn basket_name(tables: &Tables, number: u32) -> &str
    ensures { result.now ≡ basket_name tables.now number }
{
    match tables.baskets().get(number as usize) {
        Some(record) => record.basket.as_str(),
        None => "",
    }
}

/// The name of the nutrient of this number, or nothing where there is none.
pub fn nutrient_name(tables: &Tables, number: u32) -> &str
    ensures { result.now ≡ nutrient_name tables.now number }
{
    match tables.nutrients().get(number as usize) {
        Some(record) => record.nutrient.as_str(),
        None => "",
    }
}

/// The name of the group of this number, or nothing where there is none.
pub fn group_name(tables: &Tables, number: u32) -> &str
    ensures { result.now ≡ group_name tables.now number }
{
    match tables.groups().get(number as usize) {
        Some(record) => record.group.as_str(),
        None => "",
    }
}

/// The name of the place of this number, or nothing where there is none.
pub fn place_name(tables: &Tables, number: u32) -> &str
    ensures { result.now ≡ place_name tables.now number }
{
    match tables.places().get(number as usize) {
        Some(record) => record.place.as_str(),
        None => "",
    }
}

/// The name of the commodity of this number, or nothing where there is none.
pub fn commodity_name(tables: &Tables, number: u32) -> &str
    ensures { result.now ≡ commodity_name tables.now number }
{
    match tables.commodities().get(number as usize) {
        Some(record) => record.commodity.as_str(),
        None => "",
    }
}

/// The name of the arc of this number, or nothing where there is none.
pub fn arc_name(tables: &Tables, number: u32) -> &str
    ensures { result.now ≡ arc_name tables.now number }
{
    match tables.arcs().get(number as usize) {
        Some(record) => record.arc.as_str(),
        None => "",
    }
}

/// The name of the offer of this number, or nothing where there is none.
pub fn offer_name(tables: &Tables, number: u32) -> &str
    ensures { result.now ≡ offer_name tables.now number }
{
    match tables.offers().get(number as usize) {
        Some(record) => record.offer.as_str(),
        None => "",
    }
}
