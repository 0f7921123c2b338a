//! What a plan file calls a quantity.
ghost use Rattle.std.specs.Prelude.{◌≡◌, ℕ};
ghost use Rattle.opt_model.specs.Texts.{words_of, month_of};
ghost use Rattle.opt_model.specs.declared.quantity.Quantity.TheVariants.{Ration, Short};
ghost use Rattle.opt_report.specs.Words.{fields_of, need_basket_name, need_nutrient_name};

use opt_model::{Quantity, has_baskets};
use opt_rows::{arc_name, basket_name, commodity_name, nutrient_name, offer_name, place_name};
use opt_tables::Tables;

/// The first fields of a quantity's record in a plan file.
#[derive(Clone, Copy, Debug)]
pub struct Words<'a> {
    /// The kind of quantity.
    pub kind: &'a str,
    /// The name of its basket, commodity, nutrient, offer, arc or place.
    pub name: &'a str,
    /// The name of its commodity, or of the nutrient that a basket needs; empty where there is none.
    pub item: &'a str,
}

/// The name of the basket of the need of this number, or nothing where there is none.
fn need_basket_name(tables: &Tables, number: u32) -> &str
    ensures { result.now ≡ need_basket_name tables.now number }
{
    match tables.needs().get(number as usize) {
        Some(need) => basket_name(tables, need.basket),
        None => "",
    }
}

/// The name of the nutrient of the need of this number, or nothing where there is none.
pub fn need_nutrient_name(tables: &Tables, number: u32) -> &str
    ensures { result.now ≡ need_nutrient_name tables.now number }
{
    match tables.needs().get(number as usize) {
        Some(need) => nutrient_name(tables, need.nutrient),
        None => "",
    }
}

/// What a plan file calls a ration. Its basket is named from format 2 on.
fn ration_words(tables: &Tables, basket: u32, commodity: u32) -> Words<'_>
    ensures { (month : ℕ) → fields_of result ≡ words_of tables.now (Ration basket commodity month) }
{
    let commodity = commodity_name(tables, commodity);
    if has_baskets(tables.settings().format()) {
        Words {
            kind: "ration",
            name: basket_name(tables, basket),
            item: commodity,
        }
    } else {
        Words {
            kind: "ration",
            name: commodity,
            item: "",
        }
    }
}

/// What a plan file calls a shortfall. Its basket is named from format 2 on.
fn short_words(tables: &Tables, need: u32) -> Words<'_>
    ensures { (month : ℕ) → fields_of result ≡ words_of tables.now (Short need month) }
{
    let nutrient = need_nutrient_name(tables, need);
    if has_baskets(tables.settings().format()) {
        Words {
            kind: "short",
            name: need_basket_name(tables, need),
            item: nutrient,
        }
    } else {
        Words {
            kind: "short",
            name: nutrient,
            item: "",
        }
    }
}

/// What a plan file calls a quantity.
pub fn words_of(tables: &Tables, quantity: Quantity) -> Words<'_>
    ensures { fields_of result ≡ words_of tables.now quantity }
{
    match quantity {
        Quantity::Ration {
            basket,
            commodity,
            ..
        } => ration_words(tables, basket, commodity),
        Quantity::Short { need, .. } => short_words(tables, need),
        Quantity::Buy { offer, .. } => Words {
            kind: "buy",
            name: offer_name(tables, offer),
            item: "",
        },
        Quantity::Ship { arc, commodity, .. } => Words {
            kind: "ship",
            name: arc_name(tables, arc),
            item: commodity_name(tables, commodity),
        },
        Quantity::Keep {
            place,
            commodity,
            ..
        } => Words {
            kind: "keep",
            name: place_name(tables, place),
            item: commodity_name(tables, commodity),
        },
        Quantity::Feed {
            place,
            commodity,
            ..
        } => Words {
            kind: "feed",
            name: place_name(tables, place),
            item: commodity_name(tables, commodity),
        },
        Quantity::Order { offer, .. } => Words {
            kind: "order",
            name: offer_name(tables, offer),
            item: "",
        },
    }
}

/// The month of a quantity.
pub fn month_of(quantity: Quantity) -> u32
    ensures { result ≡ month_of quantity }
{
    match quantity {
        Quantity::Ration { month, .. }
        | Quantity::Short { month, .. }
        | Quantity::Buy { month, .. }
        | Quantity::Ship { month, .. }
        | Quantity::Keep { month, .. }
        | Quantity::Feed { month, .. }
        | Quantity::Order { month, .. } => month,
    }
}
