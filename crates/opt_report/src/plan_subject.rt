//! What a record of a plan file is about.
ghost use Rattle.std.specs.Prelude.{◌≡◌, position};
ghost use Rattle.opt_report.specs.Subjects.{is_need, need_of, quantity_of};

use opt_model::{Need, Quantity};
use opt_tables::Tables;

/// The kinds of quantities that a plan file lists.
#[derive(Clone, Copy, Debug, PartialEq, Eq)]
pub enum QuantityKind {
    Ration,
    Short,
    Buy,
    Ship,
    Keep,
    Feed,
    Order,
}

/// A quantity but for its month. Its fields are numbers of records.
#[derive(Clone, Copy, Debug, PartialEq, Eq)]
pub enum Subject {
    Ration { basket: u32, commodity: u32 },
    Short { basket: u32, nutrient: u32 },
    Buy { offer: u32 },
    Ship { arc: u32, commodity: u32 },
    Keep { place: u32, commodity: u32 },
    Feed { place: u32, commodity: u32 },
    Order { offer: u32 },
}

/// Where the need of a basket for a nutrient stands among needs.
fn need_among(needs: &[Need], basket: u32, nutrient: u32) -> Option<usize>
    ensures { result ≡ position (is_need basket nutrient) needs.now }
{
    needs
        .iter()
        .position(|need| need.basket == basket && need.nutrient == nutrient)
}

/// The number of the need of a basket for a nutrient, if there is one.
fn need_of(tables: &Tables, basket: u32, nutrient: u32) -> Option<u32>
    ensures { result ≡ need_of tables.now basket nutrient }
{
    let _settings = tables.settings();
    let number = need_among(tables.needs(), basket, nutrient)?;
    Some(number as u32)
}

/// The quantity of a subject in a month; none where a basket has no need for a nutrient.
pub fn quantity_of(tables: &Tables, subject: Subject, month: u32) -> Option<Quantity>
    ensures { result ≡ quantity_of tables.now subject month }
{
    match subject {
        Subject::Ration { basket, commodity } => Some(Quantity::Ration {
            basket,
            commodity,
            month,
        }),
        Subject::Short { basket, nutrient } => {
            let need = need_of(tables, basket, nutrient)?;
            Some(Quantity::Short { need, month })
        }
        Subject::Buy { offer } => Some(Quantity::Buy { offer, month }),
        Subject::Ship { arc, commodity } => Some(Quantity::Ship {
            arc,
            commodity,
            month,
        }),
        Subject::Keep { place, commodity } => Some(Quantity::Keep {
            place,
            commodity,
            month,
        }),
        Subject::Feed { place, commodity } => Some(Quantity::Feed {
            place,
            commodity,
            month,
        }),
        Subject::Order { offer } => Some(Quantity::Order { offer, month }),
    }
}
