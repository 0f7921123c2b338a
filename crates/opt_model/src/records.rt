use crate::name::Name;

/// What the objective is.
#[derive(Clone, Copy, Debug, PartialEq, Eq)]
pub enum Goal {
    /// The cost of the plan, in mills.
    Cost,
    /// The weighted shortfall of nutrients.
    Shortfall,
}

/// What a place is for.
#[derive(Clone, Copy, Debug, PartialEq, Eq)]
pub enum PlaceKind {
    /// Offers stand here; nothing arrives here.
    Supplier,
    /// Food passes through here.
    Port,
    /// Food is kept here.
    Hub,
    /// Food is handed out here.
    Point,
}

/// Something to eat. Its ration is a multiple of `step_g`, in grams per person and day.
#[derive(Debug, Drop)]
pub struct Commodity {
    pub commodity: Name,
    /// The number of its group's record.
    pub group: Option<u32>,
    /// The least ration, 0 to 2000 grams per person and day.
    pub min_g: i64,
    /// The greatest ration, 0 to 2000 grams per person and day.
    pub max_g: i64,
    /// The step of the ration, 1 to 2000 grams.
    pub step_g: i64,
}

/// Commodities whose rations are limited together.
#[derive(Debug, Drop)]
pub struct Group {
    pub group: Name,
    /// The least sum of rations, 0 to 10^6 grams per person and day.
    pub min_g: i64,
    /// The greatest sum of rations, 0 to 10^6 grams per person and day.
    pub max_g: i64,
}

/// A nutrient, in units of its own.
#[derive(Debug, Drop)]
pub struct Nutrient {
    pub nutrient: Name,
}

/// How much of a nutrient 100 g of a commodity hold.
#[derive(Clone, Copy, Debug, PartialEq, Eq)]
pub struct Content {
    /// The number of the commodity's record.
    pub commodity: u32,
    /// The number of the nutrient's record.
    pub nutrient: u32,
    /// 0 to 10^6 units per 100 g.
    pub per_100g: i64,
}

/// A place of the network.
#[derive(Debug, Drop)]
pub struct Place {
    pub place: Name,
    pub kind: PlaceKind,
    /// What can be kept from month to month, 0 to 10^9 kilograms.
    pub storage: i64,
    /// What can arrive in a month, 0 to 10^9 kilograms; none: no limit.
    pub throughput: Option<i64>,
    /// The cost of what arrives, 0 to 10^6 mills per kilogram.
    pub handling: i64,
    /// The cost of what is kept at a month's end, 0 to 10^6 mills per kilogram.
    pub storage_cost: i64,
}

/// What a supplier sells.
#[derive(Debug, Drop)]
pub struct Offer {
    pub offer: Name,
    /// The number of the supplier's record.
    pub place: u32,
    /// The number of the commodity's record.
    pub commodity: u32,
    /// 0 to 10^6 mills per kilogram.
    pub price: i64,
    /// 0 to 10^9 kilograms per month.
    pub max_kg: i64,
    /// The first month, 1 to 36.
    pub first: u32,
    /// The last month, 1 to 36.
    pub last: u32,
    /// 0 to 10^12 mills per month in which something is ordered.
    pub fee: i64,
    /// The least lot, 0 to 10^9 kilograms per month in which something is ordered.
    pub least: i64,
}

/// A way from a place to another.
#[derive(Debug, Drop)]
pub struct Arc {
    pub arc: Name,
    /// The number of the record of the place where it starts.
    pub from_place: u32,
    /// The number of the record of the place where it ends.
    pub to_place: u32,
    /// 0 to 10^6 mills per kilogram.
    pub cost: i64,
    /// 0 to 10^9 kilograms per month.
    pub capacity: i64,
    /// The lead time, 0 to 12 months from departure to arrival.
    pub lead: u32,
}

/// How many persons of a basket a point feeds in a month.
#[derive(Clone, Copy, Debug, PartialEq, Eq)]
pub struct Persons {
    /// The number of the point's record.
    pub place: u32,
    /// The month, from 1.
    pub month: u32,
    /// 0 to 10^7 persons.
    pub persons: i64,
    /// The number of the basket's record.
    pub basket: u32,
}

/// Food that is at a place at the start of a month and was not there before.
#[derive(Clone, Copy, Debug, PartialEq, Eq)]
pub struct Stock {
    /// The number of the place's record.
    pub place: u32,
    /// The number of the commodity's record.
    pub commodity: u32,
    /// The month, from 1.
    pub month: u32,
    /// 0 to 10^9 kilograms.
    pub kg: i64,
}

/// A kind of beneficiary with needs and rations of its own.
#[derive(Debug, Drop)]
pub struct Basket {
    pub basket: Name,
}

/// How much of a nutrient a basket must give, per person and day.
#[derive(Clone, Copy, Debug, PartialEq, Eq)]
pub struct Need {
    /// The number of the basket's record.
    pub basket: u32,
    /// The number of the nutrient's record.
    pub nutrient: u32,
    /// 0 to 10^9 units per person and day.
    pub required: i64,
    /// The greatest shortfall, 0 to 10^9 units per person and day.
    pub max_short: i64,
    /// What a unit of shortfall weighs, 0 to 10^6.
    pub weight: i64,
}
