/// The last format of a folder; the first is 1.
pub const LAST_FORMAT: u32 = 3;

/// The most baskets that a model may have.
pub const BASKET_LIMIT: usize = 16;

/// The most months that a model may have, and the last month of an offer.
pub const MONTH_LIMIT: u32 = 36;

/// The greatest ration, in grams per person and day.
pub const RATION_LIMIT: u32 = 2_000;

/// The greatest sum of the rations of a group, in grams per person and day.
pub const GROUP_LIMIT: u32 = 1_000_000;

/// The most of a nutrient in 100 g of a commodity, in the nutrient's units.
pub const CONTENT_LIMIT: u32 = 1_000_000;

/// The greatest need and the greatest shortfall of a nutrient, in its units per person and day.
pub const NEED_LIMIT: u32 = 1_000_000_000;

/// The greatest weight of a unit of shortfall.
pub const WEIGHT_LIMIT: u32 = 1_000_000;

/// The most kilograms of an offer, an arc, a storage, a throughput, a lot or a stock.
pub const KILOGRAM_LIMIT: u32 = 1_000_000_000;

/// The greatest price, in mills per kilogram: of food, of a way, of handling or of storage.
pub const PRICE_LIMIT: u32 = 1_000_000;

/// The longest lead time, in months.
pub const LEAD_LIMIT: u32 = 12;

/// The most persons of a basket at a point in a month.
pub const PERSON_LIMIT: u32 = 10_000_000;
