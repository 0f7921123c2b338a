/// A number that a plan decides. Its fields are numbers of records, and months from 1.
#[derive(Clone, Copy, Debug, PartialEq, Eq, Hash)]
pub enum Quantity {
    /// The ration of a commodity in a basket, in steps.
    Ration {
        basket: u32,
        commodity: u32,
        month: u32,
    },
    /// The shortfall of a need, in units per person and day.
    Short {
        need: u32,
        month: u32,
    },
    /// What is bought of an offer, in kilograms.
    Buy {
        offer: u32,
        month: u32,
    },
    /// What leaves on an arc, in kilograms.
    Ship {
        arc: u32,
        commodity: u32,
        month: u32,
    },
    /// What is kept at a month's end, in kilograms.
    Keep {
        place: u32,
        commodity: u32,
        month: u32,
    },
    /// What is handed out, in kilograms.
    Feed {
        place: u32,
        commodity: u32,
        month: u32,
    },
    /// Whether an offer with a fee or a least lot is used, 0 or 1.
    Order {
        offer: u32,
        month: u32,
    },
}

/// The name of a row. Its fields are numbers of records, and months from 1.
#[derive(Clone, Copy, Debug, PartialEq, Eq)]
pub enum RowName {
    Nutrient {
        basket: u32,
        nutrient: u32,
        month: u32,
    },
    GroupLow {
        basket: u32,
        group: u32,
        month: u32,
    },
    GroupHigh {
        basket: u32,
        group: u32,
        month: u32,
    },
    HandoutLow {
        place: u32,
        commodity: u32,
        month: u32,
    },
    HandoutHigh {
        place: u32,
        commodity: u32,
        month: u32,
    },
    Balance {
        place: u32,
        commodity: u32,
        month: u32,
    },
    Arc {
        arc: u32,
        month: u32,
    },
    Storage {
        place: u32,
        month: u32,
    },
    Throughput {
        place: u32,
        month: u32,
    },
    Budget,
    LotLow {
        offer: u32,
        month: u32,
    },
    LotHigh {
        offer: u32,
        month: u32,
    },
}
