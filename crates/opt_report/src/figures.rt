//! The kilograms of a commodity at a place in a month.
ghost use Rattle.std.specs.Prelude.{◌≡◌, ◌^◌, pos};
ghost use Rattle.opt_model.specs.Plans.{sum_of};
ghost use Rattle.opt_model.specs.Rows.{bought_terms, arrived_terms, sent_terms};
ghost use Rattle.opt_tables.specs.Facts.{IsFrom};
ghost use Rattle.opt_report.specs.PointPlans.{plan_with};
ghost use Rattle.opt_report.specs.Sites.{figures_of, are_zero, offer_terms, arriving_terms, leaving_terms};

use crate::point_plan::PointPlan;
use opt_model::{Arc, Offer, Quantity};
use opt_tables::Tables;

/// A commodity at a place in a month.
#[derive(Clone, Copy, Debug, PartialEq, Eq)]
pub struct Site {
    pub month: u32,
    pub place: u32,
    pub commodity: u32,
}

/// What happens to a commodity at a place in a month, in kilograms.
#[derive(Clone, Copy, Debug, PartialEq, Eq)]
pub struct Figures {
    /// What is there at the month's start and was not there before.
    pub stock: i64,
    /// What is bought.
    pub bought: i128,
    /// What arrives.
    pub arrived: i128,
    /// What is shipped out.
    pub sent: i128,
    /// What is kept at the month's end.
    pub kept: i64,
    /// What is handed out.
    pub handed_out: i64,
}

impl Figures {
    /// The figures of a site.
    pub fn of(tables: &Tables, plan: &PointPlan<'_>, site: Site) -> Figures
        ensures { result ≡ figures_of tables.now (plan_with plan.now) site.place site.commodity site.month }
    {
        let Site {
            month,
            place,
            commodity,
        } = site;
        Figures {
            stock: tables.stock_at(place, commodity, month),
            bought: bought(tables, plan, site),
            arrived: arrived(tables, plan, site),
            sent: sent(tables, plan, site),
            kept: plan.value(Quantity::Keep {
                place,
                commodity,
                month,
            }),
            handed_out: plan.value(Quantity::Feed {
                place,
                commodity,
                month,
            }),
        }
    }

    /// Whether each figure is 0.
    pub fn are_zero(&self) -> bool
        ensures { result ≡ are_zero self.now }
    {
        self.stock == 0
            && self.bought == 0
            && self.arrived == 0
            && self.sent == 0
            && self.kept == 0
            && self.handed_out == 0
    }
}

/// What is bought of an offer at a site; 0 where it stands elsewhere.
fn bought_of(plan: &PointPlan<'_>, number: u32, offer: &Offer, site: Site) -> i64
    ensures value { result ≡ sum_of
        (offer_terms site.place site.commodity site.month number offer.now) (plan_with plan.now) }
    ensures small { IsFrom (pos 0) (pos (2 ^ 40)) result }
{
    if offer.place != site.place || offer.commodity != site.commodity {
        return 0;
    }
    plan.value(Quantity::Buy {
        offer: number,
        month: site.month,
    })
}

/// What is bought at a site.
fn bought(tables: &Tables, plan: &PointPlan<'_>, site: Site) -> i128
    ensures { result ≡ sum_of
        (bought_terms tables.now site.place site.commodity site.month) (plan_with plan.now) }
{
    let _settings = tables.settings();
    let mut sum = 0i128;
    for number in 0..tables.offers().len() {
        let offer = &tables.offers()[number];
        sum += i128::from(bought_of(plan, number as u32, offer, site));
    }
    sum
}

/// What arrives on an arc at a site; 0 where it ends elsewhere, or where what left would have left before the first month.
fn arrived_of(plan: &PointPlan<'_>, number: u32, arc: &Arc, site: Site) -> i64
    ensures value { result ≡ sum_of
        (arriving_terms site.place site.commodity site.month number arc.now) (plan_with plan.now) }
    ensures small { IsFrom (pos 0) (pos (2 ^ 40)) result }
{
    if arc.to_place != site.place || site.month <= arc.lead {
        return 0;
    }
    plan.value(Quantity::Ship {
        arc: number,
        commodity: site.commodity,
        month: site.month - arc.lead,
    })
}

/// What arrives at a site.
fn arrived(tables: &Tables, plan: &PointPlan<'_>, site: Site) -> i128
    ensures { result ≡ sum_of
        (arrived_terms tables.now site.place site.commodity site.month) (plan_with plan.now) }
{
    let _settings = tables.settings();
    let mut sum = 0i128;
    for number in 0..tables.arcs().len() {
        let arc = &tables.arcs()[number];
        sum += i128::from(arrived_of(plan, number as u32, arc, site));
    }
    sum
}

/// What leaves on an arc from a site; 0 where it starts elsewhere.
fn sent_of(plan: &PointPlan<'_>, number: u32, arc: &Arc, site: Site) -> i64
    ensures value { result ≡ sum_of
        (leaving_terms site.place site.commodity site.month number arc.now) (plan_with plan.now) }
    ensures small { IsFrom (pos 0) (pos (2 ^ 40)) result }
{
    if arc.from_place != site.place {
        return 0;
    }
    plan.value(Quantity::Ship {
        arc: number,
        commodity: site.commodity,
        month: site.month,
    })
}

/// What leaves from a site.
fn sent(tables: &Tables, plan: &PointPlan<'_>, site: Site) -> i128
    ensures { result ≡ sum_of
        (sent_terms tables.now site.place site.commodity site.month) (plan_with plan.now) }
{
    let _settings = tables.settings();
    let mut sum = 0i128;
    for number in 0..tables.arcs().len() {
        let arc = &tables.arcs()[number];
        sum += i128::from(sent_of(plan, number as u32, arc, site));
    }
    sum
}
