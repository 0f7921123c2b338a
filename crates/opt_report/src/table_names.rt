//! The names of a model's records, and what they make of a record of a plan file.
ghost use Rattle.std.specs.Prelude.{◌≡◌, IfOk};
ghost use Rattle.opt_report.specs.Subjects.{AreNamesOf, ration_in, short_in, named_subject_in, subject_in};

use crate::names::Names;
use crate::plan_record::PlanRecord;
use crate::plan_subject::{QuantityKind, Subject};
use opt_base::{OutOfMemory, Refusal};
use opt_model::has_baskets;
use opt_tables::Tables;
use std::alloc::Global;

/// The names of the records of each table that a plan file names.
#[derive(Debug, Drop)]
pub struct TableNames<'a> {
    baskets: Names<'a>,
    commodities: Names<'a>,
    nutrients: Names<'a>,
    offers: Names<'a>,
    arcs: Names<'a>,
    places: Names<'a>,
}

impl<'a> TableNames<'a> {
    /// The names of a model's records.
    pub fn of(alloc: Global, tables: &'a Tables) -> Result<TableNames<'a>, OutOfMemory>
        ensures { IfOk result (AreNamesOf tables.now) }
    {
        let _settings = tables.settings();
        Ok(TableNames {
            baskets: Names::of(alloc, tables.baskets())?,
            commodities: Names::of(alloc, tables.commodities())?,
            nutrients: Names::of(alloc, tables.nutrients())?,
            offers: Names::of(alloc, tables.offers())?,
            arcs: Names::of(alloc, tables.arcs())?,
            places: Names::of(alloc, tables.places())?,
        })
    }
}

/// The ration that the second and the third column name; from format 2 on they name its basket.
fn ration_in(
    tables: &Tables,
    names: &TableNames<'_>,
    row: &PlanRecord<'_>,
) -> Result<Subject, Refusal>
    requires { AreNamesOf tables.now names.now }
    ensures { result ≡ ration_in tables.now row.now }
{
    if has_baskets(tables.settings().format()) {
        let (basket, commodity) = row.both_named(&names.baskets, &names.commodities)?;
        Ok(Subject::Ration { basket, commodity })
    } else {
        let commodity = row.one_named(&names.commodities)?;
        Ok(Subject::Ration {
            basket: 0,
            commodity,
        })
    }
}

/// The shortfall that the second and the third column name; from format 2 on they name its basket.
fn short_in(
    tables: &Tables,
    names: &TableNames<'_>,
    row: &PlanRecord<'_>,
) -> Result<Subject, Refusal>
    requires { AreNamesOf tables.now names.now }
    ensures { result ≡ short_in tables.now row.now }
{
    if has_baskets(tables.settings().format()) {
        let (basket, nutrient) = row.both_named(&names.baskets, &names.nutrients)?;
        Ok(Subject::Short { basket, nutrient })
    } else {
        let nutrient = row.one_named(&names.nutrients)?;
        Ok(Subject::Short {
            basket: 0,
            nutrient,
        })
    }
}

/// What the second and the third column name, by the kind of quantity.
fn named_subject_in(
    tables: &Tables,
    names: &TableNames<'_>,
    row: &PlanRecord<'_>,
    kind: QuantityKind,
) -> Result<Subject, Refusal>
    requires { AreNamesOf tables.now names.now }
    ensures { result ≡ named_subject_in tables.now row.now kind }
{
    match kind {
        QuantityKind::Ration => ration_in(tables, names, row),
        QuantityKind::Short => short_in(tables, names, row),
        QuantityKind::Buy => {
            let offer = row.one_named(&names.offers)?;
            Ok(Subject::Buy { offer })
        }
        QuantityKind::Ship => {
            let (arc, commodity) = row.both_named(&names.arcs, &names.commodities)?;
            Ok(Subject::Ship { arc, commodity })
        }
        QuantityKind::Keep => {
            let (place, commodity) = row.both_named(&names.places, &names.commodities)?;
            Ok(Subject::Keep { place, commodity })
        }
        QuantityKind::Feed => {
            let (place, commodity) = row.both_named(&names.places, &names.commodities)?;
            Ok(Subject::Feed { place, commodity })
        }
        QuantityKind::Order => {
            let offer = row.one_named(&names.offers)?;
            Ok(Subject::Order { offer })
        }
    }
}

/// What a record of a plan file is about.
pub fn subject_in(
    tables: &Tables,
    names: &TableNames<'_>,
    row: &PlanRecord<'_>,
) -> Result<Subject, Refusal>
    requires { AreNamesOf tables.now names.now }
    ensures { result ≡ subject_in tables.now row.now }
{
    let kind = row.kind(tables.settings().format())?;
    named_subject_in(tables, names, row, kind)
}
