//! A record of a plan file, and what stands in its columns.
ghost use Rattle.std.specs.Prelude.{◌≡◌, ◌≤◌, IfOk, pos};
ghost use Rattle.std.specs.Option.{ok_or};
ghost use Rattle.opt_base.specs.Answers.{Reads};
ghost use Rattle.opt_base.specs.declared.refusal.File.TheVariants.{Plan};
ghost use Rattle.opt_base.specs.declared.refusal.Kind.TheVariants.{UnknownName};
ghost use Rattle.opt_model.specs.declared.limits.TheConstants.{RATION_LIMIT};
ghost use Rattle.opt_tables.specs.Facts.{IsFrom};
ghost use Rattle.opt_tables.specs.Records.{row_of, refused_at, text_in, name_in, number_in};
ghost use Rattle.opt_network.specs.Numbering.{IsSpan};
ghost use Rattle.opt_report.specs.Subjects.{named_in, both_named_in, one_named_in, kind_named, order_kind};
ghost use Rattle.opt_report.specs.PlanFiles.{units_in, value_in};

use crate::digits::{digits, is_number, remainder};
use crate::names::Names;
use crate::plan_subject::QuantityKind;
use crate::spans::Span;
use opt_base::{File, Kind, Refusal};
use opt_model::has_lots;
use opt_read::Cells;
use opt_tables::NAME_LIMIT;
use std::marker::Model;

/// A record of a plan file. Its columns are numbered from 1.
#[derive(Drop)]
pub struct PlanRecord<'a> {
    cells: &'a Cells,
    number: u32,
}

impl<'a> Model for PlanRecord<'a> {
    ghost use Rattle.opt_base.specs.declared.refusal.File.TheVariants.{Plan};
    ghost use Rattle.opt_tables.specs.Records.{Record, row_of};

    ghost Value = { Record };

    ghost view = { λ row. row_of Plan row.cells.now row.number };
}

impl<'a> PlanRecord<'a> {
    /// The record of this number, from 1.
    pub fn new(cells: &'a Cells, number: u32) -> PlanRecord<'a>
        ensures { result ≡ row_of Plan cells.now number }
    {
        PlanRecord { cells, number }
    }

    /// The refusal of this record for what stands in a column, or for the record as a whole, 0.
    pub fn refused(&self, column: u8, kind: Kind) -> Refusal
        ensures { result ≡ refused_at self.now column kind }
    {
        Refusal::at(File::Plan, self.number, column, kind)
    }

    /// What stands in a column.
    pub fn text(&self, column: u8) -> &'a str
        ensures { result.now ≡ text_in self.now column }
    {
        self.cells
            .field(self.number, (column as usize).saturating_sub(1))
    }

    /// A name, of 1 to 64 bytes.
    fn name(&self, column: u8) -> Result<&'a str, Refusal>
        ensures { Reads (λ name. name.now) result (name_in self.now column) }
    {
        let text = self.text(column);
        if text.is_empty() {
            return Err(self.refused(column, Kind::EmptyName));
        }
        if text.len() > NAME_LIMIT {
            return Err(self.refused(column, Kind::NameTooLong));
        }
        Ok(text)
    }

    /// The number of the record that a column names, from 0, among these names.
    fn named(&self, column: u8, names: &Names<'_>) -> Result<u32, Refusal>
        ensures { result ≡ named_in self.now column names.now }
    {
        let name = self.name(column)?;
        names
            .find(name)
            .ok_or(self.refused(column, Kind::UnknownName))
    }

    /// The numbers of the records that the second and the third column name.
    pub fn both_named(&self, names: &Names<'_>, items: &Names<'_>) -> Result<(u32, u32), Refusal>
        ensures { result ≡ both_named_in self.now names.now items.now }
    {
        let first = self.named(2, names)?;
        let second = self.named(3, items)?;
        Ok((first, second))
    }

    /// The number of the record that the second column names, where nothing stands in the third.
    pub fn one_named(&self, names: &Names<'_>) -> Result<u32, Refusal>
        ensures { result ≡ one_named_in self.now names.now }
    {
        let number = self.named(2, names)?;
        if !self.text(3).is_empty() {
            return Err(self.refused(3, Kind::UnknownName));
        }
        Ok(number)
    }

    /// The kind of quantity that the first column names under a format.
    pub fn kind(&self, format: u32) -> Result<QuantityKind, Refusal>
        ensures { result ≡ ok_or (kind_named format (text_in self.now 1))
            (refused_at self.now 1 UnknownName) }
    {
        kind_named(format, self.text(1)).ok_or(self.refused(1, Kind::UnknownName))
    }

    /// The month in the fourth column, from 1 to the last.
    pub fn month(&self, last: u32) -> Result<u32, Refusal>
        ensures exact { result ≡ number_in self.now 4 1 last }
        ensures within { IfOk result (λ month. (1 ≤ month) × (month ≤ last)) }
    {
        let text = self.text(4);
        if !is_number(text) {
            return Err(self.refused(4, Kind::BadNumber));
        }
        let Some(month) = digits(text) else {
            return Err(self.refused(4, Kind::OutOfRange));
        };
        if month < 1 || u64::from(last) < month {
            return Err(self.refused(4, Kind::OutOfRange));
        }
        Ok(month as u32)
    }

    /// The value that the amount in the fifth column stands for: so many units, within a span.
    pub fn value(&self, unit: u32, span: &Span) -> Result<i64, Refusal>
        requires unit { (1 ≤ unit) × (unit ≤ RATION_LIMIT) }
        requires span { IsSpan span.now.low span.now.high }
        ensures exact { result ≡ value_in self.now (pos unit) span.now.low span.now.high }
        ensures within { IfOk result (IsFrom span.now.low span.now.high) }
    {
        let text = self.text(5);
        if !is_number(text) {
            return Err(self.refused(5, Kind::BadNumber));
        }
        if remainder(text, unit) != 0 {
            return Err(self.refused(5, Kind::NoStepInRange));
        }
        let Some(amount) = digits(text) else {
            return Err(self.refused(5, Kind::OutOfRange));
        };
        self.units(amount / u64::from(unit), span)
    }

    /// So many units, within a span.
    fn units(&self, units: u64, span: &Span) -> Result<i64, Refusal>
        requires { IsSpan span.now.low span.now.high }
        ensures exact { result ≡ units_in self.now units span.now.low span.now.high }
        ensures within { IfOk result (IsFrom span.now.low span.now.high) }
    {
        let units = i128::from(units);
        if units < i128::from(span.low) || i128::from(span.high) < units {
            return Err(self.refused(5, Kind::OutOfRange));
        }
        Ok(units as i64)
    }
}

/// The kind of quantity that a word names under a format.
fn kind_named(format: u32, word: &str) -> Option<QuantityKind>
    ensures { result ≡ kind_named format word.now }
{
    match word {
        "ration" => Some(QuantityKind::Ration),
        "short" => Some(QuantityKind::Short),
        "buy" => Some(QuantityKind::Buy),
        "ship" => Some(QuantityKind::Ship),
        "keep" => Some(QuantityKind::Keep),
        "feed" => Some(QuantityKind::Feed),
        "order" => order_kind(format),
        _ => None,
    }
}

/// Orders, in a format that has them; they came with format 3.
fn order_kind(format: u32) -> Option<QuantityKind>
    ensures { result ≡ order_kind format }
{
    if has_lots(format) {
        Some(QuantityKind::Order)
    } else {
        None
    }
}
