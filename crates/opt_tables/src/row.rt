ghost use Rattle.std.specs.Prelude.{◌≡◌, ◌^◌, ◌≤◌, IfOk, IsTrue, MatchOption};
ghost use Rattle.std.specs.Char.{is_ascii_digit};
ghost use Rattle.std.specs.List.{list_all};
ghost use Rattle.std.specs.Str.Parse.{digits_value};
ghost use Rattle.opt_base.specs.Answers.{Reads};
ghost use Rattle.opt_tables.specs.Records.{row_of, refused_at, text_in, reference_in, optional_reference_in, optional_name_in, name_in, is_number, number_in, optional_number_in, kind_named, kind_in};

use crate::keys::Keys;
use opt_base::{File, Kind, Refusal};
use opt_model::PlaceKind;
use opt_read::Cells;
use std::marker::Model;

/// The most bytes that a name may have.
pub const NAME_LIMIT: usize = 64;

/// A record of a table. Its columns are numbered from 1.
#[derive(Drop)]
pub struct Row<'a> {
    cells: &'a Cells,
    file: File,
    number: u32,
}

impl<'a> Model for Row<'a> {
    ghost use Rattle.opt_read.specs.Grid.{record_at};
    ghost use Rattle.opt_tables.specs.Records.{Record};

    ghost Value = { Record };

    ghost view = { λ row. record {
      file = row.file;
      number = row.number;
      fields = record_at row.cells.now row.number;
    } };
}

impl<'a> Row<'a> {
    /// The record of this number, from 1, in a table.
    pub fn new(cells: &'a Cells, file: File, number: u32) -> Row<'a>
        ensures { result ≡ row_of file cells.now number }
    {
        Row {
            cells,
            file,
            number,
        }
    }

    /// The refusal of this record for what stands in a column, or for the record as a whole, 0.
    pub fn refused(&self, column: u8, kind: Kind) -> Refusal
        ensures { result ≡ refused_at self.now column kind }
    {
        Refusal::at(self.file, self.number, column, kind)
    }

    /// What stands in a column.
    pub fn text(&self, column: u8) -> &'a str
        ensures { result.now ≡ text_in self.now column }
    {
        self.cells
            .field(self.number, (column as usize).saturating_sub(1))
    }

    /// A name that may be missing.
    pub fn optional_name(&self, column: u8) -> Result<&'a str, Refusal>
        ensures { Reads (λ name. name.now) result (optional_name_in self.now column) }
    {
        let text = self.text(column);
        if text.len() > NAME_LIMIT {
            return Err(self.refused(column, Kind::NameTooLong));
        }
        Ok(text)
    }

    /// A name, of at least one byte.
    pub fn name(&self, column: u8) -> Result<&'a str, Refusal>
        ensures { Reads (λ name. name.now) result (name_in self.now column) }
    {
        if self.text(column).is_empty() {
            return Err(self.refused(column, Kind::EmptyName));
        }
        self.optional_name(column)
    }

    /// A number from `low` to `high`.
    pub fn number(&self, column: u8, low: u32, high: u32) -> Result<u32, Refusal>
        ensures exact { result ≡ number_in self.now column low high }
        ensures within { IfOk result (λ number. (low ≤ number) × (number ≤ high)) }
    {
        let number = self.long_number(column, u64::from(low), u64::from(high))?;
        Ok(number as u32)
    }

    /// The same of a number that may pass 32 bits.
    pub fn long_number(&self, column: u8, low: u64, high: u64) -> Result<u64, Refusal>
        ensures exact { result ≡ number_in self.now column low high }
        ensures within { IfOk result (λ number. (low ≤ number) × (number ≤ high)) }
    {
        let text = self.text(column);
        if !is_number(text) {
            return Err(self.refused(column, Kind::BadNumber));
        }
        let Some(number) = digits(text) else {
            return Err(self.refused(column, Kind::OutOfRange));
        };
        if number < low || high < number {
            return Err(self.refused(column, Kind::OutOfRange));
        }
        Ok(number)
    }

    /// The same of a column that may be empty.
    pub fn optional_number(&self, column: u8, low: u32, high: u32) -> Result<Option<u32>, Refusal>
        ensures { result ≡ optional_number_in self.now column low high }
    {
        if self.text(column).is_empty() {
            return Ok(None);
        }
        let number = self.number(column, low, high)?;
        Ok(Some(number))
    }

    /// The kind of place that a column names.
    pub fn place_kind(&self, column: u8) -> Result<PlaceKind, Refusal>
        ensures { result ≡ kind_in self.now column }
    {
        kind_named(self.text(column)).ok_or(self.refused(column, Kind::UnknownName))
    }

    /// The number of the record that a column names, from 0, among the keys of a table.
    pub fn reference(&self, column: u8, keys: &Keys<'_>) -> Result<u32, Refusal>
        ensures { result ≡ reference_in self.now column keys.now }
    {
        keys.find(self.text(column))
            .ok_or(self.refused(column, Kind::UnknownName))
    }

    /// The same of a column that may be empty.
    pub fn optional_reference(&self, column: u8, keys: &Keys<'_>) -> Result<Option<u32>, Refusal>
        ensures { result ≡ optional_reference_in self.now column keys.now }
    {
        if self.text(column).is_empty() {
            return Ok(None);
        }
        let number = self.reference(column, keys)?;
        Ok(Some(number))
    }
}

/// The kind of place that a word names.
fn kind_named(word: &str) -> Option<PlaceKind>
    ensures { result ≡ kind_named word.now }
{
    match word {
        "supplier" => Some(PlaceKind::Supplier),
        "port" => Some(PlaceKind::Port),
        "hub" => Some(PlaceKind::Hub),
        "point" => Some(PlaceKind::Point),
        _ => None,
    }
}

/// Whether a text is one or more digits.
fn is_number(text: &str) -> bool
    ensures { result ≡ is_number text.now }
{
    !text.is_empty() && are_digits(text.as_bytes())
}

/// Whether each byte is a digit.
fn are_digits(bytes: &[u8]) -> bool
    ensures { result ≡ list_all is_ascii_digit bytes.now }
{
    bytes.iter().all(|byte| byte.is_ascii_digit())
}

/// The number that digits stand for, where it has at most 64 bits.
fn digits(text: &str) -> Option<u64>
    requires { IsTrue (is_number text.now) }
    ensures { MatchOption result
        (2 ^ 64 ≤ digits_value 10 text.now) (λ number. number ≡ digits_value 10 text.now) }
{
    text.parse::<u64>().ok()
}
