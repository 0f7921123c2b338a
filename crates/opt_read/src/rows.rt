ghost use Rattle.std.specs.Prelude.{◌≡◌, [], IfOk, map, slice_index_or};
ghost use Rattle.csv.specs.Reading.{default_config, error_kind, records, strip_bom};
ghost use Rattle.csv.specs.Records.{fields_of};
ghost use Rattle.opt_read.specs.Grid.{without_blanks};
ghost use Rattle.opt_read.specs.Rows.{NextRecord, StopsAnyReader};

use crate::blanks::strip;
use csv::{ByteRecord, Error, ErrorKind, Reader, ReaderBuilder};
use opt_base::OutOfMemory;
use std::alloc::{AllocError, Global};
use std::marker::Model;

/// The records of a text that are still to be read. Contracts see a list of them, each a list of its fields' bytes;
/// there are none once memory was wanting.
#[derive(Drop)]
pub(crate) struct Rows<'a> {
    reader: Reader<&'a [u8]>,
    is_over: bool,
}

impl<'a> Model for Rows<'a> {
    ghost use Rattle.std.specs.Prelude.{◌≡◌, List, ℕ, [], false, if◌then◌else◌};
    ghost use Rattle.csv.specs.Reading.{reader_state};
    ghost use Rattle.opt_read.specs.Rows.{IsBetween, records_left, unread};

    ghost Value = { List (List (List ℕ)) };

    ghost view = { λ rows. if rows.is_over then [] else records_left (reader_state rows.reader) (unread rows.reader) };

    ghost invariant = { λ rows. rows.is_over ≡ false → IsBetween rows.reader };
}

impl<'a> Rows<'a> {
    /// Every record of a text, the first one too.
    pub(crate) fn new(alloc: Global, text: &'a str) -> Rows<'a>
        ensures { result ≡ records default_config (strip_bom text.now) }
    {
        let reader = ReaderBuilder::new()
            .has_headers(false)
            .flexible(true)
            .from_reader(alloc, text.as_bytes());
        Rows {
            reader,
            is_over: false,
        }
    }

    /// Reads the next record into `row`, and answers whether there is one.
    pub(crate) fn next(&mut self, row: &mut ByteRecord) -> Result<bool, OutOfMemory>
        ensures { IfOk result (λ there. NextRecord there self.old (fields_of row.new) self.new) }
    {
        if self.is_over {
            return Ok(false);
        }
        match self.reader.read_byte_record(row) {
            Ok(true) => Ok(true),
            Ok(false) => {
                self.is_over = true;
                Ok(false)
            }
            Err(error) => {
                self.is_over = true;
                Err(want_of_memory(error))
            }
        }
    }
}

/// What stopped a reader that takes records of any length. A slice of bytes is read without fault, so it is memory.
fn want_of_memory(error: Error) -> OutOfMemory
    requires { StopsAnyReader (error_kind error) }
{
    match error.into_kind() {
        ErrorKind::Io(_) | ErrorKind::OutOfMemory => OutOfMemory,
        ErrorKind::Utf8 { .. }
        | ErrorKind::UnequalLengths { .. }
        | ErrorKind::Serialize(_)
        | ErrorKind::Deserialize { .. } => unreachable!(),
    }
}

/// The field of a record in a column, numbered from 0, stripped; empty where there is none.
pub(crate) fn stripped_field(row: &ByteRecord, column: usize) -> &[u8]
    ensures { result.now ≡ slice_index_or (map without_blanks (fields_of row.now)) column [] }
{
    match row.get(column) {
        Some(field) => strip(field),
        None => &[],
    }
}

/// All fields of a record, stripped.
pub(crate) fn stripped_fields<'a>(
    alloc: Global,
    row: &'a ByteRecord,
) -> Result<Vec<&'a [u8]>, AllocError>
    ensures { IfOk result (λ fields. map (λ field. field.now) fields.items ≡ map without_blanks (fields_of row.now)) }
{
    let mut fields = Vec::new(alloc);
    for column in 0..row.len() {
        fields.push(stripped_field(row, column))?;
    }
    Ok(fields)
}
