ghost use Rattle.opt_base.specs.Answers.{Gives};
ghost use Rattle.std.specs.Prelude.{◌≡◌, ◌<◌, ◌≤◌, ◌^◌, ◌++◌, [], IfOk, OnOk, count_by, drop, length, map, position, slice_index_or};
ghost use Rattle.std.specs.Str.{bytes_eq};
ghost use Rattle.csv.specs.Records.{AllText, fields_of};
ghost use Rattle.opt_model.specs.Columns.{names_of};
ghost use Rattle.opt_read.specs.Grid.{even_table, fields_at, first_fields, grid_of, place_of, places_of, text_table_of, without_blanks};

use crate::cells::Cells;
use crate::field_list::FieldList;
use crate::reading::text;
use crate::rows::{Rows, stripped_field, stripped_fields};
use csv::ByteRecord;
use opt_base::{File, Kind, ModelFault, OutOfMemory, Refusal};
use std::alloc::{AllocError, Global};
use std::str;

/// The table that a file's bytes are, in the columns whose names `columns` holds, parted by commas: at most 255
/// names. The first record names the table's columns, and spaces and tabs round a field do not count.
///
/// Refused are, in this order, a file that is not UTF-8; for each column in the order given, a name that the first
/// record lacks or has twice; and the first record whose number of fields is not that of the first.
#[tactic(auto, unfolding(crate::specs::Grid::grid_of))]
pub fn grid(alloc: Global, file: File, bytes: &[u8], columns: &str) -> Result<Cells, ModelFault>
    requires bytes { length bytes.now < 2 ^ 32 }
    requires columns { length (names_of columns.now) ≤ 255 }
    ensures { Gives (λ cells. cells) result (grid_of file bytes.now columns.now) }
{
    let text = text(file, bytes)?;
    text_table(alloc, file, text, columns)
}

/// The table that a text is.
fn text_table(alloc: Global, file: File, text: &str, columns: &str) -> Result<Cells, ModelFault>
    requires text { length text.now < 2 ^ 32 }
    requires columns { length (names_of columns.now) ≤ 255 }
    ensures { Gives (λ cells. cells) result (text_table_of file text.now columns.now) }
{
    let names = names(alloc, columns)?;
    let mut rows = Rows::new(alloc, text);
    let header = read_header(alloc, file, &mut rows, &names)?;
    read_body(alloc, file, &mut rows, header.width, &header.places)
}

/// How many fields the first record has, and the place there of each column that was asked for.
#[derive(Drop)]
struct Header {
    width: usize,
    places: Vec<usize>,
}

/// Reads the first record, which names the columns. No record has no fields.
fn read_header(
    alloc: Global,
    file: File,
    rows: &mut Rows<'_>,
    names: &[&str],
) -> Result<Header, ModelFault>
    requires { length names.now ≤ 255 }
    ensures gives { Gives (λ h. h.places.items) result (places_of file (first_fields rows.old) (map (λ n. n.now) names.now)) }
    ensures width { IfOk result (λ header. header.width ≡ length (slice_index_or rows.old 0 [])) }
    ensures rows { OnOk result (rows.new ≡ drop 1 rows.old) }
{
    let mut row = ByteRecord::new(alloc);
    if rows.next(&mut row)? {
        let fields = stripped_fields(alloc, &row)?;
        let places = places(alloc, file, &fields, names)?;
        Ok(Header {
            width: fields.len(),
            places,
        })
    } else {
        let places = places(alloc, file, &[], names)?;
        Ok(Header { width: 0, places })
    }
}

/// Reads the other records, each of which must have as many fields as the first.
fn read_body(
    alloc: Global,
    file: File,
    rows: &mut Rows<'_>,
    width: usize,
    places: &[usize],
) -> Result<Cells, ModelFault>
    requires rows { length rows.old < 2 ^ 32 }
    requires places { length places.now ≤ 255 }
    ensures { Gives (λ cells. cells) result (even_table file width (map (map without_blanks) rows.old) places.now) }
{
    let mut fields = FieldList::new(alloc);
    let mut count = 0;
    let mut row = ByteRecord::new(alloc);
    while rows.next(&mut row)? {
        count += 1;
        if row.len() != width {
            return Err(ModelFault::Refused(Refusal::of_record(file, count, Kind::Uneven)));
        }
        add_fields(&mut fields, &row, places)?;
    }
    Ok(Cells::new(fields, count, places.len()))
}

/// Adds the fields of a record of text at these places, stripped.
fn add_fields(fields: &mut FieldList, row: &ByteRecord, places: &[usize]) -> Result<(), OutOfMemory>
    requires { AllText (fields_of row.now) }
    ensures { OnOk result (fields.new ≡ fields.old ++ fields_at places.now (fields_of row.now)) }
{
    for place in places {
        fields.push(text_field(row, *place))?;
    }
    Ok(())
}

/// The field of a record of text at a place, stripped; empty where there is none.
fn text_field(row: &ByteRecord, place: usize) -> &str
    requires { AllText (fields_of row.now) }
    ensures { result.now ≡ slice_index_or (map without_blanks (fields_of row.now)) place [] }
{
    match str::from_utf8(stripped_field(row, place)) {
        Ok(field) => field,
        Err(_) => unreachable!(),
    }
}

/// The names that stand between commas.
fn names<'a>(alloc: Global, columns: &'a str) -> Result<Vec<&'a str>, AllocError>
    ensures { IfOk result (λ names. map (λ name. name.now) names.items ≡ names_of columns.now) }
{
    columns.split(',').collect(alloc)
}

/// The place in the first record of each of these names, which are numbered from 1.
fn places(
    alloc: Global,
    file: File,
    header: &[&[u8]],
    names: &[&str],
) -> Result<Vec<usize>, ModelFault>
    requires { length names.now ≤ 255 }
    ensures { Gives (λ ps. ps.items) result (places_of file (map (λ f. f.now) header.now) (map (λ n. n.now) names.now)) }
{
    let mut places = Vec::new(alloc);
    for (index, name) in names.iter().enumerate() {
        places.push(place(file, header, index as u8 + 1, name)?)?;
    }
    Ok(places)
}

/// The place of the one field of the first record that is this name.
fn place(file: File, header: &[&[u8]], column: u8, name: &str) -> Result<usize, ModelFault>
    ensures { Gives (λ place. place) result (place_of file (map (λ field. field.now) header.now) column name.now) }
{
    let name = name.as_bytes();
    match first_place(header, name) {
        None => Err(ModelFault::Refused(Refusal::at(file, 0, column, Kind::ColumnMissing))),
        Some(place) => {
            if times(header, name) == 1 {
                Ok(place)
            } else {
                Err(ModelFault::Refused(Refusal::at(file, 0, column, Kind::ColumnTwice)))
            }
        }
    }
}

/// The first place where a name stands.
fn first_place(header: &[&[u8]], name: &[u8]) -> Option<usize>
    ensures { result ≡ position (λ field. bytes_eq field.now name.now) header.now }
{
    header.iter().position(|field| *field == name)
}

/// How often a name stands there.
fn times(header: &[&[u8]], name: &[u8]) -> usize
    ensures { result ≡ count_by (λ field. bytes_eq field.now name.now) header.now }
{
    header.iter().filter(|field| **field == name).count()
}
