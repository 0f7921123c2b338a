//! Records of comma-separated fields.
ghost use Rattle.std.specs.Prelude.{◌≡◌, ◌++◌, map, IfOk, OnOk};
ghost use Rattle.csv.specs.Writing.{row_text, default_writer};

use csv::{Error, WriterBuilder};
use opt_base::OutOfMemory;
use std::alloc::Global;

/// The text of one record.
fn record_text(alloc: Global, fields: &[&[u8]]) -> Result<Vec<u8>, Error>
    ensures { IfOk result (λ text. text.items
        ≡ row_text default_writer (map (λ field. field.now) fields.now)) }
{
    let mut writer = WriterBuilder::new().from_writer(Vec::new(alloc));
    writer.write_fields(fields)?;
    match writer.into_inner() {
        Ok(text) => Ok(text),
        Err(error) => Err(error.into_error()),
    }
}

/// Adds a record to a text. Nothing but memory can be wanting, since the text lies there.
pub fn add_record(alloc: Global, text: &mut Vec<u8>, fields: &[&[u8]]) -> Result<(), OutOfMemory>
    ensures { OnOk result (text.new.items ≡ text.old.items
        ++ row_text default_writer (map (λ field. field.now) fields.now)) }
{
    match record_text(alloc, fields) {
        Ok(record) => Ok(text.extend_from_slice(&record)?),
        Err(_) => Err(OutOfMemory),
    }
}
