//! What an audit prints.
ghost use Rattle.std.specs.Prelude.{◌≡◌, ◌<◌, ◌++◌, ◌^◌, length, All, IfOk, OnOk, string_bytes};
ghost use Rattle.opt_model.specs.Rows.{rows};
ghost use Rattle.opt_report.specs.Audits.{broken_line, audit_text};

use crate::broken::Broken;
use opt_base::OutOfMemory;
use opt_rows::{row_name, row_text};
use opt_tables::Tables;
use std::alloc::Global;

/// Adds the line of a broken row.
fn add_line(
    alloc: Global,
    text: &mut String,
    tables: &Tables,
    row: &(u32, i128),
) -> Result<(), OutOfMemory>
    requires { row.now.0 < length (rows tables.now) }
    ensures { OnOk result (string_bytes text.new
        ≡ string_bytes text.old ++ broken_line tables.now row.now) }
{
    let (number, amount) = *row;
    let name = row_text(alloc, tables, row_name(tables, number))?;
    let line = format!(in alloc; "broken {name} by {amount}\n")?;
    Ok(text.push_str(&line)?)
}

/// What an audit prints: a line for each broken row of the model, with the row's name and the distance of its sum from
/// its right-hand side, and a last line with their count.
pub fn audit_text(alloc: Global, tables: &Tables, broken: &Broken) -> Result<String, OutOfMemory>
    requires { All (λ row. row.0 < length (rows tables.now)) broken.now }
    ensures { IfOk result (λ text. string_bytes text ≡ audit_text tables.now broken.now) }
{
    let mut text = String::new(alloc);
    for row in broken.as_slice() {
        add_line(alloc, &mut text, tables, row)?;
    }
    let count = broken.as_slice().len();
    let last = format!(in alloc; "audit {count} broken\n")?;
    text.push_str(&last)?;
    Ok(text)
}
