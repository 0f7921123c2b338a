//! The plan file of a point.
ghost use Rattle.std.specs.Prelude.{◌≡◌, ◌++◌, [], ◌∷◌, true, pos, ◌^◌, string_bytes, IfOk, OnOk, Ok};
ghost use Rattle.std.specs.Fmt.{decimal, signed_decimal};
ghost use Rattle.csv.specs.Writing.{row_text, default_writer};
ghost use Rattle.opt_model.specs.Plans.{plan_of};
ghost use Rattle.opt_model.specs.Quantities.{quantities};
ghost use Rattle.opt_model.specs.Texts.{plan_text};
ghost use Rattle.opt_network.specs.Numbering.{IsLayoutOf, has_quantity};
ghost use Rattle.opt_rows.specs.Systems.{root_of};
ghost use Rattle.opt_system.specs.Ranges.{IsWithin};
ghost use Rattle.opt_tables.specs.Facts.{IsFrom};
ghost use Rattle.opt_report.specs.PlanFiles.{record_of, plan_values};
ghost use Rattle.opt_report.specs.Words.{fields_of};

use crate::record_text::add_record;
use crate::units::amount_of;
use crate::words::{Words, month_of, words_of};
use opt_base::{Blob, OutOfMemory, Point};
use opt_model::Quantity;
use opt_network::Layout;
use opt_tables::Tables;
use std::alloc::Global;

/// The digits of a month.
fn month_text(alloc: Global, month: u32) -> Result<String, OutOfMemory>
    ensures { IfOk result (λ text. string_bytes text ≡ decimal month) }
{
    Ok(month.to_string(alloc)?)
}

/// The digits of an amount.
fn amount_text(alloc: Global, amount: &i64) -> Result<String, OutOfMemory>
    ensures { IfOk result (λ text. string_bytes text ≡ signed_decimal amount.now) }
{
    Ok(amount.to_string(alloc)?)
}

/// Adds the record of an amount in a month, after these words.
fn add_amount(
    alloc: Global,
    text: &mut Vec<u8>,
    words: &Words<'_>,
    month: u32,
    amount: &i64,
) -> Result<(), OutOfMemory>
    ensures { OnOk result (text.new.items ≡ text.old.items
        ++ row_text default_writer
        (fields_of words.now ++ decimal month ∷ signed_decimal amount.now ∷ [])) }
{
    let month = month_text(alloc, month)?;
    let amount = amount_text(alloc, amount)?;
    add_record(
        alloc,
        text,
        &[
            words.kind.as_bytes(),
            words.name.as_bytes(),
            words.item.as_bytes(),
            month.as_bytes(),
            amount.as_bytes(),
        ],
    )
}

/// Adds the record of a quantity, unless its value is 0.
fn add_quantity(
    alloc: Global,
    text: &mut Vec<u8>,
    tables: &Tables,
    quantity: Quantity,
    value: &i64,
) -> Result<(), OutOfMemory>
    requires exists { has_quantity tables.now quantity ≡ true }
    requires small { IsFrom (pos 0) (pos (2 ^ 40)) value.now }
    ensures { OnOk result (text.new.items
        ≡ text.old.items ++ record_of tables.now quantity value.now) }
{
    if *value == 0 {
        return Ok(());
    }
    let words = words_of(tables, quantity);
    let amount = amount_of(tables, quantity, value);
    add_amount(alloc, text, &words, month_of(quantity), &amount)
}

/// The names of the columns, then a record for each quantity whose value is not 0, by number.
fn text_of(
    alloc: Global,
    tables: &Tables,
    layout: &Layout,
    point: &Point,
) -> Result<Blob, OutOfMemory>
    requires layout { IsLayoutOf tables.now layout.now }
    requires within { IsWithin (root_of tables.now) point.now }
    ensures { IfOk result (λ text. text
        ≡ plan_text tables.now (plan_of (quantities tables.now) point.now)) }
{
    let values = point.as_slice();
    let mut text = Vec::new(alloc);
    add_record(
        alloc,
        &mut text,
        &[b"quantity", b"name", b"commodity", b"month", b"amount"],
    )?;
    for i in 0..layout.len() {
        add_quantity(
            alloc,
            &mut text,
            tables,
            layout.quantity(i),
            &values[i as usize],
        )?;
    }
    Blob::from_slice(alloc, &text)
}

/// The plan file of a point, which has one value for each quantity, within its range: the names of the columns, then a
/// record for each quantity whose value is not 0, by number.
///
/// `read_plan` gives the point again.
pub fn plan_text(
    alloc: Global,
    tables: &Tables,
    layout: &Layout,
    point: &Point,
) -> Result<Blob, OutOfMemory>
    requires layout { IsLayoutOf tables.now layout.now }
    requires within { IsWithin (root_of tables.now) point.now }
    ensures text { IfOk result (λ text. text
        ≡ plan_text tables.now (plan_of (quantities tables.now) point.now)) }
    ensures back { IfOk result (λ text. plan_values tables.now text ≡ Ok point.now) }
{
    let _settings = tables.settings();
    text_of(alloc, tables, layout, point)
}
