//! The words of a line that is written, added one by one to the end of a text.

ghost use Rattle.std.specs.Prelude.{◌≡◌, ◌∷◌, length, map};
ghost use Rattle.std.specs.Fmt.{decimal, signed_decimal};
ghost use Rattle.opt_tree.specs.Certificates.{entries_of};
ghost use Rattle.opt_cert.specs.Texts.{entry_text, entries_words, multipliers_words};
ghost use Rattle.opt_cert.specs.Writing.{Adds, spaced};

use itoa::Buffer;
use opt_bound::Mult;
use std::alloc::AllocError;

/// Adds this word.
pub(crate) fn add_word(text: &mut Vec<u8>, word: &str) -> Result<(), AllocError>
    ensures { Adds result text.old.items word.now text.new.items }
{
    text.extend_from_slice(word.as_bytes())
}

/// Adds this number.
fn add_digits(text: &mut Vec<u8>, number: usize) -> Result<(), AllocError>
    ensures { Adds result text.old.items (decimal number) text.new.items }
{
    let mut buffer = Buffer::new();
    text.extend_from_slice(buffer.format(number).as_bytes())
}

/// Adds this number, which has a sign where it is below 0.
fn add_value(text: &mut Vec<u8>, value: &i64) -> Result<(), AllocError>
    ensures { Adds result text.old.items (signed_decimal value.now) text.new.items }
{
    let mut buffer = Buffer::new();
    text.extend_from_slice(buffer.format(*value).as_bytes())
}

/// Adds a space and this number.
pub(crate) fn add_number(text: &mut Vec<u8>, number: usize) -> Result<(), AllocError>
    ensures { Adds result text.old.items (32 ∷ decimal number) text.new.items }
{
    text.push(b' ')?;
    add_digits(text, number)
}

/// Adds a space and this number, which has a sign where it is below 0.
pub(crate) fn add_signed(text: &mut Vec<u8>, value: &i64) -> Result<(), AllocError>
    ensures { Adds result text.old.items (32 ∷ signed_decimal value.now) text.new.items }
{
    text.push(b' ')?;
    add_value(text, value)
}

/// Adds a space and the entry of this number with this value.
fn add_entry(text: &mut Vec<u8>, number: usize, value: &i64) -> Result<(), AllocError>
    ensures { Adds result text.old.items (32 ∷ entry_text (number, value.now)) text.new.items }
{
    add_number(text, number)?;
    text.push(b':')?;
    add_value(text, value)
}

/// Adds these entries, each after a space.
fn add_entries(text: &mut Vec<u8>, entries: &[(u32, i64)]) -> Result<(), AllocError>
    ensures { Adds result text.old.items (spaced (map entry_text entries.now)) text.new.items }
{
    for entry in entries {
        add_entry(text, entry.0 as usize, &entry.1)?;
    }
    Ok(())
}

/// Adds the words of multipliers: that of the objective, how many rows have one, and those.
pub(crate) fn add_multipliers(text: &mut Vec<u8>, mult: &Mult) -> Result<(), AllocError>
    ensures { Adds result text.old.items (spaced (multipliers_words mult.now)) text.new.items }
{
    add_signed(text, &mult.q())?;
    let entries = mult.entries();
    add_number(text, entries.len())?;
    add_entries(text, entries)
}

/// How many of the values are not 0.
fn count_of_entries(values: &[i64]) -> usize
    ensures { result ≡ length (entries_of values.now) }
{
    let mut count = 0;
    for value in values {
        if *value != 0 {
            count += 1;
        }
    }
    count
}

/// Adds the quantities whose value is not 0 with their values, each after a space.
fn add_values(text: &mut Vec<u8>, values: &[i64]) -> Result<(), AllocError>
    ensures { Adds result text.old.items (spaced (map entry_text (entries_of values.now)))
        text.new.items }
{
    for i in 0..values.len() {
        if values[i] != 0 {
            add_entry(text, i, &values[i])?;
        }
    }
    Ok(())
}

/// Adds how many of the values are not 0, and these with their quantities.
pub(crate) fn add_point(text: &mut Vec<u8>, values: &[i64]) -> Result<(), AllocError>
    ensures { Adds result text.old.items (spaced (entries_words (entries_of values.now)))
        text.new.items }
{
    add_number(text, count_of_entries(values))?;
    add_values(text, values)
}
