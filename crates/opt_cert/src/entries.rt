ghost use Rattle.std.specs.Prelude.{◌≡◌, ◌∷◌, ◌≤◌, ◌<◌, ◌^◌, ◌-◌, length};
ghost use Rattle.opt_cert.specs.Forms.{entry_form};
ghost use Rattle.opt_cert.specs.Judging.{LineTells, pair, worse, ranged};
ghost use Rattle.opt_cert.specs.Kinds.{value_form, kind_in_range, entry_in_range, list_form, list_on, GoesOn};

use crate::line_fault::LineFault;
use crate::numbers::{number, numeral, value, weight};
use crate::pieces::Pieces;
use std::alloc::Global;

/// What the entries of a line list.
#[derive(Clone, Copy, Debug, PartialEq, Eq)]
pub enum EntryKind {
    /// Rows with their multipliers, which are not 0.
    Rows,
    /// Quantities with their values, which are from 1 on.
    Quantities,
}

/// Entries while they are read: how many are still to come, whether all so far are in range, and those that are.
#[derive(Drop)]
struct EntryList {
    left: u128,
    in_range: bool,
    entries: Vec<(u32, i64)>,
}

/// Both parts, or the worse of their faults.
pub(crate) fn both<A: Drop, B: Drop>(
    first: Result<A, LineFault>,
    second: Result<B, LineFault>,
) -> Result<(A, B), LineFault>
    ensures { result ≡ pair first second }
{
    match (first, second) {
        (Ok(first), Ok(second)) => Ok((first, second)),
        (Err(first), Err(second)) => Err(worse(first, second)),
        (Err(fault), Ok(_)) => Err(fault),
        (Ok(_), Err(fault)) => Err(fault),
    }
}

/// The worse of the faults of two parts.
fn worse(first: LineFault, second: LineFault) -> LineFault
    ensures { result ≡ worse first second }
{
    match (first, second) {
        (LineFault::OutOfMemory, _) | (_, LineFault::OutOfMemory) => LineFault::OutOfMemory,
        (LineFault::BadLine, _) | (_, LineFault::BadLine) => LineFault::BadLine,
        (LineFault::Range, _) => LineFault::Range,
        (LineFault::Order, other) => other,
    }
}

/// The entries of this kind, with their count before them.
pub(crate) fn entries(
    alloc: Global,
    kind: EntryKind,
    mut words: Pieces<'_>,
) -> Result<Vec<(u32, i64)>, LineFault>
    requires { length words < 2 ^ 128 - 1 }
    ensures { LineTells (λ list. list.items) result (list_form kind words.entry) }
{
    let Some(word) = words.next() else {
        return Err(LineFault::BadLine);
    };
    let Some(count) = numeral(word) else {
        return Err(LineFault::BadLine);
    };
    let list = EntryList {
        left: count,
        in_range: true,
        entries: Vec::new(alloc),
    };
    listed_entries(kind, words, list)
}

/// The list with the entries that these words are.
fn listed_entries(
    kind: EntryKind,
    mut words: Pieces<'_>,
    mut list: EntryList,
) -> Result<Vec<(u32, i64)>, LineFault>
    ensures { LineTells (λ list. list.items) result (list_on kind list words.entry) }
{
    while let Some(word) = words.next() {
        add_entry(kind, word, &mut list)?;
    }
    if list.left > 0 {
        return Err(LineFault::BadLine);
    }
    if !list.in_range {
        return Err(LineFault::Range);
    }
    Ok(list.entries)
}

/// Adds the entry that this word is.
fn add_entry(kind: EntryKind, word: &[u8], list: &mut EntryList) -> Result<(), LineFault>
    ensures { GoesOn result kind list.old word.now list.new }
{
    if list.left == 0 {
        return Err(LineFault::BadLine);
    }
    list.left -= 1;
    match entry(kind, word) {
        Ok(entry) => {
            list.entries.push(entry)?;
            Ok(())
        }
        Err(fault) => {
            if !fault.is_range() {
                return Err(fault);
            }
            list.in_range = false;
            Ok(())
        }
    }
}

/// The entry that a word is: a number and a value, parted by one colon.
fn entry(kind: EntryKind, word: &[u8]) -> Result<(u32, i64), LineFault>
    ensures { result ≡ ranged (entry_in_range kind) (entry_form (value_form kind) word.now) }
{
    let Some((first, second)) = Pieces::new(word, b':').two() else {
        return Err(LineFault::BadLine);
    };
    both(number(first), value_of_kind(kind, second))
}

/// The value in an entry of this kind.
fn value_of_kind(kind: EntryKind, word: &[u8]) -> Result<i64, LineFault>
    ensures { result ≡ ranged (kind_in_range kind) (value_form kind word.now) }
{
    match kind {
        EntryKind::Rows => weight(word),
        EntryKind::Quantities => value(word),
    }
}
