ghost use Rattle.std.specs.Prelude.{◌≡◌, ◌↔◌, [], IsTrue, length};
ghost use Rattle.opt_read.specs.Cells.{AreCells, records_of};
ghost use Rattle.opt_read.specs.Grid.{field_at};

use crate::field_list::FieldList;
use std::alloc::Global;
use std::marker::Model;

/// The fields of a table's records in the columns that were asked for, without the record that names the columns.
/// Contracts see a list of records, each a list of its fields' bytes, spaces and tabs round a field stripped.
///
/// The fields stand one after the other in one text, with the place where each ends: 4 bytes a field beside its own.
#[derive(Drop)]
pub struct Cells {
    fields: FieldList,
    count: u32,
    width: usize,
}

impl Model for Cells {
    ghost use Rattle.std.specs.Prelude.{List, ℕ};
    ghost use Rattle.opt_read.specs.Cells.{AreCells, records_of};

    ghost Value = { List (List (List ℕ)) };

    ghost view = { λ cells. records_of cells.width cells.count cells.fields };

    ghost invariant = { λ cells. AreCells cells.width cells.count cells.fields };
}

impl Cells {
    /// The table of so many records, each of which has `width` of these fields.
    pub(crate) fn new(fields: FieldList, count: u32, width: usize) -> Cells
        requires { AreCells width count fields }
        ensures { result ≡ records_of width count fields }
    {
        Cells {
            fields,
            count,
            width,
        }
    }

    /// No records.
    pub fn empty(alloc: Global) -> Cells
        ensures { result ≡ [] }
    {
        Cells::new(FieldList::new(alloc), 0, 0)
    }

    /// How many records there are.
    pub fn len(&self) -> u32
        ensures { result ≡ length self.now }
    {
        self.count
    }

    /// Whether there is no record.
    pub fn is_empty(&self) -> bool
        ensures { IsTrue result ↔ (self.now ≡ []) }
    {
        self.count == 0
    }

    /// The field of a record, numbered from 1, in a column, numbered from 0; empty where there is none.
    pub fn field(&self, number: u32, column: usize) -> &str
        ensures { result.now ≡ field_at self.now number column }
    {
        let Some(index) = number.checked_sub(1) else {
            return "";
        };
        if index >= self.count || column >= self.width {
            return "";
        }
        self.fields.field(index as usize * self.width + column)
    }
}
