ghost use Rattle.std.specs.Prelude.{◌≡◌, [], ◌∷◌, ◌++◌, IfOk, OnOk};

use opt_base::OutOfMemory;
use std::alloc::Global;
use std::marker::Model;

/// The records of a table, in file order.
#[derive(Debug, Drop)]
pub struct RecordList<R> {
    records: Vec<R>,
}

impl<R> Model for RecordList<R> {
    ghost use Rattle.std.specs.Prelude.{List};

    ghost Value = { List R };

    ghost view = { λ list. list.records.items };
}

impl<R: Drop> RecordList<R> {
    /// No records.
    pub fn new(alloc: Global) -> RecordList<R>
        ensures { result ≡ [] }
    {
        RecordList {
            records: Vec::new(alloc),
        }
    }

    /// No records, with room for so many.
    pub fn with_capacity(alloc: Global, count: u32) -> Result<RecordList<R>, OutOfMemory>
        ensures { IfOk result (λ list. list ≡ []) }
    {
        Ok(RecordList {
            records: Vec::with_capacity(alloc, count as usize)?,
        })
    }

    /// Adds a record at the end.
    pub fn push(&mut self, one: R) -> Result<(), OutOfMemory>
        ensures { OnOk result (self.new ≡ self.old ++ one ∷ []) }
    {
        self.records.push(one)?;
        Ok(())
    }

    /// The records.
    pub fn as_slice(&self) -> &[R]
        ensures { result.now ≡ self.now }
    {
        self.records.as_slice()
    }
}
