ghost use Rattle.std.specs.Prelude.{◌≡◌, ◌^◌, ◌<◌, length, IfOk};
ghost use Rattle.opt_base.specs.Answers.{Gives};
ghost use Rattle.opt_tables.specs.Files.{bytes_of};
ghost use Rattle.opt_tables.specs.Grids.{rows_in};
ghost use Rattle.opt_tables.specs.Lines.{records_of, records_in};

use crate::files::Files;
use crate::grids::cells;
use crate::lines::{KeylessLines, Line, Lines};
use crate::record_list::RecordList;
use crate::row::Row;
use opt_base::{File, ModelFault, OutOfMemory, Refusal};
use opt_read::Setup;
use std::alloc::Global;

/// A line that is made into a record of the model, given the tables `N` whose records it names.
pub trait Link<R: Drop, N>: Line {
    ghost use Rattle.std.specs.Prelude.{Result};
    ghost use Rattle.opt_base.specs.declared.refusal.Refusal.{Refusal};
    ghost use Rattle.opt_base.specs.Answers.{Gives};
    ghost use Rattle.opt_model.specs.Settings.{Settings};
    ghost use Rattle.opt_tables.specs.Records.{Record};

    /// The record of a line, or its first refusal of what it names.
    ghost record_of: { Settings → N → Record → Self → Result R Refusal };

    /// The record of a line, or its first refusal of what it names.
    fn link(&self, alloc: Global, row: &Row<'_>, setup: &Setup, named: &N) -> Result<R, ModelFault>
        ensures { Gives (λ one. one) result (record_of setup.now named.now row.now self.now) };
}

/// The records of a table, with the numbers of the records that they name.
pub fn linked<R: Drop, N, L: Link<R, N>>(
    alloc: Global,
    lines: Lines<'_, L>,
    setup: &Setup,
    named: &N,
) -> Result<RecordList<R>, ModelFault>
    ensures { Gives (λ records. records) result
        (records_of (L.record_of setup.now named.now) lines.entry) }
{
    linked_each(alloc, &lines.without_keys(), setup, named)
}

/// The records of these lines, with the numbers of the records that they name.
fn linked_each<R: Drop, N, L: Link<R, N>>(
    alloc: Global,
    lines: &KeylessLines<'_, L>,
    setup: &Setup,
    named: &N,
) -> Result<RecordList<R>, ModelFault>
    ensures { Gives (λ records. records) result
        (records_of (L.record_of setup.now named.now) lines.now) }
{
    let mut records = RecordList::with_capacity(alloc, lines.len())?;
    for i in 0..lines.len() {
        let one = lines.line(i).link(alloc, &lines.row(i), setup, named)?;
        records.push(one)?;
    }
    Ok(records)
}

/// The records of a table, or their first refusal, to be answered once all tables are judged.
pub fn linked_early<R: Drop, N, L: Link<R, N>>(
    alloc: Global,
    lines: Lines<'_, L>,
    setup: &Setup,
    named: &N,
) -> Result<Result<RecordList<R>, Refusal>, OutOfMemory>
    ensures { IfOk result (λ records. records ≡ records_of (L.record_of setup.now named.now) lines.entry) }
{
    match linked(alloc, lines, setup, named) {
        Ok(records) => Ok(Ok(records)),
        Err(ModelFault::Refused(refusal)) => Ok(Err(refusal)),
        Err(ModelFault::OutOfMemory) => Err(OutOfMemory),
    }
}

/// The records of a table that no other table names, of which nothing else is kept: its fields and what its records are
/// known by are dropped here.
pub fn read_records<R: Drop, N, L: Link<R, N>>(
    alloc: Global,
    file: File,
    files: &Files,
    setup: &Setup,
    named: &N,
) -> Result<Result<RecordList<R>, Refusal>, ModelFault>
    requires { length (bytes_of files.now file) < 2 ^ 32 }
    ensures { Gives (λ records. records) result
        (records_in (L.line_of setup.now) (L.key_of setup.now) (L.record_of setup.now named.now) file
        (rows_in files.now setup.now.format file)) }
{
    let cells = cells(alloc, files, setup.format(), file)?;
    let lines = Lines::read_all(alloc, file, setup, &cells)?;
    Ok(linked_early::<R, N, L>(alloc, lines, setup, named)?)
}
