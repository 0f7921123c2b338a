ghost use Rattle.std.specs.Prelude.{◌≡◌, ◌^◌, ◌<◌, length, IfOk};
ghost use Rattle.opt_base.specs.Answers.{Gives};
ghost use Rattle.opt_tables.specs.Files.{bytes_of};
ghost use Rattle.opt_tables.specs.Grids.{is_table_of, rows_in};

use crate::files::{Files, is_required};
use opt_base::{File, ModelFault, OutOfMemory, Refusal};
use opt_model::{columns_of, has_baskets};
use opt_read::{Cells, grid};
use std::alloc::Global;

/// Whether a format has a table.
fn is_table(format: u32, file: File) -> bool
    ensures { result ≡ is_table_of format file }
{
    match file {
        File::Baskets | File::Needs => has_baskets(format),
        _ => true,
    }
}

/// The fields of a table's records; none where the format has no such table, or the file need not be there and holds
/// no byte.
pub fn cells(alloc: Global, files: &Files, format: u32, file: File) -> Result<Cells, ModelFault>
    requires { length (bytes_of files.now file) < 2 ^ 32 }
    ensures { Gives (λ cells. cells) result (rows_in files.now format file) }
{
    let bytes = files.bytes(file);
    if !is_table(format, file) || (!is_required(file) && bytes.is_empty()) {
        return Ok(Cells::empty(alloc));
    }
    grid(alloc, file, bytes, columns_of(file, format))
}

/// The fields of a table's records, or its first refusal, to be answered once the tables before it are read.
pub fn table(
    alloc: Global,
    files: &Files,
    format: u32,
    file: File,
) -> Result<Result<Cells, Refusal>, OutOfMemory>
    requires { length (bytes_of files.now file) < 2 ^ 32 }
    ensures { IfOk result (λ table. table ≡ rows_in files.now format file) }
{
    match cells(alloc, files, format, file) {
        Ok(cells) => Ok(Ok(cells)),
        Err(ModelFault::Refused(refusal)) => Ok(Err(refusal)),
        Err(ModelFault::OutOfMemory) => Err(OutOfMemory),
    }
}
