//! What is read of a folder: its model, and a file that must be there.
ghost use Rattle.std.specs.Prelude.{◌≡◌, ◌≢◌, ◌≤◌, ℕ, List, Option, Err, IfOk, length, string_bytes};
ghost use Rattle.opt_base.specs.Outside.{HasCause, found_of};
ghost use Rattle.opt_plan.specs.Models.{model_of};
ghost use Rattle.opt_tables.specs.Fetched.{IsGot};
ghost use Rattle.opt_tables.specs.Files.{path_of};
ghost use Rattle.optimus.specs.Folder.{fetch_fault_of, Brings, IsModelIn, IsFileIn, needed};

use opt_base::{Blob, File, Found, GetFault, Kind, ModelFault, Refusal, Shelf};
use opt_model::file_name;
use opt_plan::Problem;
use opt_tables::{FetchFault, Files, fetch};
use std::alloc::{AllocError, Global};

/// Where a file of a folder is held.
pub fn path(alloc: Global, folder: &str, file: File) -> Result<String, AllocError>
    ensures { IfOk result (λ path. string_bytes path ≡ path_of folder.now file) }
{
    let name = file_name(file);
    format!(in alloc; "{folder}/{name}")
}

/// Why something that was read is not taken: its refusal, or want of memory.
pub fn fetch_fault(fault: ModelFault) -> FetchFault
    ensures { result ≡ fetch_fault_of fault }
{
    match fault {
        ModelFault::Refused(refusal) => FetchFault::Refused(refusal),
        ModelFault::OutOfMemory => FetchFault::OutOfMemory,
    }
}

/// The model of these files, or its first refusal.
fn problem_of(alloc: Global, files: &Files) -> Result<Problem, FetchFault>
    ensures exact { IsGot (λ problem. problem) result (model_of files.now) }
    ensures inside { result ≢ Err FetchFault.Outside }
{
    match Problem::read(alloc, files) {
        Ok(problem) => Ok(problem),
        Err(fault) => Err(fetch_fault(fault)),
    }
}

/// The model of a folder, or the first refusal: of a file that is missing or too big, then of what the files say.
pub fn read_problem<S: Shelf>(
    alloc: Global,
    folder: &str,
    shelf: &mut S,
) -> Result<Problem, FetchFault>
    ensures model { Brings (IsModelIn (S.files shelf.old) folder.now) result }
    ensures same { S.files shelf.new ≡ S.files shelf.old }
    ensures cause { HasCause FetchFault.Outside (S.count shelf.old) (S.count shelf.new) result }
{
    match fetch(alloc, shelf, folder) {
        Ok(files) => problem_of(alloc, &files),
        Err(fault) => Err(fault),
    }
}

/// The bytes of a file of a folder, which must be there and have at most so many of them.
pub fn find<S: Shelf>(
    alloc: Global,
    folder: &str,
    shelf: &mut S,
    file: File,
    most: u64,
) -> Result<Blob, FetchFault>
    ensures found { Brings (IsFileIn (S.files shelf.old) folder.now file most) result }
    ensures at_most { IfOk result (λ bytes. length bytes ≤ most) }
    ensures same { S.files shelf.new ≡ S.files shelf.old }
    ensures cause { HasCause FetchFault.Outside (S.count shelf.old) (S.count shelf.new) result }
{
    let path = path(alloc, folder, file)?;
    match shelf.get(alloc, path.as_str(), most) {
        Ok(found) => needed(file, found),
        Err(GetFault::Failed) => Err(FetchFault::Outside),
        Err(GetFault::OutOfMemory) => Err(FetchFault::OutOfMemory),
    }
}

/// The bytes that were found of a file that must be there.
fn needed(file: File, found: Found) -> Result<Blob, FetchFault>
    ensures exact { (most : ℕ) (bytes : Option (List ℕ)) → found ≡ found_of most bytes
        → IsGot (λ held. held) result (needed file most bytes) }
    ensures inside { result ≢ Err FetchFault.Outside }
{
    match found {
        Found::Bytes(bytes) => Ok(bytes),
        Found::Missing => Err(FetchFault::Refused(Refusal::of_file(file, Kind::MissingFile))),
        Found::TooBig => Err(FetchFault::Refused(Refusal::of_file(file, Kind::FileTooBig))),
    }
}
