ghost use Rattle.std.specs.Prelude.{◌≡◌, ◌≢◌, ℕ, List, [], ◌∷◌, Option, Some, Ok, Err, IfOk, IfErr, OnOk, string_bytes};
ghost use Rattle.opt_base.specs.Answers.{each};
ghost use Rattle.opt_base.specs.Outside.{Files as HeldFiles, HasCause, IsWithin, found_of};
ghost use Rattle.opt_tables.specs.Files.{admitted, all_checked, limit_of, model_files, no_files, path_of, fetch_of};
ghost use Rattle.opt_tables.specs.Fetched.{got, with_got, all_got, IsGot, Fetched, GetsEach, RefusesOne};

use crate::fault::FetchFault;
use crate::files::{Files, MODEL_FILES, is_required, limit};
use opt_base::{Blob, File, Found, GetFault, Kind, Refusal, Shelf};
use opt_model::file_name;
use std::alloc::{AllocError, Global};

/// Gets the model files of a folder, in the order settings.toml, commodities.csv, groups.csv, nutrients.csv,
/// contents.csv, places.csv, offers.csv, arcs.csv, persons.csv, stock.csv, baskets.csv, needs.csv.
///
/// The first that is missing and must be there, or is too big, is refused; the outside failed only where the shelf's
/// count of faults rose. After that no further file is got. Also where the shelf tells nothing, the files that are
/// given are within their limits with none missing that must be there, and nothing else is refused than a missing or
/// a too big file.
pub fn fetch<S: Shelf>(alloc: Global, shelf: &mut S, folder: &str) -> Result<Files, FetchFault>
    ensures found { (held : HeldFiles) → S.files shelf.old ≡ Some held
        → Fetched result (fetch_of held folder.now) }
    ensures admitted { IfOk result (λ files. all_checked files ≡ Ok tt) }
    ensures refused { IfErr result (RefusesOne model_files) }
    ensures same { S.files shelf.new ≡ S.files shelf.old }
    ensures cause { HasCause FetchFault.Outside (S.count shelf.old) (S.count shelf.new) result }
{
    fetch_all(alloc, shelf, folder)
}

/// Gets the files of a folder one by one.
fn fetch_all<S: Shelf>(alloc: Global, shelf: &mut S, folder: &str) -> Result<Files, FetchFault>
    ensures told { (held : HeldFiles) → S.files shelf.old ≡ Some held
        → Fetched result (all_got held folder.now) }
    ensures each { IfOk result (GetsEach model_files no_files) }
    ensures refused { IfErr result (RefusesOne model_files) }
    ensures same { S.files shelf.new ≡ S.files shelf.old }
    ensures cause { HasCause FetchFault.Outside (S.count shelf.old) (S.count shelf.new) result }
{
    let mut files = Files::new();
    match fetch_each(alloc, shelf, folder, &MODEL_FILES, &mut files) {
        Ok(()) => Ok(files),
        Err(fault) => Err(fault),
    }
}

/// Gets some of the files of a folder.
fn fetch_each<S: Shelf>(
    alloc: Global,
    shelf: &mut S,
    folder: &str,
    order: &[File],
    files: &mut Files,
) -> Result<(), FetchFault>
    ensures told { (held : HeldFiles) → S.files shelf.old ≡ Some held
        → IsGot (λ _. files.new) result (each (with_got held folder.now) 0 files.old order.now) }
    ensures each { OnOk result (GetsEach order.now files.old files.new) }
    ensures refused { IfErr result (RefusesOne order.now) }
    ensures same { S.files shelf.new ≡ S.files shelf.old }
    ensures cause { HasCause FetchFault.Outside (S.count shelf.old) (S.count shelf.new) result }
{
    for file in order {
        let held = fetch_file(alloc, shelf, folder, *file)?;
        files.hold(*file, held);
    }
    Ok(())
}

/// Gets a file of a folder.
fn fetch_file<S: Shelf>(
    alloc: Global,
    shelf: &mut S,
    folder: &str,
    file: File,
) -> Result<Option<Blob>, FetchFault>
    ensures told { (held : HeldFiles) → S.files shelf.old ≡ Some held
        → IsGot (λ bytes. bytes) result (got held folder.now file) }
    ensures each { IfOk result (λ bytes. admitted file bytes ≡ Ok bytes) }
    ensures refused { IfErr result (RefusesOne (file ∷ [])) }
    ensures same { S.files shelf.new ≡ S.files shelf.old }
    ensures cause { HasCause FetchFault.Outside (S.count shelf.old) (S.count shelf.new) result }
{
    let path = path(alloc, folder, file)?;
    match shelf.get(alloc, path.as_str(), limit(file)) {
        Ok(found) => admitted(file, found),
        Err(GetFault::Failed) => Err(FetchFault::Outside),
        Err(GetFault::OutOfMemory) => Err(FetchFault::OutOfMemory),
    }
}

/// What was found of a file, if that is not refused.
fn admitted(file: File, found: Found) -> Result<Option<Blob>, FetchFault>
    ensures told { (bytes : Option (List ℕ)) → found ≡ found_of (limit_of file) bytes
        → IsGot (λ held. held) result (admitted file bytes) }
    ensures each { IsWithin (limit_of file) found → IfOk result (λ held. admitted file held ≡ Ok held) }
    ensures refused { IfErr result (RefusesOne (file ∷ [])) }
    ensures inside { result ≢ Err FetchFault.Outside }
{
    match found {
        Found::Bytes(bytes) => Ok(Some(bytes)),
        Found::TooBig => Err(FetchFault::Refused(Refusal::of_file(file, Kind::FileTooBig))),
        Found::Missing => {
            if is_required(file) {
                Err(FetchFault::Refused(Refusal::of_file(file, Kind::MissingFile)))
            } else {
                Ok(None)
            }
        }
    }
}

/// Where a file of a folder is held.
fn path(alloc: Global, folder: &str, file: File) -> Result<String, AllocError>
    ensures { IfOk result (λ path. string_bytes path ≡ path_of folder.now file) }
{
    let name = file_name(file);
    format!(in alloc; "{folder}/{name}")
}
