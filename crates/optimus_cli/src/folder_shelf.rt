ghost use Rattle.std.specs.Prelude.{◌≡◌, IfOk, None};
ghost use Rattle.opt_base.specs.Outside.{IsWithin};

use opt_base::{Blob, Found, GetFault, OutOfMemory, PutFault, Shelf};
use std::alloc::Global;
use std::fs::File;
use std::io::{ErrorKind, Read};
use std::rt::Files;
use std::{fs, io};

/// Room for any file, in bytes. So large a block is given back to the system as soon as the file is read; one of the
/// file's own size would stay with the program, and with it whatever of that size is let go later.
const READ_ROOM: usize = 1 << 26;

/// The files of the system, by their paths. What they hold is not told.
#[derive(Drop)]
pub struct FolderShelf<'a, R: Files> {
    rt: &'a R,
    faults: u64,
}

impl<'a, R: Files> FolderShelf<'a, R> {
    /// The files that this runtime gives.
    pub fn new(rt: &'a R) -> FolderShelf<'a, R>
        ensures { ⟦<FolderShelf<'a, R> as Shelf>⟧.count result ≡ 0 }
    {
        FolderShelf { rt, faults: 0 }
    }
}

impl<R: Files> Shelf for FolderShelf<'_, R> {
    ghost files = { λ _. None };

    ghost count = { λ shelf. shelf.faults };

    fn faults(&self) -> u64 {
        self.faults
    }

    fn get(&mut self, alloc: Global, path: &str, max: u64) -> Result<Found, GetFault> {
        let read = read_at_most(self.rt, alloc, path, max);
        if let Err(GetFault::Failed) = read {
            self.faults = self.faults.saturating_add(1);
        }
        read
    }

    fn put(&mut self, path: &str, bytes: &[u8]) -> Result<(), PutFault> {
        match fs::write(self.rt, path, bytes) {
            Ok(()) => Ok(()),
            Err(error) if error.kind() == ErrorKind::OutOfMemory => Err(PutFault::OutOfMemory),
            Err(_) => {
                self.faults = self.faults.saturating_add(1);
                Err(PutFault::Failed)
            }
        }
    }
}

/// What the file holds, of which at most `max + 1` bytes are read.
fn read_at_most<R: Files>(rt: &R, alloc: Global, path: &str, max: u64) -> Result<Found, GetFault>
    ensures { IfOk result (IsWithin max) }
{
    let file = match File::open(rt, path) {
        Ok(file) => file,
        Err(error) if error.kind() == ErrorKind::NotFound => return Ok(Found::Missing),
        Err(error) => return Err(fault_of(&error)),
    };
    let mut bytes = read_room(alloc)?;
    if let Err(error) = file.take(max.saturating_add(1)).read_to_end(&mut bytes) {
        return Err(fault_of(&error));
    }
    if bytes.len() as u64 > max {
        return Ok(Found::TooBig);
    }
    Ok(Found::Bytes(Blob::from_slice(alloc, &bytes)?))
}

/// No bytes, with room for any file.
fn read_room(alloc: Global) -> Result<Vec<u8>, OutOfMemory> {
    Ok(Vec::with_capacity(alloc, READ_ROOM)?)
}

/// What an error of the system means to the reader of a file.
fn fault_of(error: &io::Error) -> GetFault {
    match error.kind() {
        ErrorKind::OutOfMemory => GetFault::OutOfMemory,
        _ => GetFault::Failed,
    }
}

#[cfg(test)]
mod tests {
    use super::*;
    use std::test::Fail;
    use std::{env, process};

    fn size<S: Shelf>(
        alloc: Global,
        shelf: &mut S,
        path: &str,
        max: u64,
    ) -> Result<Option<usize>, GetFault> {
        match shelf.get(alloc, path, max)? {
            Found::Bytes(bytes) => Ok(Some(bytes.as_slice().len())),
            Found::Missing => Ok(None),
            Found::TooBig => Ok(Some(usize::MAX)),
        }
    }

    #[test]
    fn a_real_folder(rt: HostRuntime) -> Result<(), Fail> {
        let alloc = rt.alloc();
        let id = process::id(rt.process());
        let temporary = env::temp_dir(&rt)?;
        let folder = temporary.join(alloc, format!(in alloc; "optimus-{id}")?.as_str())?;
        let file = folder.join(alloc, "plan.csv")?;
        let path = file.as_str();
        let mut shelf = FolderShelf::new(&rt);

        // A folder that is not there is a failure, and its file is missing.
        assert_eq!(rt; shelf.put(path, b"rice"), Err(PutFault::Failed));
        assert_eq!(rt; shelf.faults(), 1);
        assert_eq!(rt; size(alloc, &mut shelf, path, 4)?, None);

        fs::create_dir(&rt, folder.as_str())?;
        shelf.put(path, b"old and long")?;
        shelf.put(path, b"rice")?;
        assert_eq!(rt; size(alloc, &mut shelf, path, 4)?, Some(4));
        assert_eq!(rt; size(alloc, &mut shelf, path, 3)?, Some(usize::MAX));
        assert_eq!(rt; size(alloc, &mut shelf, path, u64::MAX)?, Some(4));
        assert_eq!(rt; shelf.faults(), 1);

        // A folder is no file.
        assert_eq!(rt;
            size(alloc, &mut shelf, folder.as_str(), 4),
            Err(GetFault::Failed)
        );
        assert_eq!(rt; shelf.faults(), 2);
        fs::remove_file(&rt, path)?;
        fs::remove_dir(&rt, folder.as_str())?;
        Ok(())
    }
}
