ghost use Rattle.std.specs.Prelude.{◌≡◌, Some, option_copied, option_map, IfOk, OnOk, OnErr};
ghost use Rattle.std.specs.BTreeMap.{get_by_text};
ghost use Rattle.opt_base.specs.Outside.{no_files, held_at, written, found_of};

use crate::blob::Blob;
use crate::out_of_memory::OutOfMemory;
use crate::outside::{Found, GetFault, PutFault, Shelf};
use std::alloc::Global;
use std::collections::BTreeMap;

/// A shelf in memory that never fails.
#[derive(Debug, Drop)]
pub struct SureShelf {
    alloc: Global,
    entries: BTreeMap<String, Vec<u8>>,
}

impl SureShelf {
    /// An empty shelf, which uses this allocator.
    pub fn new(alloc: Global) -> SureShelf
        ensures { ⟦<SureShelf as Shelf>⟧.files result ≡ Some no_files }
    {
        SureShelf {
            alloc,
            entries: BTreeMap::new(alloc),
        }
    }

    /// The bytes that the path holds.
    pub fn held(&self, path: &str) -> Option<&[u8]>
        ensures { option_copied result ≡ held_at path.now (⟦<SureShelf as Shelf>⟧.files self.now) }
    {
        let bytes = self.entries.get(path)?;
        Some(bytes.as_slice())
    }

    /// Makes the path hold these bytes. After an error it is as before.
    pub fn load(&mut self, path: &str, bytes: &[u8]) -> Result<(), OutOfMemory>
        ensures ok { OnOk result (⟦<SureShelf as Shelf>⟧.files self.new
            ≡ option_map (written path.now bytes.now) (⟦<SureShelf as Shelf>⟧.files self.old)) }
        ensures err { OnErr result (⟦<SureShelf as Shelf>⟧.files self.new
            ≡ ⟦<SureShelf as Shelf>⟧.files self.old) }
    {
        let path = String::from_str(self.alloc, path)?;
        let content = Vec::from_slice(self.alloc, bytes)?;
        self.entries.insert(path, content)?;
        Ok(())
    }
}

impl Shelf for SureShelf {
    ghost files = { λ shelf. Some (λ path. option_map (λ bytes. bytes.items) (get_by_text shelf.entries path)) };

    ghost count = { λ _. 0 };

    fn faults(&self) -> u64 {
        0
    }

    fn get(&mut self, alloc: Global, path: &str, max: u64) -> Result<Found, GetFault> {
        match self.held(path) {
            None => Ok(Found::Missing),
            Some(bytes) => Ok(found(alloc, bytes, max)?),
        }
    }

    fn put(&mut self, path: &str, bytes: &[u8]) -> Result<(), PutFault> {
        self.load(path, bytes)?;
        Ok(())
    }
}

/// What is found where a path holds these bytes.
fn found(alloc: Global, bytes: &[u8], max: u64) -> Result<Found, OutOfMemory>
    ensures { IfOk result (λ seen. seen ≡ found_of max (Some bytes.now)) }
{
    if bytes.len() as u64 > max {
        return Ok(Found::TooBig);
    }
    Ok(Found::Bytes(Blob::from_slice(alloc, bytes)?))
}
