ghost use Rattle.std.specs.Prelude.{◌≡◌, Some, None, option_copied, option_map, IfOk, OnOk, OnErr, IsErrOf};
ghost use Rattle.opt_base.specs.Outside.{no_files, held_at, written, without, IsFound, IsWithin, HasCause};
ghost use Rattle.opt_base.specs.Calls.{calls_of_shelf, IsScripted, IsScriptedPut, tear_of, left_by};

use crate::calls::Calls;
use crate::out_of_memory::OutOfMemory;
use crate::outside::{Found, GetFault, PutFault, Shelf};
use crate::sure_shelf::SureShelf;
use std::alloc::Global;

/// A `put` that is to fail half-way: the number of its call, and how many of its bytes stand then at its path.
#[derive(Debug, Clone, Copy)]
pub(crate) struct Tear {
    call: u64,
    kept: u64,
}

/// A shelf in memory whose calls fail by a script.
#[derive(Debug, Drop)]
pub struct MemShelf {
    shelf: SureShelf,
    calls: Calls,
    tear: Option<Tear>,
}

impl MemShelf {
    /// An empty shelf. Its calls of `get` and `put` are counted together from 1, and those in `fails` fail.
    pub fn new(alloc: Global, fails: &[u64]) -> Result<MemShelf, OutOfMemory>
        ensures empty { IfOk result (λ shelf. ⟦<MemShelf as Shelf>⟧.files shelf ≡ Some no_files) }
        ensures faults { IfOk result (λ shelf. ⟦<MemShelf as Shelf>⟧.count shelf ≡ 0) }
        ensures fails { IfOk result (λ shelf. (calls_of_shelf shelf).fails.items ≡ fails.now) }
        ensures made { IfOk result (λ shelf. (calls_of_shelf shelf).made ≡ 0) }
        ensures whole { IfOk result (λ shelf. tear_of shelf ≡ None) }
    {
        let calls = Calls::new(alloc, fails)?;
        Ok(MemShelf {
            shelf: SureShelf::new(alloc),
            calls,
            tear: None,
        })
    }

    /// The bytes that the path holds.
    pub fn held(&self, path: &str) -> Option<&[u8]>
        ensures { option_copied result ≡ held_at path.now (⟦<MemShelf as Shelf>⟧.files self.now) }
    {
        self.shelf.held(path)
    }

    /// Makes the path hold these bytes, and counts as no call. After an error the path is as before.
    pub fn load(&mut self, path: &str, bytes: &[u8]) -> Result<(), OutOfMemory>
        ensures ok { OnOk result (⟦<MemShelf as Shelf>⟧.files self.new
            ≡ option_map (written path.now bytes.now) (⟦<MemShelf as Shelf>⟧.files self.old)) }
        ensures err { OnErr result (⟦<MemShelf as Shelf>⟧.files self.new
            ≡ ⟦<MemShelf as Shelf>⟧.files self.old) }
        ensures uncounted { calls_of_shelf self.new ≡ calls_of_shelf self.old }
        ensures tear { tear_of self.new ≡ tear_of self.old }
    {
        self.shelf.load(path, bytes)
    }

    /// Makes the call of this number, where it is a `put` that is to fail, leave the first `kept` of its bytes at its
    /// path, or all where there are fewer. The last call and count that were given hold. It takes no memory.
    pub fn torn(&mut self, call: u64, kept: u64)
        ensures tear { tear_of self.new ≡ Some (call, kept) }
        ensures files { ⟦<MemShelf as Shelf>⟧.files self.new ≡ ⟦<MemShelf as Shelf>⟧.files self.old }
        ensures calls { calls_of_shelf self.new ≡ calls_of_shelf self.old }
    {
        self.tear = Some(Tear { call, kept });
    }

    /// Fails the `put` that was counted last: where it is the one that is torn, its first bytes stand at its path.
    fn fail(&mut self, path: &str, bytes: &[u8]) -> PutFault
        ensures failed { result ≡ PutFault.Failed → ⟦<MemShelf as Shelf>⟧.files self.new
            ≡ option_map (left_by (tear_of self.old) (calls_of_shelf self.old).made path.now bytes.now)
            (⟦<MemShelf as Shelf>⟧.files self.old) }
        ensures out_of_memory { result ≡ PutFault.OutOfMemory
            → ⟦<MemShelf as Shelf>⟧.files self.new ≡ ⟦<MemShelf as Shelf>⟧.files self.old }
        ensures others { option_map (without path.now) (⟦<MemShelf as Shelf>⟧.files self.new)
            ≡ option_map (without path.now) (⟦<MemShelf as Shelf>⟧.files self.old) }
        ensures calls { calls_of_shelf self.new ≡ calls_of_shelf self.old }
        ensures tear { tear_of self.new ≡ tear_of self.old }
    {
        let Some(tear) = self.tear else {
            return PutFault::Failed;
        };
        if tear.call != self.calls.made() {
            return PutFault::Failed;
        }
        let kept = tear.kept.min(bytes.len() as u64) as usize;
        match self.shelf.load(path, &bytes[..kept]) {
            Ok(()) => PutFault::Failed,
            Err(OutOfMemory) => PutFault::OutOfMemory,
        }
    }
}

impl Shelf for MemShelf {
    ghost files = { λ shelf. ⟦<SureShelf as Shelf>⟧.files shelf.shelf };

    ghost count = { λ shelf. shelf.calls.failed };

    fn faults(&self) -> u64 {
        self.calls.failed()
    }

    fn get(&mut self, alloc: Global, path: &str, max: u64) -> Result<Found, GetFault>
        ensures found { IfOk result (IsFound (⟦<MemShelf as Shelf>⟧.files self.old) path.now max) }
        ensures at_most { IfOk result (IsWithin max) }
        ensures same { ⟦<MemShelf as Shelf>⟧.files self.new ≡ ⟦<MemShelf as Shelf>⟧.files self.old }
        ensures cause { HasCause GetFault.Failed
            (⟦<MemShelf as Shelf>⟧.count self.old) (⟦<MemShelf as Shelf>⟧.count self.new) result }
        ensures script { IsScripted GetFault.Failed (calls_of_shelf self.old) (calls_of_shelf self.new) result }
        ensures tear { tear_of self.new ≡ tear_of self.old }
    {
        if self.calls.next_fails() {
            return Err(GetFault::Failed);
        }
        self.shelf.get(alloc, path, max)
    }

    fn put(&mut self, path: &str, bytes: &[u8]) -> Result<(), PutFault>
        ensures ok { OnOk result (⟦<MemShelf as Shelf>⟧.files self.new
            ≡ option_map (written path.now bytes.now) (⟦<MemShelf as Shelf>⟧.files self.old)) }
        ensures others { option_map (without path.now) (⟦<MemShelf as Shelf>⟧.files self.new)
            ≡ option_map (without path.now) (⟦<MemShelf as Shelf>⟧.files self.old) }
        ensures failed { IsErrOf result PutFault.Failed → ⟦<MemShelf as Shelf>⟧.files self.new
            ≡ option_map (left_by (tear_of self.old) (calls_of_shelf self.new).made path.now bytes.now)
            (⟦<MemShelf as Shelf>⟧.files self.old) }
        ensures out_of_memory { IsErrOf result PutFault.OutOfMemory
            → ⟦<MemShelf as Shelf>⟧.files self.new ≡ ⟦<MemShelf as Shelf>⟧.files self.old }
        ensures cause { HasCause PutFault.Failed
            (⟦<MemShelf as Shelf>⟧.count self.old) (⟦<MemShelf as Shelf>⟧.count self.new) result }
        ensures script { IsScriptedPut (calls_of_shelf self.old) (calls_of_shelf self.new) result }
        ensures tear { tear_of self.new ≡ tear_of self.old }
    {
        if self.calls.next_fails() {
            return Err(self.fail(path, bytes));
        }
        self.shelf.load(path, bytes)?;
        Ok(())
    }
}
