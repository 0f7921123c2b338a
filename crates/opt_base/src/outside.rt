ghost use Rattle.std.specs.Prelude.{◌≡◌, ℕ, List, Option, option_map, IfOk, OnOk};
ghost use Rattle.opt_base.specs.Outside.{Files, IsFound, IsWithin, written, without, appended, AppendsSome, HasCause};
ghost use Rattle.opt_base.specs.declared.outside.GetFault.TheVariants.{OutOfMemory as GetMemory};
ghost use Rattle.opt_base.specs.declared.outside.PutFault.TheVariants.{OutOfMemory as PutMemory};
ghost use Rattle.opt_base.specs.declared.outside.SinkFault.TheVariants.{OutOfMemory as SinkMemory};

use crate::blob::Blob;
use crate::out_of_memory::OutOfMemory;
use std::alloc::{AllocError, Global};
use std::error::Error;
use std::fmt;

/// What a shelf holds at a path.
#[derive(Debug, Drop)]
pub enum Found {
    /// The bytes that the path holds.
    Bytes(Blob),
    /// The path is not held.
    Missing,
    /// The path holds more bytes than were asked for.
    TooBig,
}

/// Why nothing was got from a shelf.
#[derive(Clone, Copy, Debug, PartialEq, Eq)]
pub enum GetFault {
    /// The outside failed, and the shelf's count of faults rose.
    Failed,
    OutOfMemory,
}

/// Why a path was not put onto a shelf.
#[derive(Clone, Copy, Debug, PartialEq, Eq)]
pub enum PutFault {
    /// The outside failed, and the shelf's count of faults rose.
    Failed,
    OutOfMemory,
}

/// Why bytes were not, or not all, put into a sink.
#[derive(Clone, Copy, Debug, PartialEq, Eq)]
pub enum SinkFault {
    /// The outside failed, and the sink's count of faults rose.
    Failed,
    OutOfMemory,
}

/// A set of files named by paths. What it holds may be told or not, and no call changes that.
pub trait Shelf {
    /// What each path holds, where that is told.
    ghost files: { Self → Option Files };

    /// How many faults there were.
    ghost count: { Self → ℕ };

    /// How many faults there were, at most 2^64 - 1. It never falls.
    fn faults(&self) -> u64
        ensures { result ≡ count self.now };

    /// What the path holds, if that is at most `max` bytes.
    fn get(&mut self, alloc: Global, path: &str, max: u64) -> Result<Found, GetFault>
        ensures found { IfOk result (IsFound (files self.old) path.now max) }
        ensures at_most { IfOk result (IsWithin max) }
        ensures same { files self.new ≡ files self.old }
        ensures cause { HasCause GetFault.Failed (count self.old) (count self.new) result };

    /// Makes the path hold these bytes. After an error it may hold anything or be missing.
    fn put(&mut self, path: &str, bytes: &[u8]) -> Result<(), PutFault>
        ensures ok { OnOk result (files self.new
            ≡ option_map (written path.now bytes.now) (files self.old)) }
        ensures others { option_map (without path.now) (files self.new)
            ≡ option_map (without path.now) (files self.old) }
        ensures cause { HasCause PutFault.Failed (count self.old) (count self.new) result };
}

/// A stream that is written. What was written may be told or not, and no call changes that.
pub trait Sink {
    /// The bytes that were written, where they are told.
    ghost stream: { Self → Option (List ℕ) };

    /// How many faults there were.
    ghost count: { Self → ℕ };

    /// How many faults there were, at most 2^64 - 1. It never falls.
    fn faults(&self) -> u64
        ensures { result ≡ count self.now };

    /// Writes these bytes after the others. After an error some first bytes of them are written.
    fn put(&mut self, bytes: &[u8]) -> Result<(), SinkFault>
        ensures ok { OnOk result (stream self.new ≡ option_map (appended bytes.now) (stream self.old)) }
        ensures some { AppendsSome bytes.now (stream self.old) (stream self.new) }
        ensures cause { HasCause SinkFault.Failed (count self.old) (count self.new) result };
}

impl fmt::Display for GetFault {
    fn fmt<W: fmt::Write>(&self, f: &mut fmt::Formatter<W>) -> fmt::Result {
        match self {
            GetFault::Failed => f.write_str("a file was not read"),
            GetFault::OutOfMemory => f.write_str("out of memory"),
        }
    }
}

impl fmt::Display for PutFault {
    fn fmt<W: fmt::Write>(&self, f: &mut fmt::Formatter<W>) -> fmt::Result {
        match self {
            PutFault::Failed => f.write_str("a file was not written"),
            PutFault::OutOfMemory => f.write_str("out of memory"),
        }
    }
}

impl fmt::Display for SinkFault {
    fn fmt<W: fmt::Write>(&self, f: &mut fmt::Formatter<W>) -> fmt::Result {
        match self {
            SinkFault::Failed => f.write_str("a stream was not written"),
            SinkFault::OutOfMemory => f.write_str("out of memory"),
        }
    }
}

impl Error for GetFault {}

impl Error for PutFault {}

impl Error for SinkFault {}

impl From<OutOfMemory> for GetFault {
    ghost from_gives = { λ _ fault. fault ≡ GetMemory };

    fn from(_refused: OutOfMemory) -> GetFault {
        GetFault::OutOfMemory
    }
}

impl From<OutOfMemory> for PutFault {
    ghost from_gives = { λ _ fault. fault ≡ PutMemory };

    fn from(_refused: OutOfMemory) -> PutFault {
        PutFault::OutOfMemory
    }
}

impl From<OutOfMemory> for SinkFault {
    ghost from_gives = { λ _ fault. fault ≡ SinkMemory };

    fn from(_refused: OutOfMemory) -> SinkFault {
        SinkFault::OutOfMemory
    }
}

impl From<AllocError> for SinkFault {
    ghost from_gives = { λ _ fault. fault ≡ SinkMemory };

    fn from(_refused: AllocError) -> SinkFault {
        SinkFault::OutOfMemory
    }
}
