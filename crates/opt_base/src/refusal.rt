ghost use Rattle.std.specs.Prelude.{◌≡◌};
ghost use Rattle.opt_base.specs.declared.refusal.ModelFault.TheVariants.{Refused, OutOfMemory as MemoryFault};

use crate::out_of_memory::OutOfMemory;
use std::alloc::{AllocError, AllocFailed};
use std::error::Error;
use std::fmt;

/// The files that the program reads or writes, and `Model`, which stands for all model files together.
#[derive(Clone, Copy, Debug, PartialEq, Eq)]
pub enum File {
    Settings,
    Commodities,
    Groups,
    Nutrients,
    Contents,
    Places,
    Offers,
    Arcs,
    Persons,
    Stock,
    Baskets,
    Needs,
    Model,
    Plan,
    Certificate,
    Edits,
    Executed,
}

/// Why a file is refused.
#[derive(Clone, Copy, Debug, PartialEq, Eq)]
pub enum Kind {
    /// A required file is not held.
    MissingFile,
    /// A file is longer than its limit.
    FileTooBig,
    /// A file is not UTF-8.
    NotUtf8,
    /// The settings are no TOML.
    TomlRefused,
    /// A required key is absent.
    SettingMissing,
    /// A key has another type, word, length or range.
    SettingRange,
    /// A column's name is not in the first record, or there is no record.
    ColumnMissing,
    /// A column's name stands twice in the first record.
    ColumnTwice,
    /// A record has another number of fields than the first.
    Uneven,
    /// A name is empty.
    EmptyName,
    /// A name has more than 64 bytes.
    NameTooLong,
    /// A number is empty or has a byte other than `0` to `9`.
    BadNumber,
    /// A number lies outside its range.
    OutOfRange,
    /// An earlier record of the table has the same key.
    Duplicate,
    /// A name or word is not one of those that it must be one of.
    UnknownName,
    /// An offer is not at a supplier, persons are not at a point, or an arc ends at a supplier or at its own start.
    WrongPlaceKind,
    /// No multiple of the step lies from the least to the greatest ration, or grams of a plan are no multiple
    /// of the step.
    NoStepInRange,
    /// A table that must have a record has none.
    EmptyTable,
    /// A count is past its limit; it carries the count.
    TooMany(u64),
}

/// A refusal and its place: the file, the record's number from 1 (0: none), the number of the column or key (0: none).
#[derive(Clone, Copy, Debug, PartialEq, Eq)]
pub struct Refusal {
    pub file: File,
    pub number: u32,
    pub column: u8,
    pub kind: Kind,
}

impl Refusal {
    ghost use Rattle.opt_base.specs.Refusals.{refusal_of_file, refusal_of_record, refusal_at, too_many};

    /// The refusal of a file as a whole.
    pub fn of_file(file: File, kind: Kind) -> Refusal
        ensures { result ≡ refusal_of_file file kind }
    {
        Refusal::at(file, 0, 0, kind)
    }

    /// The refusal of a record as a whole, numbered from 1.
    pub fn of_record(file: File, number: u32, kind: Kind) -> Refusal
        ensures { result ≡ refusal_of_record file number kind }
    {
        Refusal::at(file, number, 0, kind)
    }

    /// The refusal of a record's column, both numbered from 1.
    pub fn at(file: File, number: u32, column: u8, kind: Kind) -> Refusal
        ensures { result ≡ refusal_at file number column kind }
    {
        Refusal {
            file,
            number,
            column,
            kind,
        }
    }

    /// The model has this many of what the column names: quantities, rows or terms.
    pub fn too_many(column: u8, count: u64) -> Refusal
        ensures { result ≡ too_many column count }
    {
        Refusal::at(File::Model, 0, column, Kind::TooMany(count))
    }
}

/// Why there is no model: a refusal, or want of memory.
#[derive(Clone, Copy, Debug, PartialEq, Eq)]
pub enum ModelFault {
    Refused(Refusal),
    OutOfMemory,
}

impl fmt::Display for ModelFault {
    fn fmt<W: fmt::Write>(&self, f: &mut fmt::Formatter<W>) -> fmt::Result {
        match self {
            ModelFault::Refused(refusal) => write!(f, "refused: {refusal:?}"),
            ModelFault::OutOfMemory => f.write_str("out of memory"),
        }
    }
}

impl Error for ModelFault {}

impl From<Refusal> for ModelFault {
    ghost from_gives = { λ refusal fault. fault ≡ Refused refusal };

    fn from(refusal: Refusal) -> ModelFault {
        ModelFault::Refused(refusal)
    }
}

impl From<OutOfMemory> for ModelFault {
    ghost from_gives = { λ _ fault. fault ≡ MemoryFault };

    fn from(_refused: OutOfMemory) -> ModelFault {
        ModelFault::OutOfMemory
    }
}

impl From<AllocError> for ModelFault {
    ghost from_gives = { λ _ fault. fault ≡ MemoryFault };

    fn from(_refused: AllocError) -> ModelFault {
        ModelFault::OutOfMemory
    }
}

impl<T: Drop> From<AllocFailed<T>> for ModelFault {
    ghost from_gives = { λ _ fault. fault ≡ MemoryFault };

    fn from(_refused: AllocFailed<T>) -> ModelFault {
        ModelFault::OutOfMemory
    }
}
