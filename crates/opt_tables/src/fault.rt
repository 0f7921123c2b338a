ghost use Rattle.std.specs.Prelude.{◌≡◌};
ghost use Rattle.opt_tables.specs.declared.fault.FetchFault.TheVariants.{OutOfMemory as FetchMemory};

use opt_base::Refusal;
use std::alloc::AllocError;
use std::error::Error;
use std::fmt;

/// Why the files of a model were not got.
#[derive(Clone, Copy, Debug, PartialEq, Eq)]
pub enum FetchFault {
    /// A file is missing or too big.
    Refused(Refusal),
    /// The outside failed, and the shelf's count of faults rose.
    Outside,
    OutOfMemory,
}

impl fmt::Display for FetchFault {
    fn fmt<W: fmt::Write>(&self, f: &mut fmt::Formatter<W>) -> fmt::Result {
        match self {
            FetchFault::Refused(refusal) => write!(f, "refused: {refusal:?}"),
            FetchFault::Outside => f.write_str("a file was not read"),
            FetchFault::OutOfMemory => f.write_str("out of memory"),
        }
    }
}

impl Error for FetchFault {}

impl From<AllocError> for FetchFault {
    ghost from_gives = { λ _ fault. fault ≡ FetchMemory };

    fn from(_refused: AllocError) -> FetchFault {
        FetchFault::OutOfMemory
    }
}
