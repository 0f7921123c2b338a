ghost use Rattle.std.specs.Prelude.{◌≡◌};
ghost use Rattle.opt_frac.specs.declared.elim_fault.ElimFault.TheVariants.{OutOfMemory as MemoryFault};

use opt_base::OutOfMemory;
use std::alloc::{AllocError, AllocFailed};
use std::error::Error;
use std::fmt;

/// Why a variable could not be replaced in an equation.
#[derive(Clone, Copy, Debug, PartialEq, Eq)]
pub enum ElimFault {
    /// A product or a sum lies outside -(2^127 - 1) to 2^127 - 1.
    Wide,
    /// There was no memory for the work.
    OutOfMemory,
}

impl fmt::Display for ElimFault {
    fn fmt<W: fmt::Write>(&self, f: &mut fmt::Formatter<W>) -> fmt::Result {
        match self {
            ElimFault::Wide => f.write_str("a number past 128 bits"),
            ElimFault::OutOfMemory => f.write_str("out of memory"),
        }
    }
}

impl Error for ElimFault {}

impl From<OutOfMemory> for ElimFault {
    ghost from_gives = { λ _ fault. fault ≡ MemoryFault };

    fn from(_refused: OutOfMemory) -> ElimFault {
        ElimFault::OutOfMemory
    }
}

impl From<AllocError> for ElimFault {
    ghost from_gives = { λ _ fault. fault ≡ MemoryFault };

    fn from(_refused: AllocError) -> ElimFault {
        ElimFault::OutOfMemory
    }
}

impl<T: Drop> From<AllocFailed<T>> for ElimFault {
    ghost from_gives = { λ _ fault. fault ≡ MemoryFault };

    fn from(_refused: AllocFailed<T>) -> ElimFault {
        ElimFault::OutOfMemory
    }
}
