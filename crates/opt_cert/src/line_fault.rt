ghost use Rattle.std.specs.Prelude.{◌≡◌, ◌↔◌, IsTrue};
ghost use Rattle.opt_cert.specs.declared.line_fault.LineFault.TheVariants.{OutOfMemory as LineMemory, Range as OutOfRange};

use opt_base::OutOfMemory;
use std::alloc::{AllocError, AllocFailed};

/// Why a text is not the line that must stand in its place.
#[derive(Clone, Copy, Debug, PartialEq, Eq)]
pub enum LineFault {
    /// Its words, a spelling or the count of entries are wrong, or it is another kind of line.
    BadLine,
    /// It is spelled rightly, and a number leaves its range.
    Range,
    /// Its numbers are in range, and its entries do not rise.
    Order,
    /// There was no memory for the work.
    OutOfMemory,
}

impl LineFault {
    /// Whether a number leaves its range.
    pub(crate) fn is_range(self) -> bool
        ensures { IsTrue result ↔ (self ≡ OutOfRange) }
    {
        matches!(self, LineFault::Range)
    }
}

impl From<OutOfMemory> for LineFault {
    ghost from_gives = { λ _ fault. fault ≡ LineMemory };

    fn from(_fault: OutOfMemory) -> LineFault {
        LineFault::OutOfMemory
    }
}

impl From<AllocError> for LineFault {
    ghost from_gives = { λ _ fault. fault ≡ LineMemory };

    fn from(_refused: AllocError) -> LineFault {
        LineFault::OutOfMemory
    }
}

impl<T: Drop> From<AllocFailed<T>> for LineFault {
    ghost from_gives = { λ _ fault. fault ≡ LineMemory };

    fn from(_refused: AllocFailed<T>) -> LineFault {
        LineFault::OutOfMemory
    }
}
