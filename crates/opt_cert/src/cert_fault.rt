ghost use Rattle.std.specs.Prelude.{◌≡◌};
ghost use Rattle.opt_cert.specs.declared.cert_fault.CertFault.TheVariants.{OutOfMemory as ReadMemory};

use opt_base::OutOfMemory;
use std::alloc::{AllocError, AllocFailed};

/// Why a text is no certificate. Lines are numbered from 1, and the first complete line that cannot stand in its place
/// decides.
#[derive(Clone, Copy, Debug, PartialEq, Eq)]
pub enum CertFault {
    /// The line has wrong words, a wrong spelling of a number or a wrong count of entries, or another kind of line must
    /// stand there.
    BadLine(u32),
    /// The line is spelled rightly, and a number in it leaves its range.
    Range(u32),
    /// The line's numbers are in range, and its entries do not rise.
    Order(u32),
    /// All complete lines stand rightly, and `end` with its line feed has not come.
    Truncated,
    /// Bytes follow the line feed of `end`.
    Trailing,
    /// There was no memory for the work.
    OutOfMemory,
}

impl From<OutOfMemory> for CertFault {
    ghost from_gives = { λ _ fault. fault ≡ ReadMemory };

    fn from(_fault: OutOfMemory) -> CertFault {
        CertFault::OutOfMemory
    }
}

impl From<AllocError> for CertFault {
    ghost from_gives = { λ _ fault. fault ≡ ReadMemory };

    fn from(_refused: AllocError) -> CertFault {
        CertFault::OutOfMemory
    }
}

impl<T: Drop> From<AllocFailed<T>> for CertFault {
    ghost from_gives = { λ _ fault. fault ≡ ReadMemory };

    fn from(_refused: AllocFailed<T>) -> CertFault {
        CertFault::OutOfMemory
    }
}
