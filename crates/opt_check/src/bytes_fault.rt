ghost use Rattle.std.specs.Prelude.{◌≡◌};
ghost use Rattle.opt_check.specs.declared.bytes_fault.BytesFault.TheVariants.{OutOfMemory as BytesMemory};
ghost use Rattle.opt_check.specs.Bytes.{of_cert_fault};

use opt_base::OutOfMemory;
use opt_cert::CertFault;
use opt_tree::CheckFault;

/// Why a certificate's text does not show its verdict: it is no certificate, or one that does not show it. Neither inner
/// fault is want of memory.
#[derive(Clone, Copy, Debug, PartialEq, Eq)]
pub enum BytesFault {
    /// The text is no certificate.
    Cert(CertFault),
    /// The text is a certificate, and this is the first fault of what it shows.
    Check(CheckFault),
    /// There was no memory for the work.
    OutOfMemory,
}

impl From<OutOfMemory> for BytesFault {
    ghost from_gives = { λ _ fault. fault ≡ BytesMemory };

    fn from(_fault: OutOfMemory) -> BytesFault {
        BytesFault::OutOfMemory
    }
}

impl From<CertFault> for BytesFault {
    ghost from_gives = { λ fault made. made ≡ of_cert_fault fault };

    fn from(fault: CertFault) -> BytesFault {
        match fault {
            CertFault::OutOfMemory => BytesFault::OutOfMemory,
            fault => BytesFault::Cert(fault),
        }
    }
}
