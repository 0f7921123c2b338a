ghost use Rattle.std.specs.Prelude.{◌≡◌};
ghost use Rattle.opt_tree.specs.declared.split_fault.SplitFault.TheVariants.{OutOfMemory as SplitMemory};

use opt_base::OutOfMemory;
use std::alloc::AllocError;

/// Why a node was not split. After each the tree is as before.
#[derive(Clone, Copy, Debug, PartialEq, Eq)]
pub enum SplitFault {
    /// The node is split already.
    NotLeaf,
    /// There is no such quantity, or one of the halves would have no value.
    BadCut,
    /// There was no memory for the work.
    OutOfMemory,
}

impl From<OutOfMemory> for SplitFault {
    ghost from_gives = { λ _ fault. fault ≡ SplitMemory };

    fn from(_fault: OutOfMemory) -> SplitFault {
        SplitFault::OutOfMemory
    }
}

impl From<AllocError> for SplitFault {
    ghost from_gives = { λ _ fault. fault ≡ SplitMemory };

    fn from(_refused: AllocError) -> SplitFault {
        SplitFault::OutOfMemory
    }
}
