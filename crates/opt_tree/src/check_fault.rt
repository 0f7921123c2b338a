ghost use Rattle.std.specs.Prelude.{◌≡◌};
ghost use Rattle.opt_tree.specs.declared.check_fault.CheckFault.TheVariants.{OutOfMemory as CheckMemory};

use opt_base::OutOfMemory;
use std::alloc::AllocError;

/// Why a certificate does not show its verdict. Nodes are numbered from 0, each split before its left tree and that
/// before its right tree.
#[derive(Clone, Copy, Debug, PartialEq, Eq)]
pub enum CheckFault {
    /// The root's multipliers are not admissible, or show that no point meets the rows though the verdict has one.
    RootLine,
    /// The point's value of this quantity leaves its range, or there is no such quantity.
    PlanRange { quantity: u32 },
    /// The point does not meet this row, the first such.
    PlanBroken { row: u32 },
    /// The printed objective or best is not the point's value, which is this.
    WrongObjective { value: i128 },
    /// The node is split at a quantity that there is not, or not within that quantity's range in its box.
    CutRange { node: u32 },
    /// The leaf's first wrong multiplier names this row, and there is no such row.
    RowNumber { node: u32, row: u32 },
    /// The leaf's first wrong multiplier is below 0, and its row is one that is at least its right-hand side.
    Sign { node: u32, row: u32 },
    /// The verdict says that each leaf is closed, and this one is not: `bound` is the lower bound that is shown of it.
    LeafOpen { node: u32, bound: i128 },
    /// The verdict says that the search met its limit, but with this many nodes one more split was within it.
    UnderLimit { nodes: u32 },
    /// The verdict is unfinished, but each leaf is closed.
    NothingOpen,
    /// The printed bound is not the one that the tree shows, which is this.
    WrongBound { value: i128 },
    /// There was no memory for the work.
    OutOfMemory,
}

impl From<OutOfMemory> for CheckFault {
    ghost from_gives = { λ _ fault. fault ≡ CheckMemory };

    fn from(_fault: OutOfMemory) -> CheckFault {
        CheckFault::OutOfMemory
    }
}

impl From<AllocError> for CheckFault {
    ghost from_gives = { λ _ fault. fault ≡ CheckMemory };

    fn from(_refused: AllocError) -> CheckFault {
        CheckFault::OutOfMemory
    }
}
