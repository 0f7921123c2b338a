ghost use Rattle.std.specs.Prelude.{◌≡◌, ◌+◌, ◌≤◌, ◌↔◌, IsTrue};
ghost use Rattle.opt_tree.specs.Shown.{bound_shown, judge_bound, conclude};

use crate::known::Known;
use crate::seen::Seen;
use opt_tree::{CheckFault, Verdict};

/// What all nodes show together: the verdict, or UnderLimit, NothingOpen or WrongBound.
pub fn conclude(
    limit: u32,
    verdict: Verdict,
    known: &Known,
    seen: &Seen,
) -> Result<Verdict, CheckFault>
    ensures { result ≡ conclude limit verdict known.now seen.now }
{
    match verdict {
        Verdict::Plan { bound, .. } => judge_bound(verdict, known, seen.least, bound),
        Verdict::NoPlan => Ok(verdict),
        Verdict::Unfinished { bound, .. } => {
            if has_room(seen.nodes, limit) {
                return Err(CheckFault::UnderLimit { nodes: seen.nodes });
            }
            if !seen.any_open {
                return Err(CheckFault::NothingOpen);
            }
            judge_bound(verdict, known, seen.least, bound)
        }
    }
}

/// Whether one split more would be within the limit.
fn has_room(nodes: u32, limit: u32) -> bool
    ensures { IsTrue result ↔ (nodes + 2 ≤ limit) }
{
    u64::from(nodes) + 2 <= u64::from(limit)
}

/// The verdict, where its printed bound is the one that is shown.
fn judge_bound(
    verdict: Verdict,
    known: &Known,
    least: Option<i128>,
    printed: i128,
) -> Result<Verdict, CheckFault>
    ensures { result ≡ judge_bound verdict known.now least printed }
{
    let value = bound_shown(known, least);
    if printed == value {
        Ok(verdict)
    } else {
        Err(CheckFault::WrongBound { value })
    }
}

/// The bound that is shown: the least lower bound of the leaves, at least that of the root line and at most the best
/// value; where all leaves are empty, the best value.
fn bound_shown(known: &Known, least: Option<i128>) -> i128
    ensures { result ≡ bound_shown known.now.root_bound known.now.best least }
{
    match (least, known.best) {
        (Some(least), Some(best)) => best.min(known.root_bound.max(least)),
        (Some(least), None) => known.root_bound.max(least),
        (None, Some(best)) => best,
        (None, None) => known.root_bound,
    }
}
