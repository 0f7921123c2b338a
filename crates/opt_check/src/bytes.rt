ghost use Rattle.std.specs.Prelude.{◌≡◌, ◌+◌, ◌^◌, ◌<◌, ◌≤◌, ◌≤ℤ◌, pos, All, length, IfOk};
ghost use Rattle.opt_system.specs.Ranges.{LiesIn};
ghost use Rattle.opt_tree.specs.declared.limits.TheConstants.{NODE_LIMIT};
ghost use Rattle.opt_tree.specs.Certificates.{Certificate};
ghost use Rattle.opt_tree.specs.Shown.{shown};
ghost use Rattle.opt_tree.specs.Trees.{node_count};
ghost use Rattle.opt_cert.specs.Wholes.{IsTextOf};
ghost use Rattle.opt_check.specs.Bytes.{IsOfText, IsOfShown, IsTrueOfText, IsOwnFault, IsNext};
ghost use Rattle.opt_check.specs.Progress.{take_line, at_hand, after_line, answer_of};

use crate::bytes_fault::BytesFault;
use crate::checker::Terms;
use crate::conclusion::conclude;
use crate::progress::Progress;
use opt_base::OutOfMemory;
use opt_cert::{CertFault, CertLine, Lines};
use opt_system::System;
use opt_tree::{CheckFault, Verdict};
use std::alloc::Global;

/// The verdict that a certificate's text shows, with the number of its nodes, or why it shows none: the first fault of the
/// text, else the first fault of what it shows. The text has fewer than 2^32 bytes, and the rest is as for `check`.
///
/// The text is read once, line by line, and to its end, also where a fault of what it shows came before. Beside the point
/// it takes memory by the depth of the tree and for one line.
pub fn check_bytes(
    alloc: Global,
    system: &System,
    gap: i64,
    limit: u32,
    bytes: &[u8],
) -> Result<(Verdict, u32), BytesFault>
    requires gap_from_zero { pos 0 ≤ℤ gap }
    requires at_least_one { 1 ≤ limit }
    requires few_nodes { limit ≤ NODE_LIMIT }
    requires few { length bytes.now < 2 ^ 32 }
    ensures text { IsOfText result bytes.now }
    ensures shown { (c : Certificate) → IsTextOf c bytes.now
        → IsOfShown result (shown system.now gap limit c) (node_count c.tree) }
    ensures true_verdict { IfOk result (λ answer.
        IsTrueOfText system.now gap bytes.now answer.0) }
    ensures own_fault { IsOwnFault result }
{
    let _quantities = system.quantities();
    let terms = Terms { system, gap };
    let mut progress = Progress::new(alloc, system)?;
    let mut held = None;
    let mut lines = Lines::new(bytes);
    while let Some(line) = next_line(&mut lines, alloc)? {
        held = hold_line(alloc, &terms, &mut progress, held, line)?;
    }
    answer(limit, &progress, held)
}

/// The next line, or none where it is the last.
fn next_line(lines: &mut Lines<'_>, alloc: Global) -> Result<Option<CertLine>, CertFault>
    ensures { IsNext lines.old lines.new result }
{
    let line = lines.next(alloc)?;
    match line {
        CertLine::End => Ok(None),
        line => Ok(Some(line)),
    }
}

/// Takes one line more, unless a fault is held. Its own fault is held from then on.
fn hold_line(
    alloc: Global,
    terms: &Terms<'_>,
    progress: &mut Progress,
    held: Option<CheckFault>,
    line: CertLine,
) -> Result<Option<CheckFault>, OutOfMemory>
    requires gap_from_zero { pos 0 ≤ℤ terms.now.gap }
    requires within { held ≡ None → All (LiesIn terms.now.system.now.root) progress.old.walk }
    requires room { held ≡ None → progress.old.seen.nodes < u32.MAX }
    ensures held { IfOk result (λ after. at_hand after progress.new
        ≡ after_line terms.now.system.now terms.now.gap line (at_hand held progress.old)) }
    ensures within { IfOk result (λ after. after ≡ None
        → All (LiesIn terms.now.system.now.root) progress.new.walk) }
    ensures counted { IfOk result (λ after. after ≡ None
        → progress.new.seen.nodes ≤ progress.old.seen.nodes + 1) }
{
    if held.is_some() {
        return Ok(held);
    }
    match progress.take_line(alloc, terms, line) {
        Ok(()) => Ok(None),
        Err(CheckFault::OutOfMemory) => Err(OutOfMemory),
        Err(fault) => Ok(Some(fault)),
    }
}

/// What is answered once the text was read to its end.
fn answer(
    limit: u32,
    progress: &Progress,
    held: Option<CheckFault>,
) -> Result<(Verdict, u32), BytesFault>
    ensures { result ≡ answer_of limit progress.now held }
{
    if let Some(fault) = held {
        return Err(BytesFault::Check(fault));
    }
    let seen = &progress.seen;
    match conclude(limit, progress.verdict, &progress.known, seen) {
        Ok(verdict) => Ok((verdict, seen.nodes)),
        Err(fault) => Err(BytesFault::Check(fault)),
    }
}
