ghost use Rattle.std.specs.Prelude.{◌≡◌, ◌≢◌, IfOk, IfSome, IfNone, string_bytes};
ghost use Rattle.opt_base.specs.declared.verdict.Verdict.{Verdict as VerdictOf};
ghost use Rattle.opt_tree.specs.Certificates.{HasRanges};
ghost use Rattle.opt_cert.specs.Texts.{verdict_text};

use crate::line::verdict;
use crate::pieces::Pieces;
use opt_base::{Blob, OutOfMemory, Verdict};
use std::alloc::{AllocError, Global};

/// The verdict's line in a certificate, without its line feed. Its numbers are from 0 to 2^126.
pub fn verdict_line(alloc: Global, verdict: &Verdict) -> Result<Blob, OutOfMemory>
    requires { HasRanges verdict.now }
    ensures { IfOk result (λ blob. blob ≡ verdict_text verdict.now) }
{
    let text = text(alloc, verdict)?;
    Blob::from_slice(alloc, text.as_bytes())
}

/// The words of a verdict, parted by one space.
pub(crate) fn text(alloc: Global, verdict: &Verdict) -> Result<String, AllocError>
    ensures { IfOk result (λ text. string_bytes text ≡ verdict_text verdict.now) }
{
    match verdict {
        Verdict::Plan { objective, bound } => format!(in alloc; "plan {objective} {bound}"),
        Verdict::NoPlan => String::from_str(alloc, "no-plan"),
        Verdict::Unfinished {
            bound,
            best: Some(best),
        } => format!(in alloc; "unfinished {bound} {best}"),
        Verdict::Unfinished { bound, best: None } => format!(in alloc; "unfinished {bound} none"),
    }
}

/// The verdict of such a line, where the bytes are one with its numbers in range.
pub fn read_verdict(bytes: &[u8]) -> Option<Verdict>
    ensures some { IfSome result (λ verdict. verdict_text verdict ≡ bytes.now) }
    ensures ranges { IfSome result (λ verdict. HasRanges verdict) }
    ensures none { IfNone result ((v : VerdictOf) → HasRanges v → verdict_text v ≢ bytes.now) }
{
    verdict(Pieces::new(bytes, b' ')).ok()
}
