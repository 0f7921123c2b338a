ghost use Rattle.std.specs.Prelude.{◌≡◌, ◌<◌, ◌-◌, ◌^◌, length, false};
ghost use Rattle.std.specs.Option.{option_map};
ghost use Rattle.std.specs.Str.{bytes_eq};
ghost use Rattle.opt_cert.specs.declared.cert_line.CertLine.TheVariants as line;
ghost use Rattle.opt_cert.specs.Numbers.{pieces};
ghost use Rattle.opt_cert.specs.Forms.{form, header_form, no_plan_form, verdict_form, numbers_form, best_form, root_form, entries_or_none, point_form, cut_form, node_form, end_form};
ghost use Rattle.opt_cert.specs.Ranges.{verdict_in_range, best_in_range};
ghost use Rattle.opt_cert.specs.Judging.{LineTells, judged_entries, judged_line, judged_multipliers, ranged};

use crate::cert_line::CertLine;
use crate::entries::{EntryKind, both, entries};
use crate::line_fault::LineFault;
use crate::numbers::{cut_value, multiplier, number, objective};
use crate::pieces::Pieces;
use crate::place::Place;
use crate::point_entries::PointEntries;
use opt_base::Verdict;
use opt_bound::Mult;
use opt_sums::is_rising;
use std::alloc::Global;

/// The line that this text is at a place of a certificate.
pub(crate) fn read_line(alloc: Global, place: Place, text: &[u8]) -> Result<CertLine, LineFault>
    ensures { LineTells (λ line. line) result (judged_line (form place (pieces 32 text.now))) }
{
    let words = Pieces::new(text, b' ');
    match place {
        Place::Header => header_line(words),
        Place::Verdict => Ok(CertLine::Verdict(verdict(words)?)),
        Place::Root { .. } => root_line(alloc, words),
        Place::Point { has_point } => point_line(alloc, has_point, words),
        Place::Nodes { trees: 0 } => end_line(words),
        Place::Nodes { .. } => node_line(alloc, words),
    }
}

/// Whether a word is this one.
fn is(word: &[u8], text: &str) -> bool
    ensures { result ≡ bytes_eq word.now text.now }
{
    word == text.as_bytes()
}

/// The first line.
fn header_line(words: Pieces<'_>) -> Result<CertLine, LineFault>
    ensures { result ≡ judged_line (header_form words.entry) }
{
    let Some((word, version)) = words.two() else {
        return Err(LineFault::BadLine);
    };
    if is(word, "optimus-certificate") && is(version, "1") {
        Ok(CertLine::Header)
    } else {
        Err(LineFault::BadLine)
    }
}

/// The verdict that these words are.
pub(crate) fn verdict(mut words: Pieces<'_>) -> Result<Verdict, LineFault>
    ensures { result ≡ ranged verdict_in_range (verdict_form words.entry) }
{
    let Some(word) = words.next() else {
        return Err(LineFault::BadLine);
    };
    if is(word, "no-plan") {
        return no_plan(words);
    }
    let Some((first, second)) = words.two() else {
        return Err(LineFault::BadLine);
    };
    verdict_of_numbers(word, first, second)
}

/// The verdict that names no numbers.
fn no_plan(mut words: Pieces<'_>) -> Result<Verdict, LineFault>
    ensures { result ≡ ranged verdict_in_range (no_plan_form words.entry) }
{
    match words.next() {
        None => Ok(Verdict::NoPlan),
        Some(_) => Err(LineFault::BadLine),
    }
}

/// The verdict with this first word and these numbers.
fn verdict_of_numbers(word: &[u8], first: &[u8], second: &[u8]) -> Result<Verdict, LineFault>
    ensures { result ≡ ranged verdict_in_range (numbers_form word.now (first.now, second.now)) }
{
    if is(word, "plan") {
        let (objective, bound) = both(objective(first), objective(second))?;
        Ok(Verdict::Plan { objective, bound })
    } else if is(word, "unfinished") {
        let (bound, best) = both(objective(first), best(second))?;
        Ok(Verdict::Unfinished { bound, best })
    } else {
        Err(LineFault::BadLine)
    }
}

/// The best known objective, or that there is none.
fn best(word: &[u8]) -> Result<Option<i128>, LineFault>
    ensures { result ≡ ranged best_in_range (best_form word.now) }
{
    if is(word, "none") {
        return Ok(None);
    }
    Ok(Some(objective(word)?))
}

/// The root line.
fn root_line(alloc: Global, mut words: Pieces<'_>) -> Result<CertLine, LineFault>
    requires { length words < 2 ^ 128 - 1 }
    ensures { LineTells (λ line. line) result (judged_line (root_form words.entry)) }
{
    let Some(word) = words.next() else {
        return Err(LineFault::BadLine);
    };
    if !is(word, "root") {
        return Err(LineFault::BadLine);
    }
    Ok(CertLine::Root(multipliers(alloc, words)?))
}

/// The multipliers that these words are: that of the objective, and those of rows.
fn multipliers(alloc: Global, mut words: Pieces<'_>) -> Result<Mult, LineFault>
    requires { length words < 2 ^ 128 - 1 }
    ensures { LineTells (λ mult. mult) result (judged_multipliers words.entry) }
{
    let Some(word) = words.next() else {
        return Err(LineFault::BadLine);
    };
    let (q, entries) = both(multiplier(word), entries(alloc, EntryKind::Rows, words))?;
    if !is_rising(&entries) {
        return Err(LineFault::Order);
    }
    Ok(Mult::new(alloc, q, &entries)?)
}

/// The point's line, with entries just where there is a point.
fn point_line(alloc: Global, has_point: bool, mut words: Pieces<'_>) -> Result<CertLine, LineFault>
    requires { length words < 2 ^ 128 - 1 }
    ensures { LineTells (λ line. line) result (judged_line (point_form has_point words.entry)) }
{
    let Some(word) = words.next() else {
        return Err(LineFault::BadLine);
    };
    if !is(word, "point") {
        return Err(LineFault::BadLine);
    }
    if has_point {
        Ok(CertLine::Point(Some(point(alloc, words)?)))
    } else {
        no_point(words)
    }
}

/// That there is no point.
fn no_point(words: Pieces<'_>) -> Result<CertLine, LineFault>
    ensures { result ≡ judged_line (option_map line.Point (entries_or_none false words.entry)) }
{
    match words.one() {
        Some(word) if is(word, "none") => Ok(CertLine::Point(None)),
        _ => Err(LineFault::BadLine),
    }
}

/// The entries of a point.
fn point(alloc: Global, words: Pieces<'_>) -> Result<PointEntries, LineFault>
    requires { length words < 2 ^ 128 - 1 }
    ensures { LineTells (λ point. point) result (judged_entries words.entry) }
{
    let entries = entries(alloc, EntryKind::Quantities, words)?;
    if !is_rising(&entries) {
        return Err(LineFault::Order);
    }
    Ok(PointEntries::new(entries))
}

/// The line of a node.
fn node_line(alloc: Global, mut words: Pieces<'_>) -> Result<CertLine, LineFault>
    requires { length words < 2 ^ 128 - 1 }
    ensures { LineTells (λ line. line) result (judged_line (node_form words.entry)) }
{
    let Some(word) = words.next() else {
        return Err(LineFault::BadLine);
    };
    if is(word, "split") {
        split_line(words)
    } else if is(word, "leaf") {
        Ok(CertLine::Leaf(multipliers(alloc, words)?))
    } else {
        Err(LineFault::BadLine)
    }
}

/// The quantity and the cut of a split.
fn split_line(words: Pieces<'_>) -> Result<CertLine, LineFault>
    ensures { result ≡ judged_line (cut_form words.entry) }
{
    let Some((quantity, at)) = words.two() else {
        return Err(LineFault::BadLine);
    };
    let (quantity, at) = both(number(quantity), cut_value(at))?;
    Ok(CertLine::Split { quantity, at })
}

/// The last line.
fn end_line(words: Pieces<'_>) -> Result<CertLine, LineFault>
    ensures { result ≡ judged_line (end_form words.entry) }
{
    match words.one() {
        Some(word) if is(word, "end") => Ok(CertLine::End),
        _ => Err(LineFault::BadLine),
    }
}
