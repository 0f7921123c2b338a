ghost use Rattle.std.specs.Prelude.{◌≡◌, ◌∷◌, ◌+◌, ◌<◌, ◌^◌, IfOk, OnErr, length, is_some};
ghost use Rattle.opt_tree.specs.Certificates.{named_value};
ghost use Rattle.opt_cert.specs.Numbers.{pieces};
ghost use Rattle.opt_cert.specs.Judging.{fault_at};
ghost use Rattle.opt_cert.specs.Stands.{Stands};
ghost use Rattle.opt_cert.specs.Reading.{Tells, next_line, next_of, reader_after, reader_of, is_last, place_after, unless_trailing, trees_after, has_point_after, HasTrees};

use crate::cert_fault::CertFault;
use crate::cert_line::CertLine;
use crate::line::read_line;
use crate::line_fault::LineFault;
use crate::pieces::cut;
use crate::place::Place;
use opt_base::Verdict;
use std::alloc::Global;
use std::marker::Model;

/// A certificate's text, read line by line: beside the text itself it takes memory for one line alone.
///
/// It stays at the last line and at a line that cannot stand, so that these are answered again and again.
#[derive(Drop)]
pub struct Lines<'a> {
    place: Place,
    passed: u32,
    rest: &'a [u8],
}

impl<'a> Model for Lines<'a> {
    ghost use Rattle.opt_cert.specs.Reading.{Reader, IsReader};
    ghost use Rattle.opt_cert.specs.Numbers.{pieces};

    ghost Value = { Reader };

    ghost view = { λ l. record { place = l.place; passed = l.passed; pieces = pieces 10 l.rest.now } };

    ghost invariant = { λ l. IsReader l.place l.passed l.rest.now };
}

impl<'a> Lines<'a> {
    /// A reader before the first line of this text, which has fewer than 2^32 bytes.
    pub fn new(bytes: &'a [u8]) -> Lines<'a>
        requires { length bytes.now < 2 ^ 32 }
        ensures { result ≡ reader_of bytes.now }
    {
        Lines {
            place: Place::Header,
            passed: 0,
            rest: bytes,
        }
    }

    /// The next line, or why none can stand here: BadLine, Range and Order with the line's number, Truncated where no
    /// complete line is left, and Trailing where the line is `end` and bytes follow it.
    ///
    /// A line that is given is of the kind that its place wants, its numbers are in range and its entries rise.
    ///
    /// After a line the reader stands before the line after it. After `End` and after a fault it stands where it stood,
    /// and answers the same again.
    pub fn next(&mut self, alloc: Global) -> Result<CertLine, CertFault>
        ensures line { Tells (λ line. line) result (next_line self.old) }
        ensures after { IfOk result (λ line. self.new ≡ reader_after self.old line) }
        ensures stays { OnErr result (self.new ≡ self.old) }
        ensures stands { IfOk result (Stands self.old.place) }
        ensures few { self.new.passed < 2 ^ 32 }
    {
        let Some((text, rest)) = cut(self.rest, b'\n') else {
            return Err(CertFault::Truncated);
        };
        let line = line_before(alloc, self.place, self.passed + 1, text, rest)?;
        if is_last(&line) {
            return Ok(line);
        }
        self.place = place_after(self.place, &line, self.passed);
        self.passed += 1;
        self.rest = rest;
        Ok(line)
    }
}

/// The line that this text is at a place, with this number, where the rest stands after its line feed.
fn line_before(
    alloc: Global,
    place: Place,
    number: u32,
    text: &[u8],
    rest: &[u8],
) -> Result<CertLine, CertFault>
    ensures line { Tells (λ line. line) result (next_of place number (text.now ∷ pieces 10 rest.now)) }
    ensures stands { IfOk result (Stands place) }
{
    match read_line(alloc, place, text) {
        Ok(line) => unless_trailing(line, rest),
        Err(fault) => Err(fault_at(number, fault)),
    }
}

/// The line, unless it is the last one and bytes follow it.
fn unless_trailing(line: CertLine, rest: &[u8]) -> Result<CertLine, CertFault>
    ensures { result ≡ unless_trailing (pieces 10 rest.now) line }
{
    if is_last(&line) {
        if rest.is_empty() {
            Ok(line)
        } else {
            Err(CertFault::Trailing)
        }
    } else {
        Ok(line)
    }
}

/// The fault of the line with this number.
fn fault_at(number: u32, fault: LineFault) -> CertFault
    ensures { result ≡ fault_at number fault }
{
    match fault {
        LineFault::BadLine => CertFault::BadLine(number),
        LineFault::Range => CertFault::Range(number),
        LineFault::Order => CertFault::Order(number),
        LineFault::OutOfMemory => CertFault::OutOfMemory,
    }
}

/// Whether this is the last line.
fn is_last(line: &CertLine) -> bool
    ensures { result ≡ is_last line.now }
{
    matches!(line, CertLine::End)
}

/// Which lines may stand after this one, where so many were passed before it.
fn place_after(place: Place, line: &CertLine, passed: u32) -> Place
    requires few { passed + 1 < 2 ^ 32 }
    requires trees { HasTrees place passed }
    ensures { result ≡ place_after place line.now }
{
    match place {
        Place::Header => Place::Verdict,
        Place::Verdict => Place::Root {
            has_point: has_point_after(line),
        },
        Place::Root { has_point } => Place::Point { has_point },
        Place::Point { .. } => Place::Nodes { trees: 1 },
        Place::Nodes { trees } => Place::Nodes {
            trees: trees_after(trees, line),
        },
    }
}

/// Whether a point follows: the line is a verdict that names an objective or a best.
fn has_point_after(line: &CertLine) -> bool
    ensures { result ≡ has_point_after line.now }
{
    match line {
        CertLine::Verdict(verdict) => names_point(verdict),
        _ => false,
    }
}

/// Whether the verdict names an objective or a best.
fn names_point(verdict: &Verdict) -> bool
    ensures { result ≡ is_some (named_value verdict.now) }
{
    match verdict {
        Verdict::Plan { .. } => true,
        Verdict::NoPlan => false,
        Verdict::Unfinished { best, .. } => best.is_some(),
    }
}

/// How many trees are still to come: a split has two, and a leaf is one.
fn trees_after(trees: u32, line: &CertLine) -> u32
    requires { trees + 1 < 2 ^ 32 }
    ensures { result ≡ trees_after trees line.now }
{
    match line {
        CertLine::Split { .. } => trees + 1,
        CertLine::Leaf(_) => trees.saturating_sub(1),
        _ => trees,
    }
}
