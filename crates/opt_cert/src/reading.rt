ghost use Rattle.std.specs.Prelude.{◌≡◌, ◌<◌, ◌^◌, ◌++◌, ◌∷◌, [], map, OnOk, IfOk, Bool, ℕ, is_some, length};
ghost use Rattle.opt_tree.specs.Certificates.{Certificate, IsCertificate, HasRanges, AreWritable, HasEntries, named_value};
ghost use Rattle.opt_cert.specs.declared.cert_fault.CertFault.TheVariants.{Truncated, Trailing};
ghost use Rattle.opt_cert.specs.declared.cert_line.CertLine.TheVariants as line;
ghost use Rattle.opt_cert.specs.declared.place.Place.TheVariants as place;
ghost use Rattle.opt_cert.specs.Forests.{AreTreeNodes};
ghost use Rattle.opt_cert.specs.Reading.{Tells, lines_left, text_lines};
ghost use Rattle.opt_cert.specs.Steps.{Passes, PassesNode};
ghost use Rattle.opt_cert.specs.Texts.{certificate_text, lines_of, node_line};
ghost use Rattle.opt_cert.specs.Wholes.{IsTextOf, IsFrontOf, IsLongerThan, IsOwnText, IsAnswer, IsRefusal};

use crate::cert::{Cert, NodeList};
use crate::cert_fault::CertFault;
use crate::cert_line::CertLine;
use crate::lines::Lines;
use crate::point_entries::PointEntries;
use opt_base::Verdict;
use opt_bound::Mult;
use opt_tree::CertNode;
use std::alloc::Global;

/// The certificate that these bytes are the text of, or the first fault. The text has fewer than 2^32 bytes.
pub fn read(alloc: Global, bytes: &[u8]) -> Result<Cert, CertFault>
    requires { length bytes.now < 2 ^ 32 }
    ensures lines { Tells (λ cert. lines_of cert) result (text_lines bytes.now) }
    ensures certificate { IfOk result (λ cert. IsCertificate cert) }
    // The text of what is answered, and of each certificate its own answer.
    ensures text { IfOk result (λ cert. bytes.now ≡ certificate_text cert) }
    ensures back { (c : Certificate) → IsTextOf c bytes.now → IsAnswer result c }
    // No certificate has the text of another, nor one that begins another's.
    ensures own { IsOwnText bytes.now }
    ensures front { (c : Certificate) → IsFrontOf c bytes.now → IsRefusal result Truncated }
    ensures longer { (c : Certificate) → IsLongerThan c bytes.now → IsRefusal result Trailing }
{
    let mut lines = Lines::new(bytes);
    certificate(alloc, &mut lines)
}

/// Reads a certificate from its first line to its last.
fn certificate(alloc: Global, lines: &mut Lines<'_>) -> Result<Cert, CertFault>
    requires { lines.old.place ≡ place.Header }
    ensures lines { Tells (λ cert. lines_of cert) result (lines_left lines.old) }
    ensures certificate { IfOk result (λ cert. IsCertificate cert) }
{
    pass_header(alloc, lines)?;
    let verdict = verdict_line(alloc, lines)?;
    let root = root_line(alloc, lines)?;
    let point = point_line(alloc, lines)?;
    let nodes = node_lines(alloc, lines)?;
    Ok(Cert {
        verdict,
        root,
        point,
        nodes: NodeList::new(nodes),
    })
}

/// Passes the first line.
fn pass_header(alloc: Global, lines: &mut Lines<'_>) -> Result<(), CertFault>
    requires { lines.old.place ≡ place.Header }
    ensures passes { Passes (λ _. line.Header) result lines.old lines.new }
    ensures place { OnOk result (lines.new.place ≡ place.Verdict) }
{
    match lines.next(alloc)? {
        CertLine::Header => Ok(()),
        _ => unreachable!(),
    }
}

/// Passes the verdict's line.
fn verdict_line(alloc: Global, lines: &mut Lines<'_>) -> Result<Verdict, CertFault>
    requires { lines.old.place ≡ place.Verdict }
    ensures passes { Passes (λ verdict. line.Verdict verdict) result lines.old lines.new }
    ensures place { IfOk result (λ verdict. lines.new.place ≡ place.Root (is_some (named_value verdict))) }
    ensures ranges { IfOk result (λ verdict. HasRanges verdict) }
{
    match lines.next(alloc)? {
        CertLine::Verdict(verdict) => Ok(verdict),
        _ => unreachable!(),
    }
}

/// Passes the root line.
fn root_line(alloc: Global, lines: &mut Lines<'_>) -> Result<Mult, CertFault>
    requires { (has_point : Bool) × (lines.old.place ≡ place.Root has_point) }
    ensures passes { Passes (λ root. line.Root root) result lines.old lines.new }
    ensures place { OnOk result ((has_point : Bool) → lines.old.place ≡ place.Root has_point → lines.new.place ≡ place.Point has_point) }
    ensures writable { IfOk result (λ root. AreWritable root) }
{
    match lines.next(alloc)? {
        CertLine::Root(root) => Ok(root),
        _ => unreachable!(),
    }
}

/// Passes the point's line.
fn point_line(alloc: Global, lines: &mut Lines<'_>) -> Result<Option<PointEntries>, CertFault>
    requires { (has_point : Bool) × (lines.old.place ≡ place.Point has_point) }
    ensures passes { Passes (λ point. line.Point point) result lines.old lines.new }
    ensures place { OnOk result (lines.new.place ≡ place.Nodes 1) }
    ensures entries { IfOk result (λ point. HasEntries point) }
    ensures where_named { IfOk result (λ point. (has_point : Bool) → lines.old.place ≡ place.Point has_point → is_some point ≡ has_point) }
{
    match lines.next(alloc)? {
        CertLine::Point(point) => Ok(point),
        _ => unreachable!(),
    }
}

/// Reads the nodes of one tree, and the last line.
fn node_lines(alloc: Global, lines: &mut Lines<'_>) -> Result<Vec<CertNode>, CertFault>
    requires { lines.old.place ≡ place.Nodes 1 }
    ensures lines { Tells (λ nodes. map node_line nodes.items ++ line.End ∷ []) result (lines_left lines.old) }
    ensures tree { IfOk result (λ nodes. AreTreeNodes nodes.items) }
{
    let mut nodes = Vec::new(alloc);
    while let Some(node) = next_node(alloc, lines)? {
        nodes.push(node)?;
    }
    Ok(nodes)
}

/// The next node, while trees are still to come; then passes the last line.
fn next_node(alloc: Global, lines: &mut Lines<'_>) -> Result<Option<CertNode>, CertFault>
    requires { (trees : ℕ) × (lines.old.place ≡ place.Nodes trees) }
    ensures { PassesNode result lines.old lines.new }
{
    match lines.next(alloc)? {
        CertLine::Split { quantity, at } => Ok(Some(CertNode::Split { quantity, at })),
        CertLine::Leaf(mult) => Ok(Some(CertNode::Leaf(mult))),
        CertLine::End => Ok(None),
        _ => unreachable!(),
    }
}
