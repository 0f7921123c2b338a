ghost use Rattle.std.specs.Prelude.{◌≡◌, ◌^◌, ◌<◌, ◌≤◌, ◌≤ℤ◌, pos, length, IfOk};
ghost use Rattle.opt_tree.specs.declared.limits.TheConstants.{NODE_LIMIT};
ghost use Rattle.opt_tree.specs.Certificates.{listed_point};
ghost use Rattle.opt_tree.specs.Shown.{shown, must_close};
ghost use Rattle.opt_tree.specs.Verdicts.{IsTrueVerdict};
ghost use Rattle.opt_check.specs.Answers.{Shows};
ghost use Rattle.opt_check.specs.Claims.{look_claims, look_nodes};

use crate::conclusion::conclude;
use crate::known::Known;
use crate::node::{Task, take_node};
use crate::point::look_point;
use crate::root_line::look_root;
use crate::seen::Seen;
use crate::walk::Walk;
use opt_bound::Mult;
use opt_cert::{Cert, PointEntries};
use opt_system::System;
use opt_tree::{CertNode, CheckFault, Verdict};
use std::alloc::Global;

/// What a certificate is judged by: a system, and by how much the value may lie above the bound, at least 0.
#[derive(Clone, Copy)]
pub struct Terms<'a> {
    pub system: &'a System,
    pub gap: i64,
}

/// The verdict of a certificate, where it shows it of the system, or the first fault: of the root line, of the point,
/// of the nodes in the file's order, of all nodes together.
///
/// `gap` is by how much the value may lie above the bound, at least 0, and `limit` how many nodes the tree may have,
/// from 1 to 1,000,000. It does not matter who wrote the certificate. It takes memory for the point and by the depth
/// of the tree.
pub fn check(
    alloc: Global,
    system: &System,
    gap: i64,
    limit: u32,
    cert: &Cert,
) -> Result<Verdict, CheckFault>
    requires gap_from_zero { pos 0 ≤ℤ gap }
    requires at_least_one { 1 ≤ limit }
    requires few_nodes { limit ≤ NODE_LIMIT }
    ensures shown { Shows (λ verdict. verdict) result (shown system.now gap limit cert.now) }
    ensures true_verdict { IfOk result (λ verdict.
        IsTrueVerdict system.now gap verdict (listed_point (length system.now.cost) cert.now.point)) }
{
    let _quantities = system.quantities();
    let terms = Terms { system, gap };
    let known = look_claims(alloc, &terms, cert.verdict, &cert.root, &cert.point)?;
    let task = Task {
        system,
        known: &known,
    };
    let seen = look_nodes(alloc, &task, cert.nodes.as_slice())?;
    conclude(limit, cert.verdict, &known, &seen)
}

/// What is known once the root line and the point were judged.
pub fn look_claims(
    alloc: Global,
    terms: &Terms<'_>,
    verdict: Verdict,
    root: &Mult,
    point: &Option<PointEntries>,
) -> Result<Known, CheckFault>
    requires { pos 0 ≤ℤ terms.now.gap }
    ensures { Shows (λ known. known) result
        (look_claims terms.now.system.now terms.now.gap verdict root.now point.now) }
{
    let root_bound = look_root(terms.system, verdict, root)?;
    let best = look_point(alloc, terms.system, verdict, point)?;
    Ok(Known {
        must_close: must_close(verdict),
        root_bound,
        best,
        gap: terms.gap,
    })
}

/// Whether the verdict says that each leaf is closed.
fn must_close(verdict: Verdict) -> bool
    ensures { result ≡ must_close verdict }
{
    match verdict {
        Verdict::Plan { .. } | Verdict::NoPlan => true,
        Verdict::Unfinished { .. } => false,
    }
}

/// What is seen of the nodes in order, on boxes that begin with the root's.
fn look_nodes(alloc: Global, task: &Task<'_>, nodes: &[CertNode]) -> Result<Seen, CheckFault>
    requires { length nodes.now < 2 ^ 32 }
    ensures { Shows (λ seen. seen) result
        (look_nodes task.now.system.now task.now.known.now nodes.now) }
{
    let mut walk = Walk::new(alloc, task.system.root())?;
    let mut seen = Seen::nothing();
    for node in nodes {
        take_node(task, &mut walk, &mut seen, node)?;
    }
    Ok(seen)
}
