ghost use Rattle.std.specs.Prelude.{◌≡◌, ◌+◌, ◌<◌, ◌≤◌, ◌≤ℤ◌, pos, All, IfOk, OnOk};
ghost use Rattle.opt_system.specs.Ranges.{LiesIn};
ghost use Rattle.opt_check.specs.Answers.{Shows};
ghost use Rattle.opt_check.specs.Progress.{first_progress, take_line, with_node};

use crate::checker::{Terms, look_claims};
use crate::known::Known;
use crate::node::{Task, take_node};
use crate::seen::Seen;
use crate::walk::Walk;
use opt_base::OutOfMemory;
use opt_bound::Mult;
use opt_cert::CertLine;
use opt_system::System;
use opt_tree::{CertNode, CheckFault, Verdict};
use std::alloc::Global;

/// What is known of a certificate whose lines are taken one by one.
#[derive(Debug, Drop)]
pub struct Progress {
    pub verdict: Verdict,
    pub root: Mult,
    pub known: Known,
    pub walk: Walk,
    pub seen: Seen,
}

impl Progress {
    /// Before the first line. What stands here is replaced before it is looked at.
    pub fn new(alloc: Global, system: &System) -> Result<Progress, OutOfMemory>
        ensures { IfOk result (λ progress. progress ≡ first_progress system.now) }
    {
        Ok(Progress {
            verdict: Verdict::NoPlan,
            root: Mult::trivial(alloc),
            known: Known {
                must_close: false,
                root_bound: 0,
                best: None,
                gap: 0,
            },
            walk: Walk::new(alloc, system.root())?,
            seen: Seen::nothing(),
        })
    }

    /// Takes one line more.
    pub fn take_line(
        &mut self,
        alloc: Global,
        terms: &Terms<'_>,
        line: CertLine,
    ) -> Result<(), CheckFault>
        requires gap_from_zero { pos 0 ≤ℤ terms.now.gap }
        requires within { All (LiesIn terms.now.system.now.root) self.old.walk }
        requires room { self.old.seen.nodes < u32.MAX }
        ensures taken { Shows (λ _. self.new) result
            (take_line terms.now.system.now terms.now.gap line self.old) }
        ensures within { OnOk result (All (LiesIn terms.now.system.now.root) self.new.walk) }
        ensures counted { OnOk result (self.new.seen.nodes ≤ self.old.seen.nodes + 1) }
    {
        match line {
            CertLine::Header | CertLine::End => Ok(()),
            CertLine::Verdict(verdict) => {
                self.verdict = verdict;
                Ok(())
            }
            CertLine::Root(root) => {
                self.root = root;
                Ok(())
            }
            CertLine::Point(point) => {
                self.known = look_claims(alloc, terms, self.verdict, &self.root, &point)?;
                Ok(())
            }
            CertLine::Split { quantity, at } => {
                self.take_node(terms.system, &CertNode::Split { quantity, at })
            }
            CertLine::Leaf(mult) => self.take_node(terms.system, &CertNode::Leaf(mult)),
        }
    }

    /// Takes one node more.
    fn take_node(&mut self, system: &System, node: &CertNode) -> Result<(), CheckFault>
        requires within { All (LiesIn system.now.root) self.old.walk }
        requires room { self.old.seen.nodes < u32.MAX }
        ensures taken { Shows (λ _. self.new) result (with_node system.now node.now self.old) }
        ensures within { OnOk result (All (LiesIn system.now.root) self.new.walk) }
        ensures counted { OnOk result (self.new.seen.nodes ≤ self.old.seen.nodes + 1) }
    {
        let task = Task {
            system,
            known: &self.known,
        };
        take_node(&task, &mut self.walk, &mut self.seen, node)
    }
}
