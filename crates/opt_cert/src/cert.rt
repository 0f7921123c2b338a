ghost use Rattle.std.specs.Prelude.{◌≡◌};

use crate::point_entries::PointEntries;
use opt_base::Verdict;
use opt_bound::Mult;
use opt_tree::CertNode;
use std::marker::Model;

/// The nodes of a certificate's tree in the file's order: each split before its left tree and that before its right tree.
#[derive(Debug, Drop)]
pub struct NodeList {
    nodes: Vec<CertNode>,
}

impl Model for NodeList {
    ghost use Rattle.std.specs.Prelude.{List};
    ghost use Rattle.opt_tree.specs.declared.cert_node.CertNode.{CertNode};

    ghost Value = { List CertNode };

    ghost view = { λ list. list.nodes.items };
}

impl NodeList {
    /// These nodes.
    pub(crate) fn new(nodes: Vec<CertNode>) -> NodeList
        ensures { result ≡ nodes.items }
    {
        NodeList { nodes }
    }

    /// The nodes in the file's order.
    pub fn as_slice(&self) -> &[CertNode]
        ensures { result.now ≡ self.now }
    {
        &self.nodes
    }
}

/// A certificate that was read: always a whole one, with fewer than 2^32 nodes. Contracts see it with its tree.
#[derive(Debug, Drop)]
pub struct Cert {
    pub verdict: Verdict,
    pub root: Mult,
    /// The entries of the point, where the verdict names an objective or a best.
    pub point: Option<PointEntries>,
    pub nodes: NodeList,
}

impl Model for Cert {
    ghost use Rattle.opt_tree.specs.Certificates.{Certificate};
    ghost use Rattle.opt_cert.specs.Codes.{coded_certificate};
    ghost use Rattle.opt_cert.specs.Forests.{certificate_of_nodes, AreNodesOf};

    ghost Value = { Certificate };

    ghost coded = { coded_certificate };

    ghost view = { λ c. certificate_of_nodes c.verdict c.root c.point c.nodes };

    ghost invariant = { λ c. AreNodesOf (certificate_of_nodes c.verdict c.root c.point c.nodes) c.nodes };
}
