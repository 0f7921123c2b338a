//! Boxes of a system's points: what a tree of boxes shows, and the tree that a search grows.
#![tactic(auto)]

mod boxes;
mod cert_node;
mod check_fault;
mod limits;
mod node;
mod outcome;
mod split_fault;
mod tree;

pub use cert_node::CertNode;
pub use check_fault::CheckFault;
pub use limits::NODE_LIMIT;
pub use node::Node;
pub use opt_base::Verdict;
pub use outcome::Outcome;
pub use split_fault::SplitFault;
pub use tree::Tree;

#[cfg(test)]
mod tests;
