//! The text of a certificate: its grammar, and its readers, line by line and whole.
#![tactic(auto)]

mod cert;
mod cert_fault;
mod cert_line;
mod entries;
mod limits;
mod line;
mod line_fault;
mod lines;
mod numbers;
mod pieces;
mod place;
mod point_entries;
mod reading;
mod verdict_text;
mod words;
mod writing;

pub use cert::{Cert, NodeList};
pub use cert_fault::CertFault;
pub use cert_line::CertLine;
pub use limits::{NUMBER_LIMIT, OBJECTIVE_LIMIT, VALUE_LIMIT};
pub use lines::Lines;
pub use opt_base::Verdict;
pub use opt_tree::CertNode;
pub use place::Place;
pub use point_entries::PointEntries;
pub use reading::read;
pub use verdict_text::{read_verdict, verdict_line};
pub use writing::write;

#[cfg(test)]
mod tests;
#[cfg(test)]
mod write_tests;
