//! The checker of certificates: what a certificate shows of a system, whoever wrote it.
#![tactic(auto)]

mod bytes;
mod bytes_fault;
mod checker;
mod conclusion;
mod known;
mod lines;
mod node;
mod point;
mod progress;
mod root_line;
mod seen;
mod walk;
mod way;

pub use bytes::check_bytes;
pub use bytes_fault::BytesFault;
pub use checker::check;
pub use lines::{line_of_cert_fault, line_of_check_fault};
pub use opt_tree::{CheckFault, Verdict};

#[cfg(test)]
mod tests;
