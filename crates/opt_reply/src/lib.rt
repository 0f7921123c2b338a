//! What a command answers with, and its delivery to a shelf and two sinks.
#![tactic(auto)]

mod delivery;
mod reply;
#[cfg(test)]
mod tests;

pub use delivery::deliver;
pub use reply::Reply;

/// The status where the outside failed.
pub const OUTSIDE: u8 = 4;

/// The status where memory ran out.
pub const MEMORY: u8 = 5;
