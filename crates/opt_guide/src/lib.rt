//! What proposes multipliers, candidates and cuts to a search. Nothing that a guide says is trusted.
#![tactic(auto)]

mod guide;
mod lie;
mod script;
#[cfg(test)]
mod tests;
mod zero;

pub use guide::Guide;
pub use lie::LieGuide;
pub use script::ScriptGuide;
pub use zero::ZeroGuide;
