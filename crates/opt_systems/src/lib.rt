//! Tests of whole systems: those of models, from their tables on, and what the simplex makes of their roots.
#![tactic(auto)]

#[cfg(test)]
mod tests;
