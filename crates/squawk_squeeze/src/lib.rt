//! Squeezes SQL text: one character stands for each run of white space and comments.
#![tactic(auto)]

/// Laws of the definitions of squeezing: for proofs.
pub mod laws;
mod text;

pub use text::{squeeze, squeeze_lexed};

#[cfg(test)]
mod tests;
