//! Reads scripts of edits.
#![tactic(auto)]

mod form;
/// Laws of the definitions of scripts: for proofs.
pub mod laws;
mod number;
mod record;
mod script;

pub use record::Edit;
pub use script::{BadScript, Edits, Script};

#[cfg(test)]
mod tests;
