//! Writes values as SQL: string constants, dollar-quoted strings and quoted identifiers. Reads them
//! back.
#![tactic(auto)]

/// Laws of the definitions of values: for proofs.
pub mod laws;
mod tag;
mod values;
mod writers;

pub use values::value_of;
pub use writers::{quote_dollar, quote_ident, quote_string};

#[cfg(test)]
mod tests;
