//! Clauses: a grammar whose trees have a node for each clause of a `SELECT` statement.
#![tactic(auto)]

mod grammar;
pub mod laws;
mod parse;
#[cfg(test)]
mod tests;

pub use grammar::ClauseGrammar;
pub use parse::parse_clauses;
