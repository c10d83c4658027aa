//! Statements and groups: the division of a text's kinds into the children of the root, the node of
//! each, and the grammars that turn both into steps.
#![tactic(auto)]

mod division;
mod first;
pub mod laws;
mod node;
mod plain;
mod rows;
#[cfg(test)]
mod tests;

pub use division::{Division, ends_statement};
pub use first::{ChildShape, first_child, first_child_in};
pub use node::opening;
pub use plain::{GroupedGrammar, PlainGrammar, emit_child, emit_exits, emit_token};
