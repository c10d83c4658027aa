//! Lossless syntax trees: balanced lists of steps whose tokens cover a text, and its errors.
#![tactic(auto)]

mod builder;
mod child_grammar;
mod child_steps;
mod children;
mod errors;
pub mod laws;
mod parse;
mod sink;
mod source;
mod spans;
mod step_ranges;
mod tables;
#[cfg(test)]
mod tests;

pub use builder::TreeBuilder;
pub use child_grammar::{ChildGrammar, PlainChildren};
pub use child_steps::{emit_exits, emit_in_groups, emit_tokens, parse_children, parse_statements};
pub use children::ChildSpan;
pub use parse::Parse;
pub use sink::TreeSink;
pub use source::{
    parse_divided, parse_lexed, parse_source, parse_source_in, parse_with, parse_with_in,
};
pub use squawk_lexer::Strings;
pub use squawk_statements::Division;
pub use step_ranges::StepRanges;
