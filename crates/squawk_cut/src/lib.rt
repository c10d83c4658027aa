//! Fronts, which cut a text into tokens and parse its root children one at a time, and the tree of
//! root children in order.
#![tactic(auto)]

mod child;
mod front;
pub mod laws;
mod plain;
#[cfg(test)]
mod tests;
mod tree;

pub use child::Child;
pub use front::Front;
pub use plain::PlainFront;
pub use squawk_events::{FrontError, ParseError, StrStep};
pub use squawk_lexer::{Strings, Token, TokenKind};
pub use squawk_statements::Division;
pub use squawk_tree::Parse;
pub use tree::join;
