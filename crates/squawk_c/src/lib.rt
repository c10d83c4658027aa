//! The lexer and the trees, to be called from C, and from other languages through C.
//!
//! `bindings/c/include/squawk.h` declares the calls, and says what a caller owes. All memory is the
//! caller's: a call keeps no pointer, and calls share nothing. A slice is passed as a pointer and a
//! length, and nothing for a `Global` (`docs/BINDINGS.md`).
#![tactic(auto)]

mod errors;
mod names;
mod options;
mod parse;
mod status;
mod steps;
mod text;
mod token;
mod tokens;

pub use errors::SquawkError;
pub use names::{squawk_kind_name, squawk_message};
pub use parse::squawk_parse;
pub use steps::SquawkStep;
pub use text::{squawk_check, squawk_version};
pub use token::SquawkToken;
pub use tokens::{squawk_tokens, squawk_tokens_unchecked};

#[cfg(test)]
mod tests;
