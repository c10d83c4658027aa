//! The steps and errors of a syntax tree, the traits that produce and receive them, and the errors
//! of the front end.
#![tactic(auto)]

mod error;
mod grammar;
mod input;
pub mod laws;
mod limit;
mod messages;
mod output;
mod sink;
mod steps;
#[cfg(test)]
mod tests;
mod trivia;

pub use error::FrontError;
pub use grammar::{EntryPoint, Grammar};
pub use input::Input;
pub use limit::LIMIT;
pub use messages::message;
pub use output::Output;
pub use sink::StepSink;
pub use steps::{ParseError, Step, StrStep};
pub use trivia::is_trivia;
