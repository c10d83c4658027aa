//! Documents: texts with their tokens and the children of their root, which are edited in place.
//!
//! An edit cuts and parses only what it changes. What a document holds is what a new document of
//! its current text would hold.
#![tactic(auto)]

mod child_edit;
mod document;
mod edited;
mod front;
mod recut;
mod reparse;
mod replace;
mod skip;
#[cfg(test)]
mod tests;
mod token_edit;
mod update;

pub use document::Document;
pub use edited::Edited;
pub use squawk_cut::FrontError;
