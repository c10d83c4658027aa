//! Applies scripts of edits to documents.
#![tactic(auto)]

mod apply;
mod line;
mod replayed;

pub use replayed::{Replayed, replay, replay_in};
pub use squawk_events::FrontError;

#[cfg(test)]
mod tests;
