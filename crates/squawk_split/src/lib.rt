//! Splits scripts of SQL and psql commands into pieces that can be run one by one, with the data of
//! `COPY .. FROM STDIN`.
#![tactic(auto)]

mod data;
/// Laws of the definitions of COPY statements and their data: for proofs.
pub mod laws;
mod pieces;
mod reader;
mod statements;

pub use data::copy_data_len;
pub use pieces::{Piece, PieceKind, Pieces, split, split_lexed};

#[cfg(test)]
mod tests;
