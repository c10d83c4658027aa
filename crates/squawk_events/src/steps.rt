//! The steps of a tree, and the errors of a text. Offsets are in bytes from the start of the text.
use squawk_kinds::SyntaxKind;

/// A step of a tree, without offsets: what a grammar produces.
#[derive(Clone, Copy, Debug, PartialEq, Eq)]
pub enum Step {
    /// A node of this kind starts.
    Enter { kind: SyntaxKind },
    /// A token of this kind.
    Token { kind: SyntaxKind },
    /// The innermost open node ends.
    Exit,
    /// An error with the `message` of this number.
    Error { number: u8 },
}

/// A step of a tree over a text. The steps of a tree walk it in the order of the text.
#[derive(Clone, Copy, Debug, PartialEq, Eq)]
pub enum StrStep {
    /// A node of this kind starts.
    Enter {
        kind: SyntaxKind,
    },
    /// A token of this kind, from byte `start` up to byte `end`.
    Token {
        kind: SyntaxKind,
        start: u32,
        end: u32,
    },
    /// The innermost open node ends.
    Exit,
    /// An error at the byte offset `at`, with the `message` of this number.
    Error {
        number: u8,
        at: u32,
    },
}

/// An error of a text, from byte `start` up to byte `end`.
#[derive(Clone, Copy, Debug, PartialEq, Eq)]
pub struct ParseError {
    /// Its first byte.
    pub start: u32,
    /// The byte after its last.
    pub end: u32,
    /// The number of its `message`, from 1 to 10.
    pub number: u8,
}
