//! The pieces of a script.
ghost use Rattle.std.specs.Prelude.{◌≡◌, ◌==◌, ◌<◌, ◌≤◌, ◌^◌, ◌↔◌, drop, length, IfOk, IfErr, IsErrOf};
ghost use Rattle.std.specs.Str.{IsCharBoundary};
ghost use Rattle.squawk_events.specs.Limit.{limit};
ghost use Rattle.squawk_events.specs.Refusals.{IsOutOfMemory, MayRefuse};
ghost use Rattle.squawk_kinds.specs.Role.{role};
ghost use Rattle.squawk_lexed.specs.LexedText.{lexed_text};
ghost use Rattle.squawk_split.specs.Pieces as spec;
ghost use Rattle.squawk_split.specs.PieceLaws as law;
ghost use Rattle.squawk_split.specs.StatementEnds.{single_piece, next_at};

use crate::copy_data_len;
use crate::reader::TokenReader;
use crate::statements::statement_end;
use squawk_events::{FrontError, LIMIT};
use squawk_kinds::SyntaxKind;
use squawk_lexed::LexedStr;
use squawk_lexer::Strings;
use squawk_lexer::laws::{tokens_progress, tokens_restart};
use squawk_statements::Division;
use std::alloc::Global;
use std::marker::Model;

/// What a piece of a script is.
#[derive(Clone, Copy, Debug, PartialEq, Eq)]
pub enum PieceKind {
    /// White space, a leading byte order mark or a comment outside of statements: one token.
    Gap,
    /// A statement, or a semicolon by itself.
    Statement,
    /// A psql command by itself.
    Command,
    /// The data after a `COPY .. FROM STDIN` that a semicolon ends, up to its end-of-data marker.
    CopyData,
}

/// A piece of a script: what it is, and its range in bytes.
#[derive(Clone, Copy, Debug, PartialEq, Eq)]
pub struct Piece {
    /// What the piece is.
    pub kind: PieceKind,
    /// The offset at which it starts.
    pub start: u32,
    /// The offset at which it ends.
    pub end: u32,
}

/// The pieces of a script, in order. They cover it without a gap.
#[derive(Drop)]
pub struct Pieces {
    pieces: Vec<Piece>,
}

impl Model for Pieces {
    ghost use Rattle.std.specs.Prelude.{List};
    ghost use Rattle.squawk_split.specs.declared.pieces.Piece as declared;

    ghost Value = { List declared.Piece };

    ghost view = { λ p. p.pieces.items };
}

impl Pieces {
    /// The pieces.
    pub fn pieces(&self) -> &[Piece]
        ensures { result.now ≡ self.now }
    {
        &self.pieces
    }
}

// A piece without its start, and whether COPY data follows it.
#[derive(Clone, Copy)]
struct NextPiece {
    kind: PieceKind,
    end: usize,
    data_follows: bool,
}

// What a token of this kind is as a piece; `None` if it begins a statement.
#[tactic(auto, unfolding(squawk_kinds::specs::Role::role))]
fn single_piece(kind: SyntaxKind) -> Option<PieceKind>
    ensures { result ≡ single_piece (role kind) }
{
    match kind {
        SyntaxKind::WHITESPACE | SyntaxKind::COMMENT => Some(PieceKind::Gap),
        SyntaxKind::SEMICOLON => Some(PieceKind::Statement),
        SyntaxKind::PSQL_TERMINATOR_TEXT | SyntaxKind::PSQL_COMMAND_TEXT => {
            Some(PieceKind::Command)
        }
        _ => None,
    }
}

// The child of the root that begins at `at`.
fn next_child(reader: &mut TokenReader<'_>, at: usize, division: Division) -> NextPiece
    requires inside { at < length reader.old.text }
    requires boundary { IsCharBoundary reader.old.text at }
    ensures same { reader.new ≡ reader.old }
    ensures piece { result ≡ next_at at (spec.child_piece division
        (spec.tokens_of reader.old.strings (at == 0) (drop at reader.old.text))) }
{
    let first = reader.token_at(at);
    match single_piece(first.kind) {
        Some(kind) => NextPiece {
            kind,
            end: first.end,
            data_follows: false,
        },
        None => {
            let rest = statement_end(reader, first.end, first.kind, division);
            NextPiece {
                kind: PieceKind::Statement,
                end: rest.end,
                data_follows: first.kind == SyntaxKind::COPY_KW && rest.from_stdin,
            }
        }
    }
}

// The piece that begins at `at`: COPY data, if `is_data` says so, or else a child of the root.
fn data_or_child(
    reader: &mut TokenReader<'_>,
    at: usize,
    is_data: bool,
    division: Division,
) -> NextPiece
    requires inside { at < length reader.old.text }
    requires boundary { IsCharBoundary reader.old.text at }
    ensures same { reader.new ≡ reader.old }
    ensures piece { result ≡ next_at at (spec.first_piece reader.old.strings division (at == 0)
        is_data (drop at reader.old.text)) }
{
    if is_data {
        return NextPiece {
            kind: PieceKind::CopyData,
            end: at + copy_data_len(&reader.text().as_bytes()[at..]),
            data_follows: false,
        };
    }
    next_child(reader, at, division)
}

// The piece that begins at `at`. It has at least one byte and ends at a character boundary.
fn next_piece(
    reader: &mut TokenReader<'_>,
    at: usize,
    is_data: bool,
    division: Division,
) -> NextPiece
    requires inside { at < length reader.old.text }
    requires boundary { IsCharBoundary reader.old.text at }
    ensures same { reader.new ≡ reader.old }
    ensures piece { result ≡ next_at at (spec.first_piece reader.old.strings division (at == 0)
        is_data (drop at reader.old.text)) }
    ensures progress { at < result.end }
    ensures ends_between { IsCharBoundary reader.old.text result.end }
{
    tokens_progress();
    tokens_restart();
    // The text is UTF-8: the call says so to the prover.
    let _ = reader.text();
    data_or_child(reader, at, is_data, division)
}

// The pieces of the script whose tokens the reader reads.
fn read_pieces(
    alloc: Global,
    mut reader: TokenReader<'_>,
    division: Division,
) -> Result<Pieces, FrontError>
    ensures pieces { IfOk result (λ pieces.
        pieces ≡ spec.pieces_of reader.entry.strings division reader.entry.text) }
    ensures refusals { IfErr result IsOutOfMemory }
{
    let len = reader.text().len();
    let mut pieces = Vec::new(alloc);
    let mut is_data = false;
    let mut at = 0;
    while at < len {
        let next = next_piece(&mut reader, at, is_data, division);
        pieces.push(Piece {
            kind: next.kind,
            start: at as u32,
            end: next.end as u32,
        })?;
        is_data = next.data_follows;
        at = next.end;
    }
    Ok(Pieces { pieces })
}

/// Splits a script of SQL and psql commands into pieces that can be run one by one. `strings` says
/// how plain strings are read, and `division` whether a semicolon between parentheses ends a
/// statement.
///
/// A piece is a child of the root, as of `parse_divided`, or the data of a COPY. Data follows a
/// statement that begins with `COPY`, ends with `;` or `\;` and has `FROM STDIN` outside all
/// parentheses. It extends as far as [`copy_data_len`] says, and the children after it are those of
/// the remaining script by itself. At the end of the script there is no piece of data.
///
/// It is not promised that psql reads the data there: at `\;` psql does not send the statement, and
/// reads the lines after it as SQL.
///
/// # Errors
///
/// `TooLong` exactly if the script has more than `LIMIT` bytes; nothing is allocated then.
/// `OutOfMemory` if there is not enough memory for the list.
pub fn split(
    alloc: Global,
    text: &str,
    strings: Strings,
    division: Division,
) -> Result<Pieces, FrontError>
    ensures pieces { IfOk result (λ pieces. pieces ≡ spec.pieces_of strings division text.now) }
    ensures tiles { IfOk result (law.PiecesTile text.now 0) }
    ensures joined { IfOk result (λ pieces. law.joined text.now pieces ≡ text.now) }
    ensures cuts { IfOk result (law.AreChildrenOrData strings division text.now) }
    ensures children { IfOk result (law.AreChildrenWithoutData strings division text.now) }
    ensures too_long { IsErrOf result FrontError.TooLong ↔ (limit < length text.now) }
    ensures refusals { IfErr result (MayRefuse text.now) }
{
    if text.len() as u64 > LIMIT {
        return Err(FrontError::TooLong);
    }
    tokens_progress();
    tokens_restart();
    let pieces = read_pieces(alloc, TokenReader::of_text(text, strings), division)?;
    Ok(pieces)
}

/// Splits a script as [`split`] does, where its tokens were cut before: `lexed` is the script, cut
/// with the same `strings`. Only the tokens after COPY data that the list does not have, and the
/// trivia after a statement without an end, are cut again.
///
/// # Errors
///
/// `OutOfMemory` if there is not enough memory for the list.
pub fn split_lexed(
    alloc: Global,
    lexed: &LexedStr<'_>,
    strings: Strings,
    division: Division,
) -> Result<Pieces, FrontError>
    requires lexed { lexed.now ≡ lexed_text strings lexed.now.text }
    ensures pieces { IfOk result (λ pieces.
        pieces ≡ spec.pieces_of strings division lexed.now.text) }
    ensures tiles { IfOk result (law.PiecesTile lexed.now.text 0) }
    ensures joined { IfOk result (λ pieces. law.joined lexed.now.text pieces ≡ lexed.now.text) }
    ensures cuts { IfOk result (law.AreChildrenOrData strings division lexed.now.text) }
    ensures children { IfOk result (law.AreChildrenWithoutData strings division lexed.now.text) }
    ensures refusals { IfErr result IsOutOfMemory }
{
    tokens_progress();
    tokens_restart();
    // The text is UTF-8: the call says so to the prover.
    let _ = lexed.as_str();
    let pieces = read_pieces(alloc, TokenReader::of_lexed(lexed, strings), division)?;
    Ok(pieces)
}
