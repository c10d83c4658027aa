//! Replaces each run of white space and comments by one character.
ghost use Rattle.std.specs.Prelude.{◌≡◌, ◌++◌, ◌≤◌, ◌<◌, ◌↔◌, [], length, None, IfOk, IfErr, OnOk, IsErrOf};
ghost use Rattle.std.specs.List.{list_any};
ghost use Rattle.std.specs.Str.{chars};
ghost use Rattle.std.specs.String.{string_bytes};
ghost use Rattle.squawk_events.specs.Limit.{limit};
ghost use Rattle.squawk_events.specs.Refusals.{IsOutOfMemory, MayRefuse};
ghost use Rattle.squawk_lexer.specs.Classes.{is_line_end};
ghost use Rattle.squawk_lexer.specs.Cut.{is_trivia};
ghost use Rattle.squawk_squeeze.specs.Squeezed as spec;

use squawk_events::{FrontError, LIMIT};
use squawk_lexed::LexedStr;
use squawk_lexed::laws::{leaves_keep_roles, tokens_are_cut_at_their_starts};
use squawk_lexer::laws::{tokens_look_ahead, tokens_progress, tokens_stay};
use squawk_lexer::{Strings, TokenKind, cut_at_in};
use std::alloc::{AllocError, Global};

// Whether a token is white space or a comment.
fn is_trivia(kind: TokenKind) -> bool
    ensures { result ≡ is_trivia kind }
{
    match kind {
        TokenKind::Whitespace | TokenKind::LineComment | TokenKind::BlockComment { .. } => true,
        _ => false,
    }
}

// Whether a character is LF or CR.
fn is_line_end(c: char) -> bool
    ensures { result ≡ is_line_end c }
{
    c == '\n' || c == '\r'
}

// Whether a text contains an LF or a CR.
fn has_line_end(text: &str) -> bool
    ensures { result ≡ list_any is_line_end (chars text.now) }
{
    for c in text.chars() {
        if is_line_end(c) {
            return true;
        }
    }
    false
}

// Adds the text of one more token to a run of trivia. A run is `Some(whether it has a line end)`.
fn extend_run(run: Option<bool>, text: &str) -> Option<bool>
    ensures { result ≡ spec.extend_run run (chars text.now) }
{
    let ends_line = has_line_end(text);
    match run {
        None => Some(ends_line),
        Some(line_end) => Some(line_end || ends_line),
    }
}

// Appends the character that stands for a run of trivia, if there is a run.
fn push_separator(out: &mut String, run: Option<bool>) -> Result<(), AllocError>
    ensures { OnOk result (string_bytes out.new
        ≡ string_bytes out.old ++ spec.separator_bytes run) }
{
    match run {
        None => Ok(()),
        Some(true) => out.push_str("\n"),
        Some(false) => out.push_str(" "),
    }
}

// A text that is squeezed token by token: the output so far, and the run of trivia after it.
#[derive(Drop)]
struct Squeezer {
    out: String,
    run: Option<bool>,
}

impl Squeezer {
    // No tokens yet, and room for so many bytes of output. If that much memory cannot be had, the
    // output grows as needed.
    fn with_room(alloc: Global, bytes: usize) -> Squeezer
        ensures out { string_bytes result.out ≡ [] }
        ensures run { result.run ≡ None }
    {
        let mut out = String::new(alloc);
        let _ = out.reserve(bytes);
        Squeezer { out, run: None }
    }

    // Adds a token: trivia extends the run, any other token follows the separator of the run.
    // Inlined into every loop over tokens, however many there are: a call costs more than its work.
    #[inline(always)]
    fn push(&mut self, trivia: bool, text: &str) -> Result<(), AllocError>
        ensures { OnOk result (spec.IsPushed trivia (chars text.now) self.old self.new) }
    {
        if trivia {
            self.run = extend_run(self.run, text);
            return Ok(());
        }
        push_separator(&mut self.out, self.run)?;
        self.run = None;
        self.out.push_str(text)?;
        Ok(())
    }

    // Ends the text: the last run becomes its separator.
    fn finish(self) -> Result<String, AllocError>
        ensures { IfOk result (λ out. string_bytes out ≡ spec.output_with_rest self []) }
    {
        let Squeezer { mut out, run } = self;
        push_separator(&mut out, run)?;
        Ok(out)
    }
}

/// Replaces each longest run of white space and comments by one character: LF if the run contains
/// an LF or a CR, or else a space. All other tokens keep their kinds and texts.
///
/// PostgreSQL reads a comment as white space (manual, 4.1.5), and a line end between two string
/// constants joins them where a space does not (4.1.2.1), so a run that has one stays a line end.
/// A byte order mark at the start of the text counts as white space. Squeezing a squeezed text
/// changes nothing.
///
/// # Errors
///
/// `TooLong` exactly if the text has more than `LIMIT` bytes; nothing is allocated then.
/// `OutOfMemory` if there is not enough memory for the result.
pub fn squeeze(alloc: Global, text: &str, strings: Strings) -> Result<String, FrontError>
    ensures text { IfOk result (λ out. spec.IsSqueezed strings text.now (string_bytes out)) }
    ensures keeps_tokens { IfOk result (λ out.
        spec.KeepsTokens strings text.now (string_bytes out)) }
    ensures idempotent { IfOk result (λ out.
        spec.IsUnchangedBySqueezing strings (string_bytes out)) }
    ensures no_longer { IfOk result (λ out. length (string_bytes out) ≤ length text.now) }
    ensures too_long { IsErrOf result FrontError.TooLong ↔ (limit < length text.now) }
    ensures refusals { IfErr result (MayRefuse text.now) }
{
    if text.len() as u64 > LIMIT {
        return Err(FrontError::TooLong);
    }
    tokens_progress();
    tokens_look_ahead();
    tokens_stay();
    let mut squeezer = Squeezer::with_room(alloc, text.len());
    let mut at = 0;
    while at < text.len() {
        let token = cut_at_in(text, at, strings);
        let end = at + token.len as usize;
        squeezer.push(is_trivia(token.kind), &text[at..end])?;
        at = end;
    }
    let out = squeezer.finish()?;
    Ok(out)
}

/// As [`squeeze`], for a text whose tokens were cut before: no token is cut again. The result is
/// that of `squeeze` for the reading of strings with which the text was cut.
///
/// # Errors
///
/// `OutOfMemory` if there is not enough memory for the result.
pub fn squeeze_lexed(alloc: Global, lexed: &LexedStr<'_>) -> Result<String, FrontError>
    ensures text { spec.OfItsText lexed.now result spec.IsSqueezed }
    ensures keeps_tokens { spec.OfItsText lexed.now result spec.KeepsTokens }
    ensures idempotent { spec.OfItsText lexed.now result (λ s _. spec.IsUnchangedBySqueezing s) }
    ensures no_longer { spec.OfItsText lexed.now result (λ _ text out. length out ≤ length text) }
    ensures refusals { IfErr result IsOutOfMemory }
{
    tokens_progress();
    tokens_look_ahead();
    tokens_stay();
    leaves_keep_roles();
    tokens_are_cut_at_their_starts();
    let mut squeezer = Squeezer::with_room(alloc, lexed.as_str().len());
    for i in 0..lexed.len() {
        squeezer.push(squawk_events::is_trivia(lexed.kind(i)), lexed.text(i))?;
    }
    let out = squeezer.finish()?;
    Ok(out)
}
