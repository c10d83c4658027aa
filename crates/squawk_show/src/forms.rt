//! The forms in which the program writes a text that it reads.
ghost use Rattle.std.specs.Prelude.{◌≡◌, ◌≢◌, ◌≤◌, ◌++◌, length, string_bytes, Err, IfOk, IfErr, OnOk};
ghost use Rattle.squawk_events.specs.Limit.{limit};
ghost use Rattle.squawk_events.specs.Refusals.{IsOutOfMemory};
ghost use Rattle.squawk_lexed.specs.LexedText.{lexed_text};
ghost use Rattle.squawk_show.specs.Command.{asks};
ghost use Rattle.squawk_show.specs.Edge.{TakesAtMost};
ghost use Rattle.squawk_show.specs.Forms.{clause_parse_under, form_tree, piece_letter, piece_line, piece_lines, quotes_of, AreQuotesWithin, IsQuoteRefusal};
ghost use Rattle.squawk_show.specs.Report.{report_of};
ghost use Rattle.squawk_show.specs.Run as spec;
ghost use Rattle.squawk_tree.specs.Tree.{IsTree};

use crate::program::Prepared;
use crate::{Command, Form, Reading, ReportMemory, RunError, Source, read_all};
use itoa::Buffer;
use simdutf8::compat::from_utf8;
use squawk_clauses::laws::clause_parses_are_plain;
use squawk_clauses::parse_clauses;
use squawk_events::{FrontError, LIMIT};
use squawk_lexed::LexedStr;
use squawk_quote::{quote_dollar, quote_ident, quote_string};
use squawk_split::{Piece, PieceKind, split_lexed};
use squawk_squeeze::squeeze_lexed;
use squawk_tree::laws::parses_have_the_tokens;
use squawk_tree::{Parse, parse_statements};
use std::alloc::{AllocError, Global};

// Makes the tree of a text with these tokens.
fn parse_plain(alloc: Global, lexed: LexedStr<'_>, reading: Reading) -> Result<Parse, FrontError>
    requires lexed { lexed ≡ lexed_text reading.strings lexed.text }
    requires within { length lexed.text ≤ limit }
    ensures parsed { IfOk result (spec.IsParsed reading lexed.entry.text) }
    ensures balanced { IfOk result IsTree }
    ensures refusals { IfErr result IsOutOfMemory }
{
    parses_have_the_tokens();
    // The text is UTF-8: the call says so to the prover.
    let _text = lexed.as_str();
    parse_statements(alloc, lexed, reading.division)
}

// Makes the tree of a text with these tokens, with the clauses of its `SELECT` statements.
fn parse_with_clauses(
    alloc: Global,
    lexed: LexedStr<'_>,
    reading: Reading,
) -> Result<Parse, FrontError>
    requires lexed { lexed ≡ lexed_text reading.strings lexed.text }
    requires within { length lexed.text ≤ limit }
    ensures parsed { IfOk result (spec.IsParsedBy clause_parse_under reading lexed.entry.text) }
    ensures balanced { IfOk result IsTree }
    ensures refusals { IfErr result IsOutOfMemory }
{
    parses_have_the_tokens();
    clause_parses_are_plain();
    // The text is UTF-8: the call says so to the prover.
    let _text = lexed.as_str();
    parse_clauses(alloc, lexed, reading.division)
}

// Makes the tree that goes with a form of a text with these tokens. Takes the tokens, as
// `parse_children` does.
fn parse_form(
    alloc: Global,
    lexed: LexedStr<'_>,
    reading: Reading,
    form: Form,
) -> Result<Parse, FrontError>
    requires lexed { lexed ≡ lexed_text reading.strings lexed.text }
    requires within { length lexed.text ≤ limit }
    ensures parsed { IfOk result (spec.IsParsedBy (form_tree form) reading lexed.entry.text) }
    ensures balanced { IfOk result IsTree }
    ensures refusals { IfErr result IsOutOfMemory }
{
    match form {
        Form::Clauses => parse_with_clauses(alloc, lexed, reading),
        Form::Report | Form::Pieces | Form::Quotes | Form::Squeezed => {
            parse_plain(alloc, lexed, reading)
        }
    }
}

// The letter of the line of a piece.
fn piece_letter(kind: PieceKind) -> &'static str
    ensures { result.now ≡ piece_letter kind }
{
    match kind {
        PieceKind::Gap => "G",
        PieceKind::Statement => "S",
        PieceKind::Command => "C",
        PieceKind::CopyData => "D",
    }
}

// Appends the line of a piece.
fn push_piece_line(lines: &mut String, piece: Piece) -> Result<(), AllocError>
    ensures { OnOk result (string_bytes lines.new ≡ string_bytes lines.old ++ piece_line piece) }
{
    lines.push_str(piece_letter(piece.kind))?;
    lines.push_str(" ")?;
    lines.push_str(Buffer::new().format(piece.start))?;
    lines.push_str("..")?;
    lines.push_str(Buffer::new().format(piece.end))?;
    lines.push_str("\n")
}

// Makes the lines of the pieces of a script with these tokens.
fn list_pieces(alloc: Global, lexed: &LexedStr<'_>, reading: Reading) -> Result<String, FrontError>
    requires { lexed.now ≡ lexed_text reading.strings lexed.now.text }
    ensures lines { IfOk result (λ lines.
        string_bytes lines ≡ piece_lines reading lexed.now.text) }
    ensures refusals { IfErr result IsOutOfMemory }
{
    let pieces = split_lexed(alloc, lexed, reading.strings, reading.division)?;
    let mut lines = String::new(alloc);
    for piece in pieces.pieces() {
        push_piece_line(&mut lines, *piece)?;
    }
    Ok(lines)
}

// Makes a string constant, a dollar-quoted string and a quoted identifier of a value, each before
// an LF.
fn quote(alloc: Global, value: &str) -> Result<String, FrontError>
    ensures quotes { IfOk result (λ out. string_bytes out ≡ quotes_of value.now) }
    ensures within { IfOk result (λ _. AreQuotesWithin value.now) }
    ensures refusals { IfErr result (IsQuoteRefusal value.now) }
{
    let mut out = quote_string(alloc, value)?;
    out.push_str("\n")?;
    out.push_str(quote_dollar(alloc, value)?.as_str())?;
    out.push_str("\n")?;
    out.push_str(quote_ident(alloc, value)?.as_str())?;
    out.push_str("\n")?;
    Ok(out)
}

// A tree, of which the report is written, after a text.
pub(crate) fn with_report(
    alloc: Global,
    parse: Parse,
    text: Vec<u8>,
) -> Result<Prepared, AllocError>
    ensures parse { IfOk result (λ p. p.parse ≡ parse) }
    ensures output { IfOk result (λ p.
        spec.prepared_output p.text.items p.memory p.parse ≡ text.items ++ report_of parse) }
{
    let memory = ReportMemory::new(alloc, parse.steps().len())?;
    Ok(Prepared {
        parse,
        text,
        memory: Some(memory),
    })
}

// A tree, and a text that is written instead of its report.
fn with_text(parse: Parse, text: String) -> Prepared
    ensures parse { result.parse ≡ parse }
    ensures output { spec.prepared_output result.text.items result.memory result.parse
        ≡ string_bytes text }
{
    Prepared {
        parse,
        text: text.into_bytes(),
        memory: None,
    }
}

// Makes a form of a text, and the tree that goes with it.
fn make_form(alloc: Global, text: &str, reading: Reading, form: Form) -> Result<Prepared, RunError>
    requires { length text.now ≤ limit }
    ensures formed { IfOk result (spec.IsFormed reading form text.now) }
    ensures refusals { IfErr result (spec.IsFormRefusal form text.now) }
{
    let lexed = LexedStr::new_in(alloc, text, reading.strings)?;
    // The parse takes the tokens, so what else needs them comes first.
    match form {
        Form::Report | Form::Clauses => {
            let parse = parse_form(alloc, lexed, reading, form)?;
            Ok(with_report(alloc, parse, Vec::new(alloc))?)
        }
        Form::Pieces => {
            let lines = list_pieces(alloc, &lexed, reading)?;
            Ok(with_text(parse_form(alloc, lexed, reading, form)?, lines))
        }
        Form::Quotes => {
            let parse = parse_form(alloc, lexed, reading, form)?;
            Ok(with_text(parse, quote(alloc, text)?))
        }
        Form::Squeezed => {
            let squeezed = squeeze_lexed(alloc, &lexed)?;
            Ok(with_text(parse_form(alloc, lexed, reading, form)?, squeezed))
        }
    }
}

// Makes a form of bytes, if they are UTF-8.
fn form_bytes(
    alloc: Global,
    bytes: &[u8],
    reading: Reading,
    form: Form,
) -> Result<Prepared, RunError>
    requires { length bytes.now ≤ limit }
    ensures formed { IfOk result (spec.IsFormed reading form bytes.now) }
    ensures refusals { IfErr result (spec.IsFormRefusal form bytes.now) }
{
    match from_utf8(bytes) {
        Ok(text) => make_form(alloc, text, reading, form),
        Err(error) => Err(RunError::NotUtf8 {
            at: error.valid_up_to(),
        }),
    }
}

// Reads the source to its end, and makes a form of its text.
pub(crate) fn prepare_form<S: Source>(
    alloc: Global,
    reading: Reading,
    form: Form,
    source: &mut S,
) -> Result<Prepared, RunError>
    ensures prepared { IfOk result (spec.IsPrepared (asks reading (Command.Show form))
        (S.view source.old) (S.view source.new)) }
    ensures refusals { IfErr result
        (spec.IsPrepareRefusal (Command.Show form) (S.view source.old) (S.view source.new)) }
    ensures taken { result ≢ Err (RunError.Front FrontError.TooLong)
        → TakesAtMost (S.view source.old) (S.view source.new) limit }
{
    let bytes = read_all(alloc, source, LIMIT)?;
    form_bytes(alloc, &bytes, reading, form)
}
