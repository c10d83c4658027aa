//! The values of string constants, dollar-quoted strings and quoted identifiers.
ghost use Rattle.std.specs.Prelude.{◌≡◌, ◌<◌, ◌≤◌, option_map, length, IfOk, IfErr};
ghost use Rattle.std.specs.Str.{chars, encode_utf8_all};
ghost use Rattle.std.specs.String.{string_bytes};
ghost use Rattle.squawk_events.specs.Limit.{limit};
ghost use Rattle.squawk_events.specs.Refusals.{IsOutOfMemory};
ghost use Rattle.squawk_quote.specs.Values as spec;
ghost use Rattle.squawk_quote.specs.ValueForms as forms;

use squawk_events::FrontError;
use squawk_lexer::laws::tokens_progress;
use squawk_lexer::{LiteralKind, TokenKind, cut_at};
use std::alloc::{AllocError, Global};

// Appends a character, unless it is the second quote of a pair; `after_quote` says whether it
// follows a first one. Returns whether it is a first one.
fn push_unescaped(
    out: &mut String,
    quote: char,
    after_quote: bool,
    c: char,
) -> Result<bool, AllocError>
    ensures { IfOk result (λ next. forms.KeepsOutput quote c after_quote next
        (string_bytes out.old) (string_bytes out.new)) }
{
    if after_quote && c == quote {
        return Ok(false);
    }
    out.push(c)?;
    Ok(c == quote)
}

// The text with each pair of quotes replaced by one.
fn unescape_quotes(alloc: Global, quote: char, text: &str) -> Result<String, AllocError>
    ensures { IfOk result (λ out. string_bytes out
        ≡ encode_utf8_all (spec.unescape_quotes quote (chars text.now))) }
{
    let mut out = String::new(alloc);
    let mut after_quote = false;
    for c in text.chars() {
        after_quote = push_unescaped(&mut out, quote, after_quote, c)?;
    }
    Ok(out)
}

// The value of a text between two quotes.
fn quoted_value(alloc: Global, quote: char, text: &str) -> Result<String, AllocError>
    requires ascii { quote < 128 }
    requires quoted { forms.IsQuoted quote (chars text.now) }
    ensures { IfOk result (λ out. string_bytes out ≡ encode_utf8_all
        (spec.unescape_quotes quote (spec.strip_ends 1 (chars text.now)))) }
{
    unescape_quotes(alloc, quote, &text[1..text.len() - 1])
}

// The length in bytes of the delimiter of a dollar-quoted string.
fn delimiter_len(text: &str) -> usize
    requires { forms.IsDollarQuoted (chars text.now) }
    ensures { result ≡ forms.delimiter_bytes (chars text.now) }
{
    match text[1..].split_once('$') {
        Some((tag, _)) => tag.len() + 2,
        None => 0,
    }
}

// The value of a dollar-quoted string.
fn dollar_value(alloc: Global, text: &str) -> Result<String, AllocError>
    requires { forms.IsDollarQuoted (chars text.now) }
    ensures { IfOk result (λ out. string_bytes out
        ≡ encode_utf8_all (forms.between_delimiters (chars text.now))) }
{
    let len = delimiter_len(text);
    text[len..text.len() - len].to_string(alloc)
}

// The forms of tokens that have a value.
#[derive(Clone, Copy)]
enum ValueForm {
    String,
    QuotedIdent,
    Dollar,
}

// The form of a terminated token of this kind; `None` if it has no value.
fn value_form(kind: TokenKind) -> Option<ValueForm>
    ensures { result ≡ forms.value_form kind }
{
    match kind {
        TokenKind::Literal {
            kind: LiteralKind::Str { terminated: true },
        } => Some(ValueForm::String),
        TokenKind::QuotedIdent {
            terminated: true,
            uescape: false,
        } => Some(ValueForm::QuotedIdent),
        TokenKind::Literal {
            kind: LiteralKind::DollarQuotedString { terminated: true },
        } => Some(ValueForm::Dollar),
        _ => None,
    }
}

// The form of a text that is one token with a value.
fn form_of_text(text: &str) -> Option<ValueForm>
    requires { length text.now ≤ limit }
    ensures { result ≡ forms.form_of_text (chars text.now) }
{
    if text.is_empty() {
        return None;
    }
    let token = cut_at(text, 0);
    if (token.len as usize) < text.len() {
        return None;
    }
    value_form(token.kind)
}

/// Returns the value of a text, if it has one: if the text is one terminated token, which is a
/// string constant without a prefix, a dollar-quoted string, or a quoted identifier without Unicode
/// escapes (PostgreSQL's manual, 4.1.1, 4.1.2.1 and 4.1.2.4). `standard_conforming_strings` is on.
///
/// The value of a dollar-quoted string is the text between its delimiters, and otherwise the text
/// between the quotes, with each doubled quote made single. The only error is `OutOfMemory`.
///
/// The text must have at most `LIMIT` bytes.
pub fn value_of(alloc: Global, text: &str) -> Result<Option<String>, FrontError>
    requires { length text.now ≤ limit }
    ensures value { IfOk result (λ value.
        option_map string_bytes value ≡ spec.value_bytes text.now) }
    ensures spelling { IfOk result (λ value.
        spec.IsSpelledOnce text.now (option_map string_bytes value)) }
    ensures refusals { IfErr result IsOutOfMemory }
{
    tokens_progress();
    match form_of_text(text) {
        None => Ok(None),
        Some(ValueForm::String) => Ok(Some(quoted_value(alloc, '\'', text)?)),
        Some(ValueForm::QuotedIdent) => Ok(Some(quoted_value(alloc, '"', text)?)),
        Some(ValueForm::Dollar) => Ok(Some(dollar_value(alloc, text)?)),
    }
}
