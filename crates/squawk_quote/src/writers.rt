//! Writers of string constants, quoted identifiers and dollar-quoted strings.
ghost use Rattle.std.specs.Prelude.{◌≡◌, ◌++◌, ◌<◌, ◌≤◌, [], ◌∷◌, length, IfOk, IfErr, OnOk};
ghost use Rattle.std.specs.Str.{chars, encode_utf8_all};
ghost use Rattle.std.specs.String.{string_bytes};
ghost use Rattle.squawk_events.specs.Limit.{limit};
ghost use Rattle.squawk_events.specs.Refusals.{MayRefuse};
ghost use Rattle.squawk_quote.specs.Values as spec;

use crate::tag::shortest_tag;
use squawk_events::{FrontError, LIMIT};
use std::alloc::{AllocError, Global};

// Refuses a text of more than `LIMIT` bytes.
fn check_len(text: String) -> Result<String, FrontError>
    ensures same { IfOk result (λ out. string_bytes out ≡ string_bytes text) }
    ensures within_limit { IfOk result (λ out. length (string_bytes out) ≤ limit) }
    ensures refusals { IfErr result (MayRefuse (string_bytes text)) }
{
    if text.len() as u64 > LIMIT {
        return Err(FrontError::TooLong);
    }
    Ok(text)
}

// Appends a character, and a quote twice.
fn push_escaped_char(out: &mut String, quote: char, c: char) -> Result<(), AllocError>
    ensures { OnOk result (string_bytes out.new
        ≡ string_bytes out.old ++ encode_utf8_all (spec.escape_quotes quote (c ∷ []))) }
{
    if c == quote {
        out.push(quote)?;
    }
    out.push(c)
}

// Appends a value with each quote doubled.
fn push_escaped(out: &mut String, quote: char, value: &str) -> Result<(), AllocError>
    ensures { OnOk result (string_bytes out.new
        ≡ string_bytes out.old ++ encode_utf8_all (spec.escape_quotes quote (chars value.now))) }
{
    for c in value.chars() {
        push_escaped_char(out, quote, c)?;
    }
    Ok(())
}

// Writes a value between two quotes, with each quote in it doubled.
fn quote_with(alloc: Global, quote: char, value: &str) -> Result<String, FrontError>
    ensures text { IfOk result (λ out. string_bytes out
        ≡ encode_utf8_all (spec.quoted_text quote (chars value.now))) }
    ensures within_limit { IfOk result (λ out. length (string_bytes out) ≤ limit) }
    ensures refusals { IfErr result (MayRefuse
        (encode_utf8_all (spec.quoted_text quote (chars value.now)))) }
{
    let mut out = String::new(alloc);
    out.push(quote)?;
    push_escaped(&mut out, quote, value)?;
    out.push(quote)?;
    check_len(out)
}

/// Writes a value as a string constant: the value between two apostrophes, with each apostrophe in
/// it doubled (PostgreSQL's manual, 4.1.2.1). With `standard_conforming_strings` on, the result is
/// one terminated token, and its value is `value`.
///
/// # Errors
///
/// `TooLong` only if the string constant has more than `LIMIT` bytes; no longer one is returned.
/// `OutOfMemory` if there is not enough memory for it.
pub fn quote_string(alloc: Global, value: &str) -> Result<String, FrontError>
    ensures text { IfOk result (λ out. string_bytes out ≡ spec.string_constant_bytes value.now) }
    ensures token { IfOk result (λ out. spec.IsStringConstant (string_bytes out)) }
    ensures value { IfOk result (λ out. spec.HasValue value.now (string_bytes out)) }
    ensures within_limit { IfOk result (λ out. length (string_bytes out) ≤ limit) }
    ensures refusals { IfErr result (MayRefuse (spec.string_constant_bytes value.now)) }
{
    quote_with(alloc, '\'', value)
}

/// Writes a value as a quoted identifier: the value between two quotation marks, with each
/// quotation mark in it doubled (PostgreSQL's manual, 4.1.1). The result is one terminated token,
/// and its value is `value`.
///
/// PostgreSQL itself refuses an identifier without characters, and shortens a long one; this writer
/// does neither.
///
/// # Errors
///
/// `TooLong` only if the quoted identifier has more than `LIMIT` bytes; no longer one is
/// returned. `OutOfMemory` if there is not enough memory for it.
pub fn quote_ident(alloc: Global, value: &str) -> Result<String, FrontError>
    ensures text { IfOk result (λ out. string_bytes out ≡ spec.quoted_identifier_bytes value.now) }
    ensures token { IfOk result (λ out. spec.IsQuotedIdentifier (string_bytes out)) }
    ensures value { IfOk result (λ out. spec.HasValue value.now (string_bytes out)) }
    ensures within_limit { IfOk result (λ out. length (string_bytes out) ≤ limit) }
    ensures refusals { IfErr result (MayRefuse (spec.quoted_identifier_bytes value.now)) }
{
    quote_with(alloc, '"', value)
}

// Appends the delimiter whose tag is this many letters `q`.
fn push_delimiter(out: &mut String, tag: usize) -> Result<(), AllocError>
    ensures { OnOk result (string_bytes out.new ≡ string_bytes out.old ++ spec.delimiter_of tag) }
{
    out.push('$')?;
    let mut left = tag;
    while left > 0 {
        out.push('q')?;
        left -= 1;
    }
    out.push('$')
}

/// Writes a value as a dollar-quoted string (PostgreSQL's manual, 4.1.2.4). Its tag is the shortest
/// run of the letter `q`, possibly empty, whose delimiter does not occur in the value, also not
/// across its end. The result is one terminated token, and its value is `value`.
///
/// # Errors
///
/// `TooLong` only if the dollar-quoted string has more than `LIMIT` bytes; no longer one is
/// returned. `OutOfMemory` if there is not enough memory for it.
pub fn quote_dollar(alloc: Global, value: &str) -> Result<String, FrontError>
    ensures text { IfOk result (λ out. string_bytes out ≡ spec.dollar_constant_bytes value.now) }
    ensures token { IfOk result (λ out. spec.IsDollarConstant (string_bytes out)) }
    ensures value { IfOk result (λ out. spec.HasValue value.now (string_bytes out)) }
    ensures within_limit { IfOk result (λ out. length (string_bytes out) ≤ limit) }
    ensures refusals { IfErr result (MayRefuse (spec.dollar_constant_bytes value.now)) }
{
    let tag = shortest_tag(alloc, value)?;
    let mut out = String::new(alloc);
    push_delimiter(&mut out, tag)?;
    out.push_str(value)?;
    push_delimiter(&mut out, tag)?;
    check_len(out)
}
