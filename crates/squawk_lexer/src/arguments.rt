//! The arguments of psql's commands, over the bytes of a text. As in `scan.rt`, no function decodes
//! UTF-8: what divides the arguments is ASCII, and all other bytes are only skipped.
ghost use Rattle.std.specs.Prelude.{◌≡◌, ◌≢◌, ◌<◌, ◌≤◌, length, slice_index, unwrap_or, is_some, None, true, false};
ghost use Rattle.squawk_lexer.specs.Classes.{is_line_end};
ghost use Rattle.squawk_lexer.specs.Runs.{line_end};
ghost use Rattle.squawk_lexer.specs.PsqlQuotes.{close_end, quote_end, mark_after_quote};
ghost use Rattle.squawk_lexer.specs.PsqlParts as parts;
ghost use Rattle.squawk_lexer.specs.Bytes.{HasArgumentBytes};

use crate::quoted::escape_or_quote;
use crate::scan::len_until2_on_line;

// What a byte is outside quotes: a blank, one that opens a quote, or one that ends the arguments.
const BLANK: u8 = b',';

const QUOTE: u8 = b'[';

const END: u8 = b']';

// The entry of a byte is `BLANK`, `QUOTE` or `END`, or `.` for all others. Bytes that are only
// skipped have entries below `QUOTE`, so that one test finds them.
static ARGUMENT_BYTES: [u8; 256] = *b"\
    .........,],,]..................\
    ,.[....[........................\
    ............................]...\
    [...............................\
    ................................\
    ................................\
    ................................\
    ................................";

fn argument_table() -> &'static [u8]
    ensures { HasArgumentBytes result.now }
{
    &ARGUMENT_BYTES
}

// The length of the arguments at the start of a text, up to the end of the line or the next
// backslash outside quotes.
pub(crate) fn arguments_len(bytes: &[u8]) -> usize
    ensures { result ≡ parts.arguments_len 0 bytes.now }
{
    let table = argument_table();
    let mut at = 0;
    while at < bytes.len() {
        let b = bytes[at];
        let entry = table[b as usize];
        if entry < QUOTE {
            at += 1;
            continue;
        }
        if entry == END {
            break;
        }
        at = quote_end(b, bytes, at + 1).at;
    }
    at
}

// The options of a command.
#[derive(Clone, Copy)]
pub(crate) struct Options {
    pub(crate) len: usize,
    // Whether an argument ends them. Otherwise all arguments are options.
    pub(crate) are_ended: bool,
}

// The options at the start of a text. They end after the first argument whose mark is `)`, or else
// after all arguments. See `docs/GRAMMAR.md`, "psql commands".
pub(crate) fn find_options(bytes: &[u8]) -> Options
    ensures len { result.len ≡ unwrap_or (parts.marked_len 0 None bytes.now)
        (parts.arguments_len 0 bytes.now) }
    ensures ended { result.are_ended ≡ is_some (parts.marked_len 0 None bytes.now) }
{
    let table = argument_table();
    let mut mark = None;
    let mut at = 0;
    while at < bytes.len() && table[bytes[at] as usize] != END {
        let b = bytes[at];
        if table[b as usize] == QUOTE {
            let end = quote_end(b, bytes, at + 1);
            mark = mark_after_quote(mark, b, bytes, at + 1, end);
            at = end.at;
            continue;
        }
        if table[b as usize] != BLANK {
            mark = Some(b);
            at += 1;
            continue;
        }
        if is_parenthesis(mark) {
            return Options {
                len: at,
                are_ended: true,
            };
        }
        mark = None;
        at += 1;
    }
    Options {
        len: at,
        are_ended: is_parenthesis(mark),
    }
}

fn is_parenthesis(mark: Option<u8>) -> bool
    ensures { result ≡ parts.is_parenthesis mark }
{
    mark == Some(b')')
}

// The end of a quote.
#[derive(Clone, Copy)]
struct QuoteEnd {
    // The index after the closing quote, or that of the end of the line.
    at: usize,
    is_closed: bool,
}

// The mark of an argument after the quote whose text begins at `start` and which ends at `end`.
// Before the quote it was `mark`.
#[inline(always)]
fn mark_after_quote(
    mark: Option<u8>,
    quote: u8,
    bytes: &[u8],
    start: usize,
    end: QuoteEnd,
) -> Option<u8>
    requires start { start ≤ length bytes.now }
    requires at { end.at ≡ quote_end quote bytes.now start }
    requires closed { end.is_closed ≡ is_some (close_end quote bytes.now start) }
    ensures { result ≡ mark_after_quote mark quote bytes.now start }
{
    match quote {
        b'\'' => {
            // A quote that is not closed, or is empty, has no last byte. A byte of a character
            // beyond ASCII is no `)`, and nor is the character.
            if end.is_closed && end.at > start + 1 {
                Some(bytes[end.at - 2])
            } else {
                mark
            }
        }
        b'`' => None,
        _ => Some(quote),
    }
}

// The end of the quote that was opened by `quote` before the index `start`. Inlined, since most
// quotes are short.
#[inline(always)]
fn quote_end(quote: u8, bytes: &[u8], start: usize) -> QuoteEnd
    requires quote { parts.is_psql_quote quote ≡ true }
    requires start { start ≤ length bytes.now }
    ensures at { result.at ≡ quote_end quote bytes.now start }
    ensures closed { result.is_closed ≡ is_some (close_end quote bytes.now start) }
    ensures within { result.at ≤ length bytes.now }
    ensures forward { start ≤ result.at }
{
    let escape = escape_or_quote(quote, quote == b'\'');
    let mut at = start + len_until2_on_line(quote, escape, &bytes[start..]);
    while at < bytes.len() && !is_line_end(bytes[at]) {
        if bytes[at] == quote {
            return QuoteEnd {
                at: at + 1,
                is_closed: true,
            };
        }
        at = quoted_char_end(quote, bytes, at);
        at += len_until2_on_line(quote, escape, &bytes[at..]);
    }
    QuoteEnd {
        at,
        is_closed: false,
    }
}

// The index after the byte at `at` inside quotes, and after the one that it escapes.
fn quoted_char_end(quote: u8, bytes: &[u8], at: usize) -> usize
    requires inside { at < length bytes.now }
    requires plain { is_line_end (slice_index bytes.now at) ≡ false }
    requires other { slice_index bytes.now at ≢ quote }
    ensures close { close_end quote bytes.now result ≡ close_end quote bytes.now at }
    ensures line { line_end bytes.now result ≡ line_end bytes.now at }
    ensures forward { at < result }
    ensures within { result ≤ length bytes.now }
{
    let next = at + 1;
    if next < bytes.len() && is_escape(quote, bytes[at], bytes[next]) {
        next + 1
    } else {
        next
    }
}

// Whether `b` is a backslash that escapes `next`: only in single quotes, and not before a line end.
fn is_escape(quote: u8, b: u8, next: u8) -> bool
    ensures { result ≡ parts.is_escape quote b next }
{
    quote == b'\'' && b == b'\\' && !is_line_end(next)
}

fn is_line_end(b: u8) -> bool
    ensures { result ≡ is_line_end b }
{
    b == b'\n' || b == b'\r'
}
