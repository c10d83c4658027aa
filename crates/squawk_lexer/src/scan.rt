//! Lengths of runs over the bytes of a text. No function here decodes UTF-8: the classes have all
//! characters beyond ASCII or none, so a run of bytes ends where the run of characters does.
ghost use Rattle.std.specs.Prelude.{◌≡◌, ◌+◌, ◌<◌, ◌≤◌, length, drop, slice_index};
ghost use Rattle.std.specs.List.{prefix_len};
ghost use Rattle.squawk_lexer.specs.Classes.{is_whitespace, is_ident_cont};
ghost use Rattle.squawk_lexer.specs.ClassTests.{class_test, digit_test};
ghost use Rattle.squawk_lexer.specs.Runs.{digits_len};
ghost use Rattle.squawk_lexer.specs.Quoted.{is_quote};
ghost use Rattle.squawk_lexer.specs.Stops.{is_neither, is_neither_on_line};
ghost use Rattle.squawk_lexer.specs.Bytes.{HasIdentCont};

use crate::classes::{Class, Digits, is_digit_byte, is_in, is_whitespace};
use crate::lanes::{LANES, ident_cont_run, run_until2, run_until2_on_line};
use memchr::{memchr, memchr2, memchr3};

// The entry of a byte is `,` if the byte ends an identifier. Otherwise the byte continues one, and
// its entry is itself if it is ASCII, or `*` from 0x80 on.
static ID_CONT: [u8; 256] = *b"\
    ,,,,,,,,,,,,,,,,,,,,,,,,,,,,,,,,\
    ,,,,$,,,,,,,,,,,0123456789,,,,,,\
    ,ABCDEFGHIJKLMNOPQRSTUVWXYZ,,,,_\
    ,abcdefghijklmnopqrstuvwxyz,,,,,\
    ********************************\
    ********************************\
    ********************************\
    ********************************";

fn ident_cont_table() -> &'static [u8]
    ensures { HasIdentCont result.now }
{
    &ID_CONT
}

// The length of the longest prefix whose characters are all in `class`.
pub(crate) fn run_len(class: Class, bytes: &[u8]) -> usize
    ensures { result ≡ prefix_len (class_test class) bytes.now }
{
    match class {
        Class::IdentCont => ident_cont_len(bytes),
        Class::Whitespace => whitespace_len(bytes),
        Class::NotLineEnd => len_until2(b'\n', b'\r', bytes),
        _ => class_len(class, bytes),
    }
}

fn ident_cont_len(bytes: &[u8]) -> usize
    ensures { result ≡ prefix_len is_ident_cont bytes.now }
{
    let mut len = 0;
    while bytes.len() - len >= LANES {
        let run = ident_cont_run(&bytes[len..]);
        if run < LANES {
            return len + run;
        }
        // `run` is `LANES` here. The constant lets the processor read the next bytes before `run`
        // is known.
        len += LANES;
    }
    len + last_ident_cont_len(&bytes[len..])
}

// The same, byte by byte, for the last bytes of a text.
fn last_ident_cont_len(bytes: &[u8]) -> usize
    ensures { result ≡ prefix_len is_ident_cont bytes.now }
{
    let table = ident_cont_table();
    let mut len = 0;
    while len < bytes.len() && table[bytes[len] as usize] != b',' {
        len += 1;
    }
    len
}

fn whitespace_len(bytes: &[u8]) -> usize
    ensures { result ≡ prefix_len is_whitespace bytes.now }
{
    let mut len = 0;
    while len < bytes.len() && is_whitespace(bytes[len] as char) {
        len += 1;
    }
    len
}

fn class_len(class: Class, bytes: &[u8]) -> usize
    ensures { result ≡ prefix_len (class_test class) bytes.now }
{
    let mut len = 0;
    while len < bytes.len() && is_in(class, bytes[len]) {
        len += 1;
    }
    len
}

// The length of the longest prefix whose bytes are all `quote`.
pub(crate) fn quotes_len(quote: u8, bytes: &[u8]) -> usize
    ensures { result ≡ prefix_len (is_quote quote) bytes.now }
{
    let mut len = 0;
    while len < bytes.len() && bytes[len] == quote {
        len += 1;
    }
    len
}

// The number of bytes that are searched before `memchr` is called, which is faster in long runs.
const NEAR: usize = 4 * LANES;

// The number of bytes before the first `a` or `b`, or of all bytes if there is none.
pub(crate) fn len_until2(a: u8, b: u8, bytes: &[u8]) -> usize
    ensures { result ≡ prefix_len (is_neither a b) bytes.now }
{
    let mut len = 0;
    while len < NEAR && bytes.len() - len >= LANES {
        let run = run_until2(a, b, &bytes[len..]);
        if run < LANES {
            return len + run;
        }
        // `run` is `LANES` here too.
        len += LANES;
    }
    len + memchr_len_until2(a, b, &bytes[len..])
}

// The same, found by `memchr`. Not inlined, so that `len_until2` stays small for short runs.
#[inline(never)]
fn memchr_len_until2(a: u8, b: u8, bytes: &[u8]) -> usize
    ensures { result ≡ prefix_len (is_neither a b) bytes.now }
{
    let first = if a == b {
        memchr(a, bytes)
    } else {
        memchr2(a, b, bytes)
    };
    first.unwrap_or(bytes.len())
}

// The number of bytes that are tested one by one before `LANES` are tested at once: most quotes in
// the arguments of psql's commands are short.
const BYTES_BEFORE_LANES: usize = 4;

// The number of bytes before the first `a`, `b`, LF or CR, or of all bytes if there is none.
#[inline(always)]
pub(crate) fn len_until2_on_line(a: u8, b: u8, bytes: &[u8]) -> usize
    ensures { result ≡ prefix_len (is_neither_on_line a b) bytes.now }
{
    let len = near_len_until2_on_line(a, b, bytes);
    if len < BYTES_BEFORE_LANES {
        return len;
    }
    len + far_len_until2_on_line(a, b, &bytes[len..])
}

// The same within the first `BYTES_BEFORE_LANES` bytes.
#[inline(always)]
fn near_len_until2_on_line(a: u8, b: u8, bytes: &[u8]) -> usize
    ensures within { result ≤ length bytes.now }
    ensures prefix { result + prefix_len (is_neither_on_line a b) (drop result bytes.now)
        ≡ prefix_len (is_neither_on_line a b) bytes.now }
    ensures whole { result < BYTES_BEFORE_LANES
        → result ≡ prefix_len (is_neither_on_line a b) bytes.now }
{
    let mut len = 0;
    while len < bytes.len() && len < BYTES_BEFORE_LANES && is_neither_on_line(a, b, bytes[len]) {
        len += 1;
    }
    len
}

fn is_neither_on_line(a: u8, b: u8, byte: u8) -> bool
    ensures { result ≡ is_neither_on_line a b byte }
{
    byte != a && byte != b && byte != b'\n' && byte != b'\r'
}

// The length of that run, `LANES` bytes at once.
fn far_len_until2_on_line(a: u8, b: u8, bytes: &[u8]) -> usize
    ensures { result ≡ prefix_len (is_neither_on_line a b) bytes.now }
{
    let mut len = 0;
    while len < NEAR && bytes.len() - len >= LANES {
        let run = run_until2_on_line(a, b, &bytes[len..]);
        if run < LANES {
            return len + run;
        }
        // `run` is `LANES` here too.
        len += LANES;
    }
    len + memchr_len_until2_on_line(a, b, &bytes[len..])
}

// The same, found by `memchr`. Not inlined, like `memchr_len_until2`. The second search reads only
// what the first one skipped, so both together are linear.
#[inline(never)]
fn memchr_len_until2_on_line(a: u8, b: u8, bytes: &[u8]) -> usize
    ensures { result ≡ prefix_len (is_neither_on_line a b) bytes.now }
{
    let len = memchr3(a, b, b'\n', bytes).unwrap_or(bytes.len());
    memchr(b'\r', &bytes[..len]).unwrap_or(len)
}

// The byte at `index`, or NUL past the end, which is not a digit.
fn byte_or_nul(bytes: &[u8], index: usize) -> u8
    ensures { result ≡ slice_index bytes.now index }
{
    if index < bytes.len() { bytes[index] } else { 0 }
}

// The length of the longest prefix of digits, each with at most one `_` before it.
#[tactic(auto, using(crate::proofs::DigitClasses::digit_class_steps))]
pub(crate) fn digits_len(digits: Digits, bytes: &[u8]) -> usize
    ensures { result ≡ digits_len (digit_test digits) bytes.now }
{
    let mut len = 0;
    'digits: while is_digit_byte(digits, byte_or_nul(bytes, len))
        || (byte_or_nul(bytes, len) == b'_' && is_digit_byte(digits, byte_or_nul(bytes, len + 1)))
    {
        len += 1;
    }
    len
}
