//! The lines of a report.
//!
//! Most lines of nodes and leaves have a short text. They are written in place in the block, by
//! copies of fixed sizes. The others are built in a `LineBuffer`.
ghost use Rattle.std.specs.Prelude.{◌≡◌, ◌≤◌, ◌+◌, ◌%◌, ◌++◌, ◌∷◌, [], ◌<◌, length, take, drop, decimal};
ghost use Rattle.squawk_lexer.specs.Classes.{space};
ghost use Rattle.squawk_show.specs.Output.{block_len, line_room};
ghost use Rattle.squawk_show.specs.Report as spec;

use crate::block::Block;
use crate::digits::{DigitTables, Number, put_number};
use crate::line_buffer::LineBuffer;
use squawk_events::{ParseError, message};
use squawk_kinds::SyntaxKind;
use squawk_names::name_window;

// The size of a window: of a printed text with room around it for the rest of its line.
const WINDOW: usize = 64;

// The most bytes of a printed text whose line fits into its window with any range.
const MAX_SHORT_TEXT: usize = 35;

// Lines of this depth or more are built in a `LineBuffer`. No tree of a text is so deep.
const SHORT_DEPTH_LIMIT: usize = 10_000_000_000;

// Appends the line of a node or a leaf, whatever its depth and its range.
fn push_any_line(block: &mut Block, depth: usize, letter: u8, kind: SyntaxKind, range: (u32, u32))
    requires { length block.old + line_room ≤ block_len }
    ensures { block.new ≡ block.old ++ spec.report_line depth letter kind range }
{
    let mut line = LineBuffer::new();
    line.prepend(b"\n");
    line.prepend_number(range.1 as usize);
    line.prepend(b"..");
    line.prepend_number(range.0 as usize);
    line.prepend(b" ");
    line.prepend(kind.name().as_bytes());
    line.prepend(&[b' ', letter, b' ']);
    line.prepend_number(depth);
    block.push_text(line.as_bytes());
}

// Writes a byte at an offset, and returns the offset after it.
#[inline(always)]
fn put_byte(text: &mut [u8], at: usize, byte: u8) -> usize
    requires { at < length text.old }
    ensures next { result ≡ at + 1 }
    ensures written { take result text.new ≡ take at text.old ++ byte ∷ [] }
    ensures same_length { length text.new ≡ length text.old }
{
    text[at] = byte;
    at + 1
}

// Overwrites the first four bytes with a depth of one digit and a letter between spaces.
#[inline(always)]
fn put_start(text: &mut [u8], depth: usize, letter: u8)
    requires { (depth < 10) × (4 ≤ length text.old) }
    ensures written { text.new
        ≡ decimal depth ++ (space ∷ letter ∷ space ∷ []) ++ drop 4 text.old }
    ensures same_length { length text.new ≡ length text.old }
{
    text[0..4].copy_from_slice(&[b'0' + depth as u8, b' ', letter, b' ']);
}

// Writes a line around the `len` bytes of printed text that stand from offset 4 on, and returns the
// line's length.
#[inline(always)]
fn put_line(
    text: &mut [u8],
    depth: usize,
    letter: u8,
    len: usize,
    start: Number,
    end: Number,
) -> usize
    requires { (length text.old ≡ 64) × ((len ≤ 35) × (depth < 10)) }
    ensures within { result ≤ 64 }
    ensures written { take result text.new ≡ spec.line_with_text depth letter
        (take len (drop 4 text.old)) (start.value, end.value) }
    ensures same_length { length text.new ≡ length text.old }
{
    put_start(text, depth, letter);
    let mut at = put_byte(text, 4 + len, b' ');
    at = put_number(text, at, start);
    at = put_byte(text, at, b'.');
    at = put_byte(text, at, b'.');
    at = put_number(text, at, end);
    put_byte(text, at, b'\n')
}

// Writes a line at an offset, and returns the offset after it. The printed text stands in a window
// from offset 4 on. The rest of the window is overwritten too.
#[inline(always)]
pub(crate) fn put_short_line(
    text: &mut [u8],
    at: usize,
    window: &[u8],
    depth: usize,
    letter: u8,
    len: usize,
    start: Number,
    end: Number,
) -> usize
    requires room { at + 64 ≤ length text.old }
    requires window { (length window.now ≡ 64) × ((len ≤ 35) × (depth < 10)) }
    ensures near { (at ≤ result) × (result ≤ at + 64) }
    ensures written { take result text.new ≡ take at text.old ++ spec.line_with_text depth letter
        (take len (drop 4 window.now)) (start.value, end.value) }
    ensures same_length { length text.new ≡ length text.old }
{
    text[at..at + WINDOW].copy_from_slice(window);
    at + put_line(&mut text[at..at + WINDOW], depth, letter, len, start, end)
}

// Appends all digits of a depth but the last. Returns the last.
#[inline(always)]
fn push_upper_digits(block: &mut Block, tables: &DigitTables, depth: usize) -> usize
    requires depth { depth < 10000000000 }
    requires room { length block.old + line_room ≤ block_len }
    ensures digits { block.new ++ decimal result ≡ block.old ++ decimal depth }
    ensures last { result < 10 }
    ensures len { length block.new ≤ length block.old + 10 }
{
    if depth < 10 {
        return depth;
    }
    block.push_number(tables.number((depth / 10) as u32));
    depth % 10
}

// Appends a line as `push_line` does, whatever its depth and its range. Most reports have few lines
// that come here.
#[cold]
#[inline(never)]
fn push_rare_line(
    block: &mut Block,
    tables: &Option<DigitTables>,
    depth: usize,
    letter: u8,
    kind: SyntaxKind,
    range: (u32, u32),
) -> Number
    requires { length block.old + line_room ≤ block_len }
    ensures { block.new ≡ block.old ++ spec.report_line depth letter kind range }
{
    if let (Some(tables), Some((window, len))) = (tables, name_window(kind.to_raw())) {
        if len <= MAX_SHORT_TEXT && depth < SHORT_DEPTH_LIMIT {
            let start = tables.number(range.0);
            let end = tables.number(range.1);
            let digit = push_upper_digits(block, tables, depth);
            block.push_short_line(window, digit, letter, len, start, end);
            return end;
        }
    }
    push_any_line(block, depth, letter, kind, range);
    Number::zero()
}

// Appends the line of a node or a leaf. Returns a number for the next line, which most often starts
// where this one ends.
//
// `last` is the number that the line before returned. Most lines start at that number, and end at
// one of which all digits but the last four are the same: they are written here.
#[inline(always)]
pub(crate) fn push_line(
    block: &mut Block,
    tables: &Option<DigitTables>,
    last: Number,
    depth: usize,
    letter: u8,
    kind: SyntaxKind,
    range: (u32, u32),
) -> Number
    requires { length block.old + line_room ≤ block_len }
    ensures { block.new ≡ block.old ++ spec.report_line depth letter kind range }
{
    if let (Some(digits), Some((window, len))) = (tables, name_window(kind.to_raw())) {
        if len <= MAX_SHORT_TEXT && depth < 10 && last.value == range.0 {
            if let Some(end) = digits.number_sharing(last, range.1) {
                block.push_short_line(window, depth, letter, len, last, end);
                return end;
            }
        }
    }
    push_rare_line(block, tables, depth, letter, kind, range)
}

// Appends the line of an error in the text.
pub(crate) fn push_error(block: &mut Block, error: ParseError)
    requires number { (1 ≤ error.number) × (error.number ≤ 10) }
    requires room { length block.old + line_room ≤ block_len }
    ensures { block.new ≡ block.old ++ spec.parse_error_line error }
{
    let mut line = LineBuffer::new();
    line.prepend(b"\n");
    line.prepend(message(error.number).as_bytes());
    line.prepend(b" ");
    line.prepend_number(error.end as usize);
    line.prepend(b"..");
    line.prepend_number(error.start as usize);
    line.prepend(b"E ");
    block.push_text(line.as_bytes());
}
