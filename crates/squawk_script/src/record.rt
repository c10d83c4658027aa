//! The records of a script.
ghost use Rattle.std.specs.Prelude.{◌≡◌, ◌<◌, ◌≤◌, IfSome, length, option_map};
ghost use Rattle.std.specs.Str.{IsCharBoundary};
ghost use Rattle.squawk_script.specs.Script.{header, first_record};
ghost use Rattle.squawk_script.specs.Models.{record_value};

use crate::form::{AT_SIGN, LINE_FEED, SPACE};
use crate::number::read_number;

/// An edit of a text: the bytes from `start` to `end` are replaced by `new`.
///
/// A script may hold any numbers: the range need not be one of the text that the edit meets.
#[derive(Clone, Copy, Debug, PartialEq, Eq)]
pub struct Edit<'a> {
    /// Where the replaced bytes start, in bytes.
    pub start: usize,
    /// Where they end, in bytes.
    pub end: usize,
    /// The text that comes in their place.
    pub new: &'a str,
}

// The first line of a record: the range of its edit, the length of its new text, and the offset
// after the line.
#[derive(Clone, Copy)]
pub(crate) struct Header {
    pub(crate) start: usize,
    pub(crate) end: usize,
    pub(crate) new_len: usize,
    pub(crate) after: usize,
}

// A record: its edit, and its length in bytes.
#[derive(Clone, Copy)]
pub(crate) struct FirstRecord<'a> {
    pub(crate) edit: Edit<'a>,
    pub(crate) len: usize,
}

// Reads the first line of a record.
fn read_header(text: &str) -> Option<Header>
    ensures header { result ≡ header text.now }
    ensures within { IfSome result (λ line. (1 < line.after) × IsCharBoundary text.now line.after) }
{
    if text.is_empty() || text.as_bytes()[0] != AT_SIGN {
        return None;
    }
    let start = read_number(text, 1, SPACE)?;
    let end = read_number(text, start.after, SPACE)?;
    let len = read_number(text, end.after, LINE_FEED)?;
    Some(Header {
        start: start.value,
        end: end.value,
        new_len: len.value,
        after: len.after,
    })
}

// Reads the record that begins a text.
pub(crate) fn read_record<'a>(text: &'a str) -> Option<FirstRecord<'a>>
    ensures first { option_map record_value result ≡ first_record text.now }
    ensures within { IfSome result (λ r. (0 < r.len) × IsCharBoundary text.now r.len) }
{
    let line = read_header(text)?;
    let rest = &text[line.after..];
    if line.new_len >= rest.len() || rest.as_bytes()[line.new_len] != LINE_FEED {
        return None;
    }
    let edit = Edit {
        start: line.start,
        end: line.end,
        new: &rest[..line.new_len],
    };
    Some(FirstRecord {
        edit,
        len: line.after + line.new_len + 1,
    })
}
