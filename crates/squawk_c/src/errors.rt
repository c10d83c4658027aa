//! The errors of a parse, into an array of the caller.
ghost use Rattle.std.specs.Prelude.{◌≡◌, map};
ghost use Rattle.squawk_c.specs.Arrays.{IsPut};
ghost use Rattle.squawk_c.specs.Parse.{error_record};

use squawk_events::ParseError;
use squawk_tree::Parse;

/// An error in a text, with its range in bytes.
#[repr(C)]
#[derive(Clone, Copy, Debug, PartialEq, Eq)]
pub struct SquawkError {
    /// Its first byte.
    pub start: u32,
    /// The byte after its last.
    pub end: u32,
    /// The number of its message, from 1 to 10.
    pub number: u32,
}

// The record of an error.
fn error_record(error: ParseError) -> SquawkError
    ensures { result ≡ error_record error }
{
    SquawkError {
        start: error.start,
        end: error.end,
        number: u32::from(error.number),
    }
}

// Writes the records of all errors to the first elements of an array, if it has room for them.
// Returns their number.
pub(crate) fn put_errors(parse: &Parse, out: &mut [SquawkError]) -> usize
    ensures { IsPut (map error_record parse.now.errors) out.old out.new result }
{
    let errors = parse.errors();
    let count = errors.len();
    if count > out.len() {
        return count;
    }
    for (i, error) in errors.iter().enumerate() {
        out[i] = error_record(*error);
    }
    count
}
