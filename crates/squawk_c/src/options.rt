//! The options of a call.
ghost use Rattle.std.specs.Prelude.{◌≡◌};
ghost use Rattle.squawk_c.specs.Options.{reading};

use squawk_lexer::Strings;
use squawk_statements::Division;

// How a text is read: one of the four readings of `docs/READINGS.md`.
#[derive(Clone, Copy, Debug, PartialEq, Eq)]
pub(crate) struct Reading {
    pub(crate) strings: Strings,
    pub(crate) division: Division,
}

// The reading that options name: bit 0 stands for `--backslash`, and bit 1 for `--grouped`.
// Other bits name nothing.
pub(crate) fn reading_of(options: u32) -> Option<Reading>
    ensures { result ≡ reading options }
{
    let (strings, division) = match options {
        0 => (Strings::Standard, Division::Flat),
        1 => (Strings::Backslash, Division::Flat),
        2 => (Strings::Standard, Division::Grouped),
        3 => (Strings::Backslash, Division::Grouped),
        _ => return None,
    };
    Some(Reading { strings, division })
}
