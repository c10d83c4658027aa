//! Worked examples of squeezing.
use crate::{squeeze, squeeze_lexed};
use squawk_lexed::LexedStr;
use squawk_lexer::Strings;
use std::alloc::Global;
use std::process::Abort;
use std::test::Fail;

// Name, text, and the squeezed text with standard strings.
const STANDARD: &[(&str, &str, &str)] = &[
    ("empty text", "", ""),
    ("spaces", "select  1", "select 1"),
    (
        "line comment and block comment",
        "select  1 -- one\n/* two */ from t;",
        "select 1\nfrom t;",
    ),
    ("comment between operators", "-/*a*/-", "- -"),
    ("two byte order marks", "\u{feff}\u{feff}x", " \u{feff}x"),
    ("psql command", "\\echo a\r\n;", "\\echo a\n;"),
    ("lone carriage return", "a\rb", "a\nb"),
    ("line comment at the end", "a -- b", "a "),
    ("line end in a nested comment", "a/*\n/**/*/b", "a\nb"),
    ("unterminated comment", "a/* b", "a "),
    ("trivia in a string", "'a  --b'  c", "'a  --b' c"),
    ("backslash before a quote", "'\\'  'b'", "'\\' 'b'"),
];

// The same with backslash escapes in all strings.
const BACKSLASH: &[(&str, &str, &str)] = &[
    ("escaped quote", "'\\'  'b'  c", "'\\'  'b'  c"),
    ("escape string", "E'\\'  '  c", "E'\\'  ' c"),
];

fn check_rows(
    rt: &impl Abort,
    alloc: Global,
    strings: Strings,
    rows: &[(&str, &str, &str)],
) -> Result<(), Fail> {
    for &(name, text, squeezed) in rows {
        let got = squeeze(alloc, text, strings)?;
        assert_eq!(rt; got.as_str(), squeezed, "{name}");
        let lexed = LexedStr::new_in(alloc, text, strings)?;
        let got = squeeze_lexed(alloc, &lexed)?;
        assert_eq!(rt; got.as_str(), squeezed, "{name}, cut before");
    }
    Ok(())
}

#[test]
fn squeezes_with_standard_strings(rt: HostRuntime) -> Result<(), Fail> {
    check_rows(&rt, rt.alloc(), Strings::Standard, STANDARD)
}

#[test]
fn squeezes_with_backslash_strings(rt: HostRuntime) -> Result<(), Fail> {
    check_rows(&rt, rt.alloc(), Strings::Backslash, BACKSLASH)
}
