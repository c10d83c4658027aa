//! Worked examples of the writers and of values.
use crate::{quote_dollar, quote_ident, quote_string, value_of};
use std::alloc::Global;
use std::process::Abort;
use std::test::Fail;

// Name, value, string constant, quoted identifier.
const ROWS: &[(&str, &str, &str, &str)] = &[
    ("empty value", "", "''", "\"\""),
    ("plain word", "select", "'select'", "\"select\""),
    (
        "apostrophe and dollars",
        "it's $$q",
        "'it''s $$q'",
        "\"it's $$q\"",
    ),
    ("dollar", "$", "'$'", "\"$\""),
    ("quotation mark", "\"", "'\"'", "\"\"\"\""),
    ("only apostrophes", "''", "''''''", "\"''\""),
    (
        "quotes at both ends",
        "'\"a\"'",
        "'''\"a\"'''",
        "\"'\"\"a\"\"'\"",
    ),
    ("backslash before a quote", "\\'", "'\\'''", "\"\\'\""),
    (
        "more than ASCII",
        "\u{e9}'\u{10437}",
        "'\u{e9}''\u{10437}'",
        "\"\u{e9}'\u{10437}\"",
    ),
    ("line end and NUL", "\r\n\0", "'\r\n\0'", "\"\r\n\0\""),
];

#[test]
fn quotes_strings(rt: HostRuntime) -> Result<(), Fail> {
    for &(name, value, string, _) in ROWS {
        let got = quote_string(rt.alloc(), value)?;
        assert_eq!(rt; got.as_str(), string, "{name}");
    }
    Ok(())
}

#[test]
fn quotes_identifiers(rt: HostRuntime) -> Result<(), Fail> {
    for &(name, value, _, ident) in ROWS {
        let got = quote_ident(rt.alloc(), value)?;
        assert_eq!(rt; got.as_str(), ident, "{name}");
    }
    Ok(())
}

// Name, value, dollar-quoted string.
const DOLLAR_ROWS: &[(&str, &str, &str)] = &[
    ("empty value", "", "$$$$"),
    ("tag occurs at the end", "it's $$q", "$qq$it's $$q$qq$"),
    ("dollar", "$", "$q$$$q$"),
    ("quotation mark", "\"", "$$\"$$"),
    ("two dollars", "a$$b", "$q$a$$b$q$"),
    ("longer tag occurs", "$$ $qq$", "$q$$$ $qq$$q$"),
    ("shorter tags occur", "$$ $q$ $qq$", "$qqq$$$ $q$ $qq$$qqq$"),
    ("dollars share a tag", "$q$q$", "$qq$$q$q$$qq$"),
    ("other letters", "$Q$ $x", "$$$Q$ $x$$"),
    ("dollar at the end", "$Q$", "$q$$Q$$q$"),
    (
        "more than ASCII",
        "\u{e9}$\u{10437}",
        "$$\u{e9}$\u{10437}$$",
    ),
];

#[test]
fn quotes_with_dollars(rt: HostRuntime) -> Result<(), Fail> {
    for &(name, value, dollar) in DOLLAR_ROWS {
        let got = quote_dollar(rt.alloc(), value)?;
        assert_eq!(rt; got.as_str(), dollar, "{name}");
    }
    Ok(())
}

// Name, text, its value.
const VALUES: &[(&str, &str, Option<&str>)] = &[
    ("doubled apostrophe", "'it''s'", Some("it's")),
    ("dollars", "$$a$$", Some("a")),
    ("quoted identifier", "\"a\"", Some("a")),
    ("escape string", "E'a'", None),
    ("unterminated string", "'a", None),
    ("Unicode escapes", "U&\"a\"", None),
    ("space after the string", "'a' ", None),
    ("empty text", "", None),
    ("empty string", "''", Some("")),
    ("empty dollar-quoted string", "$$$$", Some("")),
    ("tag beyond ASCII", "$\u{e9}$'$$'$\u{e9}$", Some("'$$'")),
    ("only quotes", "\"\"\"\"\"\"", Some("\"\"")),
    ("backslash", "'\\'", Some("\\")),
    ("unterminated dollar-quoted string", "$a$b$", None),
    ("two strings", "'a''b'\"c\"", None),
    ("identifier", "a", None),
];

fn check_value(
    rt: &impl Abort,
    alloc: Global,
    name: &str,
    text: &str,
    expected: Option<&str>,
) -> Result<(), Fail> {
    assert!(rt; text.len() < 1000);
    let value = value_of(alloc, text)?;
    assert_eq!(rt; value.as_ref().map(|s| s.as_str()), expected, "{name}");
    Ok(())
}

#[test]
fn reads_values(rt: HostRuntime) -> Result<(), Fail> {
    for &(name, text, expected) in VALUES {
        check_value(&rt, rt.alloc(), name, text, expected)?;
    }
    Ok(())
}
