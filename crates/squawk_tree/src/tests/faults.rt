//! Errors of texts, worked by hand from `docs/GRAMMAR.md` and `docs/STATEMENTS.md`.
use crate::{Parse, parse_source};
use std::alloc::{AllocError, Global};
use std::test::Fail;

// The errors of a parse, one on a line: the text of its range, the range, and the number.
fn render_errors(alloc: Global, parse: &Parse, text: &str) -> Result<String, AllocError> {
    let mut lines = String::new(alloc);
    for error in parse.errors() {
        let (start, end, number) = (error.start, error.end, error.number);
        let part = text.get(start as usize..end as usize).unwrap_or("?");
        lines.push_str(format!(in alloc; "\"{part}\" {start}..{end} {number}\n")?.as_str())?;
    }
    Ok(lines)
}

// Each row: its name, a text, and its errors.
const ERRORS: &[(&str, &str, &str)] = &[
    ("unknown character", "select \u{1};", "\"\u{1}\" 7..8 1\n"),
    ("unterminated comment", "select /* a", "\"/* a\" 7..11 2\n"),
    (
        "comment between statements",
        "select 1; /* a",
        "\"/* a\" 10..14 2\n",
    ),
    ("unterminated string", "select 'a", "\"'a\" 7..9 3\n"),
    (
        "unterminated dollar string",
        "select $a$ b",
        "\"$a$ b\" 7..12 3\n",
    ),
    ("unterminated identifier", "select \"a", "\"\"a\" 7..9 4\n"),
    ("no digits after base", "select 0x;", "\"0x\" 7..9 5\n"),
    ("no digits in exponent", "select 1e;", "\"e\" 8..9 6\n"),
    ("junk after number", "select 1a;", "\"a\" 8..9 7\n"),
    ("no digits in parameter", "select $;", "\"$\" 7..8 8\n"),
    ("junk after parameter", "select $1a;", "\"a\" 9..10 9\n"),
    ("unknown statement", "foo;", "\"foo\" 0..3 10\n"),
    (
        "statement and two faults of its first token",
        "1eabc",
        "\"1eabc\" 0..5 10\n\
        \"e\" 1..2 6\n\
        \"abc\" 2..5 7\n",
    ),
    (
        "token by token",
        "select 0x 1a;foo 'b",
        "\"0x\" 7..9 5\n\
        \"a\" 11..12 7\n\
        \"foo\" 13..16 10\n\
        \"'b\" 17..19 3\n",
    ),
];

#[test]
fn errors_of_texts(rt: HostRuntime) -> Result<(), Fail> {
    for row in ERRORS {
        let (name, text, errors) = *row;
        let parse = parse_source(rt.alloc(), text).ok().ok_or(name)?;
        let lines = render_errors(rt.alloc(), &parse, text)?;
        assert_eq!(rt; lines.as_str(), errors, "{name}");
    }
    Ok(())
}
