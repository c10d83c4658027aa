//! Hostile texts: each is parsed at once, and by an edit of an empty document, in both readings of
//! plain strings and both divisions.
mod nested;
mod short;
mod tokens;

use crate::Reading;
use squawk_cut::{Division, Parse, PlainFront, StrStep, Strings};
use squawk_document::Document;
use squawk_events::message;
use squawk_tree::{ChildSpan, parse_divided, parse_source};
use std::alloc::{AllocError, Global};
use std::process::Abort;
use std::test::Fail;

// A reading, and its name.
struct NamedReading<'a> {
    name: &'a str,
    reading: Reading,
}

const READINGS: &[NamedReading<'static>] = &[
    NamedReading {
        name: "standard, flat",
        reading: Reading {
            strings: Strings::Standard,
            division: Division::Flat,
        },
    },
    NamedReading {
        name: "standard, grouped",
        reading: Reading {
            strings: Strings::Standard,
            division: Division::Grouped,
        },
    },
    NamedReading {
        name: "backslash, flat",
        reading: Reading {
            strings: Strings::Backslash,
            division: Division::Flat,
        },
    },
    NamedReading {
        name: "backslash, grouped",
        reading: Reading {
            strings: Strings::Backslash,
            division: Division::Grouped,
        },
    },
];

// Whether two parses have the same steps, errors and length.
pub(crate) fn same_parse(a: &Parse, b: &Parse) -> bool {
    a.steps() == b.steps() && a.errors() == b.errors() && a.len() == b.len()
}

// The parse of a text in a reading.
fn whole_parse(alloc: Global, text: &str, reading: Reading) -> Result<Parse, Fail> {
    let parse = parse_divided(alloc, text, reading.strings, reading.division);
    Ok(parse.ok().ok_or("no memory")?)
}

// A document in a reading, whose text is empty.
fn empty_document(alloc: Global, reading: Reading) -> Result<Document<PlainFront>, Fail> {
    let front = PlainFront::new_divided(reading.strings, reading.division);
    Ok(Document::new(alloc, front, "").ok().ok_or("no memory")?)
}

// The parse of a text that is put into an empty document by one edit.
fn edited_parse(alloc: Global, text: &str, reading: Reading) -> Result<Parse, Fail> {
    let mut document = empty_document(alloc, reading)?;
    document.edit(0, 0, text).ok().ok_or("refused")?;
    Ok(document.parse(alloc).ok().ok_or("no memory")?)
}

// A text that is made of parts, each of which is repeated so many times.
fn repeated(alloc: Global, parts: &[(&str, u32)]) -> Result<String, AllocError> {
    let mut text = String::new(alloc);
    for &(part, times) in parts {
        push_times(&mut text, part, times)?;
    }
    Ok(text)
}

// Appends a part so many times.
pub(crate) fn push_times(text: &mut String, part: &str, times: u32) -> Result<(), AllocError> {
    for _ in 0..times {
        text.push_str(part)?;
    }
    Ok(())
}

// Appends the line of the token at a step, whose range is that of a child of the root.
fn push_leaf(
    alloc: Global,
    lines: &mut String,
    parse: &Parse,
    step: usize,
    child: ChildSpan,
) -> Result<(), AllocError> {
    let (start, end) = (child.start, child.end);
    match parse.steps().get(step) {
        Some(&StrStep::Token { kind, .. }) => {
            lines.push_str(format!(in alloc; "T {kind} {start}..{end}\n")?.as_str())
        }
        _ => lines.push_str("?\n"),
    }
}

// Appends the line of a child of the root, a node or a leaf, with its range. A node that has one
// leaf and nothing else is followed by that leaf.
fn push_child(
    alloc: Global,
    lines: &mut String,
    parse: &Parse,
    child: ChildSpan,
) -> Result<(), AllocError> {
    let (start, end) = (child.start, child.end);
    let Some(kind) = child.node else {
        return push_leaf(alloc, lines, parse, child.step, child);
    };
    lines.push_str(format!(in alloc; "N {kind} {start}..{end}\n")?.as_str())?;
    match parse.steps().get(child.step.saturating_add(2)) {
        Some(&StrStep::Exit) => {
            push_leaf(alloc, lines, parse, child.step.saturating_add(1), child)
        }
        _ => Ok(()),
    }
}

// The first children of a parse, at most this many, and all errors; each has a line.
fn render(alloc: Global, parse: &Parse, most: usize) -> Result<String, AllocError> {
    let mut lines = String::new(alloc);
    for &child in &parse.children()[..parse.children().len().min(most)] {
        push_child(alloc, &mut lines, parse, child)?;
    }
    for error in parse.errors() {
        let (start, end) = (error.start, error.end);
        let text = message(error.number);
        lines.push_str(format!(in alloc; "E {start}..{end} {text}\n")?.as_str())?;
    }
    Ok(lines)
}

// A text, in parts; the steps of its parse, the children of its root, and lines for the first
// children and the errors.
struct Row<'a> {
    name: &'a str,
    parts: &'a [(&'a str, u32)],
    steps: usize,
    children: usize,
    lines: &'a str,
}

const MOST_CHILDREN: usize = 3;

// Whether a parse is that of `parse_source`, which has one reading. In the other readings there is
// nothing to compare, and it is true.
fn agrees_with_source(
    alloc: Global,
    text: &str,
    reading: Reading,
    parse: &Parse,
) -> Result<bool, Fail> {
    if reading.strings == Strings::Standard && reading.division == Division::Flat {
        let source = parse_source(alloc, text).ok().ok_or("no memory")?;
        return Ok(same_parse(parse, &source));
    }
    Ok(true)
}

// Parses a text in a reading. Checks that an edit of an empty document and, in its reading,
// `parse_source` have the same parse.
fn checked_parse(
    rt: &impl Abort,
    alloc: Global,
    name: &str,
    text: &str,
    named: &NamedReading<'_>,
) -> Result<Parse, Fail> {
    let parse = whole_parse(alloc, text, named.reading)?;
    let edited = edited_parse(alloc, text, named.reading)?;
    let from_source = agrees_with_source(alloc, text, named.reading, &parse)?;
    assert!(rt;
        from_source && same_parse(&parse, &edited),
        "{name}, {}",
        named.name
    );
    Ok(parse)
}

// Checks the parse of a text in a reading.
fn check_row(
    rt: &impl Abort,
    alloc: Global,
    row: &Row<'_>,
    text: &str,
    named: &NamedReading<'_>,
) -> Result<(), Fail> {
    let parse = checked_parse(rt, alloc, row.name, text, named)?;
    let lines = render(alloc, &parse, MOST_CHILDREN)?;
    let found = (parse.steps().len(), parse.children().len(), lines.as_str());
    let expected = (row.steps, row.children, row.lines);
    assert_eq!(rt; found, expected, "{}, {}", row.name, named.name);
    Ok(())
}

// Checks a text in each reading, which all parse it alike.
fn check_in_readings(rt: &impl Abort, alloc: Global, row: &Row<'_>) -> Result<(), Fail> {
    let text = repeated(alloc, row.parts)?;
    for named in READINGS {
        check_row(rt, alloc, row, text.as_str(), named)?;
    }
    Ok(())
}

fn check_texts(rt: &impl Abort, alloc: Global, rows: &[Row<'_>]) -> Result<(), Fail> {
    for row in rows {
        check_in_readings(rt, alloc, row)?;
    }
    Ok(())
}

const MANY: u32 = 100_000;

const ROWS: &[Row<'static>] = &[
    Row {
        name: "comments_open",
        parts: &[("/*", MANY)],
        steps: 3,
        children: 1,
        lines: "T comment 0..200000\nE 0..200000 unterminated block comment\n",
    },
    Row {
        name: "comments_open_and_close",
        parts: &[("/*", MANY), ("*/", MANY)],
        steps: 3,
        children: 1,
        lines: "T comment 0..400000\n",
    },
    Row {
        name: "parentheses_open",
        parts: &[("(", MANY)],
        steps: 300_004,
        children: 1,
        lines: "N paren select 0..100000\n",
    },
    Row {
        name: "parentheses_close",
        parts: &[(")", MANY)],
        steps: 100_004,
        children: 1,
        lines: "N error 0..100000\nE 0..1 unknown statement\n",
    },
    Row {
        name: "semicolons",
        parts: &[(";", MANY)],
        steps: 300_002,
        children: 100_000,
        lines: "N empty stmt 0..1\n\
            T `;` 0..1\n\
            N empty stmt 1..2\n\
            T `;` 1..2\n\
            N empty stmt 2..3\n\
            T `;` 2..3\n",
    },
    Row {
        name: "nuls",
        parts: &[("\0", 3)],
        steps: 7,
        children: 1,
        lines: "N error 0..3\n\
            E 0..1 unknown statement\n\
            E 0..1 unknown character\n\
            E 1..2 unknown character\n\
            E 2..3 unknown character\n",
    },
    Row {
        name: "mark",
        parts: &[("\u{feff}", 1)],
        steps: 3,
        children: 1,
        lines: "T whitespace 0..3\n",
    },
    Row {
        name: "two_marks",
        parts: &[("\u{feff}", 2)],
        steps: 6,
        children: 2,
        lines: "T whitespace 0..3\n\
            N error 3..6\n\
            T identifier 3..6\n\
            E 3..6 unknown statement\n",
    },
    Row {
        name: "escape_string_ends_in_a_backslash",
        parts: &[("E'\\", 1)],
        steps: 5,
        children: 1,
        lines: "N error 0..3\n\
            T escape string literal 0..3\n\
            E 0..3 unknown statement\n\
            E 0..3 unterminated string\n",
    },
    Row {
        name: "unicode_identifier_opens",
        parts: &[("U&\"", 1)],
        steps: 5,
        children: 1,
        lines: "N error 0..3\n\
            T identifier 0..3\n\
            E 0..3 unknown statement\n\
            E 0..3 unterminated quoted identifier\n",
    },
    Row {
        name: "dollar_string_opens",
        parts: &[("$a$", 1)],
        steps: 5,
        children: 1,
        lines: "N error 0..3\n\
            T dollar-quoted string literal 0..3\n\
            E 0..3 unknown statement\n\
            E 0..3 unterminated string\n",
    },
    Row {
        name: "options_of_a_command_open",
        parts: &[("\\g (", 1)],
        steps: 5,
        children: 1,
        lines: "N psql command 0..4\n\
            T psql terminator 0..4\n",
    },
    Row {
        name: "backslash",
        parts: &[("\\", 1)],
        steps: 5,
        children: 1,
        lines: "N psql command 0..1\n\
            T psql meta-command 0..1\n",
    },
    Row {
        name: "comment_opens_after_a_word",
        parts: &[("select /*", 1)],
        steps: 7,
        children: 3,
        lines: "N select 0..6\n\
            T `select` 0..6\n\
            T whitespace 6..7\n\
            T comment 7..9\n\
            E 7..9 unterminated block comment\n",
    },
];

#[test]
fn hostile_texts_parse_alike(rt: HostRuntime) -> Result<(), Fail> {
    check_texts(&rt, rt.alloc(), ROWS)
}
