//! Worked edits, with the counts and the document after each.
use super::{same_document, same_parse, sums};
use crate::{Document, FrontError};
use squawk_cut::{Child, Division, Front, PlainFront, StrStep, Strings};
use squawk_tree::{parse_divided, parse_source_in};
use std::alloc::{AllocError, Global};
use std::process::Abort;
use std::test::Fail;

// A child of a text that begins at `at`: its node and whether it is closed, and each leaf with its
// text and kind, one on a line.
fn render_child(
    alloc: Global,
    lines: &mut String,
    text: &str,
    child: &Child,
    at: usize,
) -> Result<(), AllocError> {
    match child.node() {
        Some(kind) => lines.push_str(format!(in alloc; "+ {kind}")?.as_str())?,
        None => lines.push_str("+ leaf")?,
    }
    lines.push_str(if child.closed() { "\n" } else { ", open\n" })?;
    for step in child.steps() {
        if let StrStep::Token { kind, start, end } = *step {
            let from = at.saturating_add(start as usize);
            let to = at.saturating_add(end as usize);
            let leaf = text.get(from..to).unwrap_or("?");
            lines.push_str(format!(in alloc; "\"{leaf}\" {kind}\n")?.as_str())?;
        }
    }
    Ok(())
}

// The children of a document, in order.
pub(crate) fn render<F: Front>(
    alloc: Global,
    document: &Document<F>,
) -> Result<String, AllocError> {
    let mut lines = String::new(alloc);
    let mut at = 0usize;
    for child in document.children() {
        render_child(alloc, &mut lines, document.text(), child, at)?;
        at = at.saturating_add(child.bytes() as usize);
    }
    Ok(lines)
}

struct Row<'a> {
    name: &'a str,
    text: &'a str,
    start: usize,
    end: usize,
    new: &'a str,
    counts: &'a str,
    lines: &'a str,
}

const ROWS: &[Row<'static>] = &[
    Row {
        name: "edit_in_the_middle",
        text: "select 1; select 2; select 3;",
        start: 17,
        end: 18,
        new: "22",
        counts: "tokens 5+3+6 children 2+1+2",
        lines: "+ select\n\"select\" `select`\n\" \" whitespace\n\"1\" integer literal\n\";\" `;`\n\
            + leaf\n\" \" whitespace\n\
            + select\n\"select\" `select`\n\" \" whitespace\n\"22\" integer literal\n\";\" `;`\n\
            + leaf\n\" \" whitespace\n\
            + select\n\"select\" `select`\n\" \" whitespace\n\"3\" integer literal\n\";\" `;`\n",
    },
    Row {
        name: "exponent_grows",
        text: "1e+",
        start: 3,
        end: 3,
        new: "5",
        counts: "tokens 0+1+0 children 0+1+0",
        lines: "+ error, open\n\"1e+5\" numeric literal\n",
    },
    Row {
        name: "mark_removed",
        text: "\u{feff}a",
        start: 0,
        end: 3,
        new: "",
        counts: "tokens 0+1+0 children 0+1+0",
        lines: "+ error, open\n\"a\" identifier\n",
    },
    Row {
        name: "quote_opens",
        text: "select 1; select 'a';",
        start: 0,
        end: 0,
        new: "'",
        counts: "tokens 0+3+0 children 0+1+0",
        lines: "+ error, open\n\"'select 1; select '\" string literal\n\"a\" identifier\n\
            \"';\" string literal\n",
    },
    Row {
        name: "last_character_is_cut_again",
        text: "é",
        start: 2,
        end: 2,
        new: "",
        counts: "tokens 0+1+0 children 0+1+0",
        lines: "+ error, open\n\"é\" identifier\n",
    },
    Row {
        name: "open_statement_ends",
        text: "select 1",
        start: 8,
        end: 8,
        new: "2;",
        counts: "tokens 1+3+0 children 0+1+0",
        lines: "+ select\n\"select\" `select`\n\" \" whitespace\n\"12\" integer literal\n\
            \";\" `;`\n",
    },
    Row {
        name: "open_statement_grows",
        text: "select 1   ",
        start: 11,
        end: 11,
        new: "2",
        counts: "tokens 3+2+0 children 0+1+0",
        lines: "+ select, open\n\"select\" `select`\n\" \" whitespace\n\"1\" integer literal\n\
            \"   \" whitespace\n\"2\" integer literal\n",
    },
    Row {
        name: "semicolon_removed",
        text: "a;b;c;",
        start: 3,
        end: 4,
        new: "",
        counts: "tokens 1+2+1 children 0+2+0",
        lines: "+ error\n\"a\" identifier\n\";\" `;`\n+ error\n\"bc\" identifier\n\";\" `;`\n",
    },
    Row {
        name: "group_removed",
        text: "a;(b);c;",
        start: 2,
        end: 3,
        new: "",
        counts: "tokens 0+2+5 children 0+2+1",
        lines: "+ error\n\"a\" identifier\n\";\" `;`\n\
            + error\n\"b\" identifier\n\")\" `)`\n\";\" `;`\n\
            + error\n\"c\" identifier\n\";\" `;`\n",
    },
    Row {
        name: "all_removed",
        text: "select 1;",
        start: 0,
        end: 9,
        new: "",
        counts: "tokens 0+0+0 children 0+0+0",
        lines: "",
    },
    Row {
        name: "terminator_removed",
        text: "a \\g\nb;",
        start: 2,
        end: 4,
        new: "",
        counts: "tokens 0+2+2 children 0+1+0",
        lines: "+ error\n\"a\" identifier\n\" \n\" whitespace\n\"b\" identifier\n\";\" `;`\n",
    },
];

// The text after the edit of a row.
fn text_after(alloc: Global, row: &Row<'_>) -> Result<String, Fail> {
    let before = row.text.get(..row.start).ok_or(row.name)?;
    let after = row.text.get(row.end..).ok_or(row.name)?;
    let new = row.new;
    Ok(format!(in alloc; "{before}{new}{after}")?)
}

// Edits a document as a row says. A parse of it is that of the text after the edit.
fn check_edit(rt: &impl Abort, alloc: Global, row: &Row<'_>, strings: Strings) -> Result<(), Fail> {
    let front = PlainFront::new_in(strings);
    let mut document = Document::new(alloc, front, row.text).ok().ok_or(row.name)?;
    let before = document.front().steps();
    let edited = document
        .edit(row.start, row.end, row.new)
        .ok()
        .ok_or(row.name)?;
    assert_eq!(rt; sums(alloc, edited)?.as_str(), row.counts, "{}", row.name);
    assert_eq!(rt;
        render(alloc, &document)?.as_str(),
        row.lines,
        "{}",
        row.name
    );
    let steps = document.front().steps().saturating_sub(before);
    let most = edited.cut_tokens.saturating_add(edited.parsed_children);
    assert!(rt; steps <= most as u64, "{}", row.name);
    let parse = document.parse(alloc).ok().ok_or(row.name)?;
    let text = text_after(alloc, row)?;
    let whole = parse_source_in(alloc, text.as_str(), strings)
        .ok()
        .ok_or(row.name)?;
    assert!(rt; same_parse(&parse, &whole), "{}", row.name);
    Ok(())
}

#[test]
fn edits_keep_what_they_can(rt: HostRuntime) -> Result<(), Fail> {
    for row in ROWS {
        check_edit(&rt, rt.alloc(), row, Strings::Standard)?;
    }
    Ok(())
}

// No row has a backslash in a plain string, so the same is kept.
#[test]
fn edits_where_a_backslash_escapes(rt: HostRuntime) -> Result<(), Fail> {
    for row in ROWS {
        check_edit(&rt, rt.alloc(), row, Strings::Backslash)?;
    }
    Ok(())
}

#[test]
fn bad_ranges(rt: HostRuntime) -> Result<(), Fail> {
    let alloc = rt.alloc();
    let mut document = Document::new(alloc, PlainFront::new(), "é")
        .ok()
        .ok_or("no memory")?;
    let whole = Document::new(alloc, PlainFront::new(), "é")
        .ok()
        .ok_or("no memory")?;
    let ranges: &[(usize, usize, &str)] = &[(1, 1, "x"), (0, 3, ""), (2, 1, "")];
    let steps = document.front().steps();
    for &(start, end, new) in ranges {
        assert_eq!(rt;
            document.edit(start, end, new).err(),
            Some(FrontError::BadRange),
            "{start}..{end}"
        );
        assert!(rt; same_document(&document, &whole), "{start}..{end}");
        assert_eq!(rt; document.front().steps(), steps, "{start}..{end}");
    }
    Ok(())
}

struct Reading<'a> {
    name: &'a str,
    strings: Strings,
    division: Division,
    text: &'a str,
    start: usize,
    end: usize,
    new: &'a str,
    counts: &'a str,
}

const GROUP: &str = "select (1, '\\'; c');";

// The group before the second statement gets its `)`.
const OPEN_GROUP: &str = "select (1; select 2;";

const READINGS: &[Reading<'static>] = &[
    Reading {
        name: "standard, flat",
        strings: Strings::Standard,
        division: Division::Flat,
        text: GROUP,
        start: 8,
        end: 9,
        new: "22",
        counts: "tokens 1+3+7 children 0+1+2",
    },
    Reading {
        name: "standard, grouped",
        strings: Strings::Standard,
        division: Division::Grouped,
        text: GROUP,
        start: 8,
        end: 9,
        new: "22",
        counts: "tokens 1+3+7 children 0+1+0",
    },
    Reading {
        name: "backslash, flat",
        strings: Strings::Backslash,
        division: Division::Flat,
        text: GROUP,
        start: 8,
        end: 9,
        new: "22",
        counts: "tokens 1+3+5 children 0+1+0",
    },
    Reading {
        name: "backslash, grouped",
        strings: Strings::Backslash,
        division: Division::Grouped,
        text: GROUP,
        start: 8,
        end: 9,
        new: "22",
        counts: "tokens 1+3+5 children 0+1+0",
    },
    Reading {
        name: "group_closes, flat",
        strings: Strings::Standard,
        division: Division::Flat,
        text: OPEN_GROUP,
        start: 9,
        end: 9,
        new: ")",
        counts: "tokens 2+3+6 children 0+1+2",
    },
    Reading {
        name: "group_closes, grouped",
        strings: Strings::Standard,
        division: Division::Grouped,
        text: OPEN_GROUP,
        start: 9,
        end: 9,
        new: ")",
        counts: "tokens 2+3+6 children 0+3+0",
    },
];

// A parse of the document is that of its text, in each reading and division.
#[test]
fn readings_and_divisions(rt: HostRuntime) -> Result<(), Fail> {
    let alloc = rt.alloc();
    for row in READINGS {
        let front = PlainFront::new_divided(row.strings, row.division);
        let mut document = Document::new(alloc, front, row.text).ok().ok_or(row.name)?;
        let edited = document
            .edit(row.start, row.end, row.new)
            .ok()
            .ok_or(row.name)?;
        assert_eq!(rt; sums(alloc, edited)?.as_str(), row.counts, "{}", row.name);
        let parse = document.parse(alloc).ok().ok_or(row.name)?;
        let whole = parse_divided(alloc, document.text(), row.strings, row.division);
        let whole = whole.ok().ok_or(row.name)?;
        assert!(rt; same_parse(&parse, &whole), "{}", row.name);
    }
    Ok(())
}
