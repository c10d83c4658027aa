//! Trees of whole texts, worked by hand from `docs/STATEMENTS.md`.
mod faults;
mod grammar;
mod ranges;
mod sink;

use crate::{
    ChildSpan, Division, Parse, PlainChildren, Strings, parse_children, parse_divided,
    parse_source, parse_statements, parse_with,
};
use squawk_events::{ParseError, StrStep};
use squawk_kinds::SyntaxKind;
use squawk_lexed::LexedStr;
use squawk_statements::GroupedGrammar;
use std::alloc::{AllocError, Global};
use std::process::Abort;
use std::test::Fail;

// The tree and the errors of a parse, one step or error on a line: `+`, the kind and the range of a
// node, `-` at its end, the text, the kind and the range of a leaf, `E`, the range and the number
// of an error.
fn render(alloc: Global, parse: &Parse, text: &str) -> Result<String, AllocError> {
    let mut lines = String::new(alloc);
    for i in 0..parse.steps().len() {
        let (start, end) = parse.range(i);
        match parse.steps()[i] {
            StrStep::Enter { kind } => {
                lines.push_str(format!(in alloc; "+ {kind} {start}..{end}\n")?.as_str())?;
            }
            StrStep::Token { kind, .. } => {
                let leaf = text.get(start as usize..end as usize).unwrap_or("?");
                lines.push_str(format!(in alloc; "\"{leaf}\" {kind} {start}..{end}\n")?.as_str())?;
            }
            _ => lines.push_str("-\n")?,
        }
    }
    for error in parse.errors() {
        let number = error.number;
        let (start, end) = (error.start, error.end);
        lines.push_str(format!(in alloc; "E {start}..{end} {number}\n")?.as_str())?;
    }
    Ok(lines)
}

struct Row<'a> {
    name: &'a str,
    text: &'a str,
    lines: &'a str,
}

const ROWS: &[Row<'static>] = &[
    Row {
        name: "commands_in_statement",
        text: "-- a\nSELECT \\dt \\g\n;",
        lines: "+ source file 0..20\n\
            \"-- a\" comment 0..4\n\
            \"\n\" whitespace 4..5\n\
            + select 5..18\n\
            \"SELECT\" `select` 5..11\n\
            \" \" whitespace 11..12\n\
            \"\\dt \" psql meta-command 12..16\n\
            \"\\g\" psql terminator 16..18\n\
            -\n\
            \"\n\" whitespace 18..19\n\
            + empty stmt 19..20\n\
            \";\" `;` 19..20\n\
            -\n\
            -\n",
    },
    Row {
        name: "semicolon_in_group",
        text: "foo (a;b",
        lines: "+ source file 0..8\n\
            + error 0..7\n\
            \"foo\" identifier 0..3\n\
            \" \" whitespace 3..4\n\
            + paren expr 4..6\n\
            \"(\" `(` 4..5\n\
            \"a\" identifier 5..6\n\
            -\n\
            \";\" `;` 6..7\n\
            -\n\
            + error 7..8\n\
            \"b\" identifier 7..8\n\
            -\n\
            -\n\
            E 0..3 10\n\
            E 7..8 10\n",
    },
    Row {
        name: "paren_select",
        text: "(a)) ;",
        lines: "+ source file 0..6\n\
            + paren select 0..6\n\
            + paren expr 0..3\n\
            \"(\" `(` 0..1\n\
            \"a\" identifier 1..2\n\
            \")\" `)` 2..3\n\
            -\n\
            \")\" `)` 3..4\n\
            \" \" whitespace 4..5\n\
            \";\" `;` 5..6\n\
            -\n\
            -\n",
    },
];

// Compares the lines of a parse with those of its row.
fn check_lines(rt: &impl Abort, alloc: Global, parse: &Parse, row: &Row) -> Result<(), Fail> {
    let lines = render(alloc, parse, row.text)?;
    assert_eq!(rt; lines.as_str(), row.lines);
    Ok(())
}

#[test]
fn texts_have_trees(rt: HostRuntime) -> Result<(), Fail> {
    for row in ROWS {
        let parse = parse_source(rt.alloc(), row.text).ok().ok_or(row.name)?;
        check_lines(&rt, rt.alloc(), &parse, row)?;
    }
    Ok(())
}

const MIGRATION: &str = "BEGIN;\n\
    create table if not exists t \
    (id bigint primary key, \"Name\" text default E'a\\'b');\n\
    create unique index concurrently i on t (id);\n\
    create or replace function f() returns int language sql \
    as $body$ select 1; select 2; $body$;\n\
    COMMIT;\n";

#[test]
fn migration(rt: HostRuntime) -> Result<(), Fail> {
    let parse = parse_source(rt.alloc(), MIGRATION).ok().ok_or("no memory")?;
    let mut lines = String::new(rt.alloc());
    for child in parse.children() {
        match child.node {
            Some(kind) => lines.push_str(format!(in rt.alloc(); "{kind}")?.as_str())?,
            None => lines.push_str("leaf")?,
        }
        let (start, end) = (child.start, child.end);
        lines.push_str(format!(in rt.alloc(); " {start}..{end}\n")?.as_str())?;
    }
    assert_eq!(rt;
        lines.as_str(),
        "begin 0..6\n\
        leaf 6..7\n\
        create table 7..89\n\
        leaf 89..90\n\
        create index 90..135\n\
        leaf 135..136\n\
        create function 136..229\n\
        leaf 229..230\n\
        commit transaction 230..237\n\
        leaf 237..238\n"
    );
    assert_eq!(rt; parse.errors().len(), 0);
    Ok(())
}

#[test]
fn children_have_steps(rt: HostRuntime) -> Result<(), Fail> {
    let parse = parse_source(rt.alloc(), "; a b").ok().ok_or("no memory")?;
    let children = [
        ChildSpan {
            step: 1,
            tokens: 1,
            start: 0,
            end: 1,
            node: Some(SyntaxKind::EMPTY_STMT),
        },
        ChildSpan {
            step: 4,
            tokens: 1,
            start: 1,
            end: 2,
            node: None,
        },
        ChildSpan {
            step: 5,
            tokens: 3,
            start: 2,
            end: 5,
            node: Some(SyntaxKind::ERROR),
        },
    ];
    assert_eq!(rt; parse.children(), children.as_slice());
    let unknown = ParseError {
        start: 2,
        end: 3,
        number: 10,
    };
    assert_eq!(rt; parse.errors(), [unknown].as_slice());
    Ok(())
}

#[test]
fn divisions(rt: HostRuntime) -> Result<(), Fail> {
    let text = "foo (a;b); c";
    for (division, children) in [(Division::Flat, 4), (Division::Grouped, 3)] {
        let parse = parse_divided(rt.alloc(), text, Strings::Standard, division)
            .ok()
            .ok_or("no memory")?;
        assert_eq!(rt; parse.children().len(), children);
    }
    Ok(())
}

// The tokens of a row's text.
fn cut<'a>(alloc: Global, row: &Row<'a>) -> Result<LexedStr<'a>, Fail> {
    let lexed = LexedStr::new_in(alloc, row.text, Strings::Standard);
    Ok(lexed.ok().ok_or(row.name)?)
}

// Compares with a row the trees of its tokens, by both functions that take tokens.
fn check_tokens(rt: &impl Abort, alloc: Global, row: &Row<'_>) -> Result<(), Fail> {
    let parse = parse_statements(alloc, cut(alloc, row)?, Division::Flat)
        .ok()
        .ok_or(row.name)?;
    check_lines(rt, alloc, &parse, row)?;
    let parse = parse_children(alloc, cut(alloc, row)?, Division::Flat, &PlainChildren)
        .ok()
        .ok_or(row.name)?;
    check_lines(rt, alloc, &parse, row)
}

#[test]
fn tokens_have_trees(rt: HostRuntime) -> Result<(), Fail> {
    for row in ROWS {
        check_tokens(&rt, rt.alloc(), row)?;
    }
    Ok(())
}

#[test]
fn root_of_empty_text(rt: HostRuntime) -> Result<(), Fail> {
    let parse = parse_source(rt.alloc(), "").ok().ok_or("no memory")?;
    assert_eq!(rt; parse.steps().len(), 2);
    let (start, end) = parse.range(0);
    assert_eq!(rt; start, 0);
    assert_eq!(rt; end, 0);
    assert_eq!(rt; parse.text("", 0), "");
    assert_eq!(rt; parse.children().len(), 0);
    Ok(())
}

#[test]
fn parse_by_a_grammar(rt: HostRuntime) -> Result<(), Fail> {
    let parse = parse_with(rt.alloc(), "(a;b); c", &GroupedGrammar)
        .ok()
        .ok_or("no memory")?;
    assert_eq!(rt; parse.children().len(), 3);
    Ok(())
}
