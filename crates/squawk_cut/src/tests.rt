//! Worked children of texts, by hand from `docs/STATEMENTS.md`, and their joins.
ghost use Rattle.std.specs.Prelude.{◌≡◌, ◌<◌, ◌≤◌, ◌^◌, ◌==◌, length, drop, IfOk};
ghost use Rattle.std.specs.Str.{IsCharBoundary};
ghost use Rattle.squawk_cut.specs.Tokens.{tokens_from};

use crate::{
    Child, Division, Front, FrontError, Parse, PlainFront, StrStep, Strings, Token, TokenKind, join,
};
use squawk_events::LIMIT;
use squawk_kinds::SyntaxKind;
use squawk_tree::{parse_divided, parse_source};
use std::alloc::{AllocError, Global};
use std::test::Fail;

// The tokens of a text from `at` on.
fn tokens_at<F: Front>(
    alloc: Global,
    front: &mut F,
    text: &str,
    at: usize,
) -> Result<Vec<Token>, AllocError>
    requires small { length text.now < 2 ^ 32 }
    requires boundary { IsCharBoundary text.now at }
    ensures tokens { IfOk result (λ tokens.
        tokens.items ≡ tokens_from (F.tells front.old) 0 (at == 0) (drop at text.now)) }
    ensures same { F.tells front.new ≡ F.tells front.old }
{
    let mut tokens = Vec::new(alloc);
    let mut from = at;
    while from < text.len() {
        let token = front.cut_next(text, from);
        tokens.push(token)?;
        from += token.len as usize;
    }
    Ok(tokens)
}

// The first child of a text from `at` on; `BadRange` where no token begins there.
fn child_at<F: Front>(
    alloc: Global,
    front: &mut F,
    text: &str,
    at: usize,
) -> Result<Child, FrontError> {
    if text.len() as u64 > LIMIT || at >= text.len() || !text.is_char_boundary(at) {
        return Err(FrontError::BadRange);
    }
    let tokens = tokens_at(alloc, front, text, at)?;
    front.parse_next(alloc, text, at, &tokens)
}

// The children of a text, up to its end or the first that is refused.
fn children_of<F: Front>(
    alloc: Global,
    front: &mut F,
    text: &str,
) -> Result<Vec<Child>, FrontError> {
    let mut children = Vec::new(alloc);
    let mut at = 0usize;
    for _ in 0..text.len() {
        if at == text.len() {
            break;
        }
        let child = child_at(alloc, front, text, at)?;
        at = at.saturating_add(child.bytes() as usize);
        children.push(child)?;
    }
    Ok(children)
}

// The tree of the children of a text; `BadRange` where they are longer than a text may be.
fn joined<F: Front>(alloc: Global, front: &mut F, text: &str) -> Result<Parse, FrontError> {
    let children = children_of(alloc, front, text)?;
    let mut len = 0u64;
    for i in 0..children.len() {
        if len > LIMIT {
            return Err(FrontError::BadRange);
        }
        len += u64::from(children[i].bytes());
    }
    if len > LIMIT {
        return Err(FrontError::BadRange);
    }
    join(alloc, &children)
}

// A child: a line with its offset, tokens, bytes, node and whether it is closed, then its steps and
// its errors, with offsets from its start.
fn render(alloc: Global, child: &Child, text: &str, at: usize) -> Result<String, AllocError> {
    let mut lines = String::new(alloc);
    let (tokens, bytes) = (child.tokens(), child.bytes());
    let state = if child.closed() { "closed" } else { "open" };
    lines.push_str(format!(in alloc; "{at}: {tokens} tokens, {bytes} bytes, ")?.as_str())?;
    match child.node() {
        Some(node) => lines.push_str(format!(in alloc; "{node}, {state}\n")?.as_str())?,
        None => lines.push_str(format!(in alloc; "leaf, {state}\n")?.as_str())?,
    }
    for step in child.steps() {
        match *step {
            StrStep::Enter { kind } => {
                lines.push_str(format!(in alloc; "+ {kind}\n")?.as_str())?;
            }
            StrStep::Token { kind, start, end } => {
                let from = at.saturating_add(start as usize);
                let to = at.saturating_add(end as usize);
                let leaf = text.get(from..to).unwrap_or("?");
                lines.push_str(format!(in alloc; "\"{leaf}\" {kind} {start}..{end}\n")?.as_str())?;
            }
            _ => lines.push_str("-\n")?,
        }
    }
    for error in child.errors() {
        let number = error.number;
        let (start, end) = (error.start, error.end);
        lines.push_str(format!(in alloc; "E {start}..{end} {number}\n")?.as_str())?;
    }
    Ok(lines)
}

// The children of a text, one after the other.
fn render_all(alloc: Global, children: &[Child], text: &str) -> Result<String, AllocError> {
    let mut lines = String::new(alloc);
    let mut at = 0usize;
    for child in children {
        lines.push_str(render(alloc, child, text, at)?.as_str())?;
        at = at.saturating_add(child.bytes() as usize);
    }
    Ok(lines)
}

struct Row<'a> {
    name: &'a str,
    text: &'a str,
    strings: Strings,
    division: Division,
    lines: &'a str,
}

const ROWS: &[Row<'static>] = &[
    Row {
        name: "first_children",
        text: ";select 1",
        strings: Strings::Standard,
        division: Division::Flat,
        lines: "0: 1 tokens, 1 bytes, empty stmt, closed\n\
            + empty stmt\n\
            \";\" `;` 0..1\n\
            -\n\
            1: 3 tokens, 8 bytes, select, open\n\
            + select\n\
            \"select\" `select` 0..6\n\
            \" \" whitespace 6..7\n\
            \"1\" integer literal 7..8\n\
            -\n",
    },
    Row {
        name: "unknown statements, and a leaf between them",
        text: "foo; bar",
        strings: Strings::Standard,
        division: Division::Flat,
        lines: "0: 2 tokens, 4 bytes, error, closed\n\
            + error\n\
            \"foo\" identifier 0..3\n\
            \";\" `;` 3..4\n\
            -\n\
            E 0..3 10\n\
            4: 1 tokens, 1 bytes, leaf, closed\n\
            \" \" whitespace 0..1\n\
            5: 1 tokens, 3 bytes, error, open\n\
            + error\n\
            \"bar\" identifier 0..3\n\
            -\n\
            E 0..3 10\n",
    },
    Row {
        name: "a backslash in a string is a character",
        text: "select 'a\\';'",
        strings: Strings::Standard,
        division: Division::Flat,
        lines: "0: 4 tokens, 12 bytes, select, closed\n\
            + select\n\
            \"select\" `select` 0..6\n\
            \" \" whitespace 6..7\n\
            \"'a\\'\" string literal 7..11\n\
            \";\" `;` 11..12\n\
            -\n\
            12: 1 tokens, 1 bytes, error, open\n\
            + error\n\
            \"'\" string literal 0..1\n\
            -\n\
            E 0..1 10\n\
            E 0..1 3\n",
    },
    Row {
        name: "a backslash in a string escapes",
        text: "select 'a\\';'",
        strings: Strings::Backslash,
        division: Division::Flat,
        lines: "0: 3 tokens, 13 bytes, select, open\n\
            + select\n\
            \"select\" `select` 0..6\n\
            \" \" whitespace 6..7\n\
            \"'a\\';'\" string literal 7..13\n\
            -\n",
    },
    Row {
        name: "a semicolon in a group ends the statement",
        text: "(a;b) c",
        strings: Strings::Standard,
        division: Division::Flat,
        lines: "0: 3 tokens, 3 bytes, paren select, closed\n\
            + paren select\n\
            + paren expr\n\
            \"(\" `(` 0..1\n\
            \"a\" identifier 1..2\n\
            -\n\
            \";\" `;` 2..3\n\
            -\n\
            3: 4 tokens, 4 bytes, error, open\n\
            + error\n\
            \"b\" identifier 0..1\n\
            \")\" `)` 1..2\n\
            \" \" whitespace 2..3\n\
            \"c\" identifier 3..4\n\
            -\n\
            E 0..1 10\n",
    },
    Row {
        name: "a semicolon in a group is a token",
        text: "(a;b) c",
        strings: Strings::Standard,
        division: Division::Grouped,
        lines: "0: 7 tokens, 7 bytes, paren select, open\n\
            + paren select\n\
            + paren expr\n\
            \"(\" `(` 0..1\n\
            \"a\" identifier 1..2\n\
            \";\" `;` 2..3\n\
            \"b\" identifier 3..4\n\
            \")\" `)` 4..5\n\
            -\n\
            \" \" whitespace 5..6\n\
            \"c\" identifier 6..7\n\
            -\n",
    },
    Row {
        name: "leaves, one with an error",
        text: "\u{feff}/*x",
        strings: Strings::Standard,
        division: Division::Flat,
        lines: "0: 1 tokens, 3 bytes, leaf, closed\n\
            \"\u{feff}\" whitespace 0..3\n\
            3: 1 tokens, 3 bytes, leaf, closed\n\
            \"/*x\" comment 0..3\n\
            E 0..3 2\n",
    },
];

#[test]
fn children_of_texts(rt: HostRuntime) -> Result<(), Fail> {
    for row in ROWS {
        let mut front = PlainFront::new_divided(row.strings, row.division);
        let children = children_of(rt.alloc(), &mut front, row.text)
            .ok()
            .ok_or(row.name)?;
        let lines = render_all(rt.alloc(), &children, row.text)?;
        assert_eq!(rt; lines.as_str(), row.lines, "{}", row.name);
    }
    Ok(())
}

// The only child of a text, read as closed or open; `BadRange` where it has none or several.
fn only_child(alloc: Global, text: &str, closed: bool) -> Result<Child, FrontError> {
    let parse = parse_source(alloc, text)?;
    if parse.children().len() != 1 {
        return Err(FrontError::BadRange);
    }
    Child::from_parse(alloc, &parse, closed)
}

// Each row: the text, whether its child is closed, and the child.
const ONLY_CHILDREN: &[(&str, bool, &str)] = &[
    (
        "bar 'x",
        false,
        "0: 3 tokens, 6 bytes, error, open\n\
            + error\n\
            \"bar\" identifier 0..3\n\
            \" \" whitespace 3..4\n\
            \"'x\" string literal 4..6\n\
            -\n\
            E 0..3 10\n\
            E 4..6 3\n",
    ),
    (
        "select(1)",
        true,
        "0: 4 tokens, 9 bytes, select, closed\n\
            + select\n\
            \"select\" `select` 0..6\n\
            + paren expr\n\
            \"(\" `(` 6..7\n\
            \"1\" integer literal 7..8\n\
            \")\" `)` 8..9\n\
            -\n\
            -\n",
    ),
    (
        "-- x",
        true,
        "0: 1 tokens, 4 bytes, leaf, closed\n\
            \"-- x\" comment 0..4\n",
    ),
];

#[test]
fn only_children(rt: HostRuntime) -> Result<(), Fail> {
    for row in ONLY_CHILDREN {
        let child = only_child(rt.alloc(), row.0, row.1).ok().ok_or(row.0)?;
        let lines = render(rt.alloc(), &child, row.0, 0)?;
        assert_eq!(rt; lines.as_str(), row.2, "{}", row.0);
    }
    for text in ["", "; ;"] {
        assert!(rt; only_child(rt.alloc(), text, true).is_err(), "{text}");
    }
    Ok(())
}

#[test]
fn joins_are_parses(rt: HostRuntime) -> Result<(), Fail> {
    for row in ROWS {
        let mut front = PlainFront::new_divided(row.strings, row.division);
        let parse = joined(rt.alloc(), &mut front, row.text)
            .ok()
            .ok_or(row.name)?;
        let whole = parse_divided(rt.alloc(), row.text, row.strings, row.division);
        let whole = whole.ok().ok_or(row.name)?;
        assert_eq!(rt; parse.steps(), whole.steps());
        assert_eq!(rt; parse.errors(), whole.errors());
        assert_eq!(rt; parse.len(), whole.len());
    }
    Ok(())
}

#[test]
fn no_children(rt: HostRuntime) -> Result<(), Fail> {
    let parse = join(rt.alloc(), &[])?;
    let root = StrStep::Enter {
        kind: SyntaxKind::SOURCE_FILE,
    };
    assert_eq!(rt; parse.steps(), [root, StrStep::Exit].as_slice());
    assert_eq!(rt; parse.errors().len(), 0);
    assert_eq!(rt; parse.len(), 0);
    Ok(())
}

// The second byte order mark is a letter, since it is not at the start of the text.
#[test]
fn mark_cut_twice(rt: HostRuntime) -> Result<(), Fail> {
    let text = "\u{feff}\u{feff}";
    let mut front = PlainFront::new();
    assert_eq!(rt; front.steps(), 0);
    let tokens = tokens_at(rt.alloc(), &mut front, text, 0)?;
    let mark = Token {
        kind: TokenKind::Whitespace,
        len: 3,
    };
    let word = Token {
        kind: TokenKind::Ident,
        len: 3,
    };
    assert_eq!(rt; tokens.as_slice(), [mark, word].as_slice());
    assert_eq!(rt; front.steps(), 2);
    let child = child_at(rt.alloc(), &mut front, text, 3)?;
    assert_eq!(rt; child.node(), Some(SyntaxKind::ERROR));
    assert_eq!(rt; front.steps(), 4);
    Ok(())
}

#[test]
fn options_of_fronts(rt: HostRuntime) {
    let front = PlainFront::new();
    assert_eq!(rt; front.strings(), Strings::Standard);
    assert_eq!(rt; front.division(), Division::Flat);
    let front = PlainFront::new_in(Strings::Backslash);
    assert_eq!(rt; front.strings(), Strings::Backslash);
    assert_eq!(rt; front.division(), Division::Flat);
    let front = PlainFront::new_divided(Strings::Standard, Division::Grouped);
    assert_eq!(rt; front.strings(), Strings::Standard);
    assert_eq!(rt; front.division(), Division::Grouped);
}
