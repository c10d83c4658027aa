//! Trees of worked texts, and steps of worked kinds.
ghost use Rattle.std.specs.Prelude.{IfOk, IsTrue};
ghost use Rattle.squawk_events.specs.Kinds.{has_no_trivia};

use crate::{ClauseGrammar, parse_clauses};
use squawk_events::{EntryPoint, FrontError, Input, Step, StrStep};
use squawk_kinds::SyntaxKind;
use squawk_lexed::LexedStr;
use squawk_lexer::Strings;
use squawk_statements::Division;
use squawk_tree::{Parse, parse_with_in};
use std::alloc::{AllocError, Global};
use std::test::Fail;

// The tree and the errors of a parse, one step or error on a line: `+`, the kind and the range of a
// node, `-` at its end, the text, the kind and the range of a leaf, `E`, the range and the number
// of an error.
fn render(alloc: Global, parse: &Parse, text: &str) -> Result<String, AllocError> {
    let mut lines = String::new(alloc);
    for i in 0..parse.steps().len() {
        let (start, end) = parse.range(i);
        match parse.steps()[i] {
            StrStep::Enter { kind } => {
                lines.push_str(format!(in alloc; "+ {kind} {start}..{end}\n")?.as_str())?;
            }
            StrStep::Token { kind, .. } => {
                let leaf = text.get(start as usize..end as usize).unwrap_or("?");
                lines.push_str(format!(in alloc; "\"{leaf}\" {kind} {start}..{end}\n")?.as_str())?;
            }
            _ => lines.push_str("-\n")?,
        }
    }
    for error in parse.errors() {
        let number = error.number;
        let (start, end) = (error.start, error.end);
        lines.push_str(format!(in alloc; "E {start}..{end} {number}\n")?.as_str())?;
    }
    Ok(lines)
}

struct Row<'a> {
    name: &'a str,
    text: &'a str,
    lines: &'a str,
}

const ROWS: &[Row<'static>] = &[
    Row {
        name: "three_clauses",
        text: "select a from t where (x);",
        lines: "+ source file 0..26\n\
            + select 0..26\n\
            + select clause 0..8\n\
            \"select\" `select` 0..6\n\
            \" \" whitespace 6..7\n\
            \"a\" identifier 7..8\n\
            -\n\
            \" \" whitespace 8..9\n\
            + from clause 9..15\n\
            \"from\" `from` 9..13\n\
            \" \" whitespace 13..14\n\
            \"t\" identifier 14..15\n\
            -\n\
            \" \" whitespace 15..16\n\
            + where clause 16..25\n\
            \"where\" `where` 16..21\n\
            \" \" whitespace 21..22\n\
            + paren expr 22..25\n\
            \"(\" `(` 22..23\n\
            \"x\" identifier 23..24\n\
            \")\" `)` 24..25\n\
            -\n\
            -\n\
            \";\" `;` 25..26\n\
            -\n\
            -\n",
    },
    Row {
        name: "select_in_with",
        text: "with q as (select 1) select 2",
        lines: "+ source file 0..29\n\
            + select 0..29\n\
            \"with\" `with` 0..4\n\
            \" \" whitespace 4..5\n\
            \"q\" identifier 5..6\n\
            \" \" whitespace 6..7\n\
            \"as\" `as` 7..9\n\
            \" \" whitespace 9..10\n\
            + paren expr 10..20\n\
            \"(\" `(` 10..11\n\
            \"select\" `select` 11..17\n\
            \" \" whitespace 17..18\n\
            \"1\" integer literal 18..19\n\
            \")\" `)` 19..20\n\
            -\n\
            \" \" whitespace 20..21\n\
            + select clause 21..29\n\
            \"select\" `select` 21..27\n\
            \" \" whitespace 27..28\n\
            \"2\" integer literal 28..29\n\
            -\n\
            -\n\
            -\n",
    },
    Row {
        name: "words_in_groups",
        text: "select(a from(b)order)from c",
        lines: "+ source file 0..28\n\
            + select 0..28\n\
            + select clause 0..22\n\
            \"select\" `select` 0..6\n\
            + paren expr 6..22\n\
            \"(\" `(` 6..7\n\
            \"a\" identifier 7..8\n\
            \" \" whitespace 8..9\n\
            \"from\" `from` 9..13\n\
            + paren expr 13..16\n\
            \"(\" `(` 13..14\n\
            \"b\" identifier 14..15\n\
            \")\" `)` 15..16\n\
            -\n\
            \"order\" `order` 16..21\n\
            \")\" `)` 21..22\n\
            -\n\
            -\n\
            + from clause 22..28\n\
            \"from\" `from` 22..26\n\
            \" \" whitespace 26..27\n\
            \"c\" identifier 27..28\n\
            -\n\
            -\n\
            -\n",
    },
    Row {
        name: "words_alone_decide",
        text: "select a is distinct from b union select 1",
        lines: "+ source file 0..42\n\
            + select 0..42\n\
            + select clause 0..20\n\
            \"select\" `select` 0..6\n\
            \" \" whitespace 6..7\n\
            \"a\" identifier 7..8\n\
            \" \" whitespace 8..9\n\
            \"is\" `is` 9..11\n\
            \" \" whitespace 11..12\n\
            \"distinct\" `distinct` 12..20\n\
            -\n\
            \" \" whitespace 20..21\n\
            + from clause 21..33\n\
            \"from\" `from` 21..25\n\
            \" \" whitespace 25..26\n\
            \"b\" identifier 26..27\n\
            \" \" whitespace 27..28\n\
            \"union\" `union` 28..33\n\
            -\n\
            \" \" whitespace 33..34\n\
            + select clause 34..42\n\
            \"select\" `select` 34..40\n\
            \" \" whitespace 40..41\n\
            \"1\" integer literal 41..42\n\
            -\n\
            -\n\
            -\n",
    },
    Row {
        name: "command_in_clause",
        text: "select 1\\echo a\n from--b\n;",
        lines: "+ source file 0..26\n\
            + select 0..26\n\
            + select clause 0..15\n\
            \"select\" `select` 0..6\n\
            \" \" whitespace 6..7\n\
            \"1\" integer literal 7..8\n\
            \"\\echo a\" psql meta-command 8..15\n\
            -\n\
            \"\n \" whitespace 15..17\n\
            + from clause 17..21\n\
            \"from\" `from` 17..21\n\
            -\n\
            \"--b\" comment 21..24\n\
            \"\n\" whitespace 24..25\n\
            \";\" `;` 25..26\n\
            -\n\
            -\n",
    },
];

const OTHER_ROWS: &[Row<'static>] = &[
    Row {
        name: "all_words",
        text: "select from where group having order limit offset",
        lines: "+ source file 0..49\n\
            + select 0..49\n\
            + select clause 0..6\n\
            \"select\" `select` 0..6\n\
            -\n\
            \" \" whitespace 6..7\n\
            + from clause 7..11\n\
            \"from\" `from` 7..11\n\
            -\n\
            \" \" whitespace 11..12\n\
            + where clause 12..17\n\
            \"where\" `where` 12..17\n\
            -\n\
            \" \" whitespace 17..18\n\
            + group by clause 18..23\n\
            \"group\" `group` 18..23\n\
            -\n\
            \" \" whitespace 23..24\n\
            + having clause 24..30\n\
            \"having\" `having` 24..30\n\
            -\n\
            \" \" whitespace 30..31\n\
            + order by clause 31..36\n\
            \"order\" `order` 31..36\n\
            -\n\
            \" \" whitespace 36..37\n\
            + limit clause 37..42\n\
            \"limit\" `limit` 37..42\n\
            -\n\
            \" \" whitespace 42..43\n\
            + offset clause 43..49\n\
            \"offset\" `offset` 43..49\n\
            -\n\
            -\n\
            -\n",
    },
    Row {
        name: "no_word",
        text: "with a;",
        lines: "+ source file 0..7\n\
            + select 0..7\n\
            \"with\" `with` 0..4\n\
            \" \" whitespace 4..5\n\
            \"a\" identifier 5..6\n\
            \";\" `;` 6..7\n\
            -\n\
            -\n",
    },
    Row {
        name: "closing_tokens",
        text: "select;select(1;select\\g",
        lines: "+ source file 0..24\n\
            + select 0..7\n\
            + select clause 0..6\n\
            \"select\" `select` 0..6\n\
            -\n\
            \";\" `;` 6..7\n\
            -\n\
            + select 7..16\n\
            + select clause 7..15\n\
            \"select\" `select` 7..13\n\
            + paren expr 13..15\n\
            \"(\" `(` 13..14\n\
            \"1\" integer literal 14..15\n\
            -\n\
            -\n\
            \";\" `;` 15..16\n\
            -\n\
            + select 16..24\n\
            + select clause 16..22\n\
            \"select\" `select` 16..22\n\
            -\n\
            \"\\g\" psql terminator 22..24\n\
            -\n\
            -\n",
    },
    Row {
        name: "other_statements",
        text: "insert select;(select)from;select",
        lines: "+ source file 0..33\n\
            + insert 0..14\n\
            \"insert\" `insert` 0..6\n\
            \" \" whitespace 6..7\n\
            \"select\" `select` 7..13\n\
            \";\" `;` 13..14\n\
            -\n\
            + paren select 14..27\n\
            + paren expr 14..22\n\
            \"(\" `(` 14..15\n\
            \"select\" `select` 15..21\n\
            \")\" `)` 21..22\n\
            -\n\
            \"from\" `from` 22..26\n\
            \";\" `;` 26..27\n\
            -\n\
            + select 27..33\n\
            + select clause 27..33\n\
            \"select\" `select` 27..33\n\
            -\n\
            -\n\
            -\n",
    },
    Row {
        name: "errors_stay",
        text: "select 1e from 'a",
        lines: "+ source file 0..17\n\
            + select 0..17\n\
            + select clause 0..9\n\
            \"select\" `select` 0..6\n\
            \" \" whitespace 6..7\n\
            \"1e\" numeric literal 7..9\n\
            -\n\
            \" \" whitespace 9..10\n\
            + from clause 10..17\n\
            \"from\" `from` 10..14\n\
            \" \" whitespace 14..15\n\
            \"'a\" string literal 15..17\n\
            -\n\
            -\n\
            -\n\
            E 8..9 6\n\
            E 15..17 3\n",
    },
];

// The lines of the tree of a text by this division.
fn lines_of(alloc: Global, text: &str, division: Division) -> Result<String, FrontError> {
    let grammar = ClauseGrammar::new(division);
    let parse = parse_with_in(alloc, text, Strings::Standard, &grammar)?;
    Ok(render(alloc, &parse, text)?)
}

// The lines of the tree of the tokens of a text by this division.
fn lines_of_tokens(alloc: Global, text: &str, division: Division) -> Result<String, FrontError> {
    let lexed = LexedStr::new_in(alloc, text, Strings::Standard)?;
    let parse = parse_clauses(alloc, lexed, division)?;
    Ok(render(alloc, &parse, text)?)
}

#[test]
fn tokens_have_clauses(rt: HostRuntime) -> Result<(), Fail> {
    for row in ROWS {
        let lines = lines_of_tokens(rt.alloc(), row.text, Division::Flat)
            .ok()
            .ok_or(row.name)?;
        assert_eq!(rt; lines.as_str(), row.lines);
    }
    for row in OTHER_ROWS {
        let lines = lines_of_tokens(rt.alloc(), row.text, Division::Flat)
            .ok()
            .ok_or(row.name)?;
        assert_eq!(rt; lines.as_str(), row.lines);
    }
    Ok(())
}

#[test]
fn texts_have_clauses(rt: HostRuntime) -> Result<(), Fail> {
    for row in ROWS {
        let lines = lines_of(rt.alloc(), row.text, Division::Flat)
            .ok()
            .ok_or(row.name)?;
        assert_eq!(rt; lines.as_str(), row.lines);
    }
    for row in OTHER_ROWS {
        let lines = lines_of(rt.alloc(), row.text, Division::Flat)
            .ok()
            .ok_or(row.name)?;
        assert_eq!(rt; lines.as_str(), row.lines);
    }
    Ok(())
}

const SEMICOLON_IN_GROUP: &str = "+ source file 0..21\n\
    + select 0..21\n\
    + select clause 0..14\n\
    \"select\" `select` 0..6\n\
    + paren expr 6..14\n\
    \"(\" `(` 6..7\n\
    \"a\" identifier 7..8\n\
    \";\" `;` 8..9\n\
    \"from\" `from` 9..13\n\
    \")\" `)` 13..14\n\
    -\n\
    -\n\
    + from clause 14..20\n\
    \"from\" `from` 14..18\n\
    \" \" whitespace 18..19\n\
    \"b\" identifier 19..20\n\
    -\n\
    \";\" `;` 20..21\n\
    -\n\
    -\n";

#[test]
fn semicolon_in_group(rt: HostRuntime) -> Result<(), Fail> {
    for lines in [
        lines_of(rt.alloc(), "select(a;from)from b;", Division::Grouped)?,
        lines_of_tokens(rt.alloc(), "select(a;from)from b;", Division::Grouped)?,
    ] {
        assert_eq!(rt; lines.as_str(), SEMICOLON_IN_GROUP);
    }
    Ok(())
}

// The kinds of `select x from`.
#[tactic(auto, unfolding(squawk_events::specs::Kinds::is_trivia_kind))]
fn select_from(alloc: Global) -> Result<Input, FrontError>
    ensures { IfOk result (λ input. IsTrue (has_no_trivia input)) }
{
    let mut input = Input::new(alloc);
    input.push(SyntaxKind::SELECT_KW)?;
    input.push(SyntaxKind::IDENT)?;
    input.push(SyntaxKind::FROM_KW)?;
    Ok(input)
}

#[test]
fn steps_of_kinds(rt: HostRuntime) -> Result<(), Fail> {
    let input = select_from(rt.alloc())?;
    let grammar = ClauseGrammar::new(Division::Flat);
    let output = EntryPoint::SourceFile.parse(rt.alloc(), &input, &grammar)?;
    let wanted = [
        Step::Enter {
            kind: SyntaxKind::SOURCE_FILE,
        },
        Step::Enter {
            kind: SyntaxKind::SELECT,
        },
        Step::Enter {
            kind: SyntaxKind::SELECT_CLAUSE,
        },
        Step::Token {
            kind: SyntaxKind::SELECT_KW,
        },
        Step::Token {
            kind: SyntaxKind::IDENT,
        },
        Step::Exit,
        Step::Enter {
            kind: SyntaxKind::FROM_CLAUSE,
        },
        Step::Token {
            kind: SyntaxKind::FROM_KW,
        },
        Step::Exit,
        Step::Exit,
        Step::Exit,
    ];
    assert_eq!(rt; output.steps().len(), wanted.len());
    for k in 0..wanted.len() {
        assert_eq!(rt; output.steps()[k], wanted[k], "step {k}");
    }
    Ok(())
}
