//! The four readings of texts that the options choose.
use crate::tests::runs::{Row, Run, Table, WIDE_STREAMS, check_tables, run_over};
use squawk_tree::Parse;
use std::alloc::{AllocError, Global};
use std::process::Abort;
use std::test::Fail;

const REPORTS: &[Table<'static>] = &[
    Table {
        words: &["--backslash"],
        rows: &[Row {
            name: "backslash_ends_no_string",
            input: "select 'a\\'c';",
            out: "0 N source file 0..14\n\
            1 N select 0..14\n\
            2 T `select` 0..6\n\
            2 T whitespace 6..7\n\
            2 T string literal 7..13\n\
            2 T `;` 13..14\n",
        }],
    },
    Table {
        words: &[],
        rows: &[Row {
            name: "backslash_is_a_character",
            input: "select 'a\\'c';",
            out: "0 N source file 0..14\n\
            1 N select 0..14\n\
            2 T `select` 0..6\n\
            2 T whitespace 6..7\n\
            2 T string literal 7..11\n\
            2 T identifier 11..12\n\
            2 T string literal 12..14\n\
            E 12..14 unterminated string\n",
        }],
    },
    Table {
        words: &["--grouped"],
        rows: &[Row {
            name: "semicolon_in_group_is_a_token",
            input: "(a;\\g",
            out: "0 N source file 0..5\n\
            1 N paren select 0..5\n\
            2 N paren expr 0..3\n\
            3 T `(` 0..1\n\
            3 T identifier 1..2\n\
            3 T `;` 2..3\n\
            2 T psql terminator 3..5\n",
        }],
    },
    Table {
        words: &["--backslash", "replay"],
        rows: &[Row {
            name: "backslash_in_a_replayed_text",
            input: "@0 0 5\n'\\';'\n@1 2 0\n\n",
            out: "edit 1: tokens 0+1+0 children 0+1+0\n\
            edit 2: tokens 0+3+0 children 0+2+0\n\
            0 N source file 0..4\n\
            1 N error 0..3\n\
            2 T string literal 0..2\n\
            2 T `;` 2..3\n\
            1 N error 3..4\n\
            2 T string literal 3..4\n\
            E 0..2 unknown statement\n\
            E 3..4 unknown statement\n\
            E 3..4 unterminated string\n",
        }],
    },
    Table {
        words: &["--grouped", "replay"],
        rows: &[Row {
            name: "group_in_a_replayed_text",
            input: "@0 0 4\n;a;b\n@1 1 1\n(\n",
            out: "edit 1: tokens 0+4+0 children 0+3+0\n\
            edit 2: tokens 0+2+3 children 0+2+0\n\
            0 N source file 0..5\n\
            1 N empty stmt 0..1\n\
            2 T `;` 0..1\n\
            1 N paren select 1..5\n\
            2 N paren expr 1..5\n\
            3 T `(` 1..2\n\
            3 T identifier 2..3\n\
            3 T `;` 3..4\n\
            3 T identifier 4..5\n",
        }],
    },
];

#[test]
fn options_choose_a_reading(rt: HostRuntime) -> Result<(), Fail> {
    check_tables(&rt, rt.alloc(), REPORTS)
}

const RULE: &str = "create rule r as on insert to t do (select 1; select 2);";

// The script of `docs/READINGS.md`.
const SCRIPT: &str = "create rule r as on insert to t do (notify a; notify b);\n\
    create function f() returns int begin atomic select 1; end;\n\
    select 'it\\'s; on';\n";

// The words of a run without a command, the text, and the nodes under the root of its tree.
struct DividedText<'a> {
    name: &'a str,
    words: &'a [&'a str],
    text: &'a str,
    nodes: &'a str,
}

const DIVIDED_TEXTS: &[DividedText<'static>] = &[
    DividedText {
        name: "group_is_cut",
        words: &[],
        text: "(a;\\g",
        nodes: "0..3 paren select, 3..5 psql command, ",
    },
    DividedText {
        name: "rule_with_two_statements",
        words: &["--grouped"],
        text: RULE,
        nodes: "0..56 create rule, ",
    },
    DividedText {
        name: "rule_is_cut",
        words: &[],
        text: RULE,
        nodes: "0..45 create rule, 46..56 select, ",
    },
    DividedText {
        name: "terminator_in_two_groups",
        words: &["--grouped"],
        text: "select ((1;2 \\g\nselect 3;",
        nodes: "0..15 select, 16..25 select, ",
    },
    DividedText {
        name: "standard_and_flat",
        words: &[],
        text: SCRIPT,
        nodes: "0..45 create rule, 46..56 notify, 57..111 create function, \
            112..116 commit transaction, 117..131 select, 132..137 error, ",
    },
    DividedText {
        name: "backslash_and_flat",
        words: &["--backslash"],
        text: SCRIPT,
        nodes: "0..45 create rule, 46..56 notify, 57..111 create function, \
            112..116 commit transaction, 117..136 select, ",
    },
    DividedText {
        name: "standard_and_grouped",
        words: &["--grouped"],
        text: SCRIPT,
        nodes: "0..56 create rule, 57..111 create function, \
            112..116 commit transaction, 117..131 select, 132..137 error, ",
    },
    DividedText {
        name: "backslash_and_grouped",
        words: &["--backslash", "--grouped"],
        text: SCRIPT,
        nodes: "0..56 create rule, 57..111 create function, \
            112..116 commit transaction, 117..136 select, ",
    },
];

// The nodes under the root of a tree.
fn nodes(alloc: Global, parse: &Parse) -> Result<String, AllocError> {
    let mut nodes = String::new(alloc);
    for child in parse.children() {
        if let Some(kind) = child.node {
            let node = format!(in alloc; "{}..{} {kind}, ", child.start, child.end)?;
            nodes.push_str(node.as_str())?;
        }
    }
    Ok(nodes)
}

// Checks the nodes under the root of the tree that a run makes.
fn check_nodes(rt: &impl Abort, alloc: Global, row: &DividedText<'_>) -> Result<(), Fail> {
    let run = Run {
        name: row.name,
        words: row.words,
        input: row.text.as_bytes(),
    };
    let parse = run_over(rt, alloc, &run, &WIDE_STREAMS)?
        .outcome
        .ok()
        .ok_or(row.name)?;
    let nodes = nodes(alloc, &parse)?;
    assert_eq!(rt; nodes.as_str(), row.nodes, "{}", row.name);
    Ok(())
}

#[test]
fn readings_divide_texts(rt: HostRuntime) -> Result<(), Fail> {
    for row in DIVIDED_TEXTS {
        check_nodes(&rt, rt.alloc(), row)?;
    }
    Ok(())
}
