//! The commands `split`, `quote`, `squeeze` and `clauses`: what each writes of a text.
mod options;
mod refusals;

use crate::tests::runs::{Row, Table, check_tables};
use std::test::Fail;

const SPLIT: &[Row<'static>] = &[
    Row {
        name: "copy_data_is_no_sql",
        input: "copy t from stdin;\n1\nit's\n\\.\nselect 1;",
        out: "S 0..18\nD 18..29\nS 29..38\n",
    },
    Row {
        name: "space_semicolon_and_command",
        input: " ;\\dt",
        out: "G 0..1\nS 1..2\nC 2..5\n",
    },
    Row {
        name: "nothing_after_copy",
        input: "copy t from stdin;",
        out: "S 0..18\n",
    },
    Row {
        name: "end_marker_directly_after_copy",
        input: "copy t from stdin;\\.",
        out: "S 0..18\nD 18..20\n",
    },
    Row {
        name: "marker_on_the_line_of_the_semicolon",
        input: "copy t from stdin;\\.\nx\n\\.\n;",
        out: "S 0..18\nD 18..26\nS 26..27\n",
    },
    Row {
        name: "stdin_in_parentheses",
        input: "copy (select a from stdin) to stdout;x",
        out: "S 0..37\nS 37..38\n",
    },
    Row {
        name: "end_marker_at_the_end",
        input: "copy t from stdin;\n1\n\\.",
        out: "S 0..18\nD 18..23\n",
    },
    Row {
        name: "data_without_end_marker",
        input: "copy t from stdin;\nit's\n",
        out: "S 0..18\nD 18..24\n",
    },
    Row {
        name: "lines_end_in_cr_and_lf",
        input: "copy t from stdin;\r\nit's\r\n\\.\r\n;",
        out: "S 0..18\nD 18..30\nS 30..31\n",
    },
    Row {
        name: "end_marker_before_cr_alone",
        input: "copy t from stdin;\n\\.\rselect 1;",
        out: "S 0..18\nD 18..31\n",
    },
    Row {
        name: "data_of_two_statements",
        input: "copy t from stdin;\n'\n\\.\ncopy u from stdin;\n'\n\\.\n;",
        out: "S 0..18\nD 18..24\nS 24..42\nD 42..48\nS 48..49\n",
    },
    Row {
        name: "end_marker_without_copy",
        input: "select 1;\n\\.\n;",
        out: "S 0..9\nG 9..10\nC 10..12\nG 12..13\nS 13..14\n",
    },
    Row {
        name: "comments_are_gaps",
        input: "-- a\n;/* b */",
        out: "G 0..4\nG 4..5\nS 5..6\nG 6..13\n",
    },
    Row {
        name: "offsets_are_bytes",
        input: "\u{feff}select 'é';x",
        out: "G 0..3\nS 3..15\nS 15..16\n",
    },
    Row {
        name: "empty_text",
        input: "",
        out: "",
    },
];

const QUOTE: &[Row<'static>] = &[
    Row {
        name: "quote_and_two_dollar_signs",
        input: "it's $$q",
        out: "'it''s $$q'\n\
            $qq$it's $$q$qq$\n\
            \"it's $$q\"\n",
    },
    Row {
        name: "empty_text",
        input: "",
        out: "''\n\
            $$$$\n\
            \"\"\n",
    },
    Row {
        name: "dollar_sign",
        input: "$",
        out: "'$'\n\
            $q$$$q$\n\
            \"$\"\n",
    },
    Row {
        name: "double_quote",
        input: "\"",
        out: "'\"'\n\
            $$\"$$\n\
            \"\"\"\"\n",
    },
    Row {
        name: "three_delimiters",
        input: "$$ $q$ $qq",
        out: "'$$ $q$ $qq'\n\
            $qqq$$$ $q$ $qq$qqq$\n\
            \"$$ $q$ $qq\"\n",
    },
    Row {
        name: "backslash_and_two_lines",
        input: "a\\'\né",
        out: "'a\\''\n\
            é'\n\
            $$a\\'\n\
            é$$\n\
            \"a\\'\n\
            é\"\n",
    },
];

const SQUEEZE: &[Row<'static>] = &[
    Row {
        name: "spaces_and_comments",
        input: "select  1 -- one\n/* two */ from t;",
        out: "select 1\nfrom t;",
    },
    Row {
        name: "comment_between_operators",
        input: "-/*a*/-",
        out: "- -",
    },
    Row {
        name: "two_marks_at_the_beginning",
        input: "\u{feff}\u{feff}x",
        out: " \u{feff}x",
    },
    Row {
        name: "cr_and_lf_after_a_command",
        input: "\\echo a\r\n;",
        out: "\\echo a\n;",
    },
    Row {
        name: "spaces_in_a_string",
        input: "'a  --b'  c",
        out: "'a  --b' c",
    },
    Row {
        name: "no_white_space_or_comment",
        input: "a+1;",
        out: "a+1;",
    },
    Row {
        name: "line_end_in_a_comment",
        input: "a/*\n*/b --",
        out: "a\nb ",
    },
    Row {
        name: "empty_text",
        input: "",
        out: "",
    },
];

const CLAUSES: &[Row<'static>] = &[
    Row {
        name: "three_clauses",
        input: "select a from t where (x);",
        out: "0 N source file 0..26\n\
            1 N select 0..26\n\
            2 N select clause 0..8\n\
            3 T `select` 0..6\n\
            3 T whitespace 6..7\n\
            3 T identifier 7..8\n\
            2 T whitespace 8..9\n\
            2 N from clause 9..15\n\
            3 T `from` 9..13\n\
            3 T whitespace 13..14\n\
            3 T identifier 14..15\n\
            2 T whitespace 15..16\n\
            2 N where clause 16..25\n\
            3 T `where` 16..21\n\
            3 T whitespace 21..22\n\
            3 N paren expr 22..25\n\
            4 T `(` 22..23\n\
            4 T identifier 23..24\n\
            4 T `)` 24..25\n\
            2 T `;` 25..26\n",
    },
    Row {
        name: "none_in_an_inner_select",
        input: "with q as (select 1) select 2",
        out: "0 N source file 0..29\n\
            1 N select 0..29\n\
            2 T `with` 0..4\n\
            2 T whitespace 4..5\n\
            2 T identifier 5..6\n\
            2 T whitespace 6..7\n\
            2 T `as` 7..9\n\
            2 T whitespace 9..10\n\
            2 N paren expr 10..20\n\
            3 T `(` 10..11\n\
            3 T `select` 11..17\n\
            3 T whitespace 17..18\n\
            3 T integer literal 18..19\n\
            3 T `)` 19..20\n\
            2 T whitespace 20..21\n\
            2 N select clause 21..29\n\
            3 T `select` 21..27\n\
            3 T whitespace 27..28\n\
            3 T integer literal 28..29\n",
    },
    Row {
        name: "a_clause_of_each_word",
        input: "select from where group having order limit offset;",
        out: "0 N source file 0..50\n\
            1 N select 0..50\n\
            2 N select clause 0..6\n\
            3 T `select` 0..6\n\
            2 T whitespace 6..7\n\
            2 N from clause 7..11\n\
            3 T `from` 7..11\n\
            2 T whitespace 11..12\n\
            2 N where clause 12..17\n\
            3 T `where` 12..17\n\
            2 T whitespace 17..18\n\
            2 N group by clause 18..23\n\
            3 T `group` 18..23\n\
            2 T whitespace 23..24\n\
            2 N having clause 24..30\n\
            3 T `having` 24..30\n\
            2 T whitespace 30..31\n\
            2 N order by clause 31..36\n\
            3 T `order` 31..36\n\
            2 T whitespace 36..37\n\
            2 N limit clause 37..42\n\
            3 T `limit` 37..42\n\
            2 T whitespace 42..43\n\
            2 N offset clause 43..49\n\
            3 T `offset` 43..49\n\
            2 T `;` 49..50\n",
    },
    Row {
        name: "two_selects_in_a_union",
        input: "select 1 union select 2",
        out: "0 N source file 0..23\n\
            1 N select 0..23\n\
            2 N select clause 0..14\n\
            3 T `select` 0..6\n\
            3 T whitespace 6..7\n\
            3 T integer literal 7..8\n\
            3 T whitespace 8..9\n\
            3 T `union` 9..14\n\
            2 T whitespace 14..15\n\
            2 N select clause 15..23\n\
            3 T `select` 15..21\n\
            3 T whitespace 21..22\n\
            3 T integer literal 22..23\n",
    },
    Row {
        name: "none_in_another_statement",
        input: "insert into t select 1;",
        out: "0 N source file 0..23\n\
            1 N insert 0..23\n\
            2 T `insert` 0..6\n\
            2 T whitespace 6..7\n\
            2 T `into` 7..11\n\
            2 T whitespace 11..12\n\
            2 T identifier 12..13\n\
            2 T whitespace 13..14\n\
            2 T `select` 14..20\n\
            2 T whitespace 20..21\n\
            2 T integer literal 21..22\n\
            2 T `;` 22..23\n",
    },
    Row {
        name: "errors_stay",
        input: "select 1a from 'b",
        out: "0 N source file 0..17\n\
            1 N select 0..17\n\
            2 N select clause 0..9\n\
            3 T `select` 0..6\n\
            3 T whitespace 6..7\n\
            3 T integer literal 7..9\n\
            2 T whitespace 9..10\n\
            2 N from clause 10..17\n\
            3 T `from` 10..14\n\
            3 T whitespace 14..15\n\
            3 T string literal 15..17\n\
            E 8..9 trailing junk after number\n\
            E 15..17 unterminated string\n",
    },
    Row {
        name: "empty_text",
        input: "",
        out: "0 N source file 0..0\n",
    },
];

const COMMANDS: &[Table<'static>] = &[
    Table {
        words: &["split"],
        rows: SPLIT,
    },
    Table {
        words: &["quote"],
        rows: QUOTE,
    },
    Table {
        words: &["squeeze"],
        rows: SQUEEZE,
    },
    Table {
        words: &["clauses"],
        rows: CLAUSES,
    },
];

#[test]
fn commands_write_forms(rt: HostRuntime) -> Result<(), Fail> {
    check_tables(&rt, rt.alloc(), COMMANDS)
}
