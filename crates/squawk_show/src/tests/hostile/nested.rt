//! Brackets and quotes in one another, and as deep as a text can have them.
use super::{MANY, NamedReading, READINGS, Row, check_texts, checked_parse};
use crate::{MemorySink, ReportMemory, write_report};
use std::alloc::Global;
use std::process::Abort;
use std::test::Fail;

// A text, and its report, which is the same in each reading.
struct Nested<'a> {
    name: &'a str,
    text: &'a str,
    report: &'a str,
}

const NESTED: &[Nested<'static>] = &[
    Nested {
        name: "string_around_others",
        text: "select '\"$$/*--(';",
        report: "0 N source file 0..18\n\
            1 N select 0..18\n\
            2 T `select` 0..6\n\
            2 T whitespace 6..7\n\
            2 T string literal 7..17\n\
            2 T `;` 17..18\n",
    },
    Nested {
        name: "identifier_around_others",
        text: "select \"'$$/*--(\";",
        report: "0 N source file 0..18\n\
            1 N select 0..18\n\
            2 T `select` 0..6\n\
            2 T whitespace 6..7\n\
            2 T identifier 7..17\n\
            2 T `;` 17..18\n",
    },
    Nested {
        name: "dollar_string_around_others",
        text: "select $$'\"/*--($a$$$;",
        report: "0 N source file 0..22\n\
            1 N select 0..22\n\
            2 T `select` 0..6\n\
            2 T whitespace 6..7\n\
            2 T dollar-quoted string literal 7..20\n\
            2 T positional parameter 20..21\n\
            2 T `;` 21..22\n\
            E 20..21 missing digits in parameter\n",
    },
    Nested {
        name: "tagged_dollar_string_around_others",
        text: "select $a$ $b$ $$ ' $b$ $a$;",
        report: "0 N source file 0..28\n\
            1 N select 0..28\n\
            2 T `select` 0..6\n\
            2 T whitespace 6..7\n\
            2 T dollar-quoted string literal 7..27\n\
            2 T `;` 27..28\n",
    },
    Nested {
        name: "comment_around_others",
        text: "select /*'\"$$--(/*$a$*/*/ 1;",
        report: "0 N source file 0..28\n\
            1 N select 0..28\n\
            2 T `select` 0..6\n\
            2 T whitespace 6..7\n\
            2 T comment 7..25\n\
            2 T whitespace 25..26\n\
            2 T integer literal 26..27\n\
            2 T `;` 27..28\n",
    },
    Nested {
        name: "line_comment_around_others",
        text: "select --'\"$$/*(\n1;",
        report: "0 N source file 0..19\n\
            1 N select 0..19\n\
            2 T `select` 0..6\n\
            2 T whitespace 6..7\n\
            2 T comment 7..16\n\
            2 T whitespace 16..17\n\
            2 T integer literal 17..18\n\
            2 T `;` 18..19\n",
    },
    Nested {
        name: "escape_string_around_others",
        text: "select E'\\'\"$$/*';",
        report: "0 N source file 0..18\n\
            1 N select 0..18\n\
            2 T `select` 0..6\n\
            2 T whitespace 6..7\n\
            2 T escape string literal 7..17\n\
            2 T `;` 17..18\n",
    },
    Nested {
        name: "national_string_around_others",
        text: "select N'\"$$/*';",
        report: "0 N source file 0..16\n\
            1 N select 0..16\n\
            2 T `select` 0..6\n\
            2 T whitespace 6..7\n\
            2 T national character string literal 7..15\n\
            2 T `;` 15..16\n",
    },
    Nested {
        name: "bit_strings_around_others",
        text: "select B'\"' x'$$';",
        report: "0 N source file 0..18\n\
            1 N select 0..18\n\
            2 T `select` 0..6\n\
            2 T whitespace 6..7\n\
            2 T bit string literal 7..11\n\
            2 T whitespace 11..12\n\
            2 T hexadecimal string literal 12..17\n\
            2 T `;` 17..18\n",
    },
    Nested {
        name: "unicode_string_around_others",
        text: "select U&'\"$$/*';",
        report: "0 N source file 0..17\n\
            1 N select 0..17\n\
            2 T `select` 0..6\n\
            2 T whitespace 6..7\n\
            2 T unicode escape string literal 7..16\n\
            2 T `;` 16..17\n",
    },
    Nested {
        name: "unicode_identifier_around_others",
        text: "select U&\"'$$/*\";",
        report: "0 N source file 0..17\n\
            1 N select 0..17\n\
            2 T `select` 0..6\n\
            2 T whitespace 6..7\n\
            2 T identifier 7..16\n\
            2 T `;` 16..17\n",
    },
    Nested {
        name: "doubled_quotes",
        text: "select 'a''\"b' \"a\"\"'b\";",
        report: "0 N source file 0..23\n\
            1 N select 0..23\n\
            2 T `select` 0..6\n\
            2 T whitespace 6..7\n\
            2 T string literal 7..14\n\
            2 T whitespace 14..15\n\
            2 T identifier 15..22\n\
            2 T `;` 22..23\n",
    },
    Nested {
        name: "dollar_strings_that_cross",
        text: "select $a$ $b$ $a$ $b$;",
        report: "0 N source file 0..23\n\
            1 N select 0..23\n\
            2 T `select` 0..6\n\
            2 T whitespace 6..7\n\
            2 T dollar-quoted string literal 7..18\n\
            2 T whitespace 18..19\n\
            2 T dollar-quoted string literal 19..23\n\
            E 19..23 unterminated string\n",
    },
    Nested {
        name: "comment_ends_in_a_string",
        text: "select /* '*/' */;",
        report: "0 N source file 0..18\n\
            1 N select 0..18\n\
            2 T `select` 0..6\n\
            2 T whitespace 6..7\n\
            2 T comment 7..13\n\
            2 T string literal 13..18\n\
            E 13..18 unterminated string\n",
    },
    Nested {
        name: "quotes_of_a_command",
        text: "\\echo '\"' \"'\" `'`\nselect 1;",
        report: "0 N source file 0..27\n\
            1 N psql command 0..17\n\
            2 T psql meta-command 0..17\n\
            1 T whitespace 17..18\n\
            1 N select 18..27\n\
            2 T `select` 18..24\n\
            2 T whitespace 24..25\n\
            2 T integer literal 25..26\n\
            2 T `;` 26..27\n",
    },
    Nested {
        name: "brackets_that_cross_groups",
        text: "select [(]), {(}) ;",
        report: "0 N source file 0..19\n\
            1 N select 0..19\n\
            2 T `select` 0..6\n\
            2 T whitespace 6..7\n\
            2 T `[` 7..8\n\
            2 N paren expr 8..11\n\
            3 T `(` 8..9\n\
            3 T `]` 9..10\n\
            3 T `)` 10..11\n\
            2 T `,` 11..12\n\
            2 T whitespace 12..13\n\
            2 T `{` 13..14\n\
            2 N paren expr 14..17\n\
            3 T `(` 14..15\n\
            3 T `}` 15..16\n\
            3 T `)` 16..17\n\
            2 T whitespace 17..18\n\
            2 T `;` 18..19\n",
    },
    Nested {
        name: "groups_that_cross_brackets",
        text: "select ([)], ({)} ;",
        report: "0 N source file 0..19\n\
            1 N select 0..19\n\
            2 T `select` 0..6\n\
            2 T whitespace 6..7\n\
            2 N paren expr 7..10\n\
            3 T `(` 7..8\n\
            3 T `[` 8..9\n\
            3 T `)` 9..10\n\
            2 T `]` 10..11\n\
            2 T `,` 11..12\n\
            2 T whitespace 12..13\n\
            2 N paren expr 13..16\n\
            3 T `(` 13..14\n\
            3 T `{` 14..15\n\
            3 T `)` 15..16\n\
            2 T `}` 16..17\n\
            2 T whitespace 17..18\n\
            2 T `;` 18..19\n",
    },
    Nested {
        name: "parentheses_in_quotes",
        text: "select ('(', \")\", $$($$, /*)*/ 1);",
        report: "0 N source file 0..34\n\
            1 N select 0..34\n\
            2 T `select` 0..6\n\
            2 T whitespace 6..7\n\
            2 N paren expr 7..33\n\
            3 T `(` 7..8\n\
            3 T string literal 8..11\n\
            3 T `,` 11..12\n\
            3 T whitespace 12..13\n\
            3 T identifier 13..16\n\
            3 T `,` 16..17\n\
            3 T whitespace 17..18\n\
            3 T dollar-quoted string literal 18..23\n\
            3 T `,` 23..24\n\
            3 T whitespace 24..25\n\
            3 T comment 25..30\n\
            3 T whitespace 30..31\n\
            3 T integer literal 31..32\n\
            3 T `)` 32..33\n\
            2 T `;` 33..34\n",
    },
    Nested {
        name: "groups_in_groups",
        text: "select ((1)(2)((3)));",
        report: "0 N source file 0..21\n\
            1 N select 0..21\n\
            2 T `select` 0..6\n\
            2 T whitespace 6..7\n\
            2 N paren expr 7..20\n\
            3 T `(` 7..8\n\
            3 N paren expr 8..11\n\
            4 T `(` 8..9\n\
            4 T integer literal 9..10\n\
            4 T `)` 10..11\n\
            3 N paren expr 11..14\n\
            4 T `(` 11..12\n\
            4 T integer literal 12..13\n\
            4 T `)` 13..14\n\
            3 N paren expr 14..19\n\
            4 T `(` 14..15\n\
            4 N paren expr 15..18\n\
            5 T `(` 15..16\n\
            5 T integer literal 16..17\n\
            5 T `)` 17..18\n\
            4 T `)` 18..19\n\
            3 T `)` 19..20\n\
            2 T `;` 20..21\n",
    },
    Nested {
        name: "group_that_does_not_close",
        text: "select ((1)",
        report: "0 N source file 0..11\n\
            1 N select 0..11\n\
            2 T `select` 0..6\n\
            2 T whitespace 6..7\n\
            2 N paren expr 7..11\n\
            3 T `(` 7..8\n\
            3 N paren expr 8..11\n\
            4 T `(` 8..9\n\
            4 T integer literal 9..10\n\
            4 T `)` 10..11\n",
    },
    Nested {
        name: "group_that_does_not_open",
        text: "select (1)));",
        report: "0 N source file 0..13\n\
            1 N select 0..13\n\
            2 T `select` 0..6\n\
            2 T whitespace 6..7\n\
            2 N paren expr 7..10\n\
            3 T `(` 7..8\n\
            3 T integer literal 8..9\n\
            3 T `)` 9..10\n\
            2 T `)` 10..11\n\
            2 T `)` 11..12\n\
            2 T `;` 12..13\n",
    },
];

// Checks the report of a text in a reading.
fn check_report(
    rt: &impl Abort,
    alloc: Global,
    row: &Nested<'_>,
    named: &NamedReading<'_>,
) -> Result<(), Fail> {
    let parse = checked_parse(rt, alloc, row.name, row.text, named)?;
    let memory = ReportMemory::new(alloc, parse.steps().len())?;
    let mut sink = MemorySink::new(alloc, 10_000, 10_000, &[])?;
    let written = write_report(&mut sink, b"", &parse, memory);
    written.ok().ok_or(row.name)?;
    assert_eq!(rt;
        sink.taken(),
        row.report.as_bytes(),
        "{}, {}",
        row.name,
        named.name
    );
    Ok(())
}

fn check_nested(rt: &impl Abort, alloc: Global, row: &Nested<'_>) -> Result<(), Fail> {
    for named in READINGS {
        check_report(rt, alloc, row, named)?;
    }
    Ok(())
}

#[test]
fn brackets_and_quotes_in_one_another(rt: HostRuntime) -> Result<(), Fail> {
    for row in NESTED {
        check_nested(&rt, rt.alloc(), row)?;
    }
    Ok(())
}

const DEEP: &[Row<'static>] = &[
    Row {
        name: "groups",
        parts: &[("(", MANY), (")", MANY)],
        steps: 400_004,
        children: 1,
        lines: "N paren select 0..200000\n",
    },
    Row {
        name: "brackets",
        parts: &[("select ", 1), ("[", MANY), ("]", MANY)],
        steps: 200_006,
        children: 1,
        lines: "N select 0..200007\n",
    },
    Row {
        name: "braces",
        parts: &[("select ", 1), ("{", MANY), ("}", MANY)],
        steps: 200_006,
        children: 1,
        lines: "N select 0..200007\n",
    },
    Row {
        name: "groups_in_brackets",
        parts: &[("select ", 1), ("[(", MANY), (")]", MANY)],
        steps: 600_006,
        children: 1,
        lines: "N select 0..400007\n",
    },
    Row {
        name: "groups_with_strings",
        parts: &[("('('", MANY), (")", MANY)],
        steps: 500_004,
        children: 1,
        lines: "N paren select 0..500000\n",
    },
    Row {
        name: "groups_closed_in_statements",
        parts: &[("select ", 1), ("(1);", MANY)],
        steps: 800_004,
        children: 100_000,
        lines: "N select 0..11\n\
            N paren select 11..15\n\
            N paren select 15..19\n",
    },
    Row {
        name: "groups_that_do_not_close",
        parts: &[("select ", 1), ("(')'", MANY)],
        steps: 400_006,
        children: 1,
        lines: "N select 0..400007\n",
    },
    Row {
        name: "doubled_quotes",
        parts: &[("select ", 1), ("''", MANY)],
        steps: 7,
        children: 1,
        lines: "N select 0..200007\n",
    },
    Row {
        name: "doubled_quotes_of_an_identifier",
        parts: &[("select ", 1), ("\"\"", MANY)],
        steps: 7,
        children: 1,
        lines: "N select 0..200007\n",
    },
    Row {
        name: "empty_dollar_strings",
        parts: &[("select ", 1), ("$$", MANY)],
        steps: 50_006,
        children: 1,
        lines: "N select 0..200007\n",
    },
    Row {
        name: "identifier_after_a_dollar_string",
        parts: &[("select ", 1), ("$a$b", MANY)],
        steps: 8,
        children: 1,
        lines: "N select 0..400007\n",
    },
    Row {
        name: "comments_side_by_side",
        parts: &[("/**/", MANY)],
        steps: 100_002,
        children: 100_000,
        lines: "T comment 0..4\n\
            T comment 4..8\n\
            T comment 8..12\n",
    },
    Row {
        name: "comments_in_one_another",
        parts: &[("/* ' ", MANY), ("*/ ", MANY)],
        steps: 4,
        children: 2,
        lines: "T comment 0..799999\n\
            T whitespace 799999..800000\n",
    },
    Row {
        name: "strings_that_open_comments",
        parts: &[("select ", 1), ("'/*' ", MANY)],
        steps: 200_006,
        children: 2,
        lines: "N select 0..500006\n\
            T whitespace 500006..500007\n",
    },
    Row {
        name: "options_of_a_command",
        parts: &[("\\g ", 1), ("(", MANY), (")", MANY)],
        steps: 5,
        children: 1,
        lines: "N psql command 0..200003\n\
            T psql terminator 0..200003\n",
    },
];

#[test]
fn brackets_and_quotes_nest_deeply(rt: HostRuntime) -> Result<(), Fail> {
    check_texts(&rt, rt.alloc(), DEEP)
}
