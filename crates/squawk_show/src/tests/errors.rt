//! The lines of errors: those of a text in the report, and those of a run.
use crate::RunError;
use crate::tests::runs::{Run, WIDE_STREAMS, run_over};
use squawk_events::FrontError;
use std::alloc::Global;
use std::process::Abort;
use std::test::Fail;

// A text, and the lines of its errors.
struct Row<'a> {
    name: &'a str,
    text: &'a str,
    lines: &'a str,
}

// An error of each number, two in one token, errors between statements, and texts without one.
const ROWS: &[Row<'static>] = &[
    Row {
        name: "unknown_character",
        text: "select \u{1};",
        lines: "E 7..8 unknown character\n",
    },
    Row {
        name: "unterminated_comment",
        text: "select 1; /* a",
        lines: "E 10..14 unterminated block comment\n",
    },
    Row {
        name: "unterminated_string",
        text: "select 'a",
        lines: "E 7..9 unterminated string\n",
    },
    Row {
        name: "unterminated_identifier",
        text: "select \"a",
        lines: "E 7..9 unterminated quoted identifier\n",
    },
    Row {
        name: "no_digits_of_base",
        text: "select 0x;",
        lines: "E 7..9 missing digits after base prefix\n",
    },
    Row {
        name: "no_digits_of_exponent",
        text: "select 1e+;",
        lines: "E 8..9 missing digits in exponent\n",
    },
    Row {
        name: "junk_after_number",
        text: "select 1abc;",
        lines: "E 8..11 trailing junk after number\n",
    },
    Row {
        name: "no_digits_of_parameter",
        text: "select $;",
        lines: "E 7..8 missing digits in parameter\n",
    },
    Row {
        name: "junk_after_parameter",
        text: "select $1abc;",
        lines: "E 9..12 trailing junk after parameter\n",
    },
    Row {
        name: "unknown_statement",
        text: "a;",
        lines: "E 0..1 unknown statement\n",
    },
    Row {
        name: "empty_exponent",
        text: "1e+_2",
        lines: "E 0..2 unknown statement\n\
            E 1..2 missing digits in exponent\n",
    },
    Row {
        name: "empty_base",
        text: "0x 0b9",
        lines: "E 0..2 unknown statement\n\
            E 0..2 missing digits after base prefix\n",
    },
    Row {
        name: "exponent_and_junk",
        text: "1eabc",
        lines: "E 0..5 unknown statement\n\
            E 1..2 missing digits in exponent\n\
            E 2..5 trailing junk after number\n",
    },
    Row {
        name: "two_in_parameter",
        text: "select $a;",
        lines: "E 7..8 missing digits in parameter\n\
            E 8..9 trailing junk after parameter\n",
    },
    Row {
        name: "dollar_without_digits",
        text: "$1$",
        lines: "E 0..2 unknown statement\n\
            E 2..3 missing digits in parameter\n",
    },
    Row {
        name: "dollar_shared",
        text: "select $a$a$",
        lines: "E 7..12 unterminated string\n",
    },
    Row {
        name: "dollar_empty",
        text: "select $$$$",
        lines: "",
    },
    Row {
        name: "comment_half",
        text: "/*/",
        lines: "E 0..3 unterminated block comment\n",
    },
    Row {
        name: "comment_nested",
        text: "/*a/*b*/",
        lines: "E 0..8 unterminated block comment\n",
    },
    Row {
        name: "comment_whole",
        text: "/*/**/*/",
        lines: "",
    },
    Row {
        name: "between_statements",
        text: "select 1; \u{1} /* a",
        lines: "E 10..11 unknown statement\n\
            E 10..11 unknown character\n\
            E 12..16 unterminated block comment\n",
    },
    Row {
        name: "migration",
        text: "BEGIN;\n\
            create table if not exists t \
            (id bigint primary key, \"Name\" text default E'a\\'b');\n\
            create unique index concurrently i on t (id);\n\
            create or replace function f() returns int language sql \
            as $body$ select 1; select 2; $body$;\n\
            COMMIT;\n",
        lines: "",
    },
];

// The lines of errors at the end of a report.
fn error_lines(report: &str) -> &str {
    match report.find("\nE ") {
        Some(at) => report.get(at + 1..).unwrap_or_default(),
        None => "",
    }
}

// Checks the lines of errors in the report of a text.
fn check_row(rt: &impl Abort, alloc: Global, row: &Row<'_>) -> Result<(), Fail> {
    let run = Run {
        name: row.name,
        words: &[],
        input: row.text.as_bytes(),
    };
    let result = run_over(rt, alloc, &run, &WIDE_STREAMS)?;
    let report = result.report().ok_or(row.name)?;
    assert_eq!(rt; error_lines(report), row.lines, "{}", row.name);
    Ok(())
}

#[test]
fn texts_have_errors(rt: HostRuntime) -> Result<(), Fail> {
    for row in ROWS {
        check_row(&rt, rt.alloc(), row)?;
    }
    Ok(())
}

#[test]
fn run_errors_are_displayed_as_their_lines(rt: HostRuntime) -> Result<(), Fail> {
    for (error, expected) in [
        (RunError::BadWords, "bad words"),
        (RunError::ReadFault, "cannot read the input"),
        (RunError::NotUtf8 { at: 12 }, "not UTF-8 at 12"),
        (RunError::from(FrontError::TooLong), "too long"),
        (RunError::from(FrontError::OutOfMemory), "out of memory"),
        (RunError::from(FrontError::BadRange), "bad range"),
        (RunError::BadScript { at: 34 }, "bad script at 34"),
        (RunError::WriteFault, "cannot write the output"),
    ] {
        let text = format!(in rt.alloc(); "{error}")?;
        assert_eq!(rt; text.as_str(), expected, "{expected}");
    }
    Ok(())
}
