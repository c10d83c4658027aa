//! The command `replay`: scripts of edits, and the status and output of each.
use crate::tests::runs::{
    End, Refusal, Row, Run, Streams, WIDE_STREAMS, check_refusals, check_rows, check_run,
};
use std::test::Fail;

const ACCEPTED: &[Row<'static>] = &[
    Row {
        name: "replay_script",
        input: "@0 0 9\nselect 1;\n@7 8 1\n2\n",
        out: "edit 1: tokens 0+4+0 children 0+1+0\n\
            edit 2: tokens 0+3+1 children 0+1+0\n\
            0 N source file 0..9\n\
            1 N select 0..9\n\
            2 T `select` 0..6\n\
            2 T whitespace 6..7\n\
            2 T integer literal 7..8\n\
            2 T `;` 8..9\n",
    },
    Row {
        name: "empty_script",
        input: "",
        out: "0 N source file 0..0\n",
    },
    Row {
        name: "text_removed",
        input: "@0 0 1\n;\n@0 1 0\n\n",
        out: "edit 1: tokens 0+1+0 children 0+1+0\n\
            edit 2: tokens 0+0+0 children 0+0+0\n\
            0 N source file 0..0\n",
    },
    Row {
        name: "leading_zeros",
        input: "@0000000000 00 01\n;\n",
        out: "edit 1: tokens 0+1+0 children 0+1+0\n\
            0 N source file 0..1\n\
            1 N empty stmt 0..1\n\
            2 T `;` 0..1\n",
    },
    Row {
        name: "exponent_grows",
        input: "@0 0 3\n1e+\n@3 3 1\n5\n",
        out: "edit 1: tokens 0+2+0 children 0+1+0\n\
            edit 2: tokens 0+1+0 children 0+1+0\n\
            0 N source file 0..4\n\
            1 N error 0..4\n\
            2 T numeric literal 0..4\n\
            E 0..4 unknown statement\n",
    },
    Row {
        name: "mark_removed",
        input: "@0 0 4\n\u{feff}a\n@0 3 0\n\n",
        out: "edit 1: tokens 0+2+0 children 0+2+0\n\
            edit 2: tokens 0+1+0 children 0+1+0\n\
            0 N source file 0..1\n\
            1 N error 0..1\n\
            2 T identifier 0..1\n\
            E 0..1 unknown statement\n",
    },
    Row {
        name: "quote_opens",
        input: "@0 0 21\nselect 1; select 'a';\n@0 0 1\n'\n",
        out: "edit 1: tokens 0+9+0 children 0+3+0\n\
            edit 2: tokens 0+3+0 children 0+1+0\n\
            0 N source file 0..22\n\
            1 N error 0..22\n\
            2 T string literal 0..19\n\
            2 T identifier 19..20\n\
            2 T string literal 20..22\n\
            E 0..19 unknown statement\n\
            E 20..22 unterminated string\n",
    },
    Row {
        name: "edit_in_the_middle",
        input: "@0 0 29\nselect 1; select 2; select 3;\n@17 18 2\n22\n",
        out: "edit 1: tokens 0+14+0 children 0+5+0\n\
            edit 2: tokens 5+3+6 children 2+1+2\n\
            0 N source file 0..30\n\
            1 N select 0..9\n\
            2 T `select` 0..6\n\
            2 T whitespace 6..7\n\
            2 T integer literal 7..8\n\
            2 T `;` 8..9\n\
            1 T whitespace 9..10\n\
            1 N select 10..20\n\
            2 T `select` 10..16\n\
            2 T whitespace 16..17\n\
            2 T integer literal 17..19\n\
            2 T `;` 19..20\n\
            1 T whitespace 20..21\n\
            1 N select 21..30\n\
            2 T `select` 21..27\n\
            2 T whitespace 27..28\n\
            2 T integer literal 28..29\n\
            2 T `;` 29..30\n",
    },
];

const REFUSED: &[Refusal<'static>] = &[
    Refusal {
        name: "range_after_end",
        input: b"@0 1 0\n\n",
        status: 9,
        line: "bad range\n",
    },
    Refusal {
        name: "second_range_after_end",
        input: b"@0 0 1\n;\n@2 2 0\n\n",
        status: 9,
        line: "bad range\n",
    },
    Refusal {
        name: "end_before_start",
        input: b"@0 0 1\n;\n@1 0 0\n\n",
        status: 9,
        line: "bad range\n",
    },
    Refusal {
        name: "range_in_a_character",
        input: b"@0 0 2\n\xc3\xa9\n@1 1 0\n\n",
        status: 9,
        line: "bad range\n",
    },
    Refusal {
        name: "largest_number",
        input: b"@4294967295 4294967295 0\n\n",
        status: 9,
        line: "bad range\n",
    },
    Refusal {
        name: "text_too_short",
        input: b"@0 0 3\nab",
        status: 8,
        line: "bad script at 0\n",
    },
    Refusal {
        name: "second_record_bad",
        input: b"@0 0 1\n;\n@0 1 0\nx\n",
        status: 8,
        line: "bad script at 9\n",
    },
    Refusal {
        name: "line_feed_after_the_last_record",
        input: b"@0 0 1\n;\n\n",
        status: 8,
        line: "bad script at 9\n",
    },
    Refusal {
        name: "bad_range_before_a_bad_record",
        input: b"@5 5 0\n\nx",
        status: 8,
        line: "bad script at 8\n",
    },
    Refusal {
        name: "no_record",
        input: b"select 1;",
        status: 8,
        line: "bad script at 0\n",
    },
    Refusal {
        name: "eleven_digits",
        input: b"@00000000000 0 0\n\n",
        status: 8,
        line: "bad script at 0\n",
    },
    Refusal {
        name: "number_above_the_largest",
        input: b"@4294967296 4294967296 0\n\n",
        status: 8,
        line: "bad script at 0\n",
    },
    Refusal {
        name: "text_ends_in_a_character",
        input: b"@0 0 1\n\xc3\xa9\n",
        status: 8,
        line: "bad script at 0\n",
    },
    Refusal {
        name: "text_is_not_utf8",
        input: b"@0 0 1\n\xff\n",
        status: 4,
        line: "not UTF-8 at 7\n",
    },
];

#[test]
fn scripts_are_replayed(rt: HostRuntime) -> Result<(), Fail> {
    check_rows(&rt, rt.alloc(), &["replay"], ACCEPTED)
}

#[test]
fn scripts_are_refused(rt: HostRuntime) -> Result<(), Fail> {
    check_refusals(&rt, rt.alloc(), &["replay"], &WIDE_STREAMS, REFUSED)
}

#[test]
fn replay_over_streams_that_fail(rt: HostRuntime) -> Result<(), Fail> {
    let run = Run {
        name: "one_record",
        words: &["replay"],
        input: b"@0 0 1\n;\n",
    };
    let streams = Streams {
        read: 4,
        failing_reads: &[2],
        ..WIDE_STREAMS
    };
    let end = End {
        status: 3,
        out: b"",
        err: b"cannot read the input\n",
    };
    check_run(&rt, rt.alloc(), &run, &streams, &end)?;
    let streams = Streams {
        read: 4,
        write: 8,
        failing_writes: &[2],
        ..WIDE_STREAMS
    };
    let end = End {
        status: 7,
        out: b"edit 1: ",
        err: b"cannot write the output\n",
    };
    check_run(&rt, rt.alloc(), &run, &streams, &end)?;
    Ok(())
}
