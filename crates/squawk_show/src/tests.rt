//! What no clause says: worked examples with ample memory.
mod bad_scripts;
mod commands;
mod errors;
mod faults;
mod forms;
mod hostile;
mod lines;
mod readings;
mod replay;
mod runs;
mod streams;

use crate::tests::runs::{
    End, Refusal, Row, Run, Streams, WIDE_STREAMS, check_refusals, check_rows, check_run,
};
use crate::{MemorySource, ReadSource, RunError, read_all};
use squawk_events::FrontError;
use std::test::Fail;

const SELECT_ONE: &str = "0 N source file 0..9\n\
    1 N select 0..9\n\
    2 T `select` 0..6\n\
    2 T whitespace 6..7\n\
    2 T integer literal 7..8\n\
    2 T `;` 8..9\n";

const LONE_COMMAND: &str = "0 N source file 0..7\n\
    1 T whitespace 0..1\n\
    1 N empty stmt 1..2\n\
    2 T `;` 1..2\n\
    1 T whitespace 2..3\n\
    1 N psql command 3..6\n\
    2 T psql meta-command 3..6\n\
    1 T whitespace 6..7\n";

const COMMANDS: &str = "0 N source file 0..25\n\
    1 N select 0..25\n\
    2 T `select` 0..6\n\
    2 T whitespace 6..7\n\
    2 T integer literal 7..8\n\
    2 T whitespace 8..9\n\
    2 T psql meta-command 9..17\n\
    2 T psql terminator 17..25\n";

const SEMICOLON_IN_GROUP: &str = "0 N source file 0..8\n\
    1 N error 0..7\n\
    2 T identifier 0..3\n\
    2 T whitespace 3..4\n\
    2 N paren expr 4..6\n\
    3 T `(` 4..5\n\
    3 T identifier 5..6\n\
    2 T `;` 6..7\n\
    1 N error 7..8\n\
    2 T identifier 7..8\n\
    E 0..3 unknown statement\n\
    E 7..8 unknown statement\n";

const MARK_AND_SEMICOLON: &str = "0 N source file 0..4\n\
    1 T whitespace 0..3\n\
    1 N empty stmt 3..4\n\
    2 T `;` 3..4\n";

const COMMENT_HALF: &str = "0 N source file 0..3\n\
    1 T comment 0..3\n\
    E 0..3 unterminated block comment\n";

const ROWS: &[Row<'static>] = &[
    Row {
        name: "empty_text",
        input: "",
        out: "0 N source file 0..0\n",
    },
    Row {
        name: "select_one",
        input: "select 1;",
        out: SELECT_ONE,
    },
    Row {
        name: "lone_command",
        input: " ;\n\\dt\n",
        out: LONE_COMMAND,
    },
    Row {
        name: "commands_in_statement",
        input: "select 1 \\echo x \\gset x_",
        out: COMMANDS,
    },
    Row {
        name: "semicolon_in_group",
        input: "foo (a;b",
        out: SEMICOLON_IN_GROUP,
    },
    Row {
        name: "mark_and_semicolon",
        input: "\u{feff};",
        out: MARK_AND_SEMICOLON,
    },
    Row {
        name: "comment_half",
        input: "/*/",
        out: COMMENT_HALF,
    },
];

const REFUSED: &[Refusal<'static>] = &[Refusal {
    name: "not_utf8",
    input: b"\x73\xff",
    status: 4,
    line: "not UTF-8 at 1\n",
}];

#[test]
fn runs_without_words(rt: HostRuntime) -> Result<(), Fail> {
    check_rows(&rt, rt.alloc(), &[], ROWS)?;
    check_refusals(&rt, rt.alloc(), &[], &WIDE_STREAMS, REFUSED)
}

#[test]
fn reads_and_writes_a_byte_at_a_time(rt: HostRuntime) -> Result<(), Fail> {
    let run = Run {
        name: "a_byte_at_a_time",
        words: &[],
        input: b"select 1;",
    };
    let streams = Streams {
        read: 1,
        write: 1,
        ..WIDE_STREAMS
    };
    let end = End {
        status: 0,
        out: SELECT_ONE.as_bytes(),
        err: b"",
    };
    check_run(&rt, rt.alloc(), &run, &streams, &end)?;
    Ok(())
}

#[test]
fn reads_up_to_a_limit(rt: HostRuntime) -> Result<(), Fail> {
    let mut source = MemorySource::new(rt.alloc(), b"0123456789", 4, &[])?;
    let bytes = read_all(rt.alloc(), &mut source, 10)?;
    assert_eq!(rt; bytes.as_slice(), b"0123456789".as_slice());
    let mut source = MemorySource::new(rt.alloc(), b"0123456789abc", 4, &[])?;
    let refused = read_all(rt.alloc(), &mut source, 10).err();
    assert_eq!(rt; refused, Some(RunError::Front(FrontError::TooLong)));
    assert_eq!(rt; source.left(), b"bc".as_slice());
    let mut source = ReadSource::new(b"0123456789".as_slice());
    let bytes = read_all(rt.alloc(), &mut source, 10)?;
    assert_eq!(rt; bytes.as_slice(), b"0123456789".as_slice());
    Ok(())
}
