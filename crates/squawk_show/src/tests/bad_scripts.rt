//! Scripts that go bad in the middle: at the second record, after a cut, and far from the start.
use crate::tests::runs::{End, Run, WIDE_STREAMS, check_run};
use std::alloc::{AllocError, Global};
use std::process::Abort;
use std::test::Fail;

// Runs `replay` on a script, and checks how it ends.
fn check_replay<'a>(
    rt: &impl Abort,
    alloc: Global,
    name: &'a str,
    script: &'a str,
    end: &End<'_>,
) -> Result<(), Fail> {
    let run = Run {
        name,
        words: &["replay"],
        input: script.as_bytes(),
    };
    check_run(rt, alloc, &run, &WIDE_STREAMS, end)?;
    Ok(())
}

// A record after `@0 0 1`, a line feed, `;` and a line feed.
struct Row<'a> {
    name: &'a str,
    record: &'a str,
    end: End<'a>,
}

const BAD_RANGE: End<'static> = End {
    status: 9,
    out: b"",
    err: b"bad range\n",
};

const BAD_SECOND: End<'static> = End {
    status: 8,
    out: b"",
    err: b"bad script at 9\n",
};

const ROWS: &[Row<'static>] = &[
    Row {
        name: "range_after_the_end",
        record: "@2 2 0\n\n",
        end: BAD_RANGE,
    },
    Row {
        name: "text_without_length",
        record: "@0 1 0\nx\n",
        end: BAD_SECOND,
    },
    Row {
        name: "text_removed",
        record: "@0 1 0\n\n",
        end: End {
            status: 0,
            out: b"edit 1: tokens 0+1+0 children 0+1+0\n\
                edit 2: tokens 0+0+0 children 0+0+0\n\
                0 N source file 0..0\n",
            err: b"",
        },
    },
    Row {
        name: "end_before_start",
        record: "@1 0 0\n\n",
        end: BAD_RANGE,
    },
    Row {
        name: "end_after_the_end",
        record: "@0 2 0\n\n",
        end: BAD_RANGE,
    },
    Row {
        name: "length_above_the_rest",
        record: "@0 1 2\nx\n",
        end: BAD_SECOND,
    },
    Row {
        name: "no_number",
        record: "@0 1\nx\n",
        end: BAD_SECOND,
    },
    Row {
        name: "sign",
        record: "@0 +1 0\n\n",
        end: BAD_SECOND,
    },
    Row {
        name: "two_spaces",
        record: "@0  1 0\n\n",
        end: BAD_SECOND,
    },
    Row {
        name: "carriage_return",
        record: "@0 1 0\r\n\n",
        end: BAD_SECOND,
    },
    Row {
        name: "nul",
        record: "\0",
        end: BAD_SECOND,
    },
    Row {
        name: "no_line_feed_at_the_end",
        record: "@0 1 1\nx",
        end: BAD_SECOND,
    },
];

#[test]
fn second_records_go_bad(rt: HostRuntime) -> Result<(), Fail> {
    let alloc = rt.alloc();
    for row in ROWS {
        let record = row.record;
        let script = format!(in alloc; "@0 0 1\n;\n{record}")?;
        check_replay(&rt, alloc, row.name, script.as_str(), &row.end)?;
    }
    Ok(())
}

// A record of a script, and the output of the script up to and with it.
struct Step<'a> {
    record: &'a str,
    out: &'a [u8],
}

const STEPS: &[Step<'static>] = &[
    Step {
        record: "@0 0 4\na;'@\n",
        out: b"edit 1: tokens 0+3+0 children 0+2+0\n\
            0 N source file 0..4\n\
            1 N error 0..2\n\
            2 T identifier 0..1\n\
            2 T `;` 1..2\n\
            1 N error 2..4\n\
            2 T string literal 2..4\n\
            E 0..1 unknown statement\n\
            E 2..4 unknown statement\n\
            E 2..4 unterminated string\n",
    },
    Step {
        record: "@1 3 1\n(\n",
        out: b"edit 1: tokens 0+3+0 children 0+2+0\n\
            edit 2: tokens 0+3+0 children 0+1+0\n\
            0 N source file 0..3\n\
            1 N error 0..3\n\
            2 T identifier 0..1\n\
            2 N paren expr 1..3\n\
            3 T `(` 1..2\n\
            3 T `@` 2..3\n\
            E 0..1 unknown statement\n",
    },
    Step {
        record: "@0 3 2\n\n;\n",
        out: b"edit 1: tokens 0+3+0 children 0+2+0\n\
            edit 2: tokens 0+3+0 children 0+1+0\n\
            edit 3: tokens 0+2+0 children 0+2+0\n\
            0 N source file 0..2\n\
            1 T whitespace 0..1\n\
            1 N empty stmt 1..2\n\
            2 T `;` 1..2\n",
    },
];

// Cuts a record everywhere inside it, after records that are whole. The script is then bad at the
// start of that record.
fn check_cuts(rt: &impl Abort, alloc: Global, before: &str, record: &str) -> Result<(), Fail> {
    let at = before.len();
    let line = format!(in alloc; "bad script at {at}\n")?;
    for cut in 1..record.len() {
        let part = record.get(..cut).ok_or("a cut in a character")?;
        let script = format!(in alloc; "{before}{part}")?;
        let end = End {
            status: 8,
            out: b"",
            err: line.as_bytes(),
        };
        check_replay(rt, alloc, part, script.as_str(), &end)?;
    }
    Ok(())
}

#[test]
fn cut_scripts_are_bad_at_the_cut_record(rt: HostRuntime) -> Result<(), Fail> {
    let alloc = rt.alloc();
    let mut script = String::new(alloc);
    for step in STEPS {
        check_cuts(&rt, alloc, script.as_str(), step.record)?;
        script.push_str(step.record)?;
        let end = End {
            status: 0,
            out: step.out,
            err: b"",
        };
        check_replay(&rt, alloc, step.record, script.as_str(), &end)?;
    }
    Ok(())
}

// A thousand records that put a semicolon before the text, and then one more.
fn long_script(alloc: Global, last: &str) -> Result<String, AllocError> {
    let mut script = String::new(alloc);
    for _ in 0..1000u32 {
        script.push_str("@0 0 1\n;\n")?;
    }
    script.push_str(last)?;
    Ok(script)
}

// After the records before it are applied, or without any of them being applied: nothing is
// written.
#[test]
fn last_of_many_records_goes_bad(rt: HostRuntime) -> Result<(), Fail> {
    let alloc = rt.alloc();
    let script = long_script(alloc, "@1001 1001 0\n\n")?;
    let name = "range after the end";
    check_replay(&rt, alloc, name, script.as_str(), &BAD_RANGE)?;
    let script = long_script(alloc, "@0 1000 0\nx\n")?;
    let name = "text without length";
    let bad_last = End {
        status: 8,
        out: b"",
        err: b"bad script at 9000\n",
    };
    check_replay(&rt, alloc, name, script.as_str(), &bad_last)
}
