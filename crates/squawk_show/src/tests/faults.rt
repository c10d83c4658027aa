//! Runs over sources and sinks that fail: at each call, one byte at a time, and with little room.
use crate::tests::SELECT_ONE;
use crate::tests::hostile::push_times;
use crate::tests::runs::{End, Run, Streams, WIDE_STREAMS, check_run, run_over};
use std::alloc::Global;
use std::process::Abort;
use std::test::Fail;

const READ_LINE: &str = "cannot read the input\n";

const WRITE_LINE: &str = "cannot write the output\n";

const BAD_WORDS_LINE: &str = "bad words\n";

const NOT_UTF8_LINE: &str = "not UTF-8 at 0\n";

// Streams that move one byte at a time and do not fail.
const NARROW_STREAMS: Streams<'static> = Streams {
    read: 1,
    failing_reads: &[],
    write: 1,
    failing_writes: &[],
    room: 1000,
    error_write: 1,
    failing_error_writes: &[],
};

// A command, its input and its whole output.
struct Command<'a> {
    name: &'a str,
    words: &'a [&'a str],
    input: &'a [u8],
    out: &'a str,
}

const REPORT: Command<'static> = Command {
    name: "report",
    words: &[],
    input: b"select 1;",
    out: SELECT_ONE,
};

const MAKE: Command<'static> = Command {
    name: "make",
    words: &["make", "1"],
    input: b"",
    out: "bytes 10 tokens 5 children 2 nodes 1 errors 0\n",
};

const REPLAY: Command<'static> = Command {
    name: "replay",
    words: &["replay"],
    input: b"@0 0 1\n;\n@0 1 0\n\n",
    out: "edit 1: tokens 0+1+0 children 0+1+0\n\
        edit 2: tokens 0+0+0 children 0+0+0\n\
        0 N source file 0..0\n",
};

const SPLIT: Command<'static> = Command {
    name: "split",
    words: &["split"],
    input: b"copy t from stdin;\n\\.\n",
    out: "S 0..18\nD 18..22\n",
};

const QUOTE: Command<'static> = Command {
    name: "quote",
    words: &["quote"],
    input: b"it's",
    out: "'it''s'\n$$it's$$\n\"it's\"\n",
};

const SQUEEZE: Command<'static> = Command {
    name: "squeeze",
    words: &["squeeze"],
    input: b"a /**/ - --\n/**/-",
    out: "a -\n-",
};

const CLAUSES: Command<'static> = Command {
    name: "clauses",
    words: &["clauses"],
    input: b"select",
    out: "0 N source file 0..6\n\
        1 N select 0..6\n\
        2 N select clause 0..6\n\
        3 T `select` 0..6\n",
};

// Runs a command over streams. Checks its status, how many bytes of its output it writes, and the
// error line.
fn check_command(
    rt: &impl Abort,
    alloc: Global,
    command: &Command<'_>,
    streams: &Streams<'_>,
    ends: (u8, usize, &str),
) -> Result<(), Fail> {
    let (status, written, line) = ends;
    let run = Run {
        name: command.name,
        words: command.words,
        input: command.input,
    };
    let end = End {
        status,
        out: command.out.as_bytes().get(..written).ok_or(command.name)?,
        err: line.as_bytes(),
    };
    check_run(rt, alloc, &run, streams, &end)?;
    Ok(())
}

// A source of so many bytes is read in one call more than it has bytes. Each of these calls fails
// in turn, and then one that never comes.
fn check_reads(rt: &impl Abort, alloc: Global, command: &Command<'_>) -> Result<(), Fail> {
    let calls = command.input.len() as u64;
    for before in 0..calls.saturating_add(2) {
        let failing = [before.saturating_add(1)];
        let streams = Streams {
            failing_reads: &failing,
            ..NARROW_STREAMS
        };
        let ends = match before <= calls {
            true => (3, 0, READ_LINE),
            false => (0, command.out.len(), ""),
        };
        check_command(rt, alloc, command, &streams, ends)?;
    }
    Ok(())
}

#[test]
fn each_read_fails(rt: HostRuntime) -> Result<(), Fail> {
    for command in &[REPORT, REPLAY, SPLIT, QUOTE, SQUEEZE, CLAUSES] {
        check_reads(&rt, rt.alloc(), command)?;
    }
    Ok(())
}

// Checks a run that writes this many bytes of its output: if that is not all, it ends with status
// 7.
fn check_written(
    rt: &impl Abort,
    alloc: Global,
    command: &Command<'_>,
    streams: &Streams<'_>,
    written: usize,
) -> Result<(), Fail> {
    let ends = match written < command.out.len() {
        true => (7, written, WRITE_LINE),
        false => (0, written, ""),
    };
    check_command(rt, alloc, command, streams, ends)
}

// Each byte of the output is written by a call of its own. Each of these calls fails in turn, and
// then one that never comes.
fn check_writes(rt: &impl Abort, alloc: Global, command: &Command<'_>) -> Result<(), Fail> {
    for before in 0..command.out.len().saturating_add(1) {
        let failing = [(before as u64).saturating_add(1)];
        let streams = Streams {
            failing_writes: &failing,
            ..NARROW_STREAMS
        };
        check_written(rt, alloc, command, &streams, before)?;
    }
    Ok(())
}

#[test]
fn each_write_fails(rt: HostRuntime) -> Result<(), Fail> {
    assert_eq!(rt; SELECT_ONE.len(), 113);
    for command in &[REPORT, MAKE, REPLAY, SPLIT, QUOTE, SQUEEZE, CLAUSES] {
        check_writes(&rt, rt.alloc(), command)?;
    }
    Ok(())
}

// With room for fewer bytes than the output has, the run writes as many as there is room for.
fn check_rooms(rt: &impl Abort, alloc: Global, command: &Command<'_>) -> Result<(), Fail> {
    for room in 0..command.out.len().saturating_add(1) {
        let streams = Streams {
            room,
            ..NARROW_STREAMS
        };
        check_written(rt, alloc, command, &streams, room)?;
    }
    Ok(())
}

#[test]
fn little_room(rt: HostRuntime) -> Result<(), Fail> {
    for command in &[REPORT, MAKE, REPLAY, SPLIT, QUOTE, SQUEEZE, CLAUSES] {
        check_rooms(&rt, rt.alloc(), command)?;
    }
    Ok(())
}

// A run that ends with an error: its status, and the line on `err`.
struct FailedRun<'a> {
    name: &'a str,
    words: &'a [&'a str],
    input: &'a [u8],
    reads: &'a [u64],
    writes: &'a [u64],
    status: u8,
    line: &'a str,
}

const FAILED_RUNS: &[FailedRun<'static>] = &[
    FailedRun {
        name: "not_utf8",
        words: &[],
        input: b"\xff",
        reads: &[],
        writes: &[],
        status: 4,
        line: NOT_UTF8_LINE,
    },
    FailedRun {
        name: "bad_words",
        words: &["x"],
        input: b"",
        reads: &[],
        writes: &[],
        status: 2,
        line: BAD_WORDS_LINE,
    },
    FailedRun {
        name: "read_fails",
        words: &[],
        input: b"",
        reads: &[1],
        writes: &[],
        status: 3,
        line: READ_LINE,
    },
    FailedRun {
        name: "write_fails",
        words: &[],
        input: b"",
        reads: &[],
        writes: &[1],
        status: 7,
        line: WRITE_LINE,
    },
    FailedRun {
        name: "bad_script",
        words: &["replay"],
        input: b"x",
        reads: &[],
        writes: &[],
        status: 8,
        line: "bad script at 0\n",
    },
    FailedRun {
        name: "bad_range",
        words: &["replay"],
        input: b"@1 1 0\n\n",
        reads: &[],
        writes: &[],
        status: 9,
        line: "bad range\n",
    },
];

// Each write of the error line takes one byte and fails in turn. The status stays, and `err` has
// the bytes before that write.
fn check_failed_run(rt: &impl Abort, alloc: Global, row: &FailedRun<'_>) -> Result<(), Fail> {
    for before in 0..row.line.len().saturating_add(1) {
        let failing = [(before as u64).saturating_add(1)];
        let run = Run {
            name: row.name,
            words: row.words,
            input: row.input,
        };
        let streams = Streams {
            failing_reads: row.reads,
            failing_writes: row.writes,
            failing_error_writes: &failing,
            ..NARROW_STREAMS
        };
        let end = End {
            status: row.status,
            out: b"",
            err: row.line.as_bytes().get(..before).ok_or(row.name)?,
        };
        check_run(rt, alloc, &run, &streams, &end)?;
    }
    Ok(())
}

#[test]
fn each_write_of_the_error_line_fails(rt: HostRuntime) -> Result<(), Fail> {
    for row in FAILED_RUNS {
        check_failed_run(&rt, rt.alloc(), row)?;
    }
    Ok(())
}

// A command whose input is a part that is repeated so many times, and whose output has this length.
// Each write takes all that it gets. Before each of them but the first, `out` has taken `taken`.
struct Long<'a> {
    name: &'a str,
    words: &'a [&'a str],
    part: &'a str,
    times: u32,
    len: usize,
    taken: &'a [usize],
}

// A block is written when it has no room for 128 bytes more, so after at least 65409 bytes. The
// lines of edits are longer than a block, and are written as a whole.
const LONG: &[Long<'static>] = &[
    Long {
        name: "report",
        words: &[],
        part: ";",
        times: 1600,
        len: 67_590,
        taken: &[65_411],
    },
    Long {
        name: "replay",
        words: &["replay"],
        part: "@0 0 1\n;\n",
        times: 1600,
        len: 136_257,
        taken: &[68_667, 134_078],
    },
    Long {
        name: "clauses",
        words: &["clauses"],
        part: "select 1;",
        times: 460,
        len: 67_999,
        taken: &[65_413],
    },
];

// What a long run writes to a sink that fails at these calls. Checks the status.
fn written(
    rt: &impl Abort,
    alloc: Global,
    row: &Long<'_>,
    failing: &[u64],
    status: u8,
) -> Result<Vec<u8>, Fail> {
    let mut input = String::new(alloc);
    push_times(&mut input, row.part, row.times)?;
    let run = Run {
        name: row.name,
        words: row.words,
        input: input.as_bytes(),
    };
    let streams = Streams {
        read: 100_000,
        write: 200_000,
        failing_writes: failing,
        room: 200_000,
        ..WIDE_STREAMS
    };
    let result = run_over(rt, alloc, &run, &streams)?;
    assert_eq!(rt; result.status, status, "{}, write {failing:?}", row.name);
    Ok(result.out)
}

// Each write of a long output but the first fails in turn. What the sink has taken then begins the
// whole output.
fn check_long(rt: &impl Abort, alloc: Global, row: &Long<'_>) -> Result<(), Fail> {
    let whole = written(rt, alloc, row, &[], 0)?;
    assert_eq!(rt; whole.len(), row.len, "{}", row.name);
    let mut failing = 1u64;
    for &taken in row.taken {
        failing = failing.saturating_add(1);
        let prefix = written(rt, alloc, row, &[failing], 7)?;
        assert_eq!(rt; prefix.len(), taken, "{}, write {failing}", row.name);
        assert!(rt;
            whole.as_slice().starts_with(prefix.as_slice()),
            "{}, write {failing}",
            row.name
        );
    }
    Ok(())
}

#[test]
fn later_writes_of_a_long_output_fail(rt: HostRuntime) -> Result<(), Fail> {
    for row in LONG {
        check_long(&rt, rt.alloc(), row)?;
    }
    Ok(())
}
