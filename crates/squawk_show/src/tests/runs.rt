//! Runs of the program over streams in memory, and tables of them.
use crate::{MemorySink, MemorySource, RunError, run};
use squawk_tree::Parse;
use std::alloc::{AllocError, Global};
use std::process::Abort;
use std::test::Fail;

// The most bytes that a call of each stream moves, the numbers of the calls that fail, from 1 on,
// and the bytes that `out` has room for.
#[derive(Clone, Copy)]
pub(crate) struct Streams<'a> {
    pub(crate) read: usize,
    pub(crate) failing_reads: &'a [u64],
    pub(crate) write: usize,
    pub(crate) failing_writes: &'a [u64],
    pub(crate) room: usize,
    pub(crate) error_write: usize,
    pub(crate) failing_error_writes: &'a [u64],
}

// Streams that move 1000 bytes at a time and do not fail.
pub(crate) const WIDE_STREAMS: Streams<'static> = Streams {
    read: 1000,
    failing_reads: &[],
    write: 1000,
    failing_writes: &[],
    room: 10_000,
    error_write: 1000,
    failing_error_writes: &[],
};

// A run of the program: its words, and the bytes of its source.
#[derive(Clone, Copy)]
pub(crate) struct Run<'a> {
    pub(crate) name: &'a str,
    pub(crate) words: &'a [&'a str],
    pub(crate) input: &'a [u8],
}

// How a run ends: its status, and what it writes to `out` and to `err`.
#[derive(Clone, Copy, PartialEq, Debug)]
pub(crate) struct End<'a> {
    pub(crate) status: u8,
    pub(crate) out: &'a [u8],
    pub(crate) err: &'a [u8],
}

// What a run left: its status and outcome, the bytes that `out` and `err` took, those that the
// source has left, and how often the source and `out` failed.
#[derive(Drop)]
pub(crate) struct RunResult {
    pub(crate) status: u8,
    pub(crate) outcome: Result<Parse, RunError>,
    pub(crate) out: Vec<u8>,
    pub(crate) err: Vec<u8>,
    pub(crate) left: Vec<u8>,
    pub(crate) read_faults: u64,
    pub(crate) write_faults: u64,
}

impl RunResult {
    fn end(&self) -> End<'_> {
        End {
            status: self.status,
            out: &self.out,
            err: &self.err,
        }
    }

    // The output of a run that ended with status 0.
    pub(crate) fn report(&self) -> Option<&str> {
        match self.status {
            0 => std::str::from_utf8(&self.out).ok(),
            _ => None,
        }
    }

    // Whether the source failed exactly where the status says so, and `out` likewise.
    fn has_faults_of_its_status(&self) -> bool {
        (self.read_faults == 1) == (self.status == 3)
            && (self.write_faults == 1) == (self.status == 7)
    }
}

// The words of a command line.
pub(crate) fn command_line(alloc: Global, words: &[&str]) -> Result<Vec<String>, AllocError> {
    let mut line = Vec::new(alloc);
    for word in words {
        line.push(String::from_str(alloc, word)?)?;
    }
    Ok(line)
}

// Runs the program. This is the one place of the tests over memory that calls `run`.
pub(crate) fn run_over(
    rt: &impl Abort,
    alloc: Global,
    program_run: &Run<'_>,
    streams: &Streams<'_>,
) -> Result<RunResult, Fail> {
    assert!(rt; streams.read > 0 && streams.write > 0 && streams.error_write > 0);
    let words = command_line(alloc, program_run.words)?;
    let mut source = MemorySource::new(
        alloc,
        program_run.input,
        streams.read,
        streams.failing_reads,
    )?;
    let mut out = MemorySink::new(alloc, streams.room, streams.write, streams.failing_writes)?;
    let failing = streams.failing_error_writes;
    let mut err = MemorySink::new(alloc, 1000, streams.error_write, failing)?;
    let result = run(alloc, &words, &mut source, &mut out, &mut err);
    Ok(RunResult {
        status: result.status,
        outcome: result.outcome,
        out: Vec::from_slice(alloc, out.taken())?,
        err: Vec::from_slice(alloc, err.taken())?,
        left: Vec::from_slice(alloc, source.left())?,
        read_faults: source.faults(),
        write_faults: out.faults(),
    })
}

// Checks how a run ends, and returns what it left.
pub(crate) fn check_run(
    rt: &impl Abort,
    alloc: Global,
    program_run: &Run<'_>,
    streams: &Streams<'_>,
    end: &End<'_>,
) -> Result<RunResult, Fail> {
    let result = run_over(rt, alloc, program_run, streams)?;
    let name = format!(in alloc;
        "{}, {:?}, reads {:?}, writes {:?} and error writes {:?} fail, room {}",
        program_run.name,
        program_run.words,
        streams.failing_reads,
        streams.failing_writes,
        streams.failing_error_writes,
        streams.room
    )?;
    assert_eq!(rt; result.end(), *end, "{name}");
    assert!(rt; result.has_faults_of_its_status(), "{name}");
    Ok(result)
}

// An input of the program, and the whole output for it.
pub(crate) struct Row<'a> {
    pub(crate) name: &'a str,
    pub(crate) input: &'a str,
    pub(crate) out: &'a str,
}

// Checks a run that reads its whole input, and ends with status 0.
fn check_row<'a>(
    rt: &impl Abort,
    alloc: Global,
    words: &'a [&'a str],
    row: &Row<'a>,
) -> Result<(), Fail> {
    let run = Run {
        name: row.name,
        words,
        input: row.input.as_bytes(),
    };
    let end = End {
        status: 0,
        out: row.out.as_bytes(),
        err: b"",
    };
    let result = check_run(rt, alloc, &run, &WIDE_STREAMS, &end)?;
    assert!(rt; result.left.is_empty(), "{}", row.name);
    Ok(())
}

pub(crate) fn check_rows<'a>(
    rt: &impl Abort,
    alloc: Global,
    words: &'a [&'a str],
    rows: &[Row<'a>],
) -> Result<(), Fail> {
    for row in rows {
        check_row(rt, alloc, words, row)?;
    }
    Ok(())
}

// Words, and what the program writes with them.
pub(crate) struct Table<'a> {
    pub(crate) words: &'a [&'a str],
    pub(crate) rows: &'a [Row<'a>],
}

pub(crate) fn check_tables(
    rt: &impl Abort,
    alloc: Global,
    tables: &[Table<'_>],
) -> Result<(), Fail> {
    for table in tables {
        check_rows(rt, alloc, table.words, table.rows)?;
    }
    Ok(())
}

// An input that the program refuses before it writes, the status, and the line on `err`.
pub(crate) struct Refusal<'a> {
    pub(crate) name: &'a str,
    pub(crate) input: &'a [u8],
    pub(crate) status: u8,
    pub(crate) line: &'a str,
}

fn check_refusal<'a>(
    rt: &impl Abort,
    alloc: Global,
    words: &'a [&'a str],
    streams: &Streams<'_>,
    row: &Refusal<'a>,
) -> Result<(), Fail> {
    let run = Run {
        name: row.name,
        words,
        input: row.input,
    };
    let end = End {
        status: row.status,
        out: b"",
        err: row.line.as_bytes(),
    };
    check_run(rt, alloc, &run, streams, &end)?;
    Ok(())
}

pub(crate) fn check_refusals<'a>(
    rt: &impl Abort,
    alloc: Global,
    words: &'a [&'a str],
    streams: &Streams<'_>,
    rows: &[Refusal<'a>],
) -> Result<(), Fail> {
    for row in rows {
        check_refusal(rt, alloc, words, streams, row)?;
    }
    Ok(())
}
