//! The commands `split`, `quote`, `squeeze` and `clauses` over inputs that they refuse.
use super::COMMANDS;
use crate::tests::runs::{Refusal, Streams, WIDE_STREAMS, check_refusals};
use std::alloc::Global;
use std::process::Abort;
use std::test::Fail;

const REFUSALS: &[Refusal<'static>] = &[
    Refusal {
        name: "not_utf8",
        input: b"select 1;\xff",
        status: 4,
        line: "not UTF-8 at 9\n",
    },
    Refusal {
        name: "character_is_cut",
        input: b"\xc3",
        status: 4,
        line: "not UTF-8 at 0\n",
    },
];

const SECOND_READ: &[Refusal<'static>] = &[Refusal {
    name: "second_read_fails",
    input: b"select 1;",
    status: 3,
    line: "cannot read the input\n",
}];

// Checks a command over inputs that are read in pieces of four bytes.
fn check_command(rt: &impl Abort, alloc: Global, words: &[&str]) -> Result<(), Fail> {
    let pieces = Streams {
        read: 4,
        ..WIDE_STREAMS
    };
    check_refusals(rt, alloc, words, &pieces, REFUSALS)?;
    let failing = Streams {
        read: 4,
        failing_reads: &[2],
        ..WIDE_STREAMS
    };
    check_refusals(rt, alloc, words, &failing, SECOND_READ)
}

#[test]
fn commands_refuse_inputs(rt: HostRuntime) -> Result<(), Fail> {
    for table in COMMANDS {
        check_command(&rt, rt.alloc(), table.words)?;
    }
    Ok(())
}
