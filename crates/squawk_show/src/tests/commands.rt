//! What the words of the command line name.
use crate::tests::runs::{End, Run, Streams, WIDE_STREAMS, check_run};
use std::alloc::Global;
use std::process::Abort;
use std::test::Fail;

// Words that make a text, and the summary of it.
#[derive(Clone, Copy)]
struct Row<'a> {
    name: &'a str,
    words: &'a [&'a str],
    out: &'a str,
}

const SUMMARIES: &[Row<'static>] = &[
    Row {
        name: "make_four",
        words: &["make", "4"],
        out: "bytes 84 tokens 43 children 10 nodes 4 errors 0\n",
    },
    Row {
        name: "make_one",
        words: &["make", "1"],
        out: "bytes 10 tokens 5 children 2 nodes 1 errors 0\n",
    },
    Row {
        name: "make_with_backslash",
        words: &["--backslash", "make", "4"],
        out: "bytes 84 tokens 43 children 10 nodes 4 errors 0\n",
    },
    Row {
        name: "make_with_grouped",
        words: &["--grouped", "make", "4"],
        out: "bytes 84 tokens 43 children 10 nodes 4 errors 0\n",
    },
    Row {
        name: "make_with_both_options",
        words: &["--backslash", "--grouped", "make", "4"],
        out: "bytes 84 tokens 43 children 10 nodes 4 errors 0\n",
    },
];

const BAD_WORDS: &[(&str, &[&str])] = &[
    ("make_zero", &["make", "0"]),
    ("make_leading_zero", &["make", "04"]),
    ("make_sign", &["make", "+4"]),
    ("make_letter", &["make", "4a"]),
    ("make_empty_word", &["make", ""]),
    ("make_above_its_limit", &["make", "100001"]),
    ("make_beyond_u32", &["make", "99999999999"]),
    ("made_with_number", &["made", "4"]),
    ("make_uppercase", &["Make", "4"]),
    ("make_alone", &["make"]),
    ("made", &["made"]),
    ("make_two_numbers", &["make", "4", "5"]),
    ("select", &["select"]),
    ("replay_with_word", &["replay", "x"]),
    ("replay_uppercase", &["Replay"]),
    ("replays", &["replays"]),
    ("split_with_word", &["split", "x"]),
    ("split_with_empty_word", &["split", ""]),
    ("split_uppercase", &["Split"]),
    ("splits", &["splits"]),
    ("split_and_space", &["split "]),
    ("quote_with_number", &["quote", "4"]),
    ("quote_uppercase", &["QUOTE"]),
    ("quotes", &["quotes"]),
    ("squeeze_with_word", &["squeeze", "squeeze"]),
    ("squeeze_uppercase", &["Squeeze"]),
    ("squeezed", &["squeezed"]),
    ("clauses_with_word", &["clauses", "select"]),
    ("clauses_uppercase", &["Clauses"]),
    ("clause", &["clause"]),
    ("two_commands", &["split", "quote"]),
    ("empty_word", &[""]),
];

const BAD_OPTIONS: &[(&str, &[&str])] = &[
    ("options_in_the_other_order", &["--grouped", "--backslash"]),
    ("backslash_twice", &["--backslash", "--backslash"]),
    ("grouped_twice", &["--grouped", "--grouped"]),
    ("option_after_make", &["make", "4", "--backslash"]),
    ("option_after_replay", &["replay", "--grouped"]),
    ("option_before_other_words", &["--backslash", "made"]),
    ("option_in_uppercase", &["--Grouped"]),
    ("option_with_one_dash", &["-backslash"]),
    ("option_after_split", &["split", "--backslash"]),
    ("option_after_quote", &["quote", "--grouped"]),
    ("option_after_squeeze", &["squeeze", "--backslash"]),
    ("option_after_clauses", &["clauses", "--grouped"]),
    (
        "options_around_split",
        &["--backslash", "split", "--grouped"],
    ),
    (
        "options_in_the_other_order_before_split",
        &["--grouped", "--backslash", "split"],
    ),
    ("option_before_splits", &["--grouped", "splits"]),
];

// Runs the program with words. It reads nothing, though its first read would fail.
fn check_words<'a>(
    rt: &impl Abort,
    alloc: Global,
    name: &'a str,
    words: &'a [&'a str],
    end: &End<'_>,
) -> Result<(), Fail> {
    let run = Run {
        name,
        words,
        input: b"select 1;",
    };
    let streams = Streams {
        failing_reads: &[1],
        ..WIDE_STREAMS
    };
    let result = check_run(rt, alloc, &run, &streams, end)?;
    assert!(rt;
        result.left.as_slice() == run.input && result.read_faults == 0,
        "{name}"
    );
    Ok(())
}

// Words that make a text have its summary as the output.
fn check_summary(rt: &impl Abort, alloc: Global, row: &Row<'_>) -> Result<(), Fail> {
    let end = End {
        status: 0,
        out: row.out.as_bytes(),
        err: b"",
    };
    check_words(rt, alloc, row.name, row.words, &end)
}

fn check_bad_words(rt: &impl Abort, alloc: Global, rows: &[(&str, &[&str])]) -> Result<(), Fail> {
    let end = End {
        status: 2,
        out: b"",
        err: b"bad words\n",
    };
    for &(name, words) in rows {
        check_words(rt, alloc, name, words, &end)?;
    }
    Ok(())
}

#[test]
fn words_name_commands(rt: HostRuntime) -> Result<(), Fail> {
    for row in SUMMARIES {
        check_summary(&rt, rt.alloc(), row)?;
    }
    check_bad_words(&rt, rt.alloc(), BAD_WORDS)
}

#[test]
fn options_come_first(rt: HostRuntime) -> Result<(), Fail> {
    check_bad_words(&rt, rt.alloc(), BAD_OPTIONS)
}

#[test]
fn make_at_its_limit(rt: HostRuntime) -> Result<(), Fail> {
    let row = Row {
        name: "make_at_its_limit",
        words: &["make", "100000"],
        out: "bytes 2586113 tokens 1075000 children 250000 nodes 100000 errors 0\n",
    };
    check_summary(&rt, rt.alloc(), &row)
}
