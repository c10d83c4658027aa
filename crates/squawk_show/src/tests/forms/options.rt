//! The commands `split`, `quote`, `squeeze` and `clauses` after each of the options.
use crate::Reading;
use crate::tests::hostile::same_parse;
use crate::tests::runs::{End, Run, WIDE_STREAMS, check_run};
use squawk_clauses::ClauseGrammar;
use squawk_tree::{Division, Parse, Strings, parse_divided, parse_with_in};
use std::alloc::Global;
use std::process::Abort;
use std::test::Fail;

// A text that each reading divides in another way.
const TEXT: &str = "select (1; '\\' ) from t;  '  );";

const QUOTES: &str = "'select (1; ''\\'' ) from t;  ''  );'\n\
    $$select (1; '\\' ) from t;  '  );$$\n\
    \"select (1; '\\' ) from t;  '  );\"\n";

// Options, the reading that they choose, and what `split`, `squeeze` and `clauses` then write of
// the text.
struct Options<'a> {
    name: &'a str,
    words: &'a [&'a str],
    reading: Reading,
    pieces: &'a str,
    squeezed: &'a str,
    clauses: &'a str,
}

const OPTIONS: &[Options<'static>] = &[
    Options {
        name: "standard_and_flat",
        words: &[],
        reading: Reading {
            strings: Strings::Standard,
            division: Division::Flat,
        },
        pieces: "S 0..10\nG 10..11\nS 11..24\nG 24..26\nS 26..31\n",
        squeezed: "select (1; '\\' ) from t; '  );",
        clauses: "0 N source file 0..31\n\
            1 N select 0..10\n\
            2 N select clause 0..9\n\
            3 T `select` 0..6\n\
            3 T whitespace 6..7\n\
            3 N paren expr 7..9\n\
            4 T `(` 7..8\n\
            4 T integer literal 8..9\n\
            2 T `;` 9..10\n\
            1 T whitespace 10..11\n\
            1 N error 11..24\n\
            2 T string literal 11..14\n\
            2 T whitespace 14..15\n\
            2 T `)` 15..16\n\
            2 T whitespace 16..17\n\
            2 T `from` 17..21\n\
            2 T whitespace 21..22\n\
            2 T identifier 22..23\n\
            2 T `;` 23..24\n\
            1 T whitespace 24..26\n\
            1 N error 26..31\n\
            2 T string literal 26..31\n\
            E 11..14 unknown statement\n\
            E 26..31 unknown statement\n\
            E 26..31 unterminated string\n",
    },
    Options {
        name: "backslash_and_flat",
        words: &["--backslash"],
        reading: Reading {
            strings: Strings::Backslash,
            division: Division::Flat,
        },
        pieces: "S 0..10\nG 10..11\nS 11..31\n",
        squeezed: "select (1; '\\' ) from t;  ' );",
        clauses: "0 N source file 0..31\n\
            1 N select 0..10\n\
            2 N select clause 0..9\n\
            3 T `select` 0..6\n\
            3 T whitespace 6..7\n\
            3 N paren expr 7..9\n\
            4 T `(` 7..8\n\
            4 T integer literal 8..9\n\
            2 T `;` 9..10\n\
            1 T whitespace 10..11\n\
            1 N error 11..31\n\
            2 T string literal 11..27\n\
            2 T whitespace 27..29\n\
            2 T `)` 29..30\n\
            2 T `;` 30..31\n\
            E 11..27 unknown statement\n",
    },
    Options {
        name: "standard_and_grouped",
        words: &["--grouped"],
        reading: Reading {
            strings: Strings::Standard,
            division: Division::Grouped,
        },
        pieces: "S 0..24\nG 24..26\nS 26..31\n",
        squeezed: "select (1; '\\' ) from t; '  );",
        clauses: "0 N source file 0..31\n\
            1 N select 0..24\n\
            2 N select clause 0..16\n\
            3 T `select` 0..6\n\
            3 T whitespace 6..7\n\
            3 N paren expr 7..16\n\
            4 T `(` 7..8\n\
            4 T integer literal 8..9\n\
            4 T `;` 9..10\n\
            4 T whitespace 10..11\n\
            4 T string literal 11..14\n\
            4 T whitespace 14..15\n\
            4 T `)` 15..16\n\
            2 T whitespace 16..17\n\
            2 N from clause 17..23\n\
            3 T `from` 17..21\n\
            3 T whitespace 21..22\n\
            3 T identifier 22..23\n\
            2 T `;` 23..24\n\
            1 T whitespace 24..26\n\
            1 N error 26..31\n\
            2 T string literal 26..31\n\
            E 26..31 unknown statement\n\
            E 26..31 unterminated string\n",
    },
    Options {
        name: "backslash_and_grouped",
        words: &["--backslash", "--grouped"],
        reading: Reading {
            strings: Strings::Backslash,
            division: Division::Grouped,
        },
        pieces: "S 0..31\n",
        squeezed: "select (1; '\\' ) from t;  ' );",
        clauses: "0 N source file 0..31\n\
            1 N select 0..31\n\
            2 N select clause 0..30\n\
            3 T `select` 0..6\n\
            3 T whitespace 6..7\n\
            3 N paren expr 7..30\n\
            4 T `(` 7..8\n\
            4 T integer literal 8..9\n\
            4 T `;` 9..10\n\
            4 T whitespace 10..11\n\
            4 T string literal 11..27\n\
            4 T whitespace 27..29\n\
            4 T `)` 29..30\n\
            2 T `;` 30..31\n",
    },
];

// Runs a command after options. It writes this output, and the outcome is this tree.
fn check_command<'a>(
    rt: &impl Abort,
    alloc: Global,
    options: &Options<'a>,
    command: &'a str,
    written: &str,
    tree: &Parse,
) -> Result<(), Fail> {
    let mut words = Vec::from_slice(alloc, options.words)?;
    words.push(command)?;
    let run = Run {
        name: options.name,
        words: &words,
        input: TEXT.as_bytes(),
    };
    let end = End {
        status: 0,
        out: written.as_bytes(),
        err: b"",
    };
    let result = check_run(rt, alloc, &run, &WIDE_STREAMS, &end)?;
    let parse = result.outcome.ok().ok_or(options.name)?;
    assert!(rt; same_parse(&parse, tree), "{command}, {}", options.name);
    Ok(())
}

// Checks each command after options.
fn check_options(rt: &impl Abort, alloc: Global, options: &Options<'_>) -> Result<(), Fail> {
    let Reading { strings, division } = options.reading;
    let plain = parse_divided(alloc, TEXT, strings, division);
    let plain = plain.ok().ok_or("no memory")?;
    let grammar = ClauseGrammar::new(division);
    let clauses = parse_with_in(alloc, TEXT, strings, &grammar);
    let clauses = clauses.ok().ok_or("no memory")?;
    check_command(rt, alloc, options, "split", options.pieces, &plain)?;
    check_command(rt, alloc, options, "quote", QUOTES, &plain)?;
    check_command(rt, alloc, options, "squeeze", options.squeezed, &plain)?;
    check_command(rt, alloc, options, "clauses", options.clauses, &clauses)
}

#[test]
fn commands_follow_options(rt: HostRuntime) -> Result<(), Fail> {
    for options in OPTIONS {
        check_options(&rt, rt.alloc(), options)?;
    }
    Ok(())
}
