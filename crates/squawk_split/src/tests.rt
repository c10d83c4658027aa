//! Worked examples of COPY data and of scripts.
use crate::PieceKind::{Command, CopyData, Gap, Statement};
use crate::{PieceKind, Pieces, copy_data_len, split, split_lexed};
use squawk_lexed::LexedStr;
use squawk_lexer::Strings;
use squawk_statements::Division;
use std::alloc::Global;
use std::process::Abort;
use std::test::Fail;

// Name, text, and the length of the data that begins it.
const ROWS: &[(&str, &[u8], usize)] = &[
    ("empty text", b"", 0),
    ("marker between lines", b"\n1\nit's\n\\.\nselect 1;", 11),
    ("marker at the end", b"\n1\n\\.", 5),
    ("CR and LF", b"\r\n1\r\n\\.\r\nselect 1;", 9),
    (
        "marker directly after the first line",
        b"\n\\.\nselect 1;",
        4,
    ),
    ("marker on the line of the semicolon", b"\\.", 2),
    ("marker before CR alone", b"\n\\.\rselect 1;", 13),
    ("space before the marker", b"\n \\.\nselect 1;", 14),
    ("space after the marker", b"\n\\. \n\\.\nx", 8),
    ("escaped backslash", b"\n\\\\.\nx", 6),
    ("only the first marker", b"\n\\.\n\\.\n", 4),
    ("no line end", b"select 1;", 9),
];

#[test]
fn finds_the_end_of_data(rt: HostRuntime) -> Result<(), Fail> {
    for &(name, text, len) in ROWS {
        assert_eq!(rt; copy_data_len(text), len, "{name}");
    }
    Ok(())
}

// Name, script, and its pieces: kind and text.
const SCRIPTS: &[(&str, &str, &[(PieceKind, &str)])] = &[
    ("empty script", "", &[]),
    (
        "COPY data with an apostrophe",
        "copy t from stdin;\n1\nit's\n\\.\nselect 1;",
        &[
            (Statement, "copy t from stdin;"),
            (CopyData, "\n1\nit's\n\\.\n"),
            (Statement, "select 1;"),
        ],
    ),
    (
        "space, semicolon and command",
        " ;\\dt",
        &[(Gap, " "), (Statement, ";"), (Command, "\\dt")],
    ),
    (
        "no data at the end of the script",
        "copy t from stdin;",
        &[(Statement, "copy t from stdin;")],
    ),
    (
        "no marker on the line of the semicolon",
        "copy t from stdin;\\.",
        &[(Statement, "copy t from stdin;"), (CopyData, "\\.")],
    ),
    (
        "STDIN inside parentheses",
        "copy (select a from stdin) to stdout;x",
        &[
            (Statement, "copy (select a from stdin) to stdout;"),
            (Statement, "x"),
        ],
    ),
    (
        "uppercase with options",
        "COPY t (a, b) FROM STDIN WITH (FORMAT csv);\n1,2\n\\.\n;",
        &[
            (Statement, "COPY t (a, b) FROM STDIN WITH (FORMAT csv);"),
            (CopyData, "\n1,2\n\\.\n"),
            (Statement, ";"),
        ],
    ),
    (
        "comment between FROM and STDIN",
        "copy t from /* a */ stdin;\nx\n\\.\n-- b\n",
        &[
            (Statement, "copy t from /* a */ stdin;"),
            (CopyData, "\nx\n\\.\n"),
            (Gap, "-- b"),
            (Gap, "\n"),
        ],
    ),
    (
        "psql command instead of the semicolon",
        "copy t from stdin \\g\nselect 1;",
        &[
            (Statement, "copy t from stdin \\g"),
            (Gap, "\n"),
            (Statement, "select 1;"),
        ],
    ),
    (
        "backslash and semicolon",
        "copy t from stdin\\;\n\\.\nx;",
        &[
            (Statement, "copy t from stdin\\;"),
            (CopyData, "\n\\.\n"),
            (Statement, "x;"),
        ],
    ),
    (
        "FROM a file",
        "copy t from 'stdin';\n\\.\n",
        &[
            (Statement, "copy t from 'stdin';"),
            (Gap, "\n"),
            (Command, "\\."),
            (Gap, "\n"),
        ],
    ),
    (
        "data without a marker",
        "copy t from stdin;\nit's\n",
        &[(Statement, "copy t from stdin;"), (CopyData, "\nit's\n")],
    ),
    (
        "two COPY statements",
        "copy a from stdin;\n1\n\\.\ncopy b from stdin;\r\n2\r\n\\.\r\n",
        &[
            (Statement, "copy a from stdin;"),
            (CopyData, "\n1\n\\.\n"),
            (Statement, "copy b from stdin;"),
            (CopyData, "\r\n2\r\n\\.\r\n"),
        ],
    ),
    (
        "byte order mark at the start",
        "\u{feff} x",
        &[(Gap, "\u{feff}"), (Gap, " "), (Statement, "x")],
    ),
    (
        "byte order mark after data",
        "copy t from stdin;\n\\.\n\u{feff} x",
        &[
            (Statement, "copy t from stdin;"),
            (CopyData, "\n\\.\n"),
            (Statement, "\u{feff} x"),
        ],
    ),
    (
        "data with a quote that the next statement closes",
        "copy t from stdin;\nit's\n\\.\nselect 'a', 1; x;",
        &[
            (Statement, "copy t from stdin;"),
            (CopyData, "\nit's\n\\.\n"),
            (Statement, "select 'a', 1;"),
            (Gap, " "),
            (Statement, "x;"),
        ],
    ),
    (
        "data with a comment that is not closed",
        "copy t from stdin;\n/* 1\n\\.\nselect 1;\n-- */\nx;",
        &[
            (Statement, "copy t from stdin;"),
            (CopyData, "\n/* 1\n\\.\n"),
            (Statement, "select 1;"),
            (Gap, "\n"),
            (Gap, "-- */"),
            (Gap, "\n"),
            (Statement, "x;"),
        ],
    ),
    (
        "data that ends in white space",
        "copy t from stdin;\n\\.\n \n x",
        &[
            (Statement, "copy t from stdin;"),
            (CopyData, "\n\\.\n"),
            (Gap, " \n "),
            (Statement, "x"),
        ],
    ),
    (
        "data that ends in a quoted name",
        "copy t from stdin;\n\"\n\\.\n a \";\" b",
        &[
            (Statement, "copy t from stdin;"),
            (CopyData, "\n\"\n\\.\n"),
            (Gap, " "),
            (Statement, "a \";\" b"),
        ],
    ),
    (
        "data up to the end, and a quote in it",
        "copy t from stdin;\r\nit's\r\n\\.",
        &[
            (Statement, "copy t from stdin;"),
            (CopyData, "\r\nit's\r\n\\."),
        ],
    ),
    (
        "quote after a backslash",
        "select 'a\\';'",
        &[(Statement, "select 'a\\';"), (Statement, "'")],
    ),
    (
        "statement without an end",
        "select 1 -- a\n",
        &[
            (Statement, "select 1"),
            (Gap, " "),
            (Gap, "-- a"),
            (Gap, "\n"),
        ],
    ),
    (
        "parenthesis that closes nothing",
        "copy t ) from stdin;\n\\.\nx",
        &[
            (Statement, "copy t ) from stdin;"),
            (CopyData, "\n\\.\n"),
            (Statement, "x"),
        ],
    ),
    (
        "parenthesis that is not closed",
        "copy ( t from stdin;\n\\.\nx",
        &[
            (Statement, "copy ( t from stdin;"),
            (Gap, "\n"),
            (Command, "\\."),
            (Gap, "\n"),
            (Statement, "x"),
        ],
    ),
];

// The same, where a semicolon between parentheses ends no statement.
const GROUPED: &[(&str, &str, &[(PieceKind, &str)])] = &[
    (
        "semicolons inside parentheses",
        "select (a;b);\ncopy (c;d) from stdin;\n\\.\n",
        &[
            (Statement, "select (a;b);"),
            (Gap, "\n"),
            (Statement, "copy (c;d) from stdin;"),
            (CopyData, "\n\\.\n"),
        ],
    ),
    (
        "parenthesis that is not closed",
        "copy ( t from stdin;\n\\.\nx",
        &[(Statement, "copy ( t from stdin;\n\\.\nx")],
    ),
];

// Scripts and their pieces where a backslash escapes the next character of a plain string.
const BACKSLASH: &[(&str, &str, &[(PieceKind, &str)])] = &[(
    "quote after a backslash",
    "select 'a\\';'",
    &[(Statement, "select 'a\\';'")],
)];

// Compares the pieces of a script with those of a row.
fn check_pieces(
    rt: &impl Abort,
    alloc: Global,
    pieces: &Pieces,
    row: (&str, &str, &[(PieceKind, &str)]),
) -> Result<(), Fail> {
    let (name, script, expected) = row;
    let mut found = Vec::new(alloc);
    for piece in pieces.pieces() {
        let (start, end) = (piece.start as usize, piece.end as usize);
        assert!(rt; start <= end);
        assert!(rt; script.is_char_boundary(start) && script.is_char_boundary(end));
        found.push((piece.kind, &script[start..end]))?;
    }
    assert_eq!(rt; found.as_slice(), expected, "{name}");
    Ok(())
}

// Splits each script by itself, and by the tokens that were cut of it before.
fn check_scripts(
    rt: &impl Abort,
    alloc: Global,
    strings: Strings,
    division: Division,
    rows: &[(&str, &str, &[(PieceKind, &str)])],
) -> Result<(), Fail> {
    for &(name, script, expected) in rows {
        let row = (name, script, expected);
        let pieces = split(alloc, script, strings, division)?;
        check_pieces(rt, alloc, &pieces, row)?;
        let lexed = LexedStr::new_in(alloc, script, strings)?;
        let pieces = split_lexed(alloc, &lexed, strings, division)?;
        check_pieces(rt, alloc, &pieces, row)?;
    }
    Ok(())
}

#[test]
fn splits_scripts(rt: HostRuntime) -> Result<(), Fail> {
    check_scripts(&rt, rt.alloc(), Strings::Standard, Division::Flat, SCRIPTS)
}

#[test]
fn splits_scripts_by_the_setting_of_strings(rt: HostRuntime) -> Result<(), Fail> {
    check_scripts(
        &rt,
        rt.alloc(),
        Strings::Backslash,
        Division::Flat,
        BACKSLASH,
    )
}

#[test]
fn splits_scripts_with_groups(rt: HostRuntime) -> Result<(), Fail> {
    check_scripts(
        &rt,
        rt.alloc(),
        Strings::Standard,
        Division::Grouped,
        GROUPED,
    )
}
