//! The lines of a report, at depths and with numbers of each length.
use crate::block::Block;
use crate::digits::{DigitTables, Number};
use crate::line::push_line;
use crate::{MemorySink, ReportMemory, write_report};
use squawk_kinds::SyntaxKind;
use squawk_tree::parse_source;
use std::alloc::Global;
use std::process::Abort;
use std::test::Fail;

// A leaf: its line, and the line of an empty range at its end.
struct Row<'a> {
    name: &'a str,
    depth: usize,
    kind: SyntaxKind,
    range: (u32, u32),
    line: &'a str,
    next_line: &'a str,
}

const ROWS: [Row; 12] = [
    Row {
        name: "zeros",
        depth: 0,
        kind: SyntaxKind::SEMICOLON,
        range: (0, 0),
        line: "0 T `;` 0..0\n",
        next_line: "0 T `;` 0..0\n",
    },
    Row {
        name: "depth_nine",
        depth: 9,
        kind: SyntaxKind::SEMICOLON,
        range: (9, 10),
        line: "9 T `;` 9..10\n",
        next_line: "9 T `;` 10..10\n",
    },
    Row {
        name: "depth_ten",
        depth: 10,
        kind: SyntaxKind::SEMICOLON,
        range: (99, 100),
        line: "10 T `;` 99..100\n",
        next_line: "10 T `;` 100..100\n",
    },
    Row {
        name: "depth_ninety_nine",
        depth: 99,
        kind: SyntaxKind::SEMICOLON,
        range: (999, 1000),
        line: "99 T `;` 999..1000\n",
        next_line: "99 T `;` 1000..1000\n",
    },
    Row {
        name: "depth_hundred",
        depth: 100,
        kind: SyntaxKind::SEMICOLON,
        range: (9999, 10_000),
        line: "100 T `;` 9999..10000\n",
        next_line: "100 T `;` 10000..10000\n",
    },
    Row {
        name: "depth_thousand",
        depth: 1000,
        kind: SyntaxKind::SEMICOLON,
        range: (99_999_999, 100_000_000),
        line: "1000 T `;` 99999999..100000000\n",
        next_line: "1000 T `;` 100000000..100000000\n",
    },
    Row {
        name: "zeros_in_each_group",
        depth: 20_000,
        kind: SyntaxKind::SEMICOLON,
        range: (1_000_010_000, 1_000_010_002),
        line: "20000 T `;` 1000010000..1000010002\n",
        next_line: "20000 T `;` 1000010002..1000010002\n",
    },
    Row {
        name: "largest_number",
        depth: 9_999_999_999,
        kind: SyntaxKind::SEMICOLON,
        range: (4_294_967_294, 4_294_967_295),
        line: "9999999999 T `;` 4294967294..4294967295\n",
        next_line: "9999999999 T `;` 4294967295..4294967295\n",
    },
    Row {
        name: "too_deep_for_a_window",
        depth: 10_000_000_000,
        kind: SyntaxKind::SEMICOLON,
        range: (3, 4),
        line: "10000000000 T `;` 3..4\n",
        next_line: "10000000000 T `;` 4..4\n",
    },
    Row {
        name: "longest_text_in_a_window",
        depth: 7,
        kind: SyntaxKind::PUBLICATION_OBJECT_TABLES_IN_SCHEMA,
        range: (1_000_000_000, 4_294_967_295),
        line: "7 T publication object tables in schema 1000000000..4294967295\n",
        next_line: "7 T publication object tables in schema 4294967295..4294967295\n",
    },
    Row {
        name: "longest_text",
        depth: 7,
        kind: SyntaxKind::PLPGSQL_COMP_OPTION_PRINT_STRICT_PARAMS,
        range: (1, 2),
        line: "7 T plpgsql comp option print strict params 1..2\n",
        next_line: "7 T plpgsql comp option print strict params 2..2\n",
    },
    Row {
        name: "kind_without_window",
        depth: 12,
        kind: SyntaxKind::TOMBSTONE,
        range: (1, 2),
        line: "12 T tombstone 1..2\n",
        next_line: "12 T tombstone 2..2\n",
    },
];

// Checks the line of a row, and then the line that starts where this one ends: with tables of
// digits it reuses those of the end.
fn check_row(
    rt: &impl Abort,
    alloc: Global,
    tables: &Option<DigitTables>,
    row: &Row<'_>,
) -> Result<(), Fail> {
    let zero = Number::zero();
    let mut line = Block::new(alloc)?;
    let last = push_line(
        &mut line, tables, zero, row.depth, b'T', row.kind, row.range,
    );
    assert_eq!(rt; line.as_bytes(), row.line.as_bytes(), "{}", row.name);
    let mut next_line = Block::new(alloc)?;
    let range = (row.range.1, row.range.1);
    push_line(
        &mut next_line,
        tables,
        last,
        row.depth,
        b'T',
        row.kind,
        range,
    );
    assert_eq!(rt;
        next_line.as_bytes(),
        row.next_line.as_bytes(),
        "{} next",
        row.name
    );
    Ok(())
}

#[test]
fn writes_depths_and_numbers_of_each_length(rt: HostRuntime) -> Result<(), Fail> {
    let tables = Some(DigitTables::new(rt.alloc())?);
    for row in &ROWS {
        check_row(&rt, rt.alloc(), &tables, row)?;
        check_row(&rt, rt.alloc(), &None, row)?;
    }
    Ok(())
}

// Enough open parentheses that a report takes the tables of digits.
const OPEN_PARENS: u32 = 6000;

#[test]
fn reports_a_deep_tree(rt: HostRuntime) -> Result<(), Fail> {
    let mut text = String::new(rt.alloc());
    let mut expected = String::new(rt.alloc());
    expected.push_str("0 N source file 0..6000\n1 N paren select 0..6000\n")?;
    for i in 0..OPEN_PARENS {
        text.push_str("(")?;
        let (depth, next) = (i + 2, i + 1);
        expected.push_str(&format!(in rt.alloc();
            "{depth} N paren expr {i}..6000\n{} T `(` {i}..{next}\n",
            depth + 1
        )?)?;
    }
    let parse = parse_source(rt.alloc(), &text)?;
    let memory = ReportMemory::new(rt.alloc(), parse.steps().len())?;
    let mut sink = MemorySink::new(rt.alloc(), 1_000_000, 1_000_000, &[])?;
    assert!(rt; write_report(&mut sink, b"", &parse, memory).is_ok());
    assert_eq!(rt; sink.taken(), expected.as_bytes());
    Ok(())
}
