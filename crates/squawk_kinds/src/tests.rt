//! Numbers, printed texts and the order of some kinds.
use super::*;
use std::alloc::AllocError;

#[test]
fn kinds_have_numbers_and_texts(rt: HostRuntime) -> Result<(), AllocError> {
    let table = [
        ("TOMBSTONE", SyntaxKind::TOMBSTONE, 0, "tombstone"),
        ("EOF", SyntaxKind::EOF, 1, "end of file"),
        ("DOLLAR", SyntaxKind::DOLLAR, 2, "`$`"),
        ("SEMICOLON", SyntaxKind::SEMICOLON, 3, "`;`"),
        ("NULL_KW", SyntaxKind::NULL_KW, 325, "`null`"),
        ("SELECT_KW", SyntaxKind::SELECT_KW, 430, "`select`"),
        ("NULL", SyntaxKind::NULL, 606, "`null`"),
        ("SELECT", SyntaxKind::SELECT, 1794, "select"),
        ("__LAST", SyntaxKind::__LAST, 2067, "last"),
    ];
    for (row, kind, number, text) in table {
        assert_eq!(rt; kind.to_raw(), number, "number of {row}");
        assert_eq!(rt; SyntaxKind::from_raw(number), Some(kind), "kind of {row}");
        assert_eq!(rt; kind.name(), text, "name of {row}");
        assert_eq!(rt;
            format!(in rt.alloc(); "{kind}")?.as_str(),
            text,
            "display of {row}"
        );
    }
    assert_eq!(rt; SyntaxKind::from_raw(COUNT), None, "past the last kind");
    assert_eq!(rt; SyntaxKind::from_raw(u16::MAX), None, "the largest number");
    Ok(())
}

#[test]
fn kinds_are_ordered_by_number(rt: HostRuntime) {
    kinds_compare_as_numbers();
    clones_are_equal();
    assert!(rt; SyntaxKind::EOF < SyntaxKind::SELECT_KW);
    assert!(rt; SyntaxKind::SELECT_KW < SyntaxKind::SELECT);
    assert!(rt;
        SyntaxKind::NULL_KW != SyntaxKind::NULL,
        "kinds of one text differ"
    );
}

#[test]
fn constants_are_in_order(rt: HostRuntime) {
    let numbers = order::numbers();
    assert_eq!(rt; numbers.len(), COUNT as usize);
    for i in 0..numbers.len() {
        assert_eq!(rt; numbers[i] as usize, i);
    }
}
