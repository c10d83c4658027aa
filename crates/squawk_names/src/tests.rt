//! Printed texts of some kinds.
use super::*;

#[test]
fn kinds_have_printed_texts(rt: HostRuntime) {
    let table = [
        ("TOMBSTONE, the first kind", 0, Some("tombstone")),
        ("EOF", 1, Some("end of file")),
        ("DOLLAR", 2, Some("`$`")),
        ("NULL_KW", 325, Some("`null`")),
        ("SELECT_KW", 430, Some("`select`")),
        ("NULL, with the text of NULL_KW", 606, Some("`null`")),
        ("LAST", 1273, Some("last")),
        (
            "PLPGSQL_COMP_OPTION_PRINT_STRICT_PARAMS, the longest text",
            1511,
            Some("plpgsql comp option print strict params"),
        ),
        ("__LAST, with the text of LAST", 2067, Some("last")),
        ("past the last kind", 2068, None),
        ("the largest number", u16::MAX, None),
    ];
    for (row, number, text) in table {
        assert_eq!(rt; name(number), text, "{row}");
    }
}

#[test]
fn windows_hold_printed_texts(rt: HostRuntime) {
    for number in 0..COUNT + 1 {
        if let Some((bytes, len)) = name_window(number) {
            assert_eq!(rt;
                Some(&bytes[4..4 + len]),
                name(number).map(|text| text.as_bytes()),
                "window of kind {number}"
            );
        } else {
            assert!(rt; number == 0 || number >= 2065, "no window of kind {number}");
        }
    }
}
