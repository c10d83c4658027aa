//! Worked examples of scripts.
use crate::{BadScript, Script};
use std::test::Fail;

// Name, script, and its edits: start, end and new text.
const SCRIPTS: &[(&str, &str, &[(usize, usize, &str)])] = &[
    ("empty script", "", &[]),
    (
        "two edits",
        "@0 0 9\nselect 1;\n@7 8 1\n2\n",
        &[(0, 0, "select 1;"), (7, 8, "2")],
    ),
    ("empty text", "@3 2 0\n\n", &[(3, 2, "")]),
    (
        "text like a record",
        "@0 0 8\n@0 1 0\n\n\n@1 1 1\n;\n",
        &[(0, 0, "@0 1 0\n\n"), (1, 1, ";")],
    ),
    (
        "leading zeros and the largest number",
        "@0000000007 4294967295 00\n\n",
        &[(7, 4294967295, "")],
    ),
    ("text of one character", "@0 0 2\né\n", &[(0, 0, "é")]),
];

// Name, text, and the offset of its first bad record.
const BAD_SCRIPTS: &[(&str, &str, usize)] = &[
    ("no record", "select 1;", 0),
    ("text too short", "@0 0 3\nab", 0),
    ("text too long", "@0 0 1\n;\n@0 1 0\nx\n", 9),
    ("end of the script in place of LF", "@0 0 1\n;", 0),
    ("end of the text in a character", "@0 0 1\né\n", 0),
    ("no number", "@ 0 0\n\n", 0),
    ("eleven digits", "@0 00000000000 0\n\n", 0),
    ("number too large", "@0 0 4294967296\n\n", 0),
    ("sign", "@+1 1 0\n\n", 0),
    ("two spaces", "@0  0 0\n\n", 0),
    ("CR and LF", "@0 0 0\r\n\r\n", 0),
    ("line alone", "@0 0 0\n\n@0 0 0\n", 8),
    ("empty line between records", "@0 0 0\n\n\n@0 0 0\n\n", 8),
];

#[test]
fn reads_scripts(rt: HostRuntime) -> Result<(), Fail> {
    for &(name, text, edits) in SCRIPTS {
        let mut k = 0;
        match Script::new(text) {
            Ok(script) => {
                assert_eq!(rt; script.text(), text, "{name}");
                for edit in script.edits() {
                    assert!(rt; k < edits.len(), "{name}");
                    assert_eq!(rt; (edit.start, edit.end, edit.new), edits[k], "{name}");
                    k += 1;
                }
            }
            Err(e) => assert!(rt; false, "{name}: bad at {}", e.at),
        }
        assert_eq!(rt; k, edits.len(), "{name}");
    }
    Ok(())
}

#[test]
fn refuses_bad_scripts(rt: HostRuntime) -> Result<(), Fail> {
    for &(name, text, at) in BAD_SCRIPTS {
        match Script::new(text) {
            Ok(_) => assert!(rt; false, "{name}"),
            Err(e) => assert_eq!(rt; e, BadScript { at }, "{name}"),
        }
    }
    Ok(())
}
