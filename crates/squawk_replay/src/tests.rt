//! Worked examples of scripts that are applied to the empty document.
use crate::{FrontError, replay};
use squawk_script::Script;
use std::alloc::Global;
use std::test::Fail;

// Name, script, the last text, and the lines of the edits.
const ROWS: &[(&str, &str, &str, &str)] = &[
    ("empty script", "", "", ""),
    (
        "replay_script",
        "@0 0 9\nselect 1;\n@7 8 1\n2\n",
        "select 2;",
        "edit 1: tokens 0+4+0 children 0+1+0\nedit 2: tokens 0+3+1 children 0+1+0\n",
    ),
    (
        "all is removed",
        "@0 0 1\n;\n@0 1 0\n\n",
        "",
        "edit 1: tokens 0+1+0 children 0+1+0\nedit 2: tokens 0+0+0 children 0+0+0\n",
    ),
    (
        "edit_in_the_middle",
        "@0 0 29\nselect 1; select 2; select 3;\n@17 18 2\n22\n",
        "select 1; select 22; select 3;",
        "edit 1: tokens 0+14+0 children 0+5+0\nedit 2: tokens 5+3+6 children 2+1+2\n",
    ),
    (
        "numbers of two digits",
        "@0 0 0\n\n@0 0 0\n\n@0 0 0\n\n@0 0 0\n\n@0 0 0\n\n@0 0 0\n\n\
         @0 0 0\n\n@0 0 0\n\n@0 0 0\n\n@0 0 1\n;\n",
        ";",
        "edit 1: tokens 0+0+0 children 0+0+0\nedit 2: tokens 0+0+0 children 0+0+0\n\
         edit 3: tokens 0+0+0 children 0+0+0\nedit 4: tokens 0+0+0 children 0+0+0\n\
         edit 5: tokens 0+0+0 children 0+0+0\nedit 6: tokens 0+0+0 children 0+0+0\n\
         edit 7: tokens 0+0+0 children 0+0+0\nedit 8: tokens 0+0+0 children 0+0+0\n\
         edit 9: tokens 0+0+0 children 0+0+0\nedit 10: tokens 0+1+0 children 0+1+0\n",
    ),
];

// Name, and a script in which the range of an edit is not one of the text that it meets.
const BAD_RANGES: &[(&str, &str)] = &[
    ("past the end of the empty text", "@0 1 0\n\n"),
    ("past the end of the second text", "@0 0 1\n;\n@2 2 0\n\n"),
    ("end before start", "@0 0 2\nab\n@2 1 0\n\n"),
    ("in a character", "@0 0 2\né\n@1 1 1\nx\n"),
    (
        "range of the text before",
        "@0 0 2\nab\n@0 2 0\n\n@0 2 0\n\n",
    ),
];

#[test]
fn applies_scripts(rt: HostRuntime) -> Result<(), Fail> {
    for &(name, script, text, lines) in ROWS {
        match Script::new(script) {
            Ok(script) => match replay(rt.alloc(), &script) {
                Ok(done) => {
                    assert_eq!(rt; done.document.text(), text, "{name}");
                    assert_eq!(rt; done.lines.as_slice(), lines.as_bytes(), "{name}");
                }
                Err(e) => assert!(rt; false, "{name}: {e}"),
            },
            Err(e) => assert!(rt; false, "{name}: bad at {}", e.at),
        }
    }
    Ok(())
}

#[test]
fn refuses_bad_ranges(rt: HostRuntime) -> Result<(), Fail> {
    for &(name, script) in BAD_RANGES {
        match Script::new(script) {
            Ok(script) => match replay(rt.alloc(), &script) {
                Ok(_) => assert!(rt; false, "{name}"),
                Err(e) => assert_eq!(rt; e, FrontError::BadRange, "{name}"),
            },
            Err(e) => assert!(rt; false, "{name}: bad at {}", e.at),
        }
    }
    Ok(())
}
