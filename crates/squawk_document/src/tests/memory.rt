//! Edits without memory. `scripts/refuse_memory.py` runs this test and refuses each growth of its
//! memory in turn; a run without a refused growth sees all edits succeed.
use super::same_document;
use crate::{Document, FrontError};
use squawk_cut::PlainFront;
use std::alloc::{AllocError, Global};
use std::process::Abort;
use std::test::Fail;

// An edit of a document, and the text after it.
#[derive(Clone, Copy)]
struct Row<'a> {
    name: &'a str,
    text: &'a str,
    start: usize,
    end: usize,
    new: &'a str,
    after: &'a str,
}

const ROWS: &[Row<'static>] = &[
    Row {
        name: "empty_text_grows",
        text: "",
        start: 0,
        end: 0,
        new: "select 1; /* a */ select 2",
        after: "select 1; /* a */ select 2",
    },
    Row {
        name: "edit_in_the_middle",
        text: "select 1; select 2; select 3;",
        start: 17,
        end: 18,
        new: "22",
        after: "select 1; select 22; select 3;",
    },
    Row {
        name: "quote_opens",
        text: "select 1; select 'a'; \\dt\n",
        start: 0,
        end: 0,
        new: "'",
        after: "'select 1; select 'a'; \\dt\n",
    },
    Row {
        name: "comment_closes",
        text: "/* (a; (b; c) select 1; ) d;",
        start: 2,
        end: 2,
        new: "*/",
        after: "/**/ (a; (b; c) select 1; ) d;",
    },
    Row {
        name: "all_removed",
        text: "select 1; e",
        start: 0,
        end: 11,
        new: "",
        after: "",
    },
];

// A document of a text; `None` without memory for it.
fn document_of(
    rt: &impl Abort,
    alloc: Global,
    text: &str,
) -> Result<Option<Document<PlainFront>>, Fail> {
    match Document::new(alloc, PlainFront::new(), text) {
        Ok(document) => Ok(Some(document)),
        Err(error) => {
            assert_eq!(rt; error, FrontError::OutOfMemory);
            Ok(None)
        }
    }
}

// Checks an edit of a document. If it is refused, the document is what it was before, and otherwise
// a document of the text after the edit.
fn check_edit(rt: &impl Abort, alloc: Global, row: &Row<'_>) -> Result<(), Fail> {
    let Some(before) = document_of(rt, alloc, row.text)? else {
        return Ok(());
    };
    let Some(mut document) = document_of(rt, alloc, row.text)? else {
        return Ok(());
    };
    match document.edit(row.start, row.end, row.new) {
        Ok(_) => {
            assert_eq!(rt; document.text(), row.after, "{}", row.name);
            if let Some(after) = document_of(rt, alloc, row.after)? {
                assert!(rt; same_document(&document, &after), "{}", row.name);
            }
        }
        Err(error) => {
            assert_eq!(rt; error, FrontError::OutOfMemory, "{}", row.name);
            assert!(rt; same_document(&document, &before), "{}", row.name);
        }
    }
    Ok(())
}

// Ten statements of 103 tokens each and a line feed after it, and then one more statement.
fn long_text(alloc: Global, last: &str) -> Result<String, AllocError> {
    let mut text = String::new(alloc);
    for i in 0..330u32 {
        match i % 33 {
            0 => text.push_str("insert into t values (")?,
            32 => text.push_str("2);\n")?,
            _ => text.push_str("1, ")?,
        }
    }
    text.push_str(last)?;
    Ok(text)
}

#[test]
fn refused_edits_change_nothing(rt: HostRuntime) -> Result<(), Fail> {
    for row in ROWS {
        check_edit(&rt, rt.alloc(), row)?;
    }
    let Ok(text) = long_text(rt.alloc(), "select 1") else {
        return Ok(());
    };
    let Ok(after) = long_text(rt.alloc(), "select 1, 2") else {
        return Ok(());
    };
    let end = text.as_str().len();
    let row = Row {
        name: "long_text_grows",
        text: text.as_str(),
        start: end,
        end,
        new: ", 2",
        after: after.as_str(),
    };
    check_edit(&rt, rt.alloc(), &row)
}
