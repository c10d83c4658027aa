//! Edits made from a seed, each compared with a new document of the text after it.
use super::{same_document, same_parse};
use crate::Document;
use squawk_cut::{Division, Front, PlainFront, Strings};
use squawk_tree::parse_divided;
use std::alloc::Global;
use std::test::Fail;

// The next number of a linear congruential generator.
fn next(seed: u64) -> u64 {
    seed.wrapping_mul(6364136223846793005)
        .wrapping_add(1442695040888963407)
}

// A number below n, or 0 if n is 0.
fn below(seed: u64, n: usize) -> usize {
    if n == 0 {
        return 0;
    }
    ((seed >> 33) % n as u64) as usize
}

// The last character boundary at or before an offset.
fn boundary_before(text: &str, at: usize) -> usize {
    let mut at = at;
    for _ in 0..4 {
        if text.is_char_boundary(at) {
            break;
        }
        at = at.saturating_sub(1);
    }
    at
}

const PIECES: &[&str] = &[
    "",
    ";",
    "'",
    "\"",
    "(",
    ")",
    "--",
    "\n",
    "/*",
    "*/",
    "$$",
    "$a$",
    "1e+",
    "5",
    "é",
    "select ",
    "a",
    " ",
    "\\g",
    "\\dt ",
    "\\",
    "E'",
    "\u{feff}",
    "; insert into t values (1); ",
];

const EDITS: usize = 50;

// Makes edits of a document, each of a range of at most eight bytes or so.
fn edit_from_seed(
    alloc: Global,
    strings: Strings,
    division: Division,
    seed: u64,
) -> Result<bool, Fail> {
    let text = "select 1; update t set a = 'b'; -- c\ncreate table u (v int); ";
    let front = PlainFront::new_divided(strings, division);
    let mut document = Document::new(alloc, front, text).ok().ok_or("no memory")?;
    let mut seed = seed;
    for _ in 0..EDITS {
        seed = next(seed);
        let len = document.text().len();
        let start = boundary_before(document.text(), below(seed, len.saturating_add(1)));
        seed = next(seed);
        let far = start.saturating_add(below(seed, 9)).min(len);
        let end = boundary_before(document.text(), far).max(start);
        seed = next(seed);
        let piece = PIECES[below(seed, PIECES.len()).min(PIECES.len() - 1)];
        let edited = document.edit(start, end, piece).ok().ok_or("no memory")?;
        let front = PlainFront::new_divided(strings, division);
        let new = Document::new(alloc, front, document.text())
            .ok()
            .ok_or("no memory")?;
        let kept = edited.front_tokens.saturating_add(edited.back_tokens);
        let all = kept.saturating_add(edited.cut_tokens);
        if !same_document(&document, &new) || all != new.tokens().len() {
            return Ok(false);
        }
    }
    let parse = document.parse(alloc).ok().ok_or("no memory")?;
    let whole = parse_divided(alloc, document.text(), strings, division);
    Ok(same_parse(&parse, &whole.ok().ok_or("no memory")?))
}

#[test]
fn edits_from_seeds(rt: HostRuntime) -> Result<(), Fail> {
    let alloc = rt.alloc();
    assert!(rt; edit_from_seed(alloc, Strings::Standard, Division::Flat, 1)?);
    assert!(rt; edit_from_seed(alloc, Strings::Standard, Division::Grouped, 2)?);
    assert!(rt; edit_from_seed(alloc, Strings::Backslash, Division::Flat, 3)?);
    assert!(rt; edit_from_seed(alloc, Strings::Backslash, Division::Grouped, 4)?);
    Ok(())
}
