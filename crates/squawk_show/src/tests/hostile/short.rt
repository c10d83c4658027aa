//! Short texts: each is parsed at once, and by a document that takes its characters one by one.
use super::{READINGS, empty_document, same_parse, whole_parse};
use crate::Reading;
use squawk_cut::PlainFront;
use squawk_document::Document;
use std::alloc::Global;
use std::process::Abort;
use std::test::Fail;

// Puts a character into a document at an offset.
fn put(
    alloc: Global,
    document: &mut Document<PlainFront>,
    at: usize,
    character: char,
) -> Result<(), Fail> {
    let mut piece = String::new(alloc);
    piece.push(character)?;
    document.edit(at, at, piece.as_str()).ok().ok_or("refused")?;
    Ok(())
}

// Whether the parse of a document is that of its text.
fn is_parse_of_text(
    alloc: Global,
    document: &Document<PlainFront>,
    reading: Reading,
) -> Result<bool, Fail> {
    let parse = document.parse(alloc).ok().ok_or("no memory")?;
    let whole = whole_parse(alloc, document.text(), reading)?;
    Ok(same_parse(&parse, &whole))
}

// Whether a document that takes the characters of a text one by one, at its end, has the parse of
// the text; and whether one that takes them at its start has the parse of what it holds then.
fn parses_by_characters(alloc: Global, text: &str, reading: Reading) -> Result<bool, Fail> {
    let mut forward = empty_document(alloc, reading)?;
    let mut backward = empty_document(alloc, reading)?;
    for character in text.chars() {
        let end = forward.text().len();
        put(alloc, &mut forward, end, character)?;
        put(alloc, &mut backward, 0, character)?;
    }
    let same = is_parse_of_text(alloc, &forward, reading)?;
    let same_reversed = is_parse_of_text(alloc, &backward, reading)?;
    Ok(forward.text() == text && same && same_reversed)
}

// Checks a text in each reading.
fn check_text(rt: &impl Abort, alloc: Global, text: &str) -> Result<(), Fail> {
    for named in READINGS {
        let same = parses_by_characters(alloc, text, named.reading)?;
        assert!(rt; same, "{text:?}, {}", named.name);
    }
    Ok(())
}

// Checks the texts of an ASCII character and any other.
fn check_pairs(rt: &impl Abort, alloc: Global, first: char) -> Result<(), Fail> {
    for code in 0..128u32 {
        let mut text = String::new(alloc);
        text.push(first)?;
        text.push(char::from_u32(code).ok_or("no character")?)?;
        check_text(rt, alloc, text.as_str())?;
    }
    Ok(())
}

#[test]
fn pairs_of_ascii_characters(rt: HostRuntime) -> Result<(), Fail> {
    for code in 0..128u32 {
        let first = char::from_u32(code).ok_or("no character")?;
        check_pairs(&rt, rt.alloc(), first)?;
    }
    Ok(())
}

// The characters from U+0080 to U+07FF have two bytes.
#[test]
fn characters_of_two_bytes(rt: HostRuntime) -> Result<(), Fail> {
    let alloc = rt.alloc();
    for code in 0x80..0x800u32 {
        let mut text = String::new(alloc);
        text.push(char::from_u32(code).ok_or("no character")?)?;
        assert_eq!(rt; text.as_str().len(), 2);
        check_text(&rt, alloc, text.as_str())?;
    }
    Ok(())
}

// Characters that begin, end or go on in tokens of each form, and some that do so in one form only.
const ALPHABET: &[char] = &[
    '\'', '"', '$', '/', '*', '-', '\\', '(', ')', ';', 'E', 'e', 'U', '&', 'x', 'b', 'N', '0',
    '1', '.', '+', '_', 'a', 'g', '|', '`', ' ', '\n', '\r', '\0', '\u{feff}', 'é', '\u{2028}',
];

// The next number of a linear congruential generator.
fn next(seed: u64) -> u64 {
    seed.wrapping_mul(6364136223846793005)
        .wrapping_add(1442695040888963407)
}

// A character of the alphabet.
fn character_of(seed: u64) -> char {
    let index = ((seed >> 33) % ALPHABET.len() as u64) as usize;
    *ALPHABET.get(index).unwrap_or(&'a')
}

// A text that has so many bytes is cut.
const CUT_LEN: u64 = 16;

// Cuts so many characters into short texts, most of 2 to 7 characters, and checks each.
fn check_from_seed(rt: &impl Abort, alloc: Global, seed: u64, characters: u32) -> Result<(), Fail> {
    let mut seed = seed;
    let mut text = String::new(alloc);
    for _ in 0..characters {
        seed = next(seed);
        text.push(character_of(seed))?;
        if text.len() as u64 >= 1 + (seed >> 17) % CUT_LEN {
            check_text(rt, alloc, text.as_str())?;
            text.clear();
        }
    }
    Ok(())
}

#[test]
fn texts_of_hostile_characters(rt: HostRuntime) -> Result<(), Fail> {
    check_from_seed(&rt, rt.alloc(), 1, 20_000)?;
    check_from_seed(&rt, rt.alloc(), 2, 20_000)
}
