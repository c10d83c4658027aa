//! Looks up a word by a perfect hash (`slots.rt`) and one comparison.
ghost use Rattle.std.specs.Prelude.{◌≡◌, ◌↔◌, ◌+◌, ◌<◌, ◌≤◌, ◌%◌, length, slice_index, slice_get, Some, IsNone, IfSome, OnSome, IsTrue};
ghost use Rattle.std.specs.Str.{str_to_ascii_lowercase};
ghost use Rattle.squawk_names.specs.Texts.{texts};
ghost use Rattle.squawk_words.specs.KindOf.{kind_of, HasNoWord, HasWord, backquoted};
ghost use Rattle.squawk_words.specs.WordHash.{HasSlots, slot_of};
ghost use Rattle.squawk_words.specs.WordTable.{IsWordTable, IsSpelled, pairs_of, pairs_in, other_than, word_of};

use crate::tables;
use crate::tables::{Table, Words};
use squawk_kinds::SyntaxKind;

// The length of the shortest words.
const MIN_LEN: usize = 2;

// The numbers of letters are below this, and `slot_starts` has as many for each length.
const LETTERS: usize = 32;

// The number of slots that one start can lead to.
const SPAN: usize = 128;

// The kind of the word of the table that equals `ident` in an ASCII case-insensitive comparison.
#[inline(always)]
pub(crate) fn look_up(table: Table, ident: &str) -> Option<SyntaxKind>
    ensures kind { result ≡ kind_of (pairs_in table) ident.now }
    ensures none { IsNone result ↔ HasNoWord (pairs_in table) ident.now }
    ensures some { IfSome result (HasWord (pairs_in table) ident.now) }
    ensures printed { IfSome result (λ kind. slice_get texts kind ≡ Some (backquoted ident.now)) }
    ensures apart { OnSome result (IsNone (kind_of (pairs_in (other_than table)) ident.now)) }
{
    find(tables::words_in(table), ident.as_bytes())
}

// The same among these words.
#[inline(always)]
fn find(words: Words, ident: &[u8]) -> Option<SyntaxKind>
    requires table { IsWordTable words.kinds.now words.starts.now }
    requires spelled { IsSpelled words.kinds.now words.starts.now words.text.now words.offsets.now }
    requires hashed { HasSlots words.kinds.now words.starts.now words.slot_starts.now
        words.slots.now }
    ensures { result ≡ kind_of (pairs_of words.kinds.now) ident.now }
{
    let len = ident.len();
    if len < MIN_LEN || len + 1 >= words.starts.len() {
        return None;
    }
    let index = index_in_slot(words, ident);
    if index < words.starts[len] as usize || index >= words.starts[len + 1] as usize {
        return None;
    }
    if equals_lowercase(word_at(words, len, index), ident) {
        SyntaxKind::from_raw(words.kinds[index])
    } else {
        None
    }
}

// The index in the slot of a text: that of the only word that can equal the text.
#[inline(always)]
fn index_in_slot(words: Words, ident: &[u8]) -> usize
    requires hashed { HasSlots words.kinds.now words.starts.now words.slot_starts.now
        words.slots.now }
    requires long { 2 ≤ length ident.now }
    requires listed { length ident.now + 1 < length words.starts.now }
    ensures { result ≡ slice_index words.slots.now (slot_of words.slot_starts.now ident.now) }
{
    let len = ident.len();
    let start = words.slot_starts[len * LETTERS + letter(ident[0])] as usize;
    let sum = letter(ident[1])
        + 7 * letter(ident[len / 2])
        + 5 * (letter(ident[len - 2]) + letter(ident[len - 1]));
    words.slots[start + sum % SPAN] as usize
}

// The number of a letter: its place in the alphabet, in uppercase and lowercase alike.
#[inline(always)]
fn letter(byte: u8) -> usize
    ensures value { result ≡ byte % 32 }
    ensures below { result < 32 }
{
    byte as usize % LETTERS
}

// The word at an index of the table; `len` is its length.
#[inline(always)]
fn word_at(words: Words, len: usize, index: usize) -> &'static [u8]
    requires spelled { IsSpelled words.kinds.now words.starts.now words.text.now words.offsets.now }
    requires listed { index < length words.kinds.now }
    requires len { length (word_of (slice_index words.kinds.now index)) ≡ len }
    ensures { result.now ≡ word_of (slice_index words.kinds.now index) }
{
    let start = words.offsets[len] as usize + (index - words.starts[len] as usize) * (len + 1);
    &words.text[start..start + len]
}

// Whether the word is the lowercase form of a text of its length.
#[inline(always)]
fn equals_lowercase(word: &[u8], ident: &[u8]) -> bool
    requires { length word.now ≡ length ident.now }
    ensures { IsTrue result ↔ (word.now ≡ str_to_ascii_lowercase ident.now) }
{
    let mut i = 0;
    while i < word.len() {
        if word[i] != ident[i].to_ascii_lowercase() {
            return false;
        }
        i += 1;
    }
    true
}
