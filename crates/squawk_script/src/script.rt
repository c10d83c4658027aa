//! Scripts of edits.
ghost use Rattle.std.specs.Prelude.{◌≡◌, ◌↔◌, IfOk, IfErr, IsErr};
ghost use Rattle.std.specs.Iterator.{YieldsFirstBy, item_count};
ghost use Rattle.squawk_script.specs.Script.{records, records_len, IsScript};
ghost use Rattle.squawk_script.specs.Models.{edit_value};

use crate::record::{Edit, read_record};
use std::marker::Model;

/// Why a text is no script of edits: at the offset `at`, in bytes, no record begins.
#[derive(Clone, Copy, Debug, PartialEq, Eq)]
pub struct BadScript {
    /// The number of bytes of the records before it.
    pub at: usize,
}

/// A script of edits: a list of records, one after another, possibly none.
///
/// A record is `@`, the start of a range, a space, its end, a space, the length of the new text,
/// LF, the new text and LF. The three numbers are in bytes, each of one to ten decimal digits with
/// a value of at most 4294967295; leading zeros are allowed.
///
/// In contracts, its value is the list of its bytes.
#[derive(Drop)]
pub struct Script<'a> {
    text: &'a str,
}

impl<'a> Model for Script<'a> {
    ghost use Rattle.std.specs.Prelude.{List, ℕ};
    ghost use Rattle.squawk_script.specs.Models.{script_bytes, IsHeldScript};

    ghost Value = { List ℕ };

    ghost view = { script_bytes };

    ghost invariant = { IsHeldScript };
}

/// An iterator over the edits of a script, made by [`Script::edits`].
///
/// Each call of `next` reads one record, and allocates nothing. After the last edit `next` returns
/// `None`, and does so from then on.
///
/// In contracts, its value is the list of the remaining edits.
#[derive(Drop)]
pub struct Edits<'a> {
    rest: &'a str,
}

impl<'a> Model for Edits<'a> {
    ghost use Rattle.std.specs.Prelude.{List};
    ghost use Rattle.squawk_script.specs.Script.{ScriptEdit};
    ghost use Rattle.squawk_script.specs.Models.{edits_left, IsHeldText};

    ghost Value = { List ScriptEdit };

    ghost view = { edits_left };

    ghost invariant = { IsHeldText };
}

// The number of bytes of the records that begin a text.
fn records_len(text: &str) -> usize
    ensures { result ≡ records_len text.now }
{
    let mut at = 0;
    while let Some(record) = read_record(&text[at..]) {
        at += record.len;
    }
    at
}

impl<'a> Script<'a> {
    /// Reads a script.
    ///
    /// # Errors
    ///
    /// [`BadScript`] if the text is not a list of records to its end, with the offset in bytes of
    /// the first bad record: the number of bytes of the records before it.
    pub fn new(text: &'a str) -> Result<Script<'a>, BadScript>
        ensures ok { IfOk result (λ script. script ≡ text.now) }
        ensures bad_script { IsErr result ↔ ¬ IsScript text.now }
        ensures at { IfErr result (λ e. e.at ≡ records_len text.now) }
    {
        let at = records_len(text);
        if at == text.len() {
            Ok(Script { text })
        } else {
            Err(BadScript { at })
        }
    }

    /// Returns the text of the script.
    pub fn text(&self) -> &'a str
        ensures text { result.now ≡ self.now }
        ensures script { IsScript self.now }
    {
        self.text
    }

    /// Returns the edits of the script, in order.
    pub fn edits(&self) -> Edits<'a>
        ensures edits { result ≡ records self.now }
        ensures script { IsScript self.now }
    {
        Edits { rest: self.text }
    }
}

impl<'a> Iterator for Edits<'a> {
    type Item = Edit<'a>;

    ghost next_gives = { YieldsFirstBy edit_value (λ s. s) };

    ghost remaining = { item_count (λ s. s) };

    fn next(&mut self) -> Option<Edit<'a>> {
        let record = read_record(self.rest)?;
        self.rest = &self.rest[record.len..];
        Some(record.edit)
    }
}
