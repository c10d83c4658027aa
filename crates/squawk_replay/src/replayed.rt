//! Scripts that are applied to the empty document.
ghost use Rattle.std.specs.Prelude.{◌≡◌, ◌≤◌, [], length, IfOk, IfErr, OnOk};
ghost use Rattle.squawk_cut.specs.PlainTells.{plain_tells};
ghost use Rattle.squawk_events.specs.Limit.{limit};
ghost use Rattle.squawk_lexer.specs.declared.token.Strings.TheVariants.{Standard};
ghost use Rattle.squawk_replay.specs.Replay.{front_tells, last_text, edit_lines, AreRanges, MayRefuseReplay};
ghost use Rattle.squawk_script.specs.Script.{records};
ghost use Rattle.squawk_statements.specs.declared.division.Division.TheVariants.{Flat};

use crate::FrontError;
use crate::apply::apply_edits;
use squawk_cut::{Division, PlainFront, Strings};
use squawk_document::Document;
use squawk_script::Script;
use squawk_script::laws::new_texts_are_short;
use std::alloc::Global;

/// A document after the edits of a script, with a line for each of them.
#[derive(Drop)]
pub struct Replayed {
    /// The document after the last edit.
    pub document: Document<PlainFront>,
    /// The lines of the edits in order, each with its LF: `edit K: tokens A+B+C children D+E+F`.
    /// `K` counts from 1, and the other numbers are the counts of
    /// [`Edited`](squawk_document::Edited) in the order of its fields.
    pub lines: Vec<u8>,
}

/// `replay_in` with `Strings::Standard` and `Division::Flat`: a backslash in a plain string is an
/// ordinary character, and each semicolon ends a statement.
pub fn replay(alloc: Global, script: &Script<'_>) -> Result<Replayed, FrontError>
    requires short { length script.now ≤ limit }
    ensures text { IfOk result (λ replayed.
        replayed.document.text ≡ last_text (records script.now)) }
    ensures lines { IfOk result (λ replayed.
        replayed.lines.items ≡ edit_lines (plain_tells Standard Flat) (records script.now)) }
    ensures tells { IfOk result (λ replayed.
        front_tells replayed.document.front ≡ plain_tells Standard Flat) }
    ensures ranges { OnOk result (AreRanges [] (records script.now)) }
    ensures refusals { IfErr result (MayRefuseReplay (records script.now)) }
{
    replay_in(alloc, script, Strings::Standard, Division::Flat)
}

/// Applies the edits of a script in order, the first to the empty text. `strings` says how plain
/// strings are read, and `division` whether a semicolon between parentheses ends a statement.
///
/// The script must have at most `LIMIT` bytes; then no edit makes a text that is too long.
///
/// # Errors
///
/// [`FrontError::BadRange`] if the range of an edit is not one of the text that the edit meets: its
/// start is above its end, or one of them is no character boundary. The first such edit ends the
/// call. [`FrontError::OutOfMemory`] if memory runs out.
pub fn replay_in(
    alloc: Global,
    script: &Script<'_>,
    strings: Strings,
    division: Division,
) -> Result<Replayed, FrontError>
    requires short { length script.now ≤ limit }
    ensures text { IfOk result (λ replayed.
        replayed.document.text ≡ last_text (records script.now)) }
    ensures lines { IfOk result (λ replayed.
        replayed.lines.items ≡ edit_lines (plain_tells strings division) (records script.now)) }
    ensures tells { IfOk result (λ replayed.
        front_tells replayed.document.front ≡ plain_tells strings division) }
    ensures ranges { OnOk result (AreRanges [] (records script.now)) }
    ensures refusals { IfErr result (MayRefuseReplay (records script.now)) }
{
    new_texts_are_short();
    let front = PlainFront::new_divided(strings, division);
    let mut document = Document::new(alloc, front, "")?;
    let lines = apply_edits(alloc, &mut document, script.edits())?;
    Ok(Replayed { document, lines })
}
