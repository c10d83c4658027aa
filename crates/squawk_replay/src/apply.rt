//! Edits of a document, one after another.
ghost use Rattle.std.specs.Prelude.{◌≡◌, ◌+◌, ◌≤◌, length, IfOk, IfErr, OnOk};
ghost use Rattle.squawk_events.specs.Limit.{limit};
ghost use Rattle.squawk_replay.specs.Replay.{text_after, lines_from, AreRanges, MayRefuseEdits};
ghost use Rattle.squawk_script.specs.Laws.{new_bytes};

use crate::FrontError;
use crate::line::push_edit_line;
use squawk_cut::Front;
use squawk_document::Document;
use squawk_script::Edits;
use std::alloc::Global;

// Edits a document, and returns the lines of the edits.
pub(crate) fn apply_edits<F: Front>(
    alloc: Global,
    document: &mut Document<F>,
    edits: Edits<'_>,
) -> Result<Vec<u8>, FrontError>
    requires short { length document.old.text + new_bytes edits + length edits ≤ limit }
    ensures text { OnOk result (document.new.text ≡ text_after document.old.text edits.entry) }
    ensures lines { IfOk result (λ lines. lines.items
        ≡ lines_from (F.tells document.old.front) 1 document.old.text edits.entry) }
    ensures tells { F.tells document.new.front ≡ F.tells document.old.front }
    ensures ranges { OnOk result (AreRanges document.old.text edits.entry) }
    ensures refusals { IfErr result (MayRefuseEdits document.old.text edits.entry) }
{
    let mut lines = Vec::new(alloc);
    let mut number = 0;
    for edit in edits {
        number += 1;
        let edited = document.edit(edit.start, edit.end, edit.new)?;
        push_edit_line(&mut lines, number, edited)?;
    }
    Ok(lines)
}
