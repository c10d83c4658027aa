//! The children of the text after an edit.
ghost use Rattle.std.specs.Prelude.{◌≡◌, ◌+◌, ◌<◌, ◌≤◌, ◌^◌, IfOk, IfErr, IfSome, length, option_map};
ghost use Rattle.squawk_cut.specs.Children.{children_of};
ghost use Rattle.squawk_cut.specs.Tokens.{tokens_of};
ghost use Rattle.squawk_document.specs.Boundaries.{new_offset, splice, IsRange};
ghost use Rattle.squawk_document.specs.ChildEdit.{back_child_index, IsChildEdit};
ghost use Rattle.squawk_document.specs.EditedChildren.{child_counts_of};
ghost use Rattle.squawk_document.specs.EditedTokens.{front_tokens as front_tokens_of, meeting as meeting_of};
ghost use Rattle.squawk_document.specs.FrontPart.{AreFrontChildren};
ghost use Rattle.squawk_document.specs.TokenEdit.{BeginsWithFront};
ghost use Rattle.squawk_events.specs.Refusals.{IsOutOfMemory};

use crate::edited::ChildCounts;
use crate::front::FrontPart;
use crate::reparse::parse_to_return;
use squawk_cut::{Child, Front, FrontError, Token};
use std::alloc::Global;

// Parsed children, and the number of old children before the return.
#[derive(Drop)]
pub(crate) struct ChildEdit {
    pub(crate) children: Vec<Child>,
    pub(crate) back_index: usize,
}

// The new offset of the meeting.
fn meeting_in_new(meeting: Option<usize>, start: usize, end: usize, new: &str) -> Option<usize>
    requires small { length new.now + start < 2 ^ 33 }
    requires past { IfSome meeting (λ m. (end ≤ m) × (m < 2 ^ 32)) }
    ensures { result ≡ option_map (new_offset start end new.now) meeting }
{
    match meeting {
        None => None,
        Some(m) => Some(m - end + start + new.len()),
    }
}

// The number of old children before the return; without a return, of all.
fn back_index(children: &[Child], back: Option<usize>) -> usize
    ensures { result ≡ back_child_index children.now back }
{
    match back {
        None => children.len(),
        Some(index) => index,
    }
}

// Parses the children between the front children and the return.
pub(crate) fn edit_children<F: Front>(
    alloc: Global,
    front: &mut F,
    text: &str,
    children: &[Child],
    new_text: &str,
    new_tokens: &[Token],
    start: usize,
    end: usize,
    new: &str,
    part: FrontPart,
    meeting: Option<usize>,
) -> Result<ChildEdit, FrontError>
    requires range { IsRange text.now start end }
    requires small { length text.now < 2 ^ 32 }
    requires new_small { length new_text.now < 2 ^ 32 }
    requires new_text_is { new_text.now ≡ splice text.now start end new.now }
    requires new_tokens { new_tokens.now
        ≡ tokens_of (F.tells front.old) (splice text.now start end new.now) }
    requires children { children.now ≡ children_of (F.tells front.old) text.now }
    requires begins { BeginsWithFront (tokens_of (F.tells front.old) text.now) new_tokens.now start
        part.tokens_end }
    requires front { AreFrontChildren children.now part.tokens_end.offset part.children }
    requires meeting { meeting_of start end new.now (tokens_of (F.tells front.old) text.now)
        new_tokens.now ≡ meeting }
    ensures children { IfOk result (λ r. IsChildEdit (F.tells front.old) text.now start end new.now
        (tokens_of (F.tells front.old) text.now) new_tokens.now part.tokens_end.index children.now
        part.children.len r.children.items r.back_index) }
    ensures refusals { IfErr result IsOutOfMemory }
    ensures tells { F.tells front.new ≡ F.tells front.old }
    ensures steps { IfOk result (λ r.
        F.count front.new ≤ F.count front.old + length r.children.items) }
{
    let m = meeting_in_new(meeting, start, end, new);
    let new_end = start + new.len();
    let parsed = parse_to_return(
        alloc,
        front,
        new_text,
        new_tokens,
        children,
        part.children,
        new_end,
        end,
        m,
    )?;
    let back = back_index(children, parsed.back);
    Ok(ChildEdit {
        children: parsed.children,
        back_index: back,
    })
}
