//! Edits the text, the tokens and the children of a document in place.
ghost use Rattle.std.specs.Prelude.{◌≡◌, ◌+◌, ◌-◌, ◌<◌, ◌≤◌, ◌^◌, ◌++◌, IfOk, IfErr, OnOk, OnErr, length, take, drop, vec_capacity};
ghost use Rattle.std.specs.String.{string_bytes};
ghost use Rattle.squawk_cut.specs.Children.{children_of};
ghost use Rattle.squawk_cut.specs.Tokens.{tokens_of};
ghost use Rattle.squawk_document.specs.Boundaries.{splice, IsRange};
ghost use Rattle.squawk_document.specs.Edited.{edited_of};
ghost use Rattle.squawk_document.specs.EditedChildren.{child_counts_of};
ghost use Rattle.squawk_document.specs.EditedTokens.{front_tokens as front_tokens_of, meeting as meeting_of};
ghost use Rattle.squawk_document.specs.FrontPart.{AreFrontChildren};
ghost use Rattle.squawk_document.specs.TokenEdit.{BeginsWithFront};
ghost use Rattle.squawk_events.specs.Refusals.{IsOutOfMemory};

use crate::Edited;
use crate::child_edit::edit_children;
use crate::edited::{ChildCounts, both_counts};
use crate::front::{FrontPart, find_front};
use crate::replace::replace_range;
use crate::token_edit::edit_tokens;
use squawk_cut::{Child, Front, FrontError, Token};
use std::alloc::{AllocError, Global};

// Replaces the tokens from `start` up to `end`, and returns them. There is room to put them back.
fn replace_tokens(
    alloc: Global,
    tokens: &mut Vec<Token>,
    start: usize,
    end: usize,
    with: Vec<Token>,
) -> Result<Vec<Token>, AllocError>
    requires low { start ≤ end }
    requires within { end ≤ length tokens.old.items }
    ensures items { OnOk result (tokens.new.items
        ≡ take start tokens.old.items ++ (with.items ++ drop end tokens.old.items)) }
    ensures old { IfOk result (λ old.
        old.items ≡ take (end - start) (drop start tokens.old.items)) }
    ensures room { IfOk result (λ old.
        length tokens.new.items + length old.items ≤ vec_capacity tokens.new) }
    ensures err { OnErr result (tokens.new.items ≡ tokens.old.items) }
{
    let mut old = Vec::with_capacity(alloc, end - start)?;
    old.extend_from_slice(&tokens[start..end])?;
    tokens.try_reserve(with.len())?;
    replace_range(tokens, start, end, with);
    Ok(old)
}

// Replaces the children that an edit changes, once the tokens are those of the new text. This is
// the last step that can fail; it leaves the children unchanged then.
fn update_children<F: Front>(
    alloc: Global,
    front: &mut F,
    text: &str,
    children: &mut Vec<Child>,
    new_text: &str,
    new_tokens: &[Token],
    start: usize,
    end: usize,
    new: &str,
    part: FrontPart,
    meeting: Option<usize>,
) -> Result<ChildCounts, FrontError>
    requires range { IsRange text.now start end }
    requires small { length text.now < 2 ^ 32 }
    requires new_small { length new_text.now < 2 ^ 32 }
    requires new_text_is { new_text.now ≡ splice text.now start end new.now }
    requires new_tokens { new_tokens.now
        ≡ tokens_of (F.tells front.old) (splice text.now start end new.now) }
    requires children { children.old.items ≡ children_of (F.tells front.old) text.now }
    requires begins { BeginsWithFront (tokens_of (F.tells front.old) text.now) new_tokens.now start
        part.tokens_end }
    requires front { AreFrontChildren children.old.items part.tokens_end.offset part.children }
    requires meeting { meeting_of start end new.now (tokens_of (F.tells front.old) text.now)
        new_tokens.now ≡ meeting }
    requires count { part.tokens_end.index
        ≡ front_tokens_of text.now start (tokens_of (F.tells front.old) text.now) }
    ensures children { OnOk result (children.new.items
        ≡ children_of (F.tells front.old) (splice text.now start end new.now)) }
    ensures counts { IfOk result (λ n.
        n ≡ child_counts_of (F.tells front.old) text.now start end new.now) }
    ensures refusals { IfErr result IsOutOfMemory }
    ensures err { OnErr result (children.new.items ≡ children.old.items) }
    ensures tells { F.tells front.new ≡ F.tells front.old }
    ensures steps { IfOk result (λ n.
        F.count front.new ≤ F.count front.old + n.parsed_children) }
{
    let edit = edit_children(
        alloc, front, text, children, new_text, new_tokens, start, end, new, part, meeting,
    )?;
    let counts = ChildCounts {
        front_children: part.children.len,
        parsed_children: edit.children.len(),
        back_children: children.len() - edit.back_index,
    };
    children.try_reserve(edit.children.len())?;
    replace_range(children, part.children.len, edit.back_index, edit.children);
    Ok(counts)
}

// The text after an edit, and the counts.
#[derive(Drop)]
pub(crate) struct Update {
    pub(crate) text: String,
    pub(crate) edited: Edited,
}

// Makes the text after an edit, and replaces the tokens and children that the edit changes. If
// memory runs out, both stay as they were.
pub(crate) fn edit_in_place<F: Front>(
    alloc: Global,
    front: &mut F,
    text: &str,
    tokens: &mut Vec<Token>,
    children: &mut Vec<Child>,
    start: usize,
    end: usize,
    new: &str,
) -> Result<Update, FrontError>
    requires range { IsRange text.now start end }
    requires text_small { length text.now < 2 ^ 32 }
    requires small { length (splice text.now start end new.now) < 2 ^ 32 }
    requires tokens { tokens.old.items ≡ tokens_of (F.tells front.old) text.now }
    requires children { children.old.items ≡ children_of (F.tells front.old) text.now }
    ensures text { IfOk result (λ r. string_bytes r.text ≡ splice text.now start end new.now) }
    ensures tokens { OnOk result (tokens.new.items
        ≡ tokens_of (F.tells front.old) (splice text.now start end new.now)) }
    ensures children { OnOk result (children.new.items
        ≡ children_of (F.tells front.old) (splice text.now start end new.now)) }
    ensures edited { IfOk result (λ r.
        r.edited ≡ edited_of (F.tells front.old) text.now start end new.now) }
    ensures old_tokens { OnErr result (tokens.new.items ≡ tokens.old.items) }
    ensures old_children { OnErr result (children.new.items ≡ children.old.items) }
    ensures refusals { IfErr result IsOutOfMemory }
    ensures tells { F.tells front.new ≡ F.tells front.old }
    ensures steps { IfOk result (λ r.
        F.count front.new ≤ F.count front.old + r.edited.cut_tokens + r.edited.parsed_children) }
{
    let part = find_front(&text[..start], tokens, children);
    let from = part.tokens_end;
    let edit = edit_tokens(alloc, front, text, tokens, from, start, end, new)?;
    let cut = edit.counts.cut_tokens;
    let old = replace_tokens(alloc, tokens, from.index, edit.back_index, edit.tokens)?;
    match update_children(
        alloc,
        front,
        text,
        children,
        edit.text.as_str(),
        tokens,
        start,
        end,
        new,
        part,
        edit.meeting,
    ) {
        Ok(counts) => Ok(Update {
            text: edit.text,
            edited: both_counts(edit.counts, counts),
        }),
        Err(error) => {
            replace_range(tokens, from.index, from.index + cut, old);
            Err(error)
        }
    }
}
