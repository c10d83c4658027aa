//! The text after an edit, and its tokens.
ghost use Rattle.std.specs.Prelude.{◌≡◌, ◌+◌, ◌-◌, ◌<◌, ◌≤◌, ◌^◌, ◌++◌, IfOk, IfSome, OnOk, length, take, drop, option_map};
ghost use Rattle.std.specs.String.{string_bytes};
ghost use Rattle.squawk_cut.specs.Tokens.{tokens_of};
ghost use Rattle.squawk_document.specs.Boundaries.{total_len, splice, IsRange};
ghost use Rattle.squawk_document.specs.EditedTokens.{token_counts_of, meeting};
ghost use Rattle.squawk_document.specs.FrontPart.{IsFrontEnd};
ghost use Rattle.squawk_document.specs.TokenEdit.{back_index, back_len, BeginsWithFront};

use crate::edited::TokenCounts;
use crate::recut::cut_to_meeting;
use crate::skip::Position;
use squawk_cut::{Front, Token};
use std::alloc::{AllocError, Global};

// The text after an edit, the tokens that were cut for it, the index of the first back token, the
// counts, and the offset of the meeting in the old text.
#[derive(Drop)]
pub(crate) struct TokenEdit {
    pub(crate) text: String,
    pub(crate) tokens: Vec<Token>,
    pub(crate) back_index: usize,
    pub(crate) counts: TokenCounts,
    pub(crate) meeting: Option<usize>,
}

// The text in which a range is replaced, in a buffer of its size.
fn splice(
    alloc: Global,
    text: &str,
    start: usize,
    end: usize,
    new: &str,
) -> Result<String, AllocError>
    requires range { IsRange text.now start end }
    requires small { length (splice text.now start end new.now) < 2 ^ 32 }
    ensures { IfOk result (λ s. string_bytes s ≡ splice text.now start end new.now) }
{
    let mut new_text = String::with_capacity(alloc, text.len() - (end - start) + new.len())?;
    new_text.push_str(&text[..start])?;
    new_text.push_str(new)?;
    new_text.push_str(&text[end..])?;
    Ok(new_text)
}

// The index of the first back token.
fn back_index(old: &[Token], front_len: usize, meeting: Option<Position>) -> usize
    requires front { front_len ≤ length old.now }
    requires within { IfSome meeting (λ p. p.index ≤ length old.now) }
    requires order { IfSome meeting (λ p. front_len ≤ p.index) }
    ensures value { result ≡ back_index old.now meeting }
    ensures low { front_len ≤ result }
    ensures within { result ≤ length old.now }
{
    match meeting {
        None => old.len(),
        Some(position) => position.index,
    }
}

// The number of back tokens.
fn back_len(old: &[Token], meeting: Option<Position>) -> usize
    requires { IfSome meeting (λ p. p.index ≤ length old.now) }
    ensures { result ≡ back_len old.now meeting }
{
    match meeting {
        None => 0,
        Some(position) => old.len() - position.index,
    }
}

// The offset of a position, if there is one.
fn offset_of(meeting: Option<Position>) -> Option<usize>
    ensures { result ≡ option_map (λ p. p.offset) meeting }
{
    match meeting {
        None => None,
        Some(position) => Some(position.offset),
    }
}

// Makes the text after an edit, and cuts the tokens between the front tokens and the meeting.
pub(crate) fn edit_tokens<F: Front>(
    alloc: Global,
    front: &mut F,
    text: &str,
    old: &[Token],
    from: Position,
    start: usize,
    end: usize,
    new: &str,
) -> Result<TokenEdit, AllocError>
    requires range { IsRange text.now start end }
    requires text_small { length text.now < 2 ^ 32 }
    requires small { length (splice text.now start end new.now) < 2 ^ 32 }
    requires tokens { old.now ≡ tokens_of (F.tells front.old) text.now }
    requires front { IsFrontEnd (take start text.now) old.now from }
    ensures text { IfOk result (λ r. string_bytes r.text ≡ splice text.now start end new.now) }
    ensures tokens { IfOk result (λ r.
        take from.index old.now ++ (r.tokens.items ++ drop r.back_index old.now)
        ≡ tokens_of (F.tells front.old) (splice text.now start end new.now)) }
    ensures front { IfOk result (λ r. r.counts.front_tokens ≡ from.index) }
    ensures cut { IfOk result (λ r. r.counts.cut_tokens ≡ length r.tokens.items) }
    ensures order { IfOk result (λ r. from.index ≤ r.back_index) }
    ensures within { IfOk result (λ r. r.back_index ≤ length old.now) }
    ensures counts { IfOk result (λ r.
        r.counts ≡ token_counts_of (F.tells front.old) text.now start end new.now) }
    ensures begins { IfOk result (λ r. BeginsWithFront old.now
        (tokens_of (F.tells front.old) (splice text.now start end new.now)) start from) }
    ensures meeting { IfOk result (λ r. r.meeting ≡ meeting start end new.now old.now
        (tokens_of (F.tells front.old) (splice text.now start end new.now))) }
    ensures tells { F.tells front.new ≡ F.tells front.old }
    ensures steps { IfOk result (λ r.
        F.count front.new ≤ F.count front.old + r.counts.cut_tokens) }
{
    let new_text = splice(alloc, text, start, end, new)?;
    let new_end = start + new.len();
    let cut = cut_to_meeting(alloc, front, new_text.as_str(), old, from, new_end, end)?;
    let back = back_index(old, from.index, cut.meeting);
    Ok(TokenEdit {
        counts: TokenCounts {
            front_tokens: from.index,
            cut_tokens: cut.tokens.len(),
            back_tokens: back_len(old, cut.meeting),
        },
        text: new_text,
        back_index: back,
        meeting: offset_of(cut.meeting),
        tokens: cut.tokens,
    })
}
