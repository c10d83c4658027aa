//! Cutting tokens from an offset on, until they meet old ones.
ghost use Rattle.std.specs.Prelude.{◌≡◌, ◌+◌, ◌-◌, ◌<◌, ◌≤◌, ◌^◌, ◌==◌, IfOk, IfSome, OnOk, length, take, true};
ghost use Rattle.std.specs.Str.{IsCharBoundary};
ghost use Rattle.squawk_document.specs.Boundaries.{total_len};
ghost use Rattle.squawk_document.specs.Recut.{is_new_meeting, IsRecut};

use crate::skip::{Position, both, skip_tokens};
use squawk_cut::{Front, Token};
use std::alloc::{AllocError, Global};

// Cut tokens, and the position of the old token after the meeting, if there is one.
#[derive(Drop)]
pub(crate) struct CutTokens {
    pub(crate) tokens: Vec<Token>,
    pub(crate) meeting: Option<Position>,
}

// How far old tokens or children are skipped, and whether the texts meet there.
#[derive(Clone, Copy)]
pub(crate) struct Search {
    pub(crate) found: bool,
    pub(crate) position: Position,
}

// Skips old tokens from a position on up to the old offset of `at`, and returns whether the texts
// may meet there. The replacing bytes end at `new_end`, the replaced ones at `end`.
fn find_boundary(old: &[Token], from: Position, at: usize, new_end: usize, end: usize) -> Search
    requires small { total_len old.now < 2 ^ 32 }
    requires at_small { at < 2 ^ 32 }
    requires end_small { end < 2 ^ 32 }
    requires within { from.index ≤ length old.now }
    requires offset { from.offset ≡ total_len (take from.index old.now) }
    requires low { from.offset ≤ at - new_end + end }
    ensures found { result.found ≡ is_new_meeting new_end end old.now at }
    ensures order { from.index ≤ result.position.index }
    ensures within { result.position.index ≤ length old.now }
    ensures offset { result.position.offset ≡ total_len (take result.position.index old.now) }
    ensures low { result.position.offset ≤ at - new_end + end }
    ensures same { result.found ≡ true → result.position.offset ≡ at - new_end + end }
{
    if at < new_end {
        return Search {
            found: false,
            position: from,
        };
    }
    let target = at - new_end + end;
    let position = skip_tokens(old, from, target);
    Search {
        found: both(0 < target, position.offset == target),
        position,
    }
}

// Cuts the tokens of a text from an offset on, up to the meeting. The old tokens up to that offset
// are the same; the position is that of the old token that begins there.
pub(crate) fn cut_to_meeting<F: Front>(
    alloc: Global,
    front: &mut F,
    text: &str,
    old: &[Token],
    from: Position,
    new_end: usize,
    end: usize,
) -> Result<CutTokens, AllocError>
    requires small { length text.now < 2 ^ 32 }
    requires old_small { total_len old.now < 2 ^ 32 }
    requires end_small { end < 2 ^ 32 }
    requires boundary { IsCharBoundary text.now from.offset }
    requires within { from.index ≤ length old.now }
    requires offset { from.offset ≡ total_len (take from.index old.now) }
    requires low { from.offset ≤ end }
    ensures tokens { IfOk result (λ r. IsRecut (F.tells front.old) text.now old.now from.offset
        new_end end r.tokens.items r.meeting) }
    ensures offset { IfOk result (λ r. IfSome r.meeting (λ p.
        p.offset ≡ total_len (take p.index old.now))) }
    ensures order { IfOk result (λ r. IfSome r.meeting (λ p. from.index ≤ p.index)) }
    ensures tells { F.tells front.new ≡ F.tells front.old }
    ensures steps { IfOk result (λ r.
        F.count front.new ≤ F.count front.old + length r.tokens.items) }
{
    let mut tokens = Vec::new(alloc);
    let mut at = from.offset;
    let mut position = from;
    while at < text.len() {
        let token = front.cut_next(text, at);
        tokens.push(token)?;
        at += token.len as usize;
        let search = find_boundary(old, position, at, new_end, end);
        if search.found {
            return Ok(CutTokens {
                tokens,
                meeting: Some(search.position),
            });
        }
        position = search.position;
    }
    Ok(CutTokens {
        tokens,
        meeting: None,
    })
}
