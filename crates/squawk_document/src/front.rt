//! The tokens and children at the front of a text that an edit keeps.
ghost use Rattle.std.specs.Prelude.{◌<◌, ◌^◌};
ghost use Rattle.squawk_document.specs.Boundaries.{total_len};
ghost use Rattle.squawk_document.specs.FrontPart.{AreAligned, AreFrontChildren, IsFrontEnd, IsLastButOne};

use crate::skip::{FrontChildren, Position, skip_front_children, skip_tokens};
use squawk_cut::{Child, Token};

// The position after the front tokens, and the front children.
#[derive(Clone, Copy)]
pub(crate) struct FrontPart {
    pub(crate) tokens_end: Position,
    pub(crate) children: FrontChildren,
}

// The offset of the last but one character.
fn last_but_one(text: &str) -> Option<usize>
    ensures { IsLastButOne text.now result }
{
    let mut chars = text.chars();
    match chars.next_back() {
        None => None,
        Some(_) => match chars.next_back() {
            None => None,
            Some(_) => Some(chars.as_str().len()),
        },
    }
}

// The front tokens are those that end at or before the last but one character before the range of
// the edit, and the front children the closed ones that end there. `before` is the text before the
// range. Most front tokens lie in front children, so these are skipped first.
pub(crate) fn find_front(before: &str, tokens: &[Token], children: &[Child]) -> FrontPart
    requires small { total_len tokens.now < 2 ^ 32 }
    requires aligned { AreAligned tokens.now children.now }
    ensures tokens { IsFrontEnd before.now tokens.now result.tokens_end }
    ensures children { AreFrontChildren children.now result.tokens_end.offset result.children }
{
    match last_but_one(before) {
        None => FrontPart {
            tokens_end: Position {
                index: 0,
                offset: 0,
            },
            children: skip_front_children(children, tokens, 0),
        },
        Some(limit) => {
            let front = skip_front_children(children, tokens, limit);
            FrontPart {
                tokens_end: skip_tokens(tokens, front.end, limit),
                children: front,
            }
        }
    }
}
