//! Parsing children from an offset on, until they return to old ones.
ghost use Rattle.std.specs.Prelude.{◌≡◌, ◌+◌, ◌-◌, ◌<◌, ◌≤◌, ◌^◌, ◌==◌, ◌&&◌, IfOk, IfErr, IfSome, length, take, true};
ghost use Rattle.squawk_cut.specs.Join.{child_bytes};
ghost use Rattle.squawk_cut.specs.Tokens.{tokens_of};
ghost use Rattle.squawk_document.specs.Boundaries.{total_len};
ghost use Rattle.squawk_document.specs.ChildEdit.{is_new_return, IsReparse};
ghost use Rattle.squawk_document.specs.FrontPart.{AllClosed};
ghost use Rattle.squawk_events.specs.Refusals.{IsOutOfMemory};

use crate::recut::Search;
use crate::skip::{FrontChildren, Position, both, skip_children};
use squawk_cut::{Child, Front, FrontError, Token};
use std::alloc::Global;

// Parsed children, and the number of old children before the return, if there is one.
#[derive(Drop)]
pub(crate) struct ParsedChildren {
    pub(crate) children: Vec<Child>,
    pub(crate) back: Option<usize>,
}

// Skips old children from a position on up to the old offset of `at`, and returns whether the
// children may return there. The replacing bytes end at `new_end`, the replaced ones at `end`;
// `meeting` is the new offset of the meeting.
fn find_return(
    old: &[Child],
    from: Position,
    at: usize,
    new_end: usize,
    end: usize,
    meeting: Option<usize>,
) -> Search
    requires at_small { at < 2 ^ 32 }
    requires end_small { end < 2 ^ 32 }
    requires meeting { IfSome meeting (λ m. (new_end ≤ m) × (0 < m - new_end + end)) }
    requires within { from.index ≤ length old.now }
    requires offset { from.offset ≡ child_bytes (take from.index old.now) }
    requires closed { AllClosed (take from.index old.now) }
    requires low { from.offset ≤ at - new_end + end }
    ensures found { result.found ≡ is_new_return new_end end meeting old.now at }
    ensures within { result.position.index ≤ length old.now }
    ensures offset { result.position.offset ≡ child_bytes (take result.position.index old.now) }
    ensures closed { AllClosed (take result.position.index old.now) }
    ensures low { result.position.offset ≤ at - new_end + end }
    ensures same { result.found ≡ true → result.position.offset ≡ at - new_end + end }
{
    match meeting {
        None => Search {
            found: false,
            position: from,
        },
        Some(meeting) => {
            if at < meeting {
                return Search {
                    found: false,
                    position: from,
                };
            }
            let target = at - new_end + end;
            let position = skip_children(old, from, target);
            Search {
                found: position.offset == target,
                position,
            }
        }
    }
}

// Parses the children of a text after its front children, up to the return.
pub(crate) fn parse_to_return<F: Front>(
    alloc: Global,
    front: &mut F,
    text: &str,
    tokens: &[Token],
    old: &[Child],
    from: FrontChildren,
    new_end: usize,
    end: usize,
    meeting: Option<usize>,
) -> Result<ParsedChildren, FrontError>
    requires small { length text.now < 2 ^ 32 }
    requires tokens { tokens.now ≡ tokens_of (F.tells front.old) text.now }
    requires end_small { end < 2 ^ 32 }
    requires meeting { IfSome meeting (λ m. (new_end ≤ m) × (0 < m - new_end + end)) }
    requires index { from.end.offset ≡ total_len (take from.end.index tokens.now) }
    requires index_within { from.end.index ≤ length tokens.now }
    requires within { from.len ≤ length old.now }
    requires offset { from.end.offset ≡ child_bytes (take from.len old.now) }
    requires closed { AllClosed (take from.len old.now) }
    requires low { from.end.offset ≤ end }
    ensures children { IfOk result (λ r. IsReparse (F.tells front.old) text.now tokens.now old.now
        from.end new_end end meeting r.children.items r.back) }
    ensures refusals { IfErr result IsOutOfMemory }
    ensures tells { F.tells front.new ≡ F.tells front.old }
    ensures steps { IfOk result (λ r.
        F.count front.new ≤ F.count front.old + length r.children.items) }
{
    let mut children = Vec::new(alloc);
    let mut at = from.end.offset;
    let mut i = from.end.index;
    let mut position = Position {
        index: from.len,
        offset: from.end.offset,
    };
    let mut only_closed = true;
    while i < tokens.len() {
        let child = front.parse_next(alloc, text, at, &tokens[i..])?;
        at += child.bytes() as usize;
        i += child.tokens();
        only_closed = both(only_closed, child.closed());
        children.push(child)?;
        let search = find_return(old, position, at, new_end, end, meeting);
        if both(only_closed, search.found) {
            return Ok(ParsedChildren {
                children,
                back: Some(search.position.index),
            });
        }
        position = search.position;
    }
    Ok(ParsedChildren {
        children,
        back: None,
    })
}
