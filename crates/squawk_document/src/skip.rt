//! Skipping old tokens and old children up to an offset.
ghost use Rattle.std.specs.Prelude.{◌≡◌, ◌+◌, ◌-◌, ◌<◌, ◌≤◌, ◌^◌, ◌↔◌, ◌&&◌, IsTrue, length, take, drop, true};
ghost use Rattle.squawk_cut.specs.Join.{child_bytes};
ghost use Rattle.squawk_document.specs.Boundaries.{total_len};
ghost use Rattle.squawk_document.specs.FrontPart.{AllClosed, AreAligned, AreFrontChildren, StopsBefore};

use squawk_cut::{Child, Token};

// An index of a list, and the offset in the text at which the element with that index begins.
#[derive(Clone, Copy)]
pub(crate) struct Position {
    pub(crate) index: usize,
    pub(crate) offset: usize,
}

// The number of closed children at the front of a text, and the position of the token after them.
#[derive(Clone, Copy)]
pub(crate) struct FrontChildren {
    pub(crate) len: usize,
    pub(crate) end: Position,
}

// Skips the tokens from a position on that end at the target or before.
#[tactic(auto, using(crate::proofs::Skipping::total_steps))]
pub(crate) fn skip_tokens(tokens: &[Token], from: Position, target: usize) -> Position
    requires small { total_len tokens.now < 2 ^ 32 }
    requires within { from.index ≤ length tokens.now }
    requires offset { from.offset ≡ total_len (take from.index tokens.now) }
    requires low { from.offset ≤ target }
    ensures order { from.index ≤ result.index }
    ensures past { from.offset ≤ result.offset }
    ensures within { result.index ≤ length tokens.now }
    ensures offset { result.offset ≡ total_len (take result.index tokens.now) }
    ensures low { result.offset ≤ target }
    ensures last { result.index < length tokens.now
        → target < total_len (take (result.index + 1) tokens.now) }
{
    let mut i = from.index;
    let mut at = from.offset;
    while i < tokens.len() && at + tokens[i].len as usize <= target {
        at += tokens[i].len as usize;
        i += 1;
    }
    Position {
        index: i,
        offset: at,
    }
}

// Whether both are true. A call, unlike `&&`, does not branch, which keeps proofs short.
pub(crate) fn both(a: bool, b: bool) -> bool
    ensures { result ≡ (a && b) }
{
    a && b
}

// Whether a child is closed and has at most so many bytes.
fn fits(child: &Child, room: usize) -> bool
    ensures { IsTrue result ↔ ((child.now.closed ≡ true) × (child.now.bytes ≤ room)) }
{
    child.closed() && child.bytes() as usize <= room
}

// Skips the closed children from a position on that end at the target or before.
#[tactic(auto, using(crate::proofs::ChildSkipping::skipping_steps))]
pub(crate) fn skip_children(children: &[Child], from: Position, target: usize) -> Position
    requires within { from.index ≤ length children.now }
    requires offset { from.offset ≡ child_bytes (take from.index children.now) }
    requires closed { AllClosed (take from.index children.now) }
    requires low { from.offset ≤ target }
    ensures within { result.index ≤ length children.now }
    ensures offset { result.offset ≡ child_bytes (take result.index children.now) }
    ensures closed { AllClosed (take result.index children.now) }
    ensures low { result.offset ≤ target }
    ensures stopped { StopsBefore (drop result.index children.now) (target - result.offset) }
{
    let mut i = from.index;
    let mut at = from.offset;
    while i < children.len() && fits(&children[i], target - at) {
        at += children[i].bytes() as usize;
        i += 1;
    }
    Position {
        index: i,
        offset: at,
    }
}

// Skips the closed children at the front that end at the target or before, and counts their tokens.
#[tactic(auto, using(crate::proofs::ChildSkipping::front_steps))]
pub(crate) fn skip_front_children(
    children: &[Child],
    tokens: &[Token],
    target: usize,
) -> FrontChildren
    requires aligned { AreAligned tokens.now children.now }
    ensures { AreFrontChildren children.now target result }
{
    let mut i = 0;
    let mut index = 0;
    let mut at = 0;
    while i < children.len() && fits(&children[i], target - at) {
        index += children[i].tokens();
        at += children[i].bytes() as usize;
        i += 1;
    }
    FrontChildren {
        len: i,
        end: Position { index, offset: at },
    }
}
