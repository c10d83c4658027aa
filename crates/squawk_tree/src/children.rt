//! The children of a tree's root, listed in one pass over its steps.
ghost use Rattle.std.specs.Prelude.{◌≡◌, ◌<◌, [], IfOk, IsTrue, drop};
ghost use Rattle.squawk_tree.specs.ChildSpans.{child_spans, child_spans_from, node_tokens};
ghost use Rattle.squawk_tree.specs.Ranges.{node_end};
ghost use Rattle.squawk_tree.specs.Steps.{closes, is_balanced};

use squawk_events::StrStep;
use squawk_kinds::SyntaxKind;
use std::alloc::{AllocError, Global};

/// A child of the root: a leaf, or a node with all of its descendants.
#[derive(Clone, Copy, Debug, PartialEq, Eq)]
pub struct ChildSpan {
    /// The index of its first step.
    pub step: usize,
    /// The number of its `Token` steps: 1 for a leaf.
    pub tokens: usize,
    /// The offset of its first byte.
    pub start: u32,
    /// The offset after its last byte.
    pub end: u32,
    /// The kind of its node; `None` for a leaf.
    pub node: Option<SyntaxKind>,
}

// What `find_exit` finds: the number of the node's tokens, the offset after its last byte, and the
// index of the step after its `Exit`.
struct NodeExit {
    tokens: usize,
    end: u32,
    next: usize,
}

// Returns where a child of the root ends. Its `Enter` is the step before `first`, at the offset
// `start`.
fn find_exit(steps: &[StrStep], first: usize, start: u32) -> NodeExit
    requires open { IsTrue (closes 2 (drop first steps.now)) }
    ensures tokens { result.tokens ≡ node_tokens 0 (drop first steps.now) }
    ensures end { result.end ≡ node_end 0 start (drop first steps.now) }
    ensures forward { first < result.next }
    ensures closes { IsTrue (closes 1 (drop result.next steps.now)) }
    ensures children { child_spans_from 0 result.next result.end (drop result.next steps.now)
        ≡ child_spans_from 1 first start (drop first steps.now) }
{
    // The number of nodes that are open inside it.
    let mut depth = 0usize;
    let (mut tokens, mut at, mut i) = (0, start, first);
    loop {
        match steps[i] {
            StrStep::Enter { .. } => depth += 1,
            StrStep::Token { end, .. } => {
                tokens += 1;
                at = end;
            }
            StrStep::Exit if depth > 0 => depth -= 1,
            StrStep::Exit => {
                return NodeExit {
                    tokens,
                    end: at,
                    next: i + 1,
                };
            }
            StrStep::Error { .. } => {}
        }
        i += 1;
    }
}

// An empty list of children with room for this many. If that much memory cannot be had, it grows as
// needed.
fn children_with_room(alloc: Global, room: usize) -> Vec<ChildSpan>
    ensures { result.items ≡ [] }
{
    let mut children = Vec::new(alloc);
    let _ = children.reserve(room);
    children
}

// The root's children, in a list that has room for `room` of them from the start.
pub(crate) fn child_spans(
    alloc: Global,
    steps: &[StrStep],
    room: usize,
) -> Result<Vec<ChildSpan>, AllocError>
    requires { IsTrue (is_balanced steps.now) }
    ensures { IfOk result (λ children. children.items ≡ child_spans steps.now) }
{
    let mut children = children_with_room(alloc, room);
    // The first step enters the root.
    let (mut i, mut at) = (1, 0);
    loop {
        match steps[i] {
            StrStep::Enter { kind } => {
                let NodeExit { tokens, end, next } = find_exit(steps, i + 1, at);
                children.push(ChildSpan {
                    step: i,
                    tokens,
                    start: at,
                    end,
                    node: Some(kind),
                })?;
                at = end;
                i = next;
            }
            StrStep::Token { start, end, .. } => {
                children.push(ChildSpan {
                    step: i,
                    tokens: 1,
                    start,
                    end,
                    node: None,
                })?;
                at = end;
                i += 1;
            }
            StrStep::Exit => return Ok(children),
            StrStep::Error { .. } => i += 1,
        }
    }
}
