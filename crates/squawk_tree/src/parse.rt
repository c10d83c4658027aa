//! A syntax tree over a text, and the errors in the text.
ghost use Rattle.std.specs.Prelude.{◌≡◌, ◌≤◌, ◌<◌, All, length, map, slice_get, slice_range, IfOk, IfSome, Some};
ghost use Rattle.std.specs.List.{zip};
ghost use Rattle.std.specs.Str.{IsCharBoundary};
ghost use Rattle.squawk_tree.specs.ChildSpans.{child_spans, span_child};
ghost use Rattle.squawk_tree.specs.NodeRanges.{node_ranges, AreNodeStepCounts};
ghost use Rattle.squawk_tree.specs.Ranges.{ranges};
ghost use Rattle.squawk_tree.specs.Steps.{root_children};
ghost use Rattle.squawk_tree.specs.Tree.{Tree, IsTree, IsErrorWithin, IsRangeOf};

use crate::children::ChildSpan;
use crate::spans::{node_steps_before, token_range};
use crate::step_ranges::{StepRanges, step_ranges};
use crate::tables::{Tables, tables_of};
use squawk_events::{ParseError, StrStep};
use std::alloc::{AllocError, Global};
use std::marker::Model;

/// A syntax tree over a text, and the errors in the text.
///
/// The tree is a balanced list of `Enter`, `Token` and `Exit` steps. The ranges of its tokens
/// follow one another from 0 to the end of the text, so no byte of the text is lost. All offsets
/// are in bytes.
#[derive(Drop)]
pub struct Parse {
    steps: Vec<StrStep>,
    // The ranges of the `Enter` and `Exit` steps.
    spans: Vec<(u32, u32)>,
    // For every 64th step, the number of `Enter` and `Exit` steps before it.
    counts: Vec<usize>,
    children: Vec<ChildSpan>,
    errors: Vec<ParseError>,
    len: u32,
}

impl Model for Parse {
    ghost use Rattle.squawk_tree.specs.Tree.{Tree, IsStored};

    ghost Value = { Tree };

    ghost view = { λ p. record { steps = p.steps.items; errors = p.errors.items; len = p.len } };

    ghost invariant = { λ p. IsStored
        (record { steps = p.steps.items; errors = p.errors.items; len = p.len })
        p.spans.items p.counts.items p.children.items };
}

// What a `Parse` is made of: the steps of a tree, the errors in its text, and its length.
#[derive(Drop)]
pub(crate) struct TreeParts {
    pub(crate) steps: Vec<StrStep>,
    pub(crate) errors: Vec<ParseError>,
    pub(crate) len: u32,
    // The number of `Enter` and `Exit` steps, or 0 where it is not known. Only saves memory.
    pub(crate) node_steps: usize,
}

impl Model for TreeParts {
    ghost use Rattle.squawk_tree.specs.Tree.{Tree, IsTree};

    ghost Value = { Tree };

    ghost view = { λ p. record { steps = p.steps.items; errors = p.errors.items; len = p.len } };

    ghost invariant = { λ p. IsTree
        (record { steps = p.steps.items; errors = p.errors.items; len = p.len }) };
}

impl Parse {
    // The parse that is made of these parts.
    pub(crate) fn new(alloc: Global, parts: TreeParts) -> Result<Parse, AllocError>
        ensures { IfOk result (λ parse. parse ≡ parts) }
    {
        let tables = tables_of(alloc, &parts.steps, parts.node_steps)?;
        Ok(Parse::with_tables(parts, tables))
    }

    // The parse that is made of these parts and their tables.
    pub(crate) fn with_tables(parts: TreeParts, tables: Tables) -> Parse
        requires spans { tables.spans.items ≡ node_ranges parts.steps }
        requires counts { AreNodeStepCounts parts.steps tables.counts.items }
        requires children { tables.children.items ≡ child_spans parts.steps }
        ensures { result ≡ parts }
    {
        let TreeParts {
            steps,
            errors,
            len,
            ..
        } = parts;
        let Tables {
            spans,
            counts,
            children,
        } = tables;
        Parse {
            steps,
            spans,
            counts,
            children,
            errors,
            len,
        }
    }

    /// The length of the text in bytes.
    ///
    /// The clause `tree` holds for every parse: the steps are balanced, no `Error` is among them,
    /// the tokens cover the text from 0 to `len`, and each error lies in the text and has a number
    /// from 1 to 10.
    pub fn len(&self) -> u32
        ensures len { result ≡ self.now.len }
        ensures tree { IsTree self.now }
    {
        self.len
    }

    /// The steps of the tree, in order. No `Error` is among them.
    pub fn steps(&self) -> &[StrStep]
        ensures { result.now ≡ self.now.steps }
    {
        &self.steps
    }

    /// The errors in the text. Each has a number from 1 to 10 and lies in the text. In a parse that
    /// the calls of this crate made they are in the order of the tokens, and at each token first
    /// come those of the grammar, then the token's faults by number; a `TreeSink` keeps the order
    /// in which they were pushed.
    pub fn errors(&self) -> &[ParseError]
        ensures errors { result.now ≡ self.now.errors }
        ensures within { All (IsErrorWithin self.now.len) result.now }
    {
        &self.errors
    }

    /// The children of the root, in order: the leaves and nodes directly inside the first `Enter`.
    pub fn children(&self) -> &[ChildSpan]
        ensures spans { result.now ≡ child_spans self.now.steps }
        ensures children { map span_child result.now ≡ root_children self.now.steps }
    {
        &self.children
    }

    // The range of a step in bytes. It does not end before its start.
    fn span(&self, i: usize) -> (u32, u32)
        requires { i < length self.now.steps }
        ensures range { slice_get (ranges self.now.steps) i ≡ Some result }
        ensures ordered { result.0 ≤ result.1 }
    {
        match token_range(self.steps[i]) {
            Some(range) => range,
            None => self.spans[node_steps_before(&self.counts, &self.steps, i)],
        }
    }

    /// The range of a step in bytes, end exclusive: for a `Token` that of the token, for an `Enter`
    /// and its `Exit` that of the node. `i` is the index of the step, below the number of steps.
    /// Takes constant time.
    ///
    /// A node begins where the last token before its `Enter` ends, and ends where the last token
    /// before its `Exit` does. Before the first token that offset is 0.
    pub fn range(&self, i: usize) -> (u32, u32)
        requires { i < length self.now.steps }
        ensures { slice_get (ranges self.now.steps) i ≡ Some result }
    {
        self.span(i)
    }

    /// The steps of the tree in order, each with its `range`.
    pub fn steps_with_ranges(&self) -> StepRanges<'_>
        ensures steps { result ≡ zip self.now.steps (ranges self.now.steps) }
        ensures count { length result ≡ length self.now.steps }
    {
        step_ranges(&self.steps, &self.spans)
    }

    /// The part of `text` in the range of step `i`, which is below the number of steps. `text` is
    /// the text of the parse, or any other in which both ends of the range are character
    /// boundaries. Takes constant time.
    pub fn text<'a>(&self, text: &'a str, i: usize) -> &'a str
        requires step { i < length self.now.steps }
        requires range { IfSome (slice_get (ranges self.now.steps) i) (IsRangeOf text.now) }
        ensures { IfSome (slice_get (ranges self.now.steps) i)
            (λ range. result.now ≡ slice_range text.now range.0 range.1) }
    {
        let (start, end) = self.span(i);
        &text[start as usize..end as usize]
    }
}
