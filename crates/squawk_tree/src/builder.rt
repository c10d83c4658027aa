//! The steps of a tree, and the ranges and counts that are kept beside them, built together.
ghost use Rattle.std.specs.Prelude.{◌≡◌, ◌<◌, ◌*◌, ◌++◌, ◌∷◌, [], List, length, IfOk, OnOk, IfErr};
ghost use Rattle.squawk_events.specs.Refusals.{IsOutOfMemory};
ghost use Rattle.squawk_events.specs.declared.steps.StrStep.{StrStep as Given};
ghost use Rattle.squawk_tree.specs.Built.{end_of_last, AreCountsSoFar, IsBuilt, emitted};
ghost use Rattle.squawk_tree.specs.NodeRanges.{node_step_count, stride};
ghost use Rattle.squawk_tree.specs.Tree.{IsTree};

use crate::children::child_spans;
use crate::parse::{Parse, TreeParts};
use crate::spans::{STRIDE, add_step};
use crate::tables::Tables;
use squawk_events::{FrontError, ParseError, StrStep};
use std::alloc::{AllocError, Global};

// In most SQL there are more tokens for each `Enter` or `Exit`: room is reserved for one such step
// for so many tokens.
const TOKENS_PER_NODE_STEP: usize = 4;

/// A tree while it is built: the steps so far, and the ranges of its nodes with the counts to find
/// them.
///
/// `parse_children` makes it and hands it to a `ChildGrammar`.
// Counts may be missing for the steps after the last `Enter` or `Exit`: up to the next one they are
// all the same, and it appends them.
#[derive(Drop)]
pub struct TreeBuilder {
    pub(crate) steps: Vec<StrStep>,
    // The ranges of the `Enter` and `Exit` steps; those of open nodes are not known yet.
    spans: Vec<(u32, u32)>,
    // The open nodes: the index of the range of its `Enter`, and where it begins.
    open_nodes: Vec<(usize, u32)>,
    // For every 64th step, the number of `Enter` and `Exit` steps before it.
    counts: Vec<usize>,
    // The end of the last token before the last step of a node, or 0.
    end: u32,
}

// Appends the counts that are kept for the first `len` steps and the step after them, if they are
// missing. They are all the number of `Enter` and `Exit` steps among the first `len`.
fn fill_counts(counts: &mut Vec<usize>, len: usize, node_steps: usize) -> Result<(), AllocError>
    ensures so_far { OnOk result ((steps : List Given) → length steps ≡ len
        → node_steps ≡ node_step_count steps → AreCountsSoFar steps counts.old.items
        → AreCountsSoFar steps counts.new.items) }
    ensures enough { OnOk result (len < stride * length counts.new.items) }
{
    while counts.len() <= len / STRIDE {
        counts.push(node_steps)?;
    }
    Ok(())
}

// The end of the last step if that is a `Token`, else the offset `before`.
#[inline(always)]
fn end_of_last(steps: &[StrStep], before: u32) -> u32
    ensures { result ≡ end_of_last before steps.now }
{
    if steps.is_empty() {
        return before;
    }
    let last = steps[steps.len() - 1];
    match last {
        StrStep::Token { end, .. } => end,
        _ => before,
    }
}

impl TreeBuilder {
    // A tree without steps, with room for this many tokens. If that much memory cannot be had, the
    // lists grow as needed.
    pub(crate) fn with_room(alloc: Global, tokens: usize) -> TreeBuilder
        ensures steps { result.steps.items ≡ [] }
        ensures built { IsBuilt result }
    {
        let mut tree = TreeBuilder {
            steps: Vec::new(alloc),
            spans: Vec::new(alloc),
            open_nodes: Vec::new(alloc),
            counts: Vec::new(alloc),
            end: 0,
        };
        let node_steps = tokens / TOKENS_PER_NODE_STEP;
        let steps = tokens.saturating_add(node_steps);
        let _ = tree.steps.reserve(steps);
        let _ = tree.spans.reserve(node_steps);
        let _ = tree.counts.reserve(steps / STRIDE);
        tree
    }

    // Appends a step of a node, and the counts that are missing before it.
    #[inline(always)]
    fn push_node_step(&mut self, step: StrStep) -> Result<(), FrontError>
        requires { IsBuilt self.old }
        ensures steps { OnOk result (self.new.steps.items ≡ self.old.steps.items ++ step ∷ []) }
        ensures built { OnOk result (IsBuilt self.new) }
        ensures refusals { IfErr result IsOutOfMemory }
    {
        fill_counts(&mut self.counts, self.steps.len(), self.spans.len())?;
        let at = end_of_last(&self.steps, self.end);
        // The prover takes a step that is passed twice by reference.
        let next = &step;
        let end = add_step(&mut self.spans, &mut self.open_nodes, at, *next)?;
        self.steps.push(*next)?;
        self.end = end;
        Ok(())
    }

    /// Appends a step. Fails only if memory runs out; what the tree then holds is unspecified.
    #[inline(always)]
    pub fn push(&mut self, step: StrStep) -> Result<(), FrontError>
        requires { IsBuilt self.old }
        ensures steps { OnOk result (emitted self.new ≡ emitted self.old ++ step ∷ []) }
        ensures built { OnOk result (IsBuilt self.new) }
        ensures refusals { IfErr result IsOutOfMemory }
    {
        match step {
            StrStep::Token { .. } => {
                self.steps.push(step)?;
                Ok(())
            }
            _ => self.push_node_step(step),
        }
    }

    // The parse with these steps and these errors. The children of its root are listed here.
    pub(crate) fn finish(
        self,
        alloc: Global,
        errors: Vec<ParseError>,
        len: u32,
    ) -> Result<Parse, FrontError>
        requires built { IsBuilt self }
        requires tree { IsTree (record {
          steps = self.steps.items;
          errors = errors.items;
          len = len;
        }) }
        ensures parse { IfOk result (λ parse. parse ≡ record {
          steps = self.steps.items;
          errors = errors.items;
          len = len;
        }) }
        ensures refusals { IfErr result IsOutOfMemory }
    {
        let mut counts = self.counts;
        fill_counts(&mut counts, self.steps.len(), self.spans.len())?;
        // Each child has a token. A list that grew in the heap would leave memory behind there, so
        // room for as many children is reserved at once.
        let tokens = self.steps.len().saturating_sub(self.spans.len());
        let children = child_spans(alloc, &self.steps, tokens)?;
        let parts = TreeParts {
            steps: self.steps,
            errors,
            len,
            node_steps: 0,
        };
        let tables = Tables {
            spans: self.spans,
            counts,
            children,
        };
        Ok(Parse::with_tables(parts, tables))
    }
}
