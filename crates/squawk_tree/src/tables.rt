//! What a tree keeps beside its steps, found in two passes over them.
ghost use Rattle.std.specs.Prelude.{◌≡◌, ◌+◌, ◌<◌, ◌^◌, ℕ, List, OnOk, IfOk, IsTrue, [], take};
ghost use Rattle.squawk_events.specs.declared.steps.StrStep.{StrStep as Given};
ghost use Rattle.squawk_tree.specs.ChildSpans.{child_spans};
ghost use Rattle.squawk_tree.specs.NodeRanges.{node_step_count, node_ranges, AreNodeStepCounts, AreCountsUpTo};
ghost use Rattle.squawk_tree.specs.Steps.{is_balanced};

use crate::children::{ChildSpan, child_spans};
use crate::spans::{STRIDE, add_step};
use squawk_events::StrStep;
use std::alloc::{AllocError, Global};

// The ranges of the nodes' steps, the counts by which they are looked up, and the root's children.
#[derive(Drop)]
pub(crate) struct Tables {
    pub(crate) spans: Vec<(u32, u32)>,
    pub(crate) counts: Vec<usize>,
    pub(crate) children: Vec<ChildSpan>,
}

// Appends the number of `Enter` and `Exit` steps before step `i`, if a count is kept for it.
#[inline(always)]
fn push_count(counts: &mut Vec<usize>, i: usize, node_steps: usize) -> Result<(), AllocError>
    ensures { OnOk result ((steps : List Given) → AreCountsUpTo steps i counts.old.items
        → node_steps ≡ node_step_count (take i steps)
        → AreCountsUpTo steps (i + 1) counts.new.items) }
{
    if i % STRIDE == 0 {
        counts.push(node_steps)?;
    }
    Ok(())
}

// The tables of a tree with these steps. `node_steps` is the number of `Enter` and `Exit` steps, or
// 0 if unknown: room for as many ranges and children is reserved.
pub(crate) fn tables_of(
    alloc: Global,
    steps: &[StrStep],
    node_steps: usize,
) -> Result<Tables, AllocError>
    requires { IsTrue (is_balanced steps.now) }
    ensures spans { IfOk result (λ tables. tables.spans.items ≡ node_ranges steps.now) }
    ensures counts { IfOk result (λ tables. AreNodeStepCounts steps.now tables.counts.items) }
    ensures children { IfOk result (λ tables. tables.children.items ≡ child_spans steps.now) }
{
    let mut spans = Vec::with_capacity(alloc, node_steps)?;
    let mut counts = Vec::with_capacity(alloc, steps.len() / STRIDE + 1)?;
    let mut open_nodes = Vec::new(alloc);
    let mut at = 0;
    for i in 0..steps.len() {
        push_count(&mut counts, i, spans.len())?;
        at = add_step(&mut spans, &mut open_nodes, at, steps[i])?;
    }
    let children = child_spans(alloc, steps, node_steps)?;
    Ok(Tables {
        spans,
        counts,
        children,
    })
}
