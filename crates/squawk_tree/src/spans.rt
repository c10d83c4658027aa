//! The ranges of the nodes of a tree, and the counts by which they are looked up.
ghost use Rattle.std.specs.Prelude.{◌≡◌, ◌≤◌, ◌<◌, OnOk, IfOk, length, reverse, take};
ghost use Rattle.squawk_tree.specs.NodeRanges.{token_range, node_step_count, AreNodeStepCounts};
ghost use Rattle.squawk_tree.specs.Spans.{spans_after, open_nodes_after, offset_after, AreBelow};

use squawk_events::StrStep;
use std::alloc::AllocError;

// The number of steps from one kept count to the next.
pub(crate) const STRIDE: usize = 64;

// The range of a `Token`, and `None` for another step.
pub(crate) fn token_range(step: StrStep) -> Option<(u32, u32)>
    ensures { result ≡ token_range step }
{
    match step {
        StrStep::Token { start, end, .. } => Some((start, end)),
        _ => None,
    }
}

// Appends the range of a step at the offset `at`, unless it is a `Token`. Returns the end of the
// last token after the step.
//
// An open node is the index of its range and the offset at which it begins.
#[inline(always)]
pub(crate) fn add_step(
    spans: &mut Vec<(u32, u32)>,
    open_nodes: &mut Vec<(usize, u32)>,
    at: u32,
    step: StrStep,
) -> Result<u32, AllocError>
    requires { AreBelow (length spans.old.items) (reverse open_nodes.old.items) }
    ensures spans { OnOk result (spans.new.items
        ≡ spans_after spans.old.items (reverse open_nodes.old.items) at step) }
    ensures open_nodes { OnOk result (reverse open_nodes.new.items
        ≡ open_nodes_after (length spans.old.items) (reverse open_nodes.old.items) at step) }
    ensures offset { IfOk result (λ next. next ≡ offset_after at step) }
{
    match step {
        StrStep::Enter { .. } => {
            open_nodes.push((spans.len(), at))?;
            spans.push((at, at))?;
            Ok(at)
        }
        StrStep::Token { end, .. } => Ok(end),
        StrStep::Exit => {
            let Some((entered, start)) = open_nodes.pop() else {
                spans.push((0, at))?;
                return Ok(at);
            };
            spans[entered] = (start, at);
            spans.push((start, at))?;
            Ok(at)
        }
        StrStep::Error { .. } => {
            spans.push((at, at))?;
            Ok(at)
        }
    }
}

// The number of steps other than `Token`.
fn node_step_count(steps: &[StrStep]) -> usize
    ensures count { result ≡ node_step_count steps.now }
    ensures few { result ≤ length steps.now }
{
    let mut count = 0;
    for step in steps {
        if token_range(*step).is_none() {
            count += 1;
        }
    }
    count
}

// The number of steps other than `Token` before the i-th, found from the kept counts.
pub(crate) fn node_steps_before(counts: &[usize], steps: &[StrStep], i: usize) -> usize
    requires counts { AreNodeStepCounts steps.now counts.now }
    requires step { i < length steps.now }
    ensures { result ≡ node_step_count (take i steps.now) }
{
    let counted = i / STRIDE;
    counts[counted] + node_step_count(&steps[counted * STRIDE..i])
}
