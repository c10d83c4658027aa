//! The steps of a tree with their ranges, one after another.
ghost use Rattle.std.specs.Prelude.{◌≡◌};
ghost use Rattle.std.specs.Iterator.{YieldsFirst, item_count};
ghost use Rattle.squawk_tree.specs.NodeRanges.{with_ranges};

use crate::spans::token_range;
use squawk_events::StrStep;
use std::marker::Model;

/// An iterator over the steps of a tree, each with its range in bytes, made by
/// [`Parse::steps_with_ranges`](crate::Parse::steps_with_ranges).
///
/// A call of `next` takes constant time and allocates nothing. After the last step `next` returns
/// `None`, and does so from then on.
///
/// In contracts, its value is the list of the remaining steps with their ranges.
#[derive(Drop)]
pub struct StepRanges<'a> {
    steps: &'a [StrStep],
    // The ranges of the remaining `Enter` and `Exit` steps.
    node_ranges: &'a [(u32, u32)],
}

impl<'a> Model for StepRanges<'a> {
    ghost use Rattle.std.specs.Prelude.{List, ℕ};
    ghost use Rattle.squawk_events.specs.declared.steps.StrStep.{StrStep};

    ghost Value = { List (StrStep × (ℕ × ℕ)) };

    ghost use Rattle.squawk_tree.specs.StepRangesModel.{steps_left};

    ghost view = { steps_left };
}

// The steps with their ranges, where those other than `Token` have the ranges in `node_ranges`.
pub(crate) fn step_ranges<'a>(steps: &'a [StrStep], node_ranges: &'a [(u32, u32)]) -> StepRanges<'a>
    ensures { result ≡ with_ranges steps.now node_ranges.now }
{
    StepRanges { steps, node_ranges }
}

impl<'a> Iterator for StepRanges<'a> {
    type Item = (StrStep, (u32, u32));

    ghost next_gives = { YieldsFirst (λ s. s) };

    ghost remaining = { item_count (λ s. s) };

    fn next(&mut self) -> Option<(StrStep, (u32, u32))> {
        let (step, steps) = self.steps.split_first()?;
        if let Some(range) = token_range(*step) {
            self.steps = steps;
            return Some((*step, range));
        }
        let (range, node_ranges) = self.node_ranges.split_first()?;
        self.steps = steps;
        self.node_ranges = node_ranges;
        Some((*step, *range))
    }
}
