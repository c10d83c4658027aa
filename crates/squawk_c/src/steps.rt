//! The steps of a parse, into an array of the caller.
ghost use Rattle.std.specs.Prelude.{◌≡◌};
ghost use Rattle.squawk_c.specs.Arrays.{IsPut};
ghost use Rattle.squawk_c.specs.Parse.{step_record, records_of_steps};

use squawk_events::StrStep;
use squawk_tree::Parse;

/// A step of a tree, with its range in the text in bytes.
#[repr(C)]
#[derive(Clone, Copy, Debug, PartialEq, Eq)]
pub struct SquawkStep {
    /// What the step does: 0 enters a node, 1 is a leaf, 2 leaves the innermost open node.
    pub step: u16,
    /// The number of the kind of the node or the leaf; 0 where a node is left.
    pub kind: u16,
    /// The first byte of the leaf, or of the whole node at both its ends.
    pub start: u32,
    /// The byte after the last.
    pub end: u32,
}

// The record of a step.
fn step_record(step: StrStep, range: (u32, u32)) -> SquawkStep
    ensures { result ≡ step_record step range }
{
    let (step, kind) = match step {
        StrStep::Enter { kind } => (0, kind.to_raw()),
        StrStep::Token { kind, .. } => (1, kind.to_raw()),
        StrStep::Exit => (2, 0),
        StrStep::Error { .. } => (3, 0),
    };
    SquawkStep {
        step,
        kind,
        start: range.0,
        end: range.1,
    }
}

// Writes the records of all steps to the first elements of an array, if it has room for them.
// Returns their number.
pub(crate) fn put_steps(parse: &Parse, out: &mut [SquawkStep]) -> usize
    ensures { IsPut (records_of_steps parse.now.steps) out.old out.new result }
{
    let steps = parse.steps_with_ranges();
    let count = parse.steps().len();
    if count > out.len() {
        return count;
    }
    let mut written = 0;
    for (step, range) in steps {
        out[written] = step_record(step, range);
        written += 1;
    }
    count
}
